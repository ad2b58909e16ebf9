//! Where bytes come from and go to, and how often that failed.
#![tactic(auto)]

mod memory;
mod sink;
mod source;
mod standard;
mod sure;

pub use memory::{MemorySink, MemorySource};
pub use sink::{Sink, write_all};
pub use source::{Failed, ReadEnd, Source, read_all};
pub use standard::{StdSink, StdSource};
pub use sure::{SureSink, SureSource};

//! The engine on one thread with its history, which callers may stop and look at.
#![tactic(auto)]

mod serial;

pub use serial::{Serial, Stepped};

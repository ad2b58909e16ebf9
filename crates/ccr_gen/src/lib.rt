//! A wiring of any size, made from a number, and what holds of its histories.
#![tactic(auto)]

mod laws;
mod making;
mod parts;
mod scripts;

pub use laws::generated_wirings_never_shed;
pub use making::generate;

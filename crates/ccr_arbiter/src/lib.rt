//! Receivers and choices: whether a firing there still counts, which tasks fired, and which roots are over.
#![tactic(auto)]

mod arbiter;

pub use arbiter::ArbiterObject;

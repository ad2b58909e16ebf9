//! The judge of a history, event by event, which keeps none. It stands on the model and its tables, and on nothing of the engine.
#![tactic(auto)]

mod checker;
mod complete;
mod laws;
mod left;
mod refusing;

pub use checker::Checker;
pub use complete::is_complete;
pub use laws::still_is_quiet;

//! Tables of a history, kept up event by event: what the engine and the judge ask for, without a look at the history.
#![tactic(auto)]

mod asked;
mod cards;
mod counts;
mod fires;
mod held;
mod item;
mod kept_plays;
mod kept_values;
mod lane;
mod ledger;
mod loads;
mod named_selections;
mod ports;
mod rows;
mod selections;
mod tasks;

pub use cards::{Card, Runner, TaskStage};
pub use held::HeldMessages;
pub use kept_plays::{KeptPlay, PostOf};
pub use kept_values::KeptValues;
pub use ledger::Ledger;
pub use rows::Rows;

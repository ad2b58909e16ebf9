//! Attempts: what one asks of the places, in which order, and what it hands back.
#![tactic(auto)]

mod asks;
mod attempts;
mod firing;
mod hand;
mod laws;
mod lines;
mod outcomes;
mod plan;
mod slots;
mod stages;

pub use asks::{Ask, Asked, Due, Reply, due_of, fits, may_come, settles};
pub use attempts::Attempt;
pub use ccr_places::{ClaimNote, Note};
pub use laws::{attempts_settle, attempts_stop};
pub use lines::Lines;
pub use outcomes::{Next, Outcome, Progress, Why};
pub use plan::{ClaimPlan, Had};

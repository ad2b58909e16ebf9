//! The judge of a history that keeps what it accepted, and the verdict on a whole one.
#![tactic(auto)]

mod judge;
mod judging;
mod verdicts;

pub use judge::Judge;
pub use judging::verdict;
pub use verdicts::Verdict;

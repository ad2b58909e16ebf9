//! What a segment of a handler posts, how it ends, and its causes at the end.
#![tactic(auto)]

mod actions;
mod branches;
mod segments;
mod values;

pub use branches::{branch_play, idle_play};
pub use segments::{Play, PlayEnd, plays};

//! A run told while it happens, its text and its counts, and a text judged while it is read. No event is kept.
#![tactic(auto)]

mod counted;
mod ending;
mod judging;
mod tally;
mod telling;

pub use ending::{Told, count_to_end, tell_to_end};
pub use judging::{Judgement, LegalText, judge_text};
pub use tally::Tally;

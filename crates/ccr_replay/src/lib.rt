//! A run written down as its schedule, and the run that the schedule gives again.
#![tactic(auto)]

mod laws;
mod lines;
mod reading;
mod records;
mod refusals;
mod same;
mod schedules;
mod steps;
mod turn_lines;
mod turns;
mod words;

pub use laws::{records_are_read_again, records_are_read_exactly, schedules_give_runs_again};
pub use reading::{read_part, read_record};
pub use records::{Record, write_record};
pub use schedules::schedule_of;
pub use steps::steps_text;
pub use turn_lines::read_turns;

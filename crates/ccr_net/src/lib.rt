//! Runs of many actors over the places: their entries, and the history that they show.
#![tactic(auto)]

mod laws;
mod plain;
mod schedules;
mod showing;

pub use laws::{
    asks_meet_their_conditions, asks_name_what_the_wiring_has, closers_are_new_to_runs,
    played_runs_are_runs, played_runs_follow_their_steps, visible_runs_are_legal_and_covered,
};
pub use plain::PlainPlaces;
pub use schedules::{all_actors, answer, run_schedule};
pub use showing::visible;

//! Events, histories, which event is allowed after which history, and the serial order.
#![tactic(auto)]

pub mod alike;
pub mod data;
pub mod enough;
pub mod firings;
mod ghost_history;
mod history;
mod laws;
pub mod live;
pub mod posts;
mod refusal;
mod rule;
pub mod rules;
pub mod selections;
mod sites;
pub mod tasks;

pub use ghost_history::GhostHistory;
pub use history::{EndHow, Event, Fate, History, TaskState, Totals};
pub use laws::{
    closed_is_quiet, exclusive_roots_are_alone, first_is_allowed, legal_is_covered,
    messages_are_taken_once, none_first_is_quiet, posts_have_names_of_their_own,
};
pub use refusal::refused_by;
pub use rule::Rule;

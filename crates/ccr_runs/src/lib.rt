//! Runs: the acts of all places in one list, by stamp, what makes them a run, and the history that they show.
#![tactic(auto)]

mod acts;
mod dealing;
mod directory;
mod entries;
mod fulls;
mod laws;
mod merging;
mod ordering;
mod showing;

pub use acts::Act;
pub use dealing::Deal;
pub use directory::Directory;
pub use entries::{Entry, Full};
pub use fulls::{entry_at, full_of};
pub use laws::{logs_are_stories, proper_logs_make_a_run};
pub use merging::merge;
pub use ordering::{StampedItem, in_order};
pub use showing::{event_of, history_of};

//! Actors: what posters and workers ask next, after the replies that they got.
#![tactic(auto)]

mod actor;
mod actor_counts;
mod answering;
mod asking;
mod attempting;
mod course;
mod driven;
mod driving;
mod laws;
mod net;
mod points;
mod settling;
mod stepping;
mod wired;
mod work;
mod working;

pub use actor::Actor;
pub use actor_counts::{actor_count, are_below};
pub use laws::{actors_follow, actors_settle};
pub use net::Net;

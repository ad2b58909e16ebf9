//! The engine on one thread, which keeps no event.
#![tactic(auto)]

mod blocked;
mod desk;
mod domains;
mod engine;
mod indices;
mod listener;
mod number_set;
mod parts;
mod queues;
mod resuming;
mod search;
mod touched;

pub use engine::Engine;
pub use listener::Listener;

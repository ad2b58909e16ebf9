//! Brings an actor to rest over a net, from step to step.
#![tactic(auto)]

mod laws;
mod to_rest;

pub use laws::actors_rest;
pub use to_rest::drive;

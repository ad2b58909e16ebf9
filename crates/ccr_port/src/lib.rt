//! A port: the messages that were posted to it and not yet taken, and at most one claim on them.
#![tactic(auto)]

mod claims;
mod items;
mod lane;
mod lanes;
mod links;
mod port;

pub use claims::Claimed;
pub use port::PortObject;

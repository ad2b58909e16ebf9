//! What else runs at the places on one thread: a net, and runs by turns in which some asks find no memory.
#![tactic(auto)]

mod net;
mod shortages;

pub use net::PlainNet;
pub use shortages::run_short;

//! What each place keeps, and which note it may give: the steps of ports, arbiters, sites, queues and the meter.
#![tactic(auto)]

mod claims;
mod notes;

pub use claims::StandingClaim;
pub use notes::{ClaimNote, Note};

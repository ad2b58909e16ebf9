//! What an attempt is about, and what it got.

use ccr_base::{ArbiterNo, List, Msg, Pattern, QueueNo, Slot, Spot};

/// The spot at which an attempt fires, what it takes, and the queue and the domain of its branch.
#[derive(Drop)]
pub struct ClaimPlan {
    pub spot: Spot,
    pub pattern: Pattern,
    pub queue: QueueNo,
    /// The number of the domain of its branch.
    pub arbiter: ArbiterNo,
}

/// What the claim of a slot got.
#[derive(Drop)]
pub struct Had {
    pub slot: Slot,
    pub messages: List<Msg>,
}

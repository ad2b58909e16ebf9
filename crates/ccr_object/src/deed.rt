//! What a place answers, and what its history keeps of it.

use ccr_claim::{Ask, Reply};
use ccr_places::Note;
use std::snapshot::Snapshot;

/// The answer to an ask: a reply, or that its condition isn't met at its place.
#[derive(Drop)]
pub enum PlaceAnswer {
    Replied(Reply),
    Unmet,
}

/// What an object tells of one act: the note, or none where the ask's condition wasn't met. It bears its ask, which
/// contracts alone see.
#[derive(Drop)]
pub struct Deed {
    pub note: Option<Note>,
    pub ask: Snapshot<Ask>,
}

//! Where an attempt is.

use crate::Why;

/// It books, it claims and commits, it completes its firing, or it hands back what it had.
#[derive(Clone, Copy)]
pub enum Stage {
    Booking,
    Claiming,
    Fired { waits: bool },
    GaveUp(Why),
}

/// Whether an ask is unanswered; a put is told apart.
#[derive(Clone, Copy)]
pub enum Unanswered {
    Nothing,
    Ask,
    Put,
}

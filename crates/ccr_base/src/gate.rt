//! Where a test may hold an actor back.

use crate::ActorNo;

/// What the actor has just done, or is about to do, when it stops at the gate.
#[derive(Clone, Copy, PartialEq, Eq)]
pub enum Point {
    /// A port gave it a claim.
    Claimed,
    /// Its firing is committed.
    Committed,
    /// It took a task from a queue.
    Started,
    /// The end of its task comes next.
    BeforeEnd,
}

/// A gate is shared between threads. It means nothing to a contract.
pub trait Gate {
    fn at(&self, point: Point, actor: ActorNo);
}

/// The gate that holds nobody back.
#[derive(Clone, Copy)]
pub struct OpenGate;

impl Gate for OpenGate {
    fn at(&self, _point: Point, _actor: ActorNo) {}
}

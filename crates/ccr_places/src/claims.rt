//! Claims that stand at ports.

use ccr_base::{Pred, TaskId};

/// The claim of a task at a port. It marks the first `count` messages that satisfy the predicate; they stay where they
/// are, and while it stands the port grows only at its end.
#[derive(Clone, Copy, PartialEq, Eq)]
pub struct StandingClaim {
    pub task: TaskId,
    pub pred: Pred,
    pub count: u32,
}

//! What is kept of each task that fired, and of each that runs.

use crate::{KeptPlay, KeptValues};
use ccr_base::{ActorNo, QueueNo, Spot, TaskId};

/// How far a task has come.
#[derive(Clone, Copy, PartialEq, Eq)]
pub enum TaskStage {
    /// It waits for its admission.
    Waiting,
    /// It may be put.
    Ready,
    Queued,
    Running,
    /// It ended in some way; a task that yielded too.
    Ended,
    /// A teardown cut it.
    Cut,
    /// A put into its full queue dropped it.
    Dropped,
}

/// What is kept of a task, the widest first.
#[derive(Drop)]
pub struct Card {
    /// What it posts, how it ends, and its causes at the end.
    pub play: KeptPlay,
    /// The values that it starts with.
    pub values: KeptValues,
    /// The domain of its branch's arbiter.
    pub domain: usize,
    /// How many tasks fired before it.
    pub number: usize,
    /// The task that its branch fired, of which it is a segment.
    pub root: TaskId,
    /// Where it fired.
    pub spot: Spot,
    pub queue: QueueNo,
    /// How many posts it has made.
    pub made: u32,
    /// Whether its branch is a concurrent one.
    pub concurrent: bool,
    pub stage: TaskStage,
    /// Whether it is a root that was admitted and isn't over.
    pub admitted: bool,
}

/// A running task, and the actor that started it.
#[derive(Clone, Copy, PartialEq, Eq)]
pub struct Runner {
    pub task: TaskId,
    pub actor: ActorNo,
}

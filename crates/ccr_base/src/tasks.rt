//! Tasks, how a segment ends, and what an arbiter answers to a firing.

ghost use Rattle.std.specs.Prelude.{◌≡◌, IfOk};

use crate::{ArbiterNo, CauseNo, List, OutOfMemory, QueueNo, Spot, TaskId, Value};
use std::alloc::Global;

/// A task. Its root is the task that its branch fired: itself, unless it resumes a suspended one.
#[derive(Drop)]
pub struct Task {
    pub id: TaskId,
    pub root: TaskId,
    pub spot: Spot,
    /// The number of the domain of its branch.
    pub arbiter: ArbiterNo,
    pub queue: QueueNo,
    pub values: List<Value>,
    pub causes: List<CauseNo>,
}

impl Task {
    /// An equal task.
    pub fn copy(&self, alloc: Global) -> Result<Task, OutOfMemory>
        ensures { IfOk result (λ copied. copied ≡ self.now) }
    {
        Ok(Task {
            id: self.id,
            root: self.root,
            spot: self.spot,
            arbiter: self.arbiter,
            queue: self.queue,
            values: self.values.copy(alloc)?,
            causes: self.causes.copy(alloc)?,
        })
    }
}

/// How a root is over.
#[derive(Clone, Copy, PartialEq, Eq)]
pub enum How {
    Done,
    Failed(Value),
    Shed,
    Dropped,
}

/// A task that a teardown cut, and the queue that it was booked at.
#[derive(Clone, Copy, PartialEq, Eq)]
pub struct Cut {
    pub task: TaskId,
    pub queue: QueueNo,
}

/// Why a spot can't fire: the firing that retired it, or nobody is suspended there.
#[derive(Clone, Copy, PartialEq, Eq)]
pub enum By {
    Fired(TaskId),
    NoneWaiting,
}

/// What an arbiter or a site answers to a firing. It keeps the task where it hands none back.
#[derive(Drop)]
pub enum Commit {
    Fired { task: Option<Task>, cuts: List<Cut> },
    Dead(By),
}

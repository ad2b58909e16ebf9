//! How an attempt ends, and what it does next.

use crate::Ask;
use ccr_base::{By, Place, PortNo, Task, TaskId};

/// Why an attempt was given up: the reply that ended it, or running out of memory.
#[derive(Clone, Copy, PartialEq, Eq)]
pub enum Why {
    Full(u32),
    Busy(PortNo, TaskId),
    Short(PortNo, u32),
    Dead(By),
    Memory,
}

/// How an attempt ended. A task that waits was kept by its Interleave; else it was put, and may have dropped another.
#[derive(Drop)]
pub enum Outcome {
    Fired { waits: bool, dropped: Option<Task> },
    GaveUp(Why),
}

/// Where an attempt stands: it goes on, or it has ended.
#[derive(Clone, Copy, PartialEq, Eq)]
pub enum Progress {
    Running,
    Fired { waits: bool },
    GaveUp(Why),
}

/// What an attempt does next.
#[derive(Drop)]
pub enum Next {
    Ask(Place, Ask),
    Ended(Outcome),
}

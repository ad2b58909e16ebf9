//! Numbers and names: of actors, ports, tasks, messages, spots and places.

/// The number of a port, from 0, in the order of the wiring. The others are likewise.
pub type PortNo = u32;

pub type QueueNo = u32;

pub type CauseNo = u32;

pub type HandlerNo = u32;

pub type ArbiterNo = u32;

pub type BranchNo = u32;
/// The posters come first, then the workers, then the closer.
pub type ActorNo = u32;

/// The most workers that a run may have.
pub const MAX_WORKERS: u32 = 16;

/// The task that an attempt (from 0) of an actor fired.
#[derive(Clone, Copy, PartialEq, Eq, PartialOrd, Ord, Hash)]
pub struct TaskId {
    pub actor: ActorNo,
    pub attempt: u32,
}

/// A message: a post of a poster's script, or a post of a task. `place` is the index of that post, from 0.
#[derive(Clone, Copy, PartialEq, Eq, PartialOrd, Ord, Hash)]
pub enum MsgId {
    Script { actor: ActorNo, place: u32 },
    Task { task: TaskId, place: u32 },
}

/// Where a firing happens: a branch, or an await site (from 0) of a branch.
#[derive(Clone, Copy, PartialEq, Eq, Hash)]
pub enum Spot {
    Branch(BranchNo),
    Site(BranchNo, u32),
}

/// What has a lock of its own.
#[derive(Clone, Copy, PartialEq, Eq)]
pub enum Place {
    Port(PortNo),
    /// By the number of its domain: combined Interleaves have one lock.
    Arbiter(ArbiterNo),
    Site(BranchNo, u32),
    Queue(QueueNo),
    Meter,
}

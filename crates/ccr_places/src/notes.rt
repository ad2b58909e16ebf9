//! The notes that places give: what a step did, under the lock of its place.

use ccr_base::{By, How, List, Msg, MsgId, Slot, Spot, TaskId};

/// What a claim met: so many messages, the task whose claim stands, or too few that fit.
#[derive(Clone, Copy, PartialEq, Eq)]
pub enum ClaimNote {
    Got(u32),
    Busy(TaskId),
    Short(u32),
}

/// What one step did at its place.
#[derive(Drop)]
pub enum Note {
    Post(Msg),
    Claim {
        task: TaskId,
        slot: Slot,
        reply: ClaimNote,
    },
    Consume(TaskId),
    Free(TaskId),
    Fired {
        task: TaskId,
        spot: Spot,
        messages: List<MsgId>,
        cuts: List<TaskId>,
    },
    Dead {
        task: TaskId,
        spot: Spot,
        by: By,
    },
    Admit(Option<TaskId>),
    Over {
        task: TaskId,
        root: TaskId,
        how: How,
    },
    Suspend(TaskId),
    Book {
        task: TaskId,
        resumes: bool,
        full: Option<u32>,
    },
    Unbook(TaskId),
    Put {
        task: TaskId,
        dropped: Option<TaskId>,
    },
    Take(Option<TaskId>),
    Draw(Option<u32>),
    Leave,
    Left(u32),
}

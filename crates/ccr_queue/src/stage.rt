//! How a task stands with its queue.

ghost use Rattle.std.specs.Prelude.{◌≡◌, ◌||◌, false, if◌then◌else◌};
ghost use Rattle.std.specs.Option.{option_map_or};
ghost use Rattle.ccr_queue.specs.QueueTies.{is_fresh, is_resuming as is_resuming_of};

use ccr_base::Task;

/// A task that a branch fired and that is booked, one that resumes a suspended task and is booked, or a queued one.
#[derive(Clone, Copy, PartialEq, Eq)]
pub(crate) enum QueueStage {
    Fresh,
    Resuming,
    Queued,
}

/// A queued task, and whether it resumes a suspended one.
#[derive(Drop)]
pub(crate) struct QueuedTask {
    pub(crate) task: Task,
    pub(crate) resumes: bool,
}

pub(crate) fn is_booked(stage: Option<QueueStage>) -> bool
    ensures { result ≡ (option_map_or is_fresh stage false || option_map_or is_resuming_of stage false) }
{
    match stage {
        Some(QueueStage::Fresh | QueueStage::Resuming) => true,
        Some(QueueStage::Queued) | None => false,
    }
}

pub(crate) fn is_resuming(stage: Option<QueueStage>) -> bool
    ensures { result ≡ option_map_or is_resuming_of stage false }
{
    matches!(stage, Some(QueueStage::Resuming))
}

/// One for a booked task that doesn't resume, zero for any other.
pub(crate) fn fresh_count(stage: Option<QueueStage>) -> usize
    ensures { result ≡ (if option_map_or is_fresh stage false then 1 else 0) }
{
    match stage {
        Some(QueueStage::Fresh) => 1,
        _ => 0,
    }
}

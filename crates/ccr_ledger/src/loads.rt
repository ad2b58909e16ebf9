//! What a task starts with.

ghost use Rattle.std.specs.Prelude.{◌≡◌, IfOk};
ghost use Rattle.ccr_model.specs.Views.{load_seen};
ghost use Rattle.ccr_model.specs.TaskData.{with_messages};
ghost use Rattle.ccr_ledger.specs.Firing.{load_left};

use crate::Card;
use ccr_base::{List, Msg, OutOfMemory};
use ccr_cause::union;
use ccr_model::data::TaskLoad;
use std::alloc::Global;

/// The load with the messages' values and causes behind it.
pub(crate) fn with_messages(
    alloc: Global,
    load: TaskLoad,
    messages: &[Msg],
) -> Result<TaskLoad, OutOfMemory>
    ensures { IfOk result (λ more. load_seen more ≡ with_messages (load_seen load) messages.now) }
{
    let TaskLoad { values, mut causes } = load;
    let mut values = values.into_vec();
    values.reserve_exact(messages.len())?;
    for message in messages {
        values.push(message.value)?;
        causes = union(alloc, &causes, &message.causes)?;
    }
    Ok(TaskLoad {
        values: List::from_vec(values),
        causes,
    })
}

/// What the task of the card leaves to the next.
pub(crate) fn load_left(alloc: Global, card: &Card) -> Result<TaskLoad, OutOfMemory>
    ensures { IfOk result (λ load. load_seen load ≡ load_left card.now) }
{
    Ok(TaskLoad {
        values: card.values.to_list(alloc)?,
        causes: card.play.causes(alloc)?,
    })
}

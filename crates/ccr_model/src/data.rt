//! The data of a task: its values and causes, and its play.

ghost use Rattle.std.specs.Prelude.{◌≡◌, IfOk};
ghost use Rattle.ccr_wiring.specs.Wirings.{branch_of, segment_of};
ghost use Rattle.ccr_model.specs.TaskData.{messages_of, with_messages, no_load, load_at, load_after, load_of, play_at, play_of};
ghost use Rattle.ccr_model.specs.Views.{seen, load_seen};

use crate::Event;
use crate::firings::{before, messages_of, spot_of};
use crate::posts::message_named;
use crate::sites::{resumed, spot_before};
use ccr_base::{BranchNo, CauseNo, List, Msg, OutOfMemory, Spot, TaskId, Value};
use ccr_cause::union;
use ccr_handler::{Play, branch_play, idle_play};
use ccr_wiring::{Wiring, branch_of, segment_of};
use std::alloc::Global;

/// What a segment starts with.
#[derive(Drop)]
pub struct TaskLoad {
    pub values: List<Value>,
    pub causes: List<CauseNo>,
}

/// The messages that the firing of the task took.
fn taken_by<'a>(
    alloc: Global,
    events: &'a [Event],
    task: TaskId,
) -> Result<Vec<&'a Msg>, OutOfMemory>
    ensures { IfOk result (λ messages. seen messages.items ≡ messages_of events.now task) }
{
    let past = before(task, events);
    let mut messages = Vec::new(alloc);
    for name in messages_of(events, task) {
        if let Some(message) = message_named(past, *name) {
            messages.push(message)?;
        }
    }
    Ok(messages)
}

/// The load with the messages' values and causes behind it.
fn with_messages(alloc: Global, load: TaskLoad, messages: &[&Msg]) -> Result<TaskLoad, OutOfMemory>
    ensures { IfOk result (λ more. load_seen more ≡ with_messages (load_seen load) (seen messages.now)) }
{
    let TaskLoad { values, mut causes } = load;
    let mut values = values.into_vec();
    for message in messages {
        values.push(message.value)?;
        causes = union(alloc, &causes, &message.causes)?;
    }
    Ok(TaskLoad {
        values: List::from_vec(values),
        causes,
    })
}

/// No value and no cause.
pub fn no_load(alloc: Global) -> TaskLoad
    ensures { load_seen result ≡ no_load }
{
    TaskLoad {
        values: List::new(alloc),
        causes: List::new(alloc),
    }
}

/// The play of a segment of the branch with this load.
fn play_at(
    alloc: Global,
    wiring: &Wiring,
    branch: BranchNo,
    segment: u32,
    load: &TaskLoad,
) -> Result<Play, OutOfMemory>
    ensures { IfOk result (λ found. found ≡ play_at wiring.now branch segment (load_seen load.now)) }
{
    branch_play(
        alloc,
        wiring,
        branch,
        segment,
        load.values.as_slice(),
        &load.causes,
    )
}

/// What a segment leaves to the next.
fn load_after(
    alloc: Global,
    wiring: &Wiring,
    branch: BranchNo,
    segment: u32,
    load: TaskLoad,
) -> Result<TaskLoad, OutOfMemory>
    ensures { IfOk result (λ left. load_seen left ≡ load_after wiring.now branch segment (load_seen load)) }
{
    let Play { causes, .. } = play_at(alloc, wiring, branch, segment, &load)?;
    Ok(TaskLoad {
        values: load.values,
        causes,
    })
}

/// What a task that fired at the spot starts with.
fn load_at(
    alloc: Global,
    wiring: &Wiring,
    events: &[Event],
    spot: Spot,
    task: TaskId,
) -> Result<TaskLoad, OutOfMemory>
    ensures { IfOk result (λ load. load_seen load ≡ load_at wiring.now events.now (branch_of spot) (segment_of spot) task) }
{
    let messages = taken_by(alloc, events, task)?;
    let Spot::Site(branch, site) = spot else {
        return with_messages(alloc, no_load(alloc), &messages);
    };
    let Some(before) = resumed(alloc, events, spot, task)? else {
        return with_messages(alloc, no_load(alloc), &messages);
    };
    let load = load_at(alloc, wiring, events, spot_before(branch, site), before)?;
    let left = load_after(alloc, wiring, branch, site, load)?;
    with_messages(alloc, left, &messages)
}

/// The values and causes that the task starts with.
pub fn load_of(
    alloc: Global,
    wiring: &Wiring,
    events: &[Event],
    task: TaskId,
) -> Result<TaskLoad, OutOfMemory>
    ensures { IfOk result (λ load. load_seen load ≡ load_of wiring.now events.now task) }
{
    match spot_of(events, task) {
        Some(spot) => load_at(alloc, wiring, events, spot, task),
        None => Ok(no_load(alloc)),
    }
}

/// The play of a task that fires at the spot and starts with this load.
pub fn play_at_spot(
    alloc: Global,
    wiring: &Wiring,
    spot: Spot,
    load: &TaskLoad,
) -> Result<Play, OutOfMemory>
    ensures { IfOk result (λ found. found ≡ play_at wiring.now (branch_of spot) (segment_of spot) (load_seen load.now)) }
{
    // `parts` says that the wiring is valid.
    let _valid = wiring.parts();
    match segment_of(spot) {
        Some(segment) => play_at(alloc, wiring, branch_of(spot), segment, load),
        None => idle_play(alloc, &load.causes),
    }
}

/// What the task posts, how it ends, and its causes at the end.
pub fn play_of(
    alloc: Global,
    wiring: &Wiring,
    events: &[Event],
    task: TaskId,
) -> Result<Play, OutOfMemory>
    ensures { IfOk result (λ found. found ≡ play_of wiring.now events.now task) }
{
    let Some(spot) = spot_of(events, task) else {
        return idle_play(alloc, &List::new(alloc));
    };
    let load = load_at(alloc, wiring, events, spot, task)?;
    play_at_spot(alloc, wiring, spot, &load)
}

//! What became of a message.

ghost use Rattle.std.specs.Prelude.{◌≡◌, IfOk, flat_map};
ghost use Rattle.ccr_base.specs.Names.{has_task};
ghost use Rattle.ccr_model.specs.Firings.{cut, put, dropped, started};
ghost use Rattle.ccr_model.specs.Fates.{end_of, state_of_started, state_of, taker, fate};

use ccr_base::{MsgId, OutOfMemory, TaskId};
use ccr_model::firings::has_task;
use ccr_model::posts::{has_message, message_named};
use ccr_model::rules::may_put;
use ccr_model::{Event, Fate, History, TaskState};
use ccr_wiring::Wiring;
use std::alloc::Global;

/// The task of the first firing that names the message.
fn taker(events: &[Event], name: MsgId) -> Option<TaskId>
    ensures { result ≡ taker events.now name }
{
    for event in events {
        if let Event::Fire { task, messages, .. } = event {
            if has_message(messages.as_slice(), name) {
                return Some(*task);
            }
        }
    }
    None
}

fn was_cut(events: &[Event], task: TaskId) -> bool
    ensures { result ≡ has_task (cut events.now) task }
{
    for event in events {
        if let Event::Fire { cuts, .. } = event {
            if has_task(cuts.as_slice(), task) {
                return true;
            }
        }
    }
    false
}

fn was_dropped(events: &[Event], task: TaskId) -> bool
    ensures { result ≡ has_task (dropped events.now) task }
{
    for event in events {
        if let Event::Put {
            dropped: Some(other),
            ..
        } = event
        {
            if task == *other {
                return true;
            }
        }
    }
    false
}

fn was_put(events: &[Event], task: TaskId) -> bool
    ensures { result ≡ has_task (put events.now) task }
{
    for event in events {
        if let Event::Put { task: other, .. } = event {
            if task == *other {
                return true;
            }
        }
    }
    false
}

fn was_started(events: &[Event], task: TaskId) -> bool
    ensures { result ≡ has_task (started events.now) task }
{
    for event in events {
        if let Event::Start { task: other, .. } = event {
            if task == *other {
                return true;
            }
        }
    }
    false
}

/// Where a task is that started: it runs until its first end.
fn started_state(events: &[Event], task: TaskId) -> TaskState
    ensures { result ≡ state_of_started (flat_map (end_of task) events.now) }
{
    for event in events {
        if let Event::End { task: other, how } = event {
            if *other == task {
                return TaskState::Ended(*how);
            }
        }
    }
    TaskState::Running
}

/// Where the task is.
fn state_of(
    alloc: Global,
    wiring: &Wiring,
    events: &[Event],
    task: TaskId,
) -> Result<TaskState, OutOfMemory>
    ensures { IfOk result (λ state. state ≡ state_of wiring.now events.now task) }
{
    if was_cut(events, task) {
        return Ok(TaskState::Cut);
    }
    if was_dropped(events, task) {
        return Ok(TaskState::Dropped);
    }
    if was_started(events, task) {
        return Ok(started_state(events, task));
    }
    if was_put(events, task) {
        return Ok(TaskState::Queued);
    }
    if may_put(alloc, wiring, events, task)? {
        Ok(TaskState::Ready)
    } else {
        Ok(TaskState::Waiting)
    }
}

/// What became of the message: it is held, or a task took it and is now in this state. No post has the name where
/// the answer is `None`. A task is ready from its firing, or its admission, until it is put.
pub fn fate(
    alloc: Global,
    wiring: &Wiring,
    history: &History,
    message: &MsgId,
) -> Result<Option<Fate>, OutOfMemory>
    ensures { IfOk result (λ answer. answer ≡ fate wiring.now history.now message.now) }
{
    let events = history.events();
    let name = *message;
    if message_named(events, name).is_none() {
        return Ok(None);
    }
    match taker(events, name) {
        Some(task) => {
            let state = state_of(alloc, wiring, events, task)?;
            Ok(Some(Fate::Taken { task, state }))
        }
        None => Ok(Some(Fate::Held)),
    }
}

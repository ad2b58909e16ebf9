//! The firings of a history, and the tasks that later events name.

ghost use Rattle.std.specs.Prelude.{◌≡◌, [], IfOk, flat_map, option_to_list};
ghost use Rattle.std.specs.Option.{option_map_or};
ghost use Rattle.ccr_base.specs.Names.{has_task, without};
ghost use Rattle.ccr_model.specs.Firings.{fired, cut, ever_admitted, put, dropped, started, ended, yielded, last_segments, last_by, fired_at, spot_of, firing_named};
ghost use Rattle.ccr_model.specs.Legal.{has_shed};
ghost use Rattle.ccr_model.specs.Counts.{is_shed as is_shed_end};
ghost use Rattle.ccr_model.specs.Sites.{before, is_firing_of};
ghost use Rattle.ccr_model.specs.Tasks.{started_as};

use crate::{EndHow, Event};
use ccr_base::{ActorNo, MsgId, OutOfMemory, Spot, TaskId};
use std::alloc::Global;

/// Whether the task stands in the list.
pub fn has_task(tasks: &[TaskId], task: TaskId) -> bool
    ensures { result ≡ has_task tasks.now task }
{
    tasks.iter().any(|other| task == *other)
}

/// Takes out the tasks that stand in the other list.
pub(crate) fn remove_all(tasks: &mut Vec<TaskId>, gone: &[TaskId])
    ensures { tasks.new.items ≡ without tasks.old.items gone.now }
{
    tasks.retain(|task| !has_task(gone, *task));
}

/// The tasks that fired, in order.
pub fn fired(alloc: Global, events: &[Event]) -> Result<Vec<TaskId>, OutOfMemory>
    ensures { IfOk result (λ tasks. tasks.items ≡ fired events.now) }
{
    let mut tasks = Vec::new(alloc);
    for event in events {
        if let Event::Fire { task, .. } = event {
            tasks.push(*task)?;
        }
    }
    Ok(tasks)
}

/// The tasks that fired at the spot, in order.
pub(crate) fn fired_at(
    alloc: Global,
    events: &[Event],
    at: Spot,
) -> Result<Vec<TaskId>, OutOfMemory>
    ensures { IfOk result (λ tasks. tasks.items ≡ fired_at events.now at) }
{
    let mut tasks = Vec::new(alloc);
    for event in events {
        if let Event::Fire { task, spot, .. } = event {
            if *spot == at {
                tasks.push(*task)?;
            }
        }
    }
    Ok(tasks)
}

/// Where the task fired.
pub(crate) fn spot_of(events: &[Event], task: TaskId) -> Option<Spot>
    ensures { result ≡ spot_of events.now task }
{
    for event in events {
        if let Event::Fire {
            task: other,
            spot,
            ..
        } = event
        {
            if *other == task {
                return Some(*spot);
            }
        }
    }
    None
}

/// The tasks that firings cut, in order.
pub fn cut(alloc: Global, events: &[Event]) -> Result<Vec<TaskId>, OutOfMemory>
    ensures { IfOk result (λ tasks. tasks.items ≡ cut events.now) }
{
    let mut tasks = Vec::new(alloc);
    for event in events {
        if let Event::Fire { cuts, .. } = event {
            tasks.extend_from_slice(cuts.as_slice())?;
        }
    }
    Ok(tasks)
}

/// The tasks that were admitted, over or not, in order.
pub(crate) fn ever_admitted(alloc: Global, events: &[Event]) -> Result<Vec<TaskId>, OutOfMemory>
    ensures { IfOk result (λ tasks. tasks.items ≡ ever_admitted events.now) }
{
    let mut tasks = Vec::new(alloc);
    for event in events {
        if let Event::Admit(task) = event {
            tasks.push(*task)?;
        }
    }
    Ok(tasks)
}

/// The tasks that were put, in order.
pub fn put(alloc: Global, events: &[Event]) -> Result<Vec<TaskId>, OutOfMemory>
    ensures { IfOk result (λ tasks. tasks.items ≡ put events.now) }
{
    let mut tasks = Vec::new(alloc);
    for event in events {
        if let Event::Put { task, .. } = event {
            tasks.push(*task)?;
        }
    }
    Ok(tasks)
}

/// The tasks that puts dropped, in order.
pub fn dropped(alloc: Global, events: &[Event]) -> Result<Vec<TaskId>, OutOfMemory>
    ensures { IfOk result (λ tasks. tasks.items ≡ dropped events.now) }
{
    let mut tasks = Vec::new(alloc);
    for event in events {
        if let Event::Put {
            dropped: Some(task),
            ..
        } = event
        {
            tasks.push(*task)?;
        }
    }
    Ok(tasks)
}

/// The tasks that started, in order.
pub(crate) fn started(alloc: Global, events: &[Event]) -> Result<Vec<TaskId>, OutOfMemory>
    ensures { IfOk result (λ tasks. tasks.items ≡ started events.now) }
{
    let mut tasks = Vec::new(alloc);
    for event in events {
        if let Event::Start { task, .. } = event {
            tasks.push(*task)?;
        }
    }
    Ok(tasks)
}

/// The tasks that the actor started, in order.
pub(crate) fn started_as(
    alloc: Global,
    events: &[Event],
    by: ActorNo,
) -> Result<Vec<TaskId>, OutOfMemory>
    ensures { IfOk result (λ tasks. tasks.items ≡ flat_map (started_as by) events.now) }
{
    let mut tasks = Vec::new(alloc);
    for event in events {
        if let Event::Start { task, actor } = event {
            if *actor == by {
                tasks.push(*task)?;
            }
        }
    }
    Ok(tasks)
}

/// The tasks that ended, in order.
pub(crate) fn ended(alloc: Global, events: &[Event]) -> Result<Vec<TaskId>, OutOfMemory>
    ensures { IfOk result (λ tasks. tasks.items ≡ ended events.now) }
{
    let mut tasks = Vec::new(alloc);
    for event in events {
        if let Event::End { task, .. } = event {
            tasks.push(*task)?;
        }
    }
    Ok(tasks)
}

/// The tasks that ended suspended, in order.
pub(crate) fn yielded(alloc: Global, events: &[Event]) -> Result<Vec<TaskId>, OutOfMemory>
    ensures { IfOk result (λ tasks. tasks.items ≡ yielded events.now) }
{
    let mut tasks = Vec::new(alloc);
    for event in events {
        if let Event::End {
            task,
            how: EndHow::Yield,
        } = event
        {
            tasks.push(*task)?;
        }
    }
    Ok(tasks)
}

/// The segments after which their root is over, in order: those that ended for good, and the dropped ones.
pub(crate) fn last_segments(alloc: Global, events: &[Event]) -> Result<Vec<TaskId>, OutOfMemory>
    ensures { IfOk result (λ tasks. tasks.items ≡ last_segments events.now) }
{
    let mut tasks = Vec::new(alloc);
    for event in events {
        if let Some(task) = last_by(event) {
            tasks.push(task)?;
        }
    }
    Ok(tasks)
}

/// The segment whose root is over by this event.
fn last_by(event: &Event) -> Option<TaskId>
    ensures { option_to_list result ≡ last_by event.now }
{
    match event {
        Event::End {
            how: EndHow::Yield,
            ..
        } => None,
        Event::End { task, .. } => Some(*task),
        Event::Put { dropped, .. } => *dropped,
        _ => None,
    }
}

fn is_firing_of(task: TaskId, event: &Event) -> bool
    ensures { result ≡ is_firing_of task event.now }
{
    match event {
        Event::Fire { task: other, .. } => *other == task,
        _ => false,
    }
}

/// The events before the firing of the task.
pub(crate) fn before(task: TaskId, events: &[Event]) -> &[Event]
    ensures { result.now ≡ before task events.now }
{
    for (index, event) in events.iter().enumerate() {
        if is_firing_of(task, event) {
            return &events[..index];
        }
    }
    events
}

/// The messages that the firing of the task took.
pub(crate) fn messages_of(events: &[Event], task: TaskId) -> &[MsgId]
    ensures { result.now ≡ option_map_or (λ firing. firing.messages) (firing_named events.now task) [] }
{
    for event in events {
        if let Event::Fire {
            task: other,
            messages,
            ..
        } = event
        {
            if *other == task {
                return messages.as_slice();
            }
        }
    }
    &[]
}

/// Whether the event is the end of a task that was shed.
pub fn is_shed_end(event: &Event) -> bool
    ensures { result ≡ is_shed_end event.now }
{
    match event {
        Event::End {
            how: EndHow::Shed,
            ..
        } => true,
        _ => false,
    }
}

/// Whether a task was shed.
pub fn has_shed(events: &[Event]) -> bool
    ensures { result ≡ has_shed events.now }
{
    events.iter().any(is_shed_end)
}

//! The tasks of a history: where they fired, and which queues they belong to.

ghost use Rattle.std.specs.Prelude.{◌≡◌, [], ◌∷◌, ◌++◌, IfOk, OnOk, Some, None, if◌then◌else◌};
ghost use Rattle.std.specs.Option.{option_or};
ghost use Rattle.std.specs.HashMap.{get};
ghost use Rattle.ccr_base.specs.declared.names.TaskId.{TaskId as Named};
ghost use Rattle.ccr_base.specs.Names.{same_task};
ghost use Rattle.ccr_model.specs.Firings.{spot_of};
ghost use Rattle.ccr_report.specs.Counting.{branch_queues, queue_by, queues_by, queues_in};

use ccr_base::{OutOfMemory, QueueNo, Spot, TaskId};
use ccr_model::Event;
use ccr_wiring::{ArbiterPart, Parts, branch_of};
use std::alloc::Global;
use std::collections::HashMap;

/// Where each task fired.
pub fn spots_of_tasks(alloc: Global, events: &[Event]) -> Result<HashMap<TaskId, Spot>, OutOfMemory>
    ensures { IfOk result (λ spots. (task : Named) → get same_task spots task ≡ spot_of events.now task) }
{
    let mut spots = HashMap::new(alloc);
    for event in events {
        note_firing(&mut spots, event)?;
    }
    Ok(spots)
}

fn note_firing(spots: &mut HashMap<TaskId, Spot>, event: &Event) -> Result<(), OutOfMemory>
    ensures { OnOk result ((task : Named) → get same_task spots.new task ≡ option_or (get same_task spots.old task) (spot_of (event.now ∷ []) task)) }
{
    match event {
        Event::Fire { task, spot, .. } => note_spot(spots, *task, *spot),
        _ => Ok(()),
    }
}

/// Notes where the task fired, where that isn't known yet.
fn note_spot(spots: &mut HashMap<TaskId, Spot>, task: TaskId, spot: Spot) -> Result<(), OutOfMemory>
    ensures { OnOk result ((other : Named) → get same_task spots.new other ≡ option_or (get same_task spots.old other) (if same_task task other then Some spot else None)) }
{
    if !spots.contains_key(&task) {
        spots.insert(task, spot)?;
    }
    Ok(())
}

/// The queues of the branches, in their order.
pub fn branch_queues(alloc: Global, parts: &Parts) -> Result<Vec<QueueNo>, OutOfMemory>
    ensures { IfOk result (λ queues. queues.items ≡ branch_queues parts.now) }
{
    let mut queues = Vec::new(alloc);
    for arbiter in parts.arbiters.as_slice() {
        add_queues(&mut queues, arbiter)?;
    }
    Ok(queues)
}

fn add_queues(queues: &mut Vec<QueueNo>, arbiter: &ArbiterPart) -> Result<(), OutOfMemory>
    ensures { OnOk result (queues.new.items ≡ queues.old.items ++ queues_in arbiter.now) }
{
    for part in arbiter.branches.as_slice() {
        queues.push(part.queue)?;
    }
    Ok(())
}

/// The task's queue.
fn queue_of(spots: &HashMap<TaskId, Spot>, queues: &[QueueNo], task: TaskId) -> Option<QueueNo>
    ensures { result ≡ queue_by (get same_task spots.now) queues.now task }
{
    let spot = spots.get(&task)?;
    queues.get(branch_of(*spot) as usize).copied()
}

/// The queues of the tasks, in order.
pub fn queues_of(
    alloc: Global,
    spots: &HashMap<TaskId, Spot>,
    queues: &[QueueNo],
    tasks: &[TaskId],
) -> Result<Vec<QueueNo>, OutOfMemory>
    ensures { IfOk result (λ numbers. numbers.items ≡ queues_by (get same_task spots.now) queues.now tasks.now) }
{
    let mut numbers = Vec::new(alloc);
    for task in tasks {
        if let Some(queue) = queue_of(spots, queues, *task) {
            numbers.push(queue)?;
        }
    }
    Ok(numbers)
}

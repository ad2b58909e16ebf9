//! What became of requests and tasks, found by their names.

ghost use Rattle.std.specs.Prelude.{◌≡◌, ◌||◌, Some, None, OnOk, IfOk, if◌then◌else◌};
ghost use Rattle.std.specs.Option.{option_or};
ghost use Rattle.indexmap.specs.IndexMap.{get};
ghost use Rattle.indexmap.specs.IndexSet.{contains};
ghost use Rattle.ccr_base.specs.declared.names.TaskId.{TaskId};
ghost use Rattle.ccr_base.specs.Names.{same_task, has_task};
ghost use Rattle.ccr_model.specs.Firings.{cut, dropped};
ghost use Rattle.ccr_model.specs.Fates.{taker};
ghost use Rattle.ccr_service.specs.declared.tables.RequestId.{RequestId};
ghost use Rattle.ccr_service.specs.Telling.{first_post, message_in, name_of, same_request, AreTaken, IsPosted, Tells, told_from};

use crate::Answer;
use ccr_base::{ActorNo, Msg, MsgId, OutOfMemory, PortNo, TaskId};
use ccr_model::Event;
use indexmap::{IndexMap, IndexSet};
use std::alloc::Global;

/// A request: the client that asks, and the index of the ask among its asks.
#[derive(Clone, Copy, PartialEq, Eq, Hash)]
pub(crate) struct RequestId {
    pub(crate) client: ActorNo,
    pub(crate) index: u32,
}

/// Who took a request, who was cut or dropped, and what a task posted first.
#[derive(Drop)]
pub(crate) struct Tables<'a> {
    takers: IndexMap<RequestId, TaskId>,
    cuts: IndexSet<TaskId>,
    drops: IndexSet<TaskId>,
    posts: IndexMap<TaskId, &'a Msg>,
}

/// The task took the request, unless another did before.
fn add_taker(
    table: &mut IndexMap<RequestId, TaskId>,
    request: RequestId,
    task: TaskId,
) -> Result<(), OutOfMemory>
    ensures { OnOk result ((other : RequestId) → get same_request table.new other ≡ option_or (get same_request table.old other) (if same_request request other then Some task else None)) }
{
    if !table.contains_key(&request) {
        table.insert(request, task)?;
    }
    Ok(())
}

/// The task took the requests of these names that nobody took before.
fn add_taken(
    table: &mut IndexMap<RequestId, TaskId>,
    names: &[MsgId],
    task: TaskId,
) -> Result<(), OutOfMemory>
    ensures { OnOk result (AreTaken names.now task (get same_request table.old) (get same_request table.new)) }
{
    for name in names {
        if let MsgId::Script { actor, place } = *name {
            let request = RequestId {
                client: actor,
                index: place,
            };
            add_taker(table, request, task)?;
        }
    }
    Ok(())
}

fn takers(alloc: Global, events: &[Event]) -> Result<IndexMap<RequestId, TaskId>, OutOfMemory>
    ensures { IfOk result (λ table. (request : RequestId) → get same_request table request ≡ taker events.now (name_of request)) }
{
    let mut table = IndexMap::new(alloc);
    for event in events {
        if let Event::Fire { task, messages, .. } = event {
            add_taken(&mut table, messages.as_slice(), *task)?;
        }
    }
    Ok(table)
}

fn add_tasks(set: &mut IndexSet<TaskId>, tasks: &[TaskId]) -> Result<(), OutOfMemory>
    ensures { OnOk result ((task : TaskId) → contains same_task set.new task ≡ (contains same_task set.old task || has_task tasks.now task)) }
{
    for task in tasks {
        set.insert(*task)?;
    }
    Ok(())
}

fn cuts(alloc: Global, events: &[Event]) -> Result<IndexSet<TaskId>, OutOfMemory>
    ensures { IfOk result (λ set. (task : TaskId) → contains same_task set task ≡ has_task (cut events.now) task) }
{
    let mut set = IndexSet::new(alloc);
    for event in events {
        if let Event::Fire { cuts, .. } = event {
            add_tasks(&mut set, cuts.as_slice())?;
        }
    }
    Ok(set)
}

fn drops(alloc: Global, events: &[Event]) -> Result<IndexSet<TaskId>, OutOfMemory>
    ensures { IfOk result (λ set. (task : TaskId) → contains same_task set task ≡ has_task (dropped events.now) task) }
{
    let mut set = IndexSet::new(alloc);
    for event in events {
        if let Event::Put {
            dropped: Some(task),
            ..
        } = event
        {
            set.insert(*task)?;
        }
    }
    Ok(set)
}

/// The task posted the message, unless it posted another before.
fn add_post<'a>(
    table: &mut IndexMap<TaskId, &'a Msg>,
    task: TaskId,
    message: &'a Msg,
) -> Result<(), OutOfMemory>
    ensures { OnOk result (IsPosted task message.now (get same_task table.old) (get same_task table.new)) }
{
    if !table.contains_key(&task) {
        table.insert(task, message)?;
    }
    Ok(())
}

fn posts(alloc: Global, events: &[Event]) -> Result<IndexMap<TaskId, &Msg>, OutOfMemory>
    ensures { IfOk result (λ table. (task : TaskId) → message_in (get same_task table task) ≡ first_post events.now task) }
{
    let mut table = IndexMap::new(alloc);
    for event in events {
        if let Event::Post(message) = event {
            if let MsgId::Task { task, .. } = message.id {
                add_post(&mut table, task, message)?;
            }
        }
    }
    Ok(table)
}

/// The tables of the events.
pub(crate) fn found(alloc: Global, events: &[Event]) -> Result<Tables<'_>, OutOfMemory>
    ensures { IfOk result (λ tables. Tells events.now tables) }
{
    Ok(Tables {
        takers: takers(alloc, events)?,
        cuts: cuts(alloc, events)?,
        drops: drops(alloc, events)?,
        posts: posts(alloc, events)?,
    })
}

/// What the tables tell of the request, where faults go to this port.
pub(crate) fn tell(
    alloc: Global,
    tables: &Tables<'_>,
    faults: PortNo,
    request: RequestId,
) -> Result<Answer, OutOfMemory>
    ensures { IfOk result (λ answer. answer ≡ told_from tables.now faults request) }
{
    let Some(task) = tables.takers.get(&request) else {
        return Ok(Answer::Held);
    };
    if tables.cuts.contains(task) {
        return Ok(Answer::Cut);
    }
    if tables.drops.contains(task) {
        return Ok(Answer::Dropped);
    }
    match tables.posts.get(task) {
        Some(message) => {
            let response = message.copy(alloc)?;
            if response.port == faults {
                Ok(Answer::Fault(response))
            } else {
                Ok(Answer::Success(response))
            }
        }
        None => Ok(Answer::Held),
    }
}

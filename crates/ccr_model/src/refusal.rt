//! The first rule that refuses an event.

ghost use Rattle.std.specs.Prelude.{◌≡◌, IfOk, option_map};
ghost use Rattle.ccr_model.specs.Rules.{number_of, refusal, refusal_of_post};

use crate::alike::{are_same_tasks, is_same_drop};
use crate::firings::has_task;
use crate::live::{has_room, is_live};
use crate::rules::{
    cuts_at, drop_at, has_budget, is_new, is_oldest_queued, is_oldest_waiting, is_play_post,
    is_script_line, may_admit, may_end, may_put, may_start,
};
use crate::selections::is_selection;
use crate::tasks::running;
use crate::{EndHow, Event, History, Rule};
use ccr_base::{ActorNo, Msg, MsgId, OutOfMemory, Spot, TaskId};
use ccr_wiring::Wiring;
use std::alloc::Global;

fn refusal_of_post(
    alloc: Global,
    wiring: &Wiring,
    events: &[Event],
    message: &Msg,
) -> Result<Option<Rule>, OutOfMemory>
    ensures { IfOk result (λ rule. rule ≡ refusal_of_post wiring.now events.now message.now message.now.id) }
{
    match message.id {
        MsgId::Script { actor, place } => {
            if !is_script_line(wiring, events, actor, place, message) {
                return Ok(Some(Rule::ScriptLine));
            }
        }
        MsgId::Task { task, place } => {
            if !is_play_post(alloc, wiring, events, task, place, message)? {
                return Ok(Some(Rule::PlayPost));
            }
            if !has_budget(wiring, events) {
                return Ok(Some(Rule::Budget));
            }
        }
    }
    Ok(None)
}

fn refusal_of_fire(
    alloc: Global,
    wiring: &Wiring,
    events: &[Event],
    task: TaskId,
    spot: Spot,
    messages: &[MsgId],
    cuts: &[TaskId],
) -> Result<Option<Rule>, OutOfMemory>
    ensures { IfOk result (λ rule. rule ≡ refusal wiring.now events.now (Event.Fire task spot messages.now cuts.now)) }
{
    if !is_new(alloc, events, task)? {
        return Ok(Some(Rule::NewTask));
    }
    if !is_live(alloc, wiring, events, spot)? {
        return Ok(Some(Rule::LiveSpot));
    }
    if !is_selection(alloc, wiring, events, spot, messages)? {
        return Ok(Some(Rule::Selection));
    }
    if !has_room(alloc, wiring, events, spot)? {
        return Ok(Some(Rule::Room));
    }
    let due = cuts_at(alloc, wiring, events, spot)?;
    if !are_same_tasks(cuts, &due) {
        return Ok(Some(Rule::DueCuts));
    }
    Ok(None)
}

fn refusal_of_admit(
    alloc: Global,
    wiring: &Wiring,
    events: &[Event],
    task: TaskId,
) -> Result<Option<Rule>, OutOfMemory>
    ensures { IfOk result (λ rule. rule ≡ refusal wiring.now events.now (Event.Admit task)) }
{
    if !is_oldest_waiting(alloc, wiring, events, task)? {
        return Ok(Some(Rule::OldestWaiting));
    }
    if !may_admit(alloc, wiring, events, task)? {
        return Ok(Some(Rule::Admission));
    }
    Ok(None)
}

fn refusal_of_put(
    alloc: Global,
    wiring: &Wiring,
    events: &[Event],
    task: TaskId,
    dropped: Option<TaskId>,
) -> Result<Option<Rule>, OutOfMemory>
    ensures { IfOk result (λ rule. rule ≡ refusal wiring.now events.now (Event.Put task dropped)) }
{
    if !may_put(alloc, wiring, events, task)? {
        return Ok(Some(Rule::Ready));
    }
    if !is_same_drop(dropped, drop_at(alloc, wiring, events, task)?) {
        return Ok(Some(Rule::DueDrop));
    }
    Ok(None)
}

fn refusal_of_start(
    alloc: Global,
    wiring: &Wiring,
    events: &[Event],
    task: TaskId,
    actor: ActorNo,
) -> Result<Option<Rule>, OutOfMemory>
    ensures { IfOk result (λ rule. rule ≡ refusal wiring.now events.now (Event.Start task actor)) }
{
    if !is_oldest_queued(alloc, wiring, events, task)? {
        return Ok(Some(Rule::OldestQueued));
    }
    if !may_start(alloc, wiring, events, actor)? {
        return Ok(Some(Rule::IdleActor));
    }
    Ok(None)
}

fn refusal_of_end(
    alloc: Global,
    wiring: &Wiring,
    events: &[Event],
    task: TaskId,
    how: EndHow,
) -> Result<Option<Rule>, OutOfMemory>
    ensures { IfOk result (λ rule. rule ≡ refusal wiring.now events.now (Event.End task how)) }
{
    if !has_task(&running(alloc, events)?, task) {
        return Ok(Some(Rule::Running));
    }
    if !may_end(alloc, wiring, events, task, how)? {
        return Ok(Some(Rule::Ending));
    }
    Ok(None)
}

fn refusal(
    alloc: Global,
    wiring: &Wiring,
    events: &[Event],
    event: &Event,
) -> Result<Option<Rule>, OutOfMemory>
    ensures { IfOk result (λ rule. rule ≡ refusal wiring.now events.now event.now) }
{
    match event {
        Event::Post(message) => refusal_of_post(alloc, wiring, events, message),
        Event::Fire {
            task,
            spot,
            messages,
            cuts,
        } => {
            let (messages, cuts) = (messages.as_slice(), cuts.as_slice());
            refusal_of_fire(alloc, wiring, events, *task, *spot, messages, cuts)
        }
        Event::Admit(task) => refusal_of_admit(alloc, wiring, events, *task),
        Event::Put { task, dropped } => refusal_of_put(alloc, wiring, events, *task, *dropped),
        Event::Start { task, actor } => refusal_of_start(alloc, wiring, events, *task, *actor),
        Event::End { task, how } => refusal_of_end(alloc, wiring, events, *task, *how),
    }
}

/// None exactly where the event is allowed after the history, else the number of the first rule of docs/MODEL.md that refuses it.
/// It asks nothing of the history or of the event: a number that names nothing is refused by a rule.
pub fn refused_by(
    alloc: Global,
    wiring: &Wiring,
    history: &History,
    event: &Event,
) -> Result<Option<u8>, OutOfMemory>
    ensures { IfOk result (λ rule. rule ≡ option_map number_of (refusal wiring.now history.now event.now)) }
{
    let rule = refusal(alloc, wiring, history.events(), event)?;
    Ok(rule.map(Rule::number))
}

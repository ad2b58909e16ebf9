//! The first rule that refuses an event, by the tables.

ghost use Rattle.std.specs.Prelude.{◌≡◌, false, IfOk};
ghost use Rattle.std.specs.List.{slice_get};
ghost use Rattle.std.specs.Option.{option_map, option_map_or};
ghost use Rattle.ccr_model.specs.Rules.{is_post, is_open_post_with};
ghost use Rattle.ccr_ledger.specs.Asked.{play_in};
ghost use Rattle.ccr_checker.specs.Judging.{is_ending, is_idle, is_next_line, is_next_post, is_unused, refusal_in, refusal_of_post_in, sheds};

use ccr_base::{ActorNo, CauseNo, Msg, MsgId, OutOfMemory, PortNo, Spot, TaskId};
use ccr_handler::PlayEnd;
use ccr_ledger::{KeptPlay, Ledger};
use ccr_model::alike::{are_same_tasks, is_post, is_same_drop};
use ccr_model::rules::{
    ends_so, is_line_of, is_open_post_with, is_posted_outside, is_used_up, may_choose,
};
use ccr_model::{EndHow, Event, Rule};
use ccr_wiring::{MAX_ACTOR, Wiring};

/// Whether the message is the poster's next line, or the next post of an open poster.
fn is_next_line(wiring: &Wiring, ledger: &Ledger, actor: ActorNo, index: u32, message: &Msg) -> bool
    ensures { result ≡ is_next_line wiring.now ledger.now actor index message.now }
{
    if index != ledger.script_posts(actor) {
        return false;
    }
    is_line_of(wiring, actor, index, message) || is_posted_outside(wiring, actor, message)
}

fn is_post_of(play: &KeptPlay, index: u32, message: &Msg) -> bool
    ensures { result ≡ option_map_or (is_post message.now) (slice_get play.now.posts index) false }
{
    match play.post(index as usize) {
        Some(post) => is_post(message, post.port, &post.value, post.causes),
        None => false,
    }
}

fn is_open_post(
    wiring: &Wiring,
    causes: &[CauseNo],
    ports: Option<&[PortNo]>,
    message: &Msg,
) -> bool
    ensures { result ≡ option_map_or (λ p. is_open_post_with wiring.now causes.now p message.now) (option_map (λ p. p.now) ports.entry) false }
{
    match ports {
        Some(ports) => is_open_post_with(wiring, causes, ports, message),
        None => false,
    }
}

/// Whether the message is the next post of the running task's play, or the next post of a running task of an open handler.
fn is_next_post(wiring: &Wiring, ledger: &Ledger, task: TaskId, index: u32, message: &Msg) -> bool
    ensures { result ≡ is_next_post wiring.now ledger.now task index message.now }
{
    if !ledger.runs(task) {
        return false;
    }
    let Some(card) = ledger.card(task) else {
        return false;
    };
    if index != card.made {
        return false;
    }
    is_post_of(&card.play, index, message)
        || is_open_post(
            wiring,
            card.play.own_causes(),
            ledger.open_ports(wiring, task),
            message,
        )
}

fn is_unused(ledger: &Ledger, task: TaskId) -> bool
    ensures { result ≡ is_unused ledger.now task }
{
    !ledger.has_fired(task) && task.actor <= MAX_ACTOR
}

fn is_idle(wiring: &Wiring, ledger: &Ledger, actor: ActorNo) -> bool
    ensures { result ≡ is_idle wiring.now ledger.now actor }
{
    wiring.is_behind_posters(actor) && actor <= MAX_ACTOR && !ledger.is_busy(actor)
}

fn sheds(wiring: &Wiring, ledger: &Ledger, task: TaskId) -> bool
    ensures { result ≡ sheds wiring.now ledger.now task }
{
    if !ledger.has_more(task) {
        return false;
    }
    let posts = ledger.task_posts() as usize;
    is_used_up(wiring.parts().budget, posts, ledger.unfinished())
}

/// Whether the task may end so: shed, as its play does, or as somebody outside chooses.
fn is_ending(wiring: &Wiring, ledger: &Ledger, task: TaskId, how: EndHow) -> bool
    ensures { result ≡ is_ending wiring.now ledger.now task how }
{
    if how == EndHow::Shed {
        return sheds(wiring, ledger, task);
    }
    if ledger.has_more(task) {
        return false;
    }
    let end = end_of(ledger, task);
    ends_so(&how, &end) || ledger.open_ports(wiring, task).is_some() && may_choose(&how, &end)
}

/// How the task's play ends.
fn end_of(ledger: &Ledger, task: TaskId) -> PlayEnd
    ensures { result ≡ (play_in ledger.now task).end }
{
    match ledger.card(task) {
        Some(card) => card.play.end(),
        None => PlayEnd::Done,
    }
}

fn refusal_of_post(wiring: &Wiring, ledger: &Ledger, message: &Msg) -> Option<Rule>
    ensures { result ≡ refusal_of_post_in wiring.now ledger.now message.now message.now.id }
{
    match message.id {
        MsgId::Script { actor, place } => {
            if !is_next_line(wiring, ledger, actor, place, message) {
                return Some(Rule::ScriptLine);
            }
        }
        MsgId::Task { task, place } => {
            if !is_next_post(wiring, ledger, task, place, message) {
                return Some(Rule::PlayPost);
            }
            if !ledger.budget_lasts(wiring) {
                return Some(Rule::Budget);
            }
        }
    }
    None
}

fn refusal_of_fire(
    wiring: &Wiring,
    ledger: &mut Ledger,
    task: TaskId,
    spot: Spot,
    messages: &[MsgId],
    cuts: &[TaskId],
) -> Result<Option<Rule>, OutOfMemory>
    ensures rule { IfOk result (λ rule. rule ≡ refusal_in wiring.now ledger.old (Event.Fire task spot messages.now cuts.now)) }
    ensures kept { ledger.new ≡ ledger.old }
{
    if !is_unused(ledger, task) {
        return Ok(Some(Rule::NewTask));
    }
    if !ledger.lives(wiring, spot) {
        return Ok(Some(Rule::LiveSpot));
    }
    if !ledger.are_selected(wiring, spot, messages)? {
        return Ok(Some(Rule::Selection));
    }
    if !ledger.room(wiring, spot) {
        return Ok(Some(Rule::Room));
    }
    let due = ledger.cuts(wiring, spot)?;
    if !are_same_tasks(cuts, &due) {
        return Ok(Some(Rule::DueCuts));
    }
    Ok(None)
}

fn refusal_of_admit(wiring: &Wiring, ledger: &Ledger, task: TaskId) -> Option<Rule>
    ensures { result ≡ refusal_in wiring.now ledger.now (Event.Admit task) }
{
    if !ledger.waits_first(task) {
        return Some(Rule::OldestWaiting);
    }
    if !ledger.may_admit_task(task) {
        return Some(Rule::Admission);
    }
    None
}

fn refusal_of_put(
    wiring: &Wiring,
    ledger: &Ledger,
    task: TaskId,
    dropped: Option<TaskId>,
) -> Option<Rule>
    ensures { result ≡ refusal_in wiring.now ledger.now (Event.Put task dropped) }
{
    if !ledger.is_ready(task) {
        return Some(Rule::Ready);
    }
    if !is_same_drop(dropped, ledger.drops(wiring, task)) {
        return Some(Rule::DueDrop);
    }
    None
}

fn refusal_of_start(wiring: &Wiring, ledger: &Ledger, task: TaskId, actor: ActorNo) -> Option<Rule>
    ensures { result ≡ refusal_in wiring.now ledger.now (Event.Start task actor) }
{
    if !ledger.queued_first(task) {
        return Some(Rule::OldestQueued);
    }
    if !is_idle(wiring, ledger, actor) {
        return Some(Rule::IdleActor);
    }
    None
}

fn refusal_of_end(wiring: &Wiring, ledger: &Ledger, task: TaskId, how: EndHow) -> Option<Rule>
    ensures { result ≡ refusal_in wiring.now ledger.now (Event.End task how) }
{
    if !ledger.runs(task) {
        return Some(Rule::Running);
    }
    if !is_ending(wiring, ledger, task, how) {
        return Some(Rule::Ending);
    }
    None
}

/// The first rule of docs/MODEL.md that refuses the event, by the tables.
pub(crate) fn refusal(
    wiring: &Wiring,
    ledger: &mut Ledger,
    event: &Event,
) -> Result<Option<Rule>, OutOfMemory>
    ensures rule { IfOk result (λ rule. rule ≡ refusal_in wiring.now ledger.old event.now) }
    ensures kept { ledger.new ≡ ledger.old }
{
    ledger.seek(event);
    Ok(match event {
        Event::Post(message) => refusal_of_post(wiring, ledger, message),
        Event::Fire {
            task,
            spot,
            messages,
            cuts,
        } => {
            let (messages, cuts) = (messages.as_slice(), cuts.as_slice());
            return refusal_of_fire(wiring, ledger, *task, *spot, messages, cuts);
        }
        Event::Admit(task) => refusal_of_admit(wiring, ledger, *task),
        Event::Put { task, dropped } => refusal_of_put(wiring, ledger, *task, *dropped),
        Event::Start { task, actor } => refusal_of_start(wiring, ledger, *task, *actor),
        Event::End { task, how } => refusal_of_end(wiring, ledger, *task, *how),
    })
}

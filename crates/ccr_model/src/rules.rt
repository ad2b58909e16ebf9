//! Which rule refuses an event.

ghost use Rattle.std.specs.Prelude.{◌≡◌, IfOk};
ghost use Rattle.std.specs.List.{list_all};
ghost use Rattle.std.specs.Prelude.{◌==◌, nat_lt, false, length};
ghost use Rattle.std.specs.List.{list_any, slice_get};
ghost use Rattle.std.specs.Option.{option_map, option_map_or};
ghost use Rattle.ccr_wiring.specs.Openness.{open_poster};
ghost use Rattle.ccr_wiring.specs.Wirings.{exception_port};
ghost use Rattle.ccr_model.specs.Rules.{is_post, is_line_of, is_value, is_outside_post, is_exception, is_open_post_with, is_open_post, open_ports, may_choose, is_script_line, is_play_post, has_budget, is_new, cuts_at, is_first, is_oldest_waiting, is_concurrent_task, may_admit, needs_no_admission, may_put, drop_by, drop_at, is_oldest_queued, may_start, ends_so, is_used_up, may_shed, may_end};

use crate::alike::{are_same_causes, is_post};
use crate::data::{load_of, play_of};
use crate::firings::{cut, ever_admitted, fired, has_task, put, spot_of};
use crate::posts::{posts_of_poster, posts_of_task, posts_of_tasks};
use crate::tasks::{
    admitted, count_unfinished, has_post_left, placement_of, queued, running, running_by, waiting,
};
use crate::{EndHow, Event};
use ccr_base::{
    ActorNo, CauseNo, Msg, OutOfMemory, Policy, PortNo, Spot, TaskId, Value, has_number,
    is_concurrent, is_teardown,
};
use ccr_handler::{Play, PlayEnd};
use ccr_wiring::{MAX_ACTOR, Wiring, are_apart, is_interleave};
use std::alloc::Global;

/// Whether the message is the poster's next line.
pub(crate) fn is_script_line(
    wiring: &Wiring,
    events: &[Event],
    actor: ActorNo,
    index: u32,
    message: &Msg,
) -> bool
    ensures { result ≡ is_script_line wiring.now events.now actor index message.now }
{
    if index as usize != posts_of_poster(events, actor) {
        return false;
    }
    is_line_of(wiring, actor, index, message) || is_posted_outside(wiring, actor, message)
}

/// Whether the message is this line of the poster's script.
pub fn is_line_of(wiring: &Wiring, actor: ActorNo, index: u32, message: &Msg) -> bool
    ensures { result ≡ is_line_of wiring.now actor index message.now }
{
    let Some(poster) = wiring.parts().posters.as_slice().get(actor as usize) else {
        return false;
    };
    match poster.posts.as_slice().get(index as usize) {
        Some(sent) => is_post(message, sent.port(), &sent.value(), sent.causes()),
        None => false,
    }
}

/// Whether the poster is open and may post the message.
pub fn is_posted_outside(wiring: &Wiring, actor: ActorNo, message: &Msg) -> bool
    ensures { result ≡ option_map_or (λ ports. is_outside_post wiring.now ports message.now) (open_poster wiring.now actor) false }
{
    match wiring.open_poster(actor) {
        Some(ports) => is_outside_post(wiring, ports, message),
        None => false,
    }
}

fn is_value(value: &Value) -> bool
    ensures { result ≡ is_value value.now }
{
    let count = value.numbers().len();
    1 <= count && count <= 8
}

fn are_causes(wiring: &Wiring, causes: &[CauseNo]) -> bool
    ensures { result ≡ list_all (λ cause. nat_lt cause (length wiring.now.causes)) causes.now }
{
    let count = wiring.parts().causes.as_slice().len();
    causes.iter().all(|cause| (*cause as usize) < count)
}

/// Whether an open poster may post it: to one of these ports, with causes of the wiring, none twice.
fn is_outside_post(wiring: &Wiring, ports: &[PortNo], message: &Msg) -> bool
    ensures { result ≡ is_outside_post wiring.now ports.now message.now }
{
    has_number(ports, message.port)
        && is_value(&message.value)
        && are_causes(wiring, message.causes.as_slice())
        && are_apart(message.causes.as_slice())
}

fn is_exception_port(wiring: &Wiring, cause: CauseNo, port: PortNo) -> bool
    ensures { result ≡ option_map_or (λ p. p == port) (exception_port wiring.now cause) false }
{
    match wiring.parts().causes.as_slice().get(cause as usize) {
        Some(part) => part.port == port,
        None => false,
    }
}

/// Whether the port is the exception port of one of the causes.
fn tells(wiring: &Wiring, causes: &[CauseNo], port: PortNo) -> bool
    ensures { result ≡ list_any (λ cause. option_map_or (λ p. p == port) (exception_port wiring.now cause) false) causes.now }
{
    causes
        .iter()
        .any(|cause| is_exception_port(wiring, *cause, port))
}

/// Whether the message tells a failure to the exception port of one of the causes.
fn is_exception(wiring: &Wiring, causes: &[CauseNo], message: &Msg) -> bool
    ensures { result ≡ is_exception wiring.now causes.now message.now }
{
    are_same_causes(message.causes.as_slice(), &[]) && tells(wiring, causes, message.port)
}

/// Whether a task with these causes and ports may post it from outside.
pub fn is_open_post_with(
    wiring: &Wiring,
    causes: &[CauseNo],
    ports: &[PortNo],
    message: &Msg,
) -> bool
    ensures { result ≡ is_open_post_with wiring.now causes.now ports.now message.now }
{
    if !is_value(&message.value) {
        return false;
    }
    has_number(ports, message.port) && are_same_causes(message.causes.as_slice(), causes)
        || is_exception(wiring, causes, message)
}

/// The ports to which the task may post from outside, where its handler is open.
pub fn open_ports<'w>(wiring: &'w Wiring, events: &[Event], task: TaskId) -> Option<&'w [PortNo]>
    ensures { option_map (λ ports. ports.now) result ≡ open_ports wiring.now events.now task }
{
    let placement = placement_of(wiring, events, task)?;
    wiring.open_handler(placement.branch.handler)
}

fn is_open_post(
    alloc: Global,
    wiring: &Wiring,
    events: &[Event],
    task: TaskId,
    message: &Msg,
) -> Result<bool, OutOfMemory>
    ensures { IfOk result (λ is. is ≡ option_map_or (λ ports. is_open_post wiring.now events.now task ports message.now) (open_ports wiring.now events.now task) false) }
{
    let Some(ports) = open_ports(wiring, events, task) else {
        return Ok(false);
    };
    let load = load_of(alloc, wiring, events, task)?;
    Ok(is_open_post_with(wiring, load.causes.as_slice(), ports, message))
}

/// Whether the message is the next post of the running task's play.
pub(crate) fn is_play_post(
    alloc: Global,
    wiring: &Wiring,
    events: &[Event],
    task: TaskId,
    index: u32,
    message: &Msg,
) -> Result<bool, OutOfMemory>
    ensures { IfOk result (λ is. is ≡ is_play_post wiring.now events.now task index message.now) }
{
    if !has_task(&running(alloc, events)?, task) {
        return Ok(false);
    }
    if index as usize != posts_of_task(events, task) {
        return Ok(false);
    }
    let play = play_of(alloc, wiring, events, task)?;
    if is_post_of(&play, index, message) {
        return Ok(true);
    }
    is_open_post(alloc, wiring, events, task, message)
}

fn is_post_of(play: &Play, index: u32, message: &Msg) -> bool
    ensures { result ≡ option_map_or (is_post message.now) (slice_get play.now.posts index) false }
{
    match play.posts.as_slice().get(index as usize) {
        Some(sent) => is_post(message, sent.port, &sent.value, sent.causes.as_slice()),
        None => false,
    }
}

/// Whether tasks may post once more.
pub(crate) fn has_budget(wiring: &Wiring, events: &[Event]) -> bool
    ensures { result ≡ has_budget wiring.now events.now }
{
    posts_of_tasks(events) < wiring.parts().budget as usize
}

pub(crate) fn is_new(alloc: Global, events: &[Event], task: TaskId) -> Result<bool, OutOfMemory>
    ensures { IfOk result (λ is. is ≡ is_new events.now task) }
{
    Ok(!has_task(&fired(alloc, events)?, task) && task.actor <= MAX_ACTOR)
}

/// The tasks that a firing at the spot cuts, in order of their firing.
pub fn cuts_at(
    alloc: Global,
    wiring: &Wiring,
    events: &[Event],
    spot: Spot,
) -> Result<Vec<TaskId>, OutOfMemory>
    ensures { IfOk result (λ tasks. tasks.items ≡ cuts_at wiring.now events.now spot) }
{
    if let Spot::Branch(branch) = spot {
        if let Some(placement) = wiring.placement(branch) {
            if is_teardown(placement.branch.group) {
                return waiting(alloc, wiring, events, placement.domain);
            }
        }
    }
    Ok(Vec::new(alloc))
}

fn is_first(tasks: &[TaskId], task: TaskId) -> bool
    ensures { result ≡ is_first tasks.now task }
{
    match tasks.first() {
        Some(first) => task == *first,
        None => false,
    }
}

pub(crate) fn is_oldest_waiting(
    alloc: Global,
    wiring: &Wiring,
    events: &[Event],
    task: TaskId,
) -> Result<bool, OutOfMemory>
    ensures { IfOk result (λ is. is ≡ is_oldest_waiting wiring.now events.now task) }
{
    match placement_of(wiring, events, task) {
        Some(placement) => {
            let waiting = waiting(alloc, wiring, events, placement.domain)?;
            Ok(is_first(&waiting, task))
        }
        None => Ok(false),
    }
}

fn is_concurrent_task(wiring: &Wiring, events: &[Event], task: TaskId) -> bool
    ensures { result ≡ is_concurrent_task wiring.now events.now task }
{
    match placement_of(wiring, events, task) {
        Some(placement) => is_concurrent(placement.branch.group),
        None => false,
    }
}

fn are_concurrent(wiring: &Wiring, events: &[Event], tasks: &[TaskId]) -> bool
    ensures { result ≡ list_all (is_concurrent_task wiring.now events.now) tasks.now }
{
    tasks
        .iter()
        .all(|task| is_concurrent_task(wiring, events, *task))
}

/// Whether the waiting task may be admitted beside the admitted roots that are not over.
pub fn may_admit(
    alloc: Global,
    wiring: &Wiring,
    events: &[Event],
    task: TaskId,
) -> Result<bool, OutOfMemory>
    ensures { IfOk result (λ may. may ≡ may_admit wiring.now events.now task) }
{
    let Some(placement) = placement_of(wiring, events, task) else {
        return Ok(false);
    };
    let admitted = admitted(alloc, wiring, events, placement.domain)?;
    if is_concurrent(placement.branch.group) {
        Ok(are_concurrent(wiring, events, &admitted))
    } else {
        Ok(admitted.is_empty())
    }
}

/// Whether tasks of the spot are put without an admission.
pub fn needs_no_admission(wiring: &Wiring, spot: Spot) -> bool
    ensures { result ≡ needs_no_admission wiring.now spot }
{
    let Spot::Branch(branch) = spot else {
        return true;
    };
    match wiring.placement(branch) {
        Some(placement) => !is_interleave(placement.kind),
        None => false,
    }
}

/// Whether the task may be put into its queue.
pub fn may_put(
    alloc: Global,
    wiring: &Wiring,
    events: &[Event],
    task: TaskId,
) -> Result<bool, OutOfMemory>
    ensures { IfOk result (λ may. may ≡ may_put wiring.now events.now task) }
{
    if has_task(&put(alloc, events)?, task) || has_task(&cut(alloc, events)?, task) {
        return Ok(false);
    }
    match spot_of(events, task) {
        Some(spot) => {
            let was_admitted = has_task(&ever_admitted(alloc, events)?, task);
            Ok(needs_no_admission(wiring, spot) || was_admitted)
        }
        None => Ok(false),
    }
}

fn drop_by(policy: Policy, queued: &[TaskId]) -> Option<TaskId>
    ensures { result ≡ drop_by policy queued.now }
{
    match policy {
        Policy::Discard(most) => {
            if most as usize <= queued.len() {
                queued.first().copied()
            } else {
                None
            }
        }
        Policy::Unbounded | Policy::Throttle(_) => None,
    }
}

/// The task that a put of this one drops.
pub fn drop_at(
    alloc: Global,
    wiring: &Wiring,
    events: &[Event],
    task: TaskId,
) -> Result<Option<TaskId>, OutOfMemory>
    ensures { IfOk result (λ dropped. dropped ≡ drop_at wiring.now events.now task) }
{
    match placement_of(wiring, events, task) {
        Some(placement) => {
            let queue = placement.branch.queue;
            let queued = queued(alloc, wiring, events, queue)?;
            Ok(drop_by(wiring.policy_of(queue), &queued))
        }
        None => Ok(None),
    }
}

pub(crate) fn is_oldest_queued(
    alloc: Global,
    wiring: &Wiring,
    events: &[Event],
    task: TaskId,
) -> Result<bool, OutOfMemory>
    ensures { IfOk result (λ is. is ≡ is_oldest_queued wiring.now events.now task) }
{
    match placement_of(wiring, events, task) {
        Some(placement) => {
            let queued = queued(alloc, wiring, events, placement.branch.queue)?;
            Ok(is_first(&queued, task))
        }
        None => Ok(false),
    }
}

pub(crate) fn may_start(
    alloc: Global,
    wiring: &Wiring,
    events: &[Event],
    actor: ActorNo,
) -> Result<bool, OutOfMemory>
    ensures { IfOk result (λ may. may ≡ may_start wiring.now events.now actor) }
{
    let running = running_by(alloc, events, actor)?;
    Ok(wiring.is_behind_posters(actor) && actor <= MAX_ACTOR && running.is_empty())
}

/// Whether the end is the one that the play asks for.
pub fn ends_so(how: &EndHow, end: &PlayEnd) -> bool
    ensures { result ≡ ends_so how.now end.now }
{
    match (how, end) {
        (EndHow::Done, PlayEnd::Done) => true,
        (EndHow::Failed(value), PlayEnd::Failed(failed)) => value == failed,
        (EndHow::Yield, PlayEnd::Yield(_)) => true,
        _ => false,
    }
}

/// Whether the budget is used up by so many posts and one post for each other of so many tasks that have some left.
pub fn is_used_up(budget: u32, posts: usize, tasks: usize) -> bool
    ensures { result ≡ is_used_up budget posts tasks }
{
    (budget as usize).saturating_sub(posts) <= tasks.saturating_sub(1)
}

fn may_shed(
    alloc: Global,
    wiring: &Wiring,
    events: &[Event],
    task: TaskId,
) -> Result<bool, OutOfMemory>
    ensures { IfOk result (λ may. may ≡ may_shed wiring.now events.now task) }
{
    if !has_post_left(alloc, wiring, events, task)? {
        return Ok(false);
    }
    let tasks = count_unfinished(alloc, wiring, events)?;
    Ok(is_used_up(wiring.parts().budget, posts_of_tasks(events), tasks))
}

pub(crate) fn may_end(
    alloc: Global,
    wiring: &Wiring,
    events: &[Event],
    task: TaskId,
    how: EndHow,
) -> Result<bool, OutOfMemory>
    ensures { IfOk result (λ may. may ≡ may_end wiring.now events.now task how) }
{
    if how == EndHow::Shed {
        return may_shed(alloc, wiring, events, task);
    }
    if has_post_left(alloc, wiring, events, task)? {
        return Ok(false);
    }
    let play = play_of(alloc, wiring, events, task)?;
    if ends_so(&how, &play.end) {
        return Ok(true);
    }
    Ok(open_ports(wiring, events, task).is_some() && may_choose(&how, &play.end))
}

/// Whether somebody outside may end so a task whose play ends so.
pub fn may_choose(how: &EndHow, end: &PlayEnd) -> bool
    ensures { result ≡ may_choose how.now end.now }
{
    match how {
        EndHow::Done => true,
        EndHow::Failed(value) => is_value(value),
        EndHow::Yield => ends_so(how, end),
        EndHow::Shed => false,
    }
}

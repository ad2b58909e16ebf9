//! Who is where: waiting, queued, running, admitted, on the way.

ghost use Rattle.std.specs.Prelude.{◌≡◌, IfOk};
ghost use Rattle.std.specs.Option.{option_map};
ghost use Rattle.ccr_model.specs.TaskData.{placement_of};
ghost use Rattle.ccr_model.specs.Tasks.{is_branch_where, fired_by, waiting, is_for_queue, queued, running, running_by, is_over, is_of_domain, admitted, coming, has_post_left, count_unfinished};
ghost use Rattle.ccr_model.specs.Views.{placement_seen, means};

use crate::Event;
use crate::data::play_of;
use crate::firings::{
    cut, dropped, ended, ever_admitted, last_segments, put, remove_all, spot_of, started,
    started_as,
};
use crate::posts::posts_of_task;
use crate::sites::root_of;
use ccr_base::{ActorNo, OutOfMemory, QueueNo, Spot, TaskId, is_teardown};
use ccr_wiring::{PlacementOf, Wiring, branch_of, is_interleave};
use std::alloc::Global;

/// Which branches are meant, by the number of a domain or of a queue.
#[derive(Clone, Copy)]
pub(crate) enum Branches {
    OfInterleave(usize),
    OfDomain(usize),
    TeardownsOf(usize),
    OfQueue(QueueNo),
}

fn means(which: Branches, placement: &PlacementOf<'_>) -> bool
    ensures { result ≡ means which (placement_seen placement.now) }
{
    match which {
        Branches::OfInterleave(number) => is_interleave(placement.kind)
            && placement.domain == number,
        Branches::OfDomain(number) => placement.domain == number,
        Branches::TeardownsOf(number) => {
            placement.domain == number && is_teardown(placement.branch.group)
        }
        Branches::OfQueue(queue) => placement.branch.queue == queue,
    }
}

fn is_meant(wiring: &Wiring, which: Branches, spot: Spot) -> bool
    ensures { result ≡ is_branch_where wiring.now (means which) spot }
{
    let Spot::Branch(branch) = spot else {
        return false;
    };
    match wiring.placement(branch) {
        Some(found) => means(which, &found),
        None => false,
    }
}

/// The tasks that these branches fired, in order.
pub(crate) fn fired_by(
    alloc: Global,
    wiring: &Wiring,
    events: &[Event],
    which: Branches,
) -> Result<Vec<TaskId>, OutOfMemory>
    ensures { IfOk result (λ tasks. tasks.items ≡ fired_by wiring.now (means which) events.now) }
{
    let mut tasks = Vec::new(alloc);
    for event in events {
        if let Event::Fire { task, spot, .. } = event {
            if is_meant(wiring, which, *spot) {
                tasks.push(*task)?;
            }
        }
    }
    Ok(tasks)
}

/// The branch, with its domain, that the task belongs to.
pub(crate) fn placement_of<'w>(
    wiring: &'w Wiring,
    events: &[Event],
    task: TaskId,
) -> Option<PlacementOf<'w>>
    ensures { option_map placement_seen result ≡ placement_of wiring.now events.now task }
{
    let spot = spot_of(events, task)?;
    wiring.placement(branch_of(spot))
}

/// The tasks that branches of this domain of Interleaves fired, neither admitted nor cut, by firing.
pub fn waiting(
    alloc: Global,
    wiring: &Wiring,
    events: &[Event],
    domain: usize,
) -> Result<Vec<TaskId>, OutOfMemory>
    ensures { IfOk result (λ tasks. tasks.items ≡ waiting wiring.now events.now domain) }
{
    let mut tasks = fired_by(alloc, wiring, events, Branches::OfInterleave(domain))?;
    let mut gone = ever_admitted(alloc, events)?;
    gone.extend_from_slice(&cut(alloc, events)?)?;
    remove_all(&mut tasks, &gone);
    Ok(tasks)
}

fn is_for_queue(wiring: &Wiring, events: &[Event], queue: QueueNo, task: TaskId) -> bool
    ensures { result ≡ is_for_queue wiring.now events.now queue task }
{
    match placement_of(wiring, events, task) {
        Some(placement) => placement.branch.queue == queue,
        None => false,
    }
}

/// The tasks put into the queue, neither started nor dropped, by put.
pub fn queued(
    alloc: Global,
    wiring: &Wiring,
    events: &[Event],
    queue: QueueNo,
) -> Result<Vec<TaskId>, OutOfMemory>
    ensures { IfOk result (λ tasks. tasks.items ≡ queued wiring.now events.now queue) }
{
    let mut tasks = put(alloc, events)?;
    let mut gone = started(alloc, events)?;
    gone.extend_from_slice(&dropped(alloc, events)?)?;
    remove_all(&mut tasks, &gone);
    tasks.retain(|task| is_for_queue(wiring, events, queue, *task));
    Ok(tasks)
}

/// The tasks that started and have not ended, by start.
pub fn running(alloc: Global, events: &[Event]) -> Result<Vec<TaskId>, OutOfMemory>
    ensures { IfOk result (λ tasks. tasks.items ≡ running events.now) }
{
    let mut tasks = started(alloc, events)?;
    remove_all(&mut tasks, &ended(alloc, events)?);
    Ok(tasks)
}

/// Those that the actor started.
pub(crate) fn running_by(
    alloc: Global,
    events: &[Event],
    actor: ActorNo,
) -> Result<Vec<TaskId>, OutOfMemory>
    ensures { IfOk result (λ tasks. tasks.items ≡ running_by events.now actor) }
{
    let mut tasks = started_as(alloc, events, actor)?;
    remove_all(&mut tasks, &ended(alloc, events)?);
    Ok(tasks)
}

/// Whether the root is over.
fn is_over(alloc: Global, events: &[Event], root: TaskId) -> Result<bool, OutOfMemory>
    ensures { IfOk result (λ over. over ≡ is_over events.now root) }
{
    for task in &last_segments(alloc, events)? {
        if root_of(alloc, events, *task)? == root {
            return Ok(true);
        }
    }
    Ok(false)
}

fn is_of_domain(wiring: &Wiring, events: &[Event], domain: usize, task: TaskId) -> bool
    ensures { result ≡ is_of_domain wiring.now events.now domain task }
{
    match placement_of(wiring, events, task) {
        Some(placement) => placement.domain == domain,
        None => false,
    }
}

/// The admitted roots of the domain that are not over, by their admissions.
pub(crate) fn admitted(
    alloc: Global,
    wiring: &Wiring,
    events: &[Event],
    domain: usize,
) -> Result<Vec<TaskId>, OutOfMemory>
    ensures { IfOk result (λ tasks. tasks.items ≡ admitted wiring.now events.now domain) }
{
    let ever_admitted = ever_admitted(alloc, events)?;
    let mut tasks = Vec::new(alloc);
    for task in &ever_admitted {
        if is_of_domain(wiring, events, domain, *task) && !is_over(alloc, events, *task)? {
            tasks.push(*task)?;
        }
    }
    Ok(tasks)
}

/// The tasks that branches fired for the queue, neither started, dropped nor cut.
pub(crate) fn coming(
    alloc: Global,
    wiring: &Wiring,
    events: &[Event],
    queue: QueueNo,
) -> Result<Vec<TaskId>, OutOfMemory>
    ensures { IfOk result (λ tasks. tasks.items ≡ coming wiring.now events.now queue) }
{
    let mut tasks = fired_by(alloc, wiring, events, Branches::OfQueue(queue))?;
    let mut gone = started(alloc, events)?;
    gone.extend_from_slice(&dropped(alloc, events)?)?;
    gone.extend_from_slice(&cut(alloc, events)?)?;
    remove_all(&mut tasks, &gone);
    Ok(tasks)
}

/// Whether a post of the task's play is left.
pub(crate) fn has_post_left(
    alloc: Global,
    wiring: &Wiring,
    events: &[Event],
    task: TaskId,
) -> Result<bool, OutOfMemory>
    ensures { IfOk result (λ left. left ≡ has_post_left wiring.now events.now task) }
{
    let play = play_of(alloc, wiring, events, task)?;
    Ok(posts_of_task(events, task) < play.posts.as_slice().len())
}

/// How many running tasks have a post left.
pub(crate) fn count_unfinished(
    alloc: Global,
    wiring: &Wiring,
    events: &[Event],
) -> Result<usize, OutOfMemory>
    ensures { IfOk result (λ count. count ≡ count_unfinished wiring.now events.now) }
{
    let running = running(alloc, events)?;
    let mut count = 0;
    for task in &running {
        if has_post_left(alloc, wiring, events, *task)? {
            count += 1;
        }
    }
    Ok(count)
}

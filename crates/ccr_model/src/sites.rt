//! Who is suspended, whom a firing at a site resumes, and the root of a task.

ghost use Rattle.std.specs.Prelude.{◌≡◌, IfOk, drop};
ghost use Rattle.ccr_base.specs.Names.{same_spot};
ghost use Rattle.ccr_wiring.specs.Wirings.{branch_of, segment_of, next_site};
ghost use Rattle.ccr_model.specs.Sites.{yields_at, yielded_at, suspended, resumed, root_at, root_of};

use crate::Event;
use crate::firings::{before, fired_at, spot_of, yielded};
use ccr_base::{BranchNo, OutOfMemory, Spot, TaskId};
use std::alloc::Global;

/// The spot at which the task fired that this site suspends.
pub(crate) fn spot_before(branch: BranchNo, site: u32) -> Spot
    ensures branch { branch_of result ≡ branch }
    ensures segment { segment_of result ≡ site }
{
    if site == 0 {
        Spot::Branch(branch)
    } else {
        Spot::Site(branch, site - 1)
    }
}

/// Whether a task that fired at the spot is suspended at the site.
fn leads_to(spot: Spot, site: Spot) -> bool
    ensures { result ≡ same_spot (next_site spot) site }
{
    let Spot::Site(branch, number) = site else {
        return false;
    };
    spot_before(branch, number) == spot
}

fn yields_at(events: &[Event], site: Spot, task: TaskId) -> bool
    ensures { result ≡ yields_at events.now site task }
{
    match spot_of(events, task) {
        Some(spot) => leads_to(spot, site),
        None => false,
    }
}

/// The tasks that ended suspended at the site, by their ends.
fn yielded_at(alloc: Global, events: &[Event], site: Spot) -> Result<Vec<TaskId>, OutOfMemory>
    ensures { IfOk result (λ tasks. tasks.items ≡ yielded_at events.now site) }
{
    let mut tasks = yielded(alloc, events)?;
    tasks.retain(|task| yields_at(events, site, *task));
    Ok(tasks)
}

/// What stands behind the first tasks.
fn behind(tasks: &[TaskId], first: usize) -> &[TaskId]
    ensures { result.now ≡ drop first tasks.now }
{
    if first < tasks.len() {
        &tasks[first..]
    } else {
        &[]
    }
}

/// The tasks that are suspended at the site: each firing there resumed the first.
pub(crate) fn suspended(
    alloc: Global,
    events: &[Event],
    site: Spot,
) -> Result<Vec<TaskId>, OutOfMemory>
    ensures { IfOk result (λ tasks. tasks.items ≡ suspended events.now site) }
{
    let yielded = yielded_at(alloc, events, site)?;
    let resumed = fired_at(alloc, events, site)?.len();
    Ok(Vec::from_slice(alloc, behind(&yielded, resumed))?)
}

/// The task for which this one, fired at the site, goes on.
pub(crate) fn resumed(
    alloc: Global,
    events: &[Event],
    site: Spot,
    task: TaskId,
) -> Result<Option<TaskId>, OutOfMemory>
    ensures { IfOk result (λ found. found ≡ resumed events.now site task) }
{
    Ok(
        suspended(alloc, before(task, events), site)?
            .first()
            .copied(),
    )
}

/// The root of a task that fired at the spot.
fn root_at(alloc: Global, events: &[Event], spot: Spot, task: TaskId) -> Result<TaskId, OutOfMemory>
    ensures { IfOk result (λ root. root ≡ root_at events.now (branch_of spot) (segment_of spot) task) }
{
    let Spot::Site(branch, site) = spot else {
        return Ok(task);
    };
    match resumed(alloc, events, spot, task)? {
        Some(before) => root_at(alloc, events, spot_before(branch, site), before),
        None => Ok(task),
    }
}

/// The task that the branch fired, of which this one is a segment.
pub(crate) fn root_of(alloc: Global, events: &[Event], task: TaskId) -> Result<TaskId, OutOfMemory>
    ensures { IfOk result (λ root. root ≡ root_of events.now task) }
{
    match spot_of(events, task) {
        Some(spot) => root_at(alloc, events, spot, task),
        None => Ok(task),
    }
}

//! Changes of the cards, and of the rows of tasks.

ghost use Rattle.std.specs.Prelude.{◌≡◌, ◌<◌, [], ◌∷◌, ◌++◌, OnErr, OnOk, drop};
ghost use Rattle.std.specs.List.{slice_get};
ghost use Rattle.ccr_ledger.specs.Books.{changed, moved, suspended_at, with_suspended};
ghost use Rattle.ccr_ledger.specs.Posting.{with_post, without_post};
ghost use Rattle.ccr_ledger.specs.Events.{admit_root, not_admitted, stopped};

use crate::{Card, Rows, Runner, TaskStage};
use ccr_base::{BranchNo, OutOfMemory, TaskId};
use ccr_wiring::MAX_ACTIONS;
use indexmap::IndexMap;

/// The task comes to this stage.
pub(crate) fn move_to(tasks: &mut IndexMap<TaskId, Card>, task: TaskId, stage: TaskStage)
    ensures { tasks.new.entries ≡ moved stage task tasks.old.entries }
{
    if let Some(card) = tasks.get_mut(&task) {
        card.stage = stage;
    }
}

/// The task is a root that was admitted.
pub(crate) fn admit_root(tasks: &mut IndexMap<TaskId, Card>, task: TaskId)
    ensures { tasks.new.entries ≡ changed admit_root task tasks.old.entries }
{
    if let Some(card) = tasks.get_mut(&task) {
        card.stage = TaskStage::Ready;
        card.admitted = true;
    }
}

/// The task is no longer a root that was admitted and isn't over.
pub(crate) fn end_root(tasks: &mut IndexMap<TaskId, Card>, task: TaskId)
    ensures { tasks.new.entries ≡ changed not_admitted task tasks.old.entries }
{
    if let Some(card) = tasks.get_mut(&task) {
        card.admitted = false;
    }
}

/// The task has made one more post. A count that no longer fits counts as out of memory.
pub(crate) fn count_post(
    tasks: &mut IndexMap<TaskId, Card>,
    task: TaskId,
) -> Result<(), OutOfMemory>
    ensures ok { OnOk result (tasks.new.entries ≡ changed with_post task tasks.old.entries) }
    ensures err { OnErr result (tasks.new.entries ≡ tasks.old.entries) }
{
    if let Some(card) = tasks.get_mut(&task) {
        let Some(made) = card.made.checked_add(1) else {
            return Err(OutOfMemory);
        };
        card.made = made;
    }
    Ok(())
}

/// The task has made one post less.
pub(crate) fn uncount_post(tasks: &mut IndexMap<TaskId, Card>, task: TaskId)
    ensures { tasks.new.entries ≡ changed without_post task tasks.old.entries }
{
    if let Some(card) = tasks.get_mut(&task) {
        card.made = card.made.saturating_sub(1);
    }
}

/// The task runs no more.
pub(crate) fn stop(running: &mut Vec<Runner>, task: TaskId)
    ensures { running.new.items ≡ stopped task running.old.items }
{
    running.retain(|runner| runner.task != task);
}

/// The first task that is suspended at the site.
pub(crate) fn first_suspended(
    suspended: &Rows<TaskId>,
    branch: BranchNo,
    site: u32,
) -> Option<TaskId>
    ensures { result ≡ slice_get (suspended_at suspended.now branch site) 0 }
{
    if site as usize >= MAX_ACTIONS {
        return None;
    }
    suspended
        .first(branch as usize * MAX_ACTIONS + site as usize)
        .copied()
}

/// The first task that is suspended at the site goes.
pub(crate) fn resume(suspended: &mut Rows<TaskId>, branch: BranchNo, site: u32)
    ensures { suspended.new ≡ with_suspended suspended.old branch site (drop 1 (suspended_at suspended.old branch site)) }
{
    if (site as usize) < MAX_ACTIONS {
        suspended.leave(branch as usize * MAX_ACTIONS + site as usize);
    }
}

/// The task is suspended at the site.
pub(crate) fn suspend(
    suspended: &mut Rows<TaskId>,
    branch: BranchNo,
    site: u32,
    task: TaskId,
) -> Result<(), OutOfMemory>
    ensures ok { OnOk result (suspended.new ≡ with_suspended suspended.old branch site (suspended_at suspended.old branch site ++ task ∷ [])) }
    ensures err { OnErr result (suspended.new ≡ suspended.old) }
{
    if (site as usize) < MAX_ACTIONS {
        suspended.enter(branch as usize * MAX_ACTIONS + site as usize, task)?;
    }
    Ok(())
}

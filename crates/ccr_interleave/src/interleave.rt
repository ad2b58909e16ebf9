//! The object of a domain of Interleaves.

ghost use Rattle.std.specs.Prelude.{◌≡◌, [], List, length, map, IsTrue, IfOk, OnErr, IsSome, slice_get, Some, None, true, false};
ghost use Rattle.std.specs.Option.{option_map};
ghost use Rattle.indexmap.specs.IndexMap.{get, keys, Updates, IsUnique};
ghost use Rattle.ccr_base.specs.Names.{same_task};
ghost use Rattle.ccr_base.specs.declared.names.MsgId.{MsgId};
ghost use Rattle.ccr_places.specs.Commits.{commit_note};
ghost use Rattle.ccr_places.specs.Interleaves.{start, group_at as group_of, is_teardown as is_teardown_group, may_commit as can_commit, may_over as can_over, may_admit as can_admit, after_over, after, IsGiven};
ghost use Rattle.ccr_places.specs.declared.notes.Note.TheVariants.{Admit, Over};
ghost use Rattle.ccr_interleave.specs.Replies.{cut_of, commit_reply, cut_count as count_of_cuts, after_commit, after_wait, next_task, after_oldest, after_next};

use crate::admission::{self, Admission};
use crate::groups::{group_at, is_concurrent, is_teardown};
use ccr_base::{BranchNo, By, Commit, Cut, Group, How, List, OutOfMemory, Spot, Task, TaskId};
use indexmap::IndexMap;
use std::alloc::{AllocError, Global};
use std::collections::VecDeque;
use std::marker::Model;

/// The branches of one domain: of an Interleave, or of several that share one protection. Its firings wait until they are
/// admitted, the oldest first, or until a teardown cuts them.
#[derive(Drop)]
pub struct InterleaveObject {
    alloc: Global,
    /// Rising.
    branches: List<BranchNo>,
    groups: List<Group>,
    /// All tasks that fired here, in that order.
    fired: IndexMap<TaskId, Admission>,
    /// The oldest first.
    waiting: VecDeque<Task>,
    /// How many admitted roots of concurrent branches aren't noted over.
    shared: usize,
    /// How many admitted roots of other branches aren't noted over.
    alone: usize,
    teardown: Option<TaskId>,
}

impl Model for InterleaveObject {
    ghost use Rattle.std.specs.Prelude.{map};
    ghost use Rattle.ccr_places.specs.Interleaves.{InterleaveTasks, interleave_tasks_code};
    ghost use Rattle.ccr_interleave.specs.Replies.{waiting_of};
    ghost use Rattle.ccr_interleave.specs.Admissions.{Tied, state_of};

    ghost Value = { InterleaveTasks };

    ghost coded = { interleave_tasks_code };

    ghost view = { λ place. record { state = state_of place.branches place.groups place.fired.entries place.waiting.items place.teardown; tasks = place.waiting.items } };

    ghost invariant = { λ place. Tied place.fired.entries (map waiting_of place.waiting.items) place.shared place.alone };
}

impl InterleaveObject {
    /// The domain whose branches, in rising order, have these groups. None of them fired yet.
    pub fn new(alloc: Global, branches: List<BranchNo>, groups: List<Group>) -> InterleaveObject
        requires { length branches ≡ length groups }
        ensures { result ≡ record { state = start branches groups; tasks = [] } }
    {
        InterleaveObject {
            alloc,
            branches,
            groups,
            fired: IndexMap::new(alloc),
            waiting: VecDeque::new(alloc),
            shared: 0,
            alone: 0,
            teardown: None,
        }
    }

    /// How many tasks wait.
    pub fn waiting(&self) -> usize
        ensures { result ≡ length self.now.tasks }
    {
        self.waiting.len()
    }

    /// Whether the task is at a branch of this domain, and none of its name fired here.
    pub fn may_commit(&self, task: &Task) -> bool
        ensures { result ≡ can_commit self.now.state task.now }
    {
        group_at(&self.branches, &self.groups, task.spot).is_some()
            && !self.fired.contains_key(&task.id)
    }

    /// How many waiting tasks a commit of this task would cut: all that wait, where it is a teardown's and none fired
    /// before, and else none.
    pub fn cut_count(&self, task: &Task) -> usize
        ensures { result ≡ count_of_cuts self.now task.now }
    {
        let group = group_at(&self.branches, &self.groups, task.spot);
        if self.teardown.is_none() && is_teardown(group) {
            self.waiting.len()
        } else {
            0
        }
    }

    /// The task fires and waits, unless a teardown fired before. A teardown cuts all tasks that wait.
    pub fn commit(&mut self, task: Task) -> Result<Commit, OutOfMemory>
        requires { IsTrue (can_commit self.old.state task) }
        ensures reply { IfOk result (λ reply. reply ≡ commit_reply self.old task) }
        ensures state { IfOk result (λ reply. self.new ≡ after_commit self.old task) }
        ensures given { IfOk result (λ reply. (messages : List MsgId) → IsGiven self.old.state (commit_note task messages reply)) }
        ensures step { IfOk result (λ reply. (messages : List MsgId) → self.new.state ≡ after self.old.state (commit_note task messages reply)) }
        ensures err { OnErr result (self.new ≡ self.old) }
    {
        if let Some(earlier) = self.teardown {
            return Ok(Commit::Dead(By::Fired(earlier)));
        }
        if is_teardown(group_at(&self.branches, &self.groups, task.spot)) {
            self.tear_down(task)
        } else {
            self.wait(task)
        }
    }

    /// The task of a branch that is no teardown waits last.
    fn wait(&mut self, task: Task) -> Result<Commit, OutOfMemory>
        requires new { IsTrue (can_commit self.old.state task) }
        requires group { is_teardown_group (group_of self.old.state task.spot) ≡ false }
        requires live { self.old.state.teardown ≡ None }
        ensures reply { IfOk result (λ reply. reply ≡ commit_reply self.old task) }
        ensures state { IfOk result (λ reply. self.new ≡ after_wait self.old task) }
        ensures err { OnErr result (self.new ≡ self.old) }
    {
        self.waiting.reserve(1)?;
        self.fired.insert(task.id, Admission::Outside)?;
        self.waiting.push_back_reserved(task);
        Ok(Commit::Fired {
            task: None,
            cuts: List::new(self.alloc),
        })
    }

    /// The task of a teardown cuts all that wait, and waits alone.
    fn tear_down(&mut self, task: Task) -> Result<Commit, OutOfMemory>
        requires new { IsTrue (can_commit self.old.state task) }
        requires group { is_teardown_group (group_of self.old.state task.spot) ≡ true }
        requires live { self.old.state.teardown ≡ None }
        ensures reply { IfOk result (λ reply. reply ≡ commit_reply self.old task) }
        ensures state { IfOk result (λ reply. self.new ≡ after_wait self.old task) }
        ensures err { OnErr result (self.new ≡ self.old) }
    {
        self.waiting.reserve(1)?;
        let cuts = List::from_vec(cuts_of(self.alloc, &self.waiting)?);
        self.fired.insert(task.id, Admission::Outside)?;
        self.teardown = Some(task.id);
        self.waiting.clear();
        self.waiting.push_back_reserved(task);
        Ok(Commit::Fired { task: None, cuts })
    }

    /// Hands out the oldest waiting task, where it may be admitted: a concurrent one where each admitted root that isn't
    /// noted over is concurrent, another where none is left. It takes no memory: the commit made the room.
    pub fn admit(&mut self) -> Option<Task>
        ensures reply { result ≡ next_task self.old }
        ensures state { self.new ≡ after_next self.old }
        ensures given { IsGiven self.old.state (Admit (option_map (λ task. task.id) result)) }
        ensures step { self.new.state ≡ after self.old.state (Admit (option_map (λ task. task.id) result)) }
    {
        let spot = self.waiting.front()?.spot;
        if self.may_admit(spot) {
            self.admit_oldest()
        } else {
            None
        }
    }

    /// Whether a waiting task of the spot may be admitted beside the roots that are.
    fn may_admit(&self, spot: Spot) -> bool
        ensures { result ≡ can_admit self.now.state spot }
    {
        self.alone == 0
            && (is_concurrent(group_at(&self.branches, &self.groups, spot)) || self.shared == 0)
    }

    /// The oldest waiting task is one of the admitted roots from now on.
    fn admit_oldest(&mut self) -> Option<Task>
        ensures task { result ≡ slice_get self.old.tasks 0 }
        ensures name { option_map (λ task. task.id) result ≡ option_map (λ waiting. waiting.task) (slice_get self.old.state.waiting 0) }
        ensures state { self.new ≡ after_oldest self.old }
    {
        let task = self.waiting.pop_front()?;
        let concurrent = is_concurrent(group_at(&self.branches, &self.groups, task.spot));
        let admission = admission::admitted_as(concurrent);
        let fired = self.fired.len();
        prove!(self.shared <= fired);
        prove!(self.alone <= fired);
        set_admission(&mut self.fired, task.id, admission);
        self.shared += admission::shared_count(Some(admission));
        self.alone += admission::alone_count(Some(admission));
        Some(task)
    }

    /// Whether the root was admitted and isn't noted over.
    pub fn may_over(&self, _task: TaskId, root: TaskId, _how: How) -> bool
        ensures { result ≡ can_over self.now.state root }
    {
        admission::is_admitted(self.fired.get(&root).copied())
    }

    /// Notes that the root is over. It takes no memory.
    pub fn over(&mut self, task: TaskId, root: TaskId, how: How)
        requires { IsTrue (can_over self.old.state root) }
        ensures state { self.new ≡ record self.old { state = after_over self.old.state root } }
        ensures given { IsGiven self.old.state (Over task root how) }
        ensures step { self.new.state ≡ after self.old.state (Over task root how) }
    {
        let admission = set_admission(&mut self.fired, root, Admission::Outside);
        self.shared -= admission::shared_count(admission);
        self.alone -= admission::alone_count(admission);
    }
}

/// Changes the admission of a task that fired, and tells the one before. It takes no memory.
fn set_admission(
    fired: &mut IndexMap<TaskId, Admission>,
    task: TaskId,
    admission: Admission,
) -> Option<Admission>
    requires { IsSome (get same_task fired.old task) }
    ensures before { result ≡ get same_task fired.old task }
    ensures updates { Updates same_task fired.old fired.new task (Some admission) }
    ensures keys { keys fired.new ≡ keys fired.old }
    ensures unique { IsUnique same_task fired.new }
{
    match fired.insert(task, admission) {
        Ok(before) => before,
        Err(_) => unreachable!(),
    }
}

/// The cuts of all waiting tasks, in order.
fn cuts_of(alloc: Global, waiting: &VecDeque<Task>) -> Result<Vec<Cut>, AllocError>
    ensures { IfOk result (λ cuts. cuts.items ≡ map cut_of waiting.now.items) }
{
    waiting
        .iter()
        .map(|task| Cut {
            task: task.id,
            queue: task.queue,
        })
        .collect(alloc)
}

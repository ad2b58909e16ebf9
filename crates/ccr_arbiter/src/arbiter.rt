//! The object of a receiver or of a choice.

ghost use Rattle.std.specs.Prelude.{◌≡◌, List, IsTrue, IfOk, OnErr};
ghost use Rattle.ccr_places.specs.Arbiters.{receiver, choice, has_spot, retired_by, may_commit as can_commit, may_over as can_over, after, after_over, IsGiven};
ghost use Rattle.ccr_places.specs.Commits.{commit_note};
ghost use Rattle.ccr_base.specs.declared.names.MsgId.{MsgId};
ghost use Rattle.ccr_places.specs.declared.notes.Note.TheVariants.{Over};
ghost use Rattle.ccr_arbiter.specs.Replies.{commit_reply, after_commit};

use ccr_base::{BranchNo, By, Commit, How, List, OutOfMemory, Spot, Task, TaskId};
use indexmap::IndexSet;
use std::alloc::Global;
use std::marker::Model;

/// A receiver, or all branches of a choice: the tasks that fired there, and the roots among them that are over.
///
/// A once receiver and a choice are retired by their first firing. Each commit leaves room for the call of `over` for its
/// root.
#[derive(Drop)]
pub struct ArbiterObject {
    alloc: Global,
    first: BranchNo,
    count: u32,
    once: bool,
    fired: IndexSet<TaskId>,
    over: IndexSet<TaskId>,
}

impl Model for ArbiterObject {
    ghost use Rattle.ccr_places.specs.Arbiters.{ArbiterState};
    ghost use Rattle.ccr_arbiter.specs.Spare.{HasSpare};

    ghost Value = { ArbiterState };

    ghost view = { λ arbiter. record { first = arbiter.first; count = arbiter.count; once = arbiter.once; fired = arbiter.fired.keys; over = arbiter.over.keys } };

    ghost invariant = { λ arbiter. HasSpare arbiter.fired arbiter.over };
}

impl ArbiterObject {
    /// The receiver of one branch. A once receiver fires at most once.
    pub fn receiver(alloc: Global, branch: BranchNo, once: bool) -> Self
        ensures { result ≡ receiver branch once }
    {
        ArbiterObject {
            alloc,
            first: branch,
            count: 1,
            once,
            fired: IndexSet::new(alloc),
            over: IndexSet::new(alloc),
        }
    }

    /// The choice of so many branches, from the first on. They fire once together.
    pub fn choice(alloc: Global, first: BranchNo, count: u32) -> Self
        ensures { result ≡ choice first count }
    {
        ArbiterObject {
            alloc,
            first,
            count,
            once: true,
            fired: IndexSet::new(alloc),
            over: IndexSet::new(alloc),
        }
    }

    /// Whether the task is at a branch of this arbiter, and none of its name fired here.
    pub fn may_commit(&self, task: &Task) -> bool
        ensures { result ≡ can_commit self.now task.now }
    {
        self.has_spot(task.spot) && !self.fired.contains(&task.id)
    }

    /// The task fires and is handed back, unless an earlier firing retired the branches.
    pub fn commit(&mut self, task: Task) -> Result<Commit, OutOfMemory>
        requires { IsTrue (can_commit self.old task) }
        ensures reply { IfOk result (λ reply. reply ≡ commit_reply self.old task) }
        ensures state { IfOk result (λ reply. self.new ≡ after_commit self.old task) }
        ensures given { IfOk result (λ reply. (messages : List MsgId) → IsGiven self.old (commit_note task messages reply)) }
        ensures step { IfOk result (λ reply. (messages : List MsgId) → self.new ≡ after self.old (commit_note task messages reply)) }
        ensures err { OnErr result (self.new ≡ self.old) }
    {
        if let Some(earlier) = self.retired_by() {
            return Ok(Commit::Dead(By::Fired(earlier)));
        }
        self.over.reserve(self.fired.len() + 1 - self.over.len())?;
        self.fired.insert(task.id)?;
        Ok(Commit::Fired {
            task: Some(task),
            cuts: List::new(self.alloc),
        })
    }

    /// Whether the root fired here and isn't over.
    pub fn may_over(&self, _task: TaskId, root: TaskId, _how: How) -> bool
        ensures { result ≡ can_over self.now root }
    {
        self.fired.contains(&root) && !self.over.contains(&root)
    }

    /// Notes that the root is over. It takes no memory: the commit of the root made room for it.
    pub fn over(&mut self, task: TaskId, root: TaskId, how: How)
        requires { IsTrue (can_over self.old root) }
        ensures state { self.new ≡ after_over self.old root }
        ensures given { IsGiven self.old (Over task root how) }
        ensures step { self.new ≡ after self.old (Over task root how) }
    {
        let noted = self.over.insert(root);
        prove!(noted.is_ok());
    }

    fn has_spot(&self, spot: Spot) -> bool
        ensures { result ≡ has_spot self.now spot }
    {
        match spot {
            Spot::Branch(branch) => branch >= self.first && branch - self.first < self.count,
            Spot::Site(..) => false,
        }
    }

    /// The firing that retired the branches.
    fn retired_by(&self) -> Option<TaskId>
        ensures { result ≡ retired_by self.now }
    {
        if self.once {
            self.fired.first().copied()
        } else {
            None
        }
    }
}

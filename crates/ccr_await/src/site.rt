//! The object of an await site.

ghost use Rattle.std.specs.Prelude.{◌≡◌, List, IsTrue, IfOk, IfErr, OnOk, OnErr};
ghost use Rattle.ccr_base.specs.declared.names.MsgId.{MsgId};
ghost use Rattle.ccr_places.specs.declared.notes.Note.TheVariants.{Suspend};
ghost use Rattle.ccr_places.specs.Sites.{may_commit as can_commit, after, IsGiven};
ghost use Rattle.ccr_places.specs.Commits.{commit_note};
ghost use Rattle.ccr_await.specs.Resuming.{start, site_state, commit_reply, after_commit, after_suspend};

use crate::resume::resume;
use ccr_base::{BranchNo, By, Commit, List, OutOfMemory, Spot, Task, TaskId};
use indexmap::IndexSet;
use std::alloc::{AllocFailed, Global};
use std::collections::VecDeque;
use std::marker::Model;

/// An await site: the suspended tasks, first suspended first, and the names of the tasks that fired there.
#[derive(Drop)]
pub struct SiteObject {
    alloc: Global,
    branch: BranchNo,
    site: u32,
    suspended: VecDeque<Task>,
    fired: IndexSet<TaskId>,
}

impl Model for SiteObject {
    ghost use Rattle.ccr_await.specs.Resuming.{SiteTasks};

    ghost Value = { SiteTasks };

    ghost view = { λ site. record { branch = site.branch; site = site.site; suspended = site.suspended.items; fired = site.fired.keys } };
}

impl SiteObject {
    /// A site of the branch, where nobody is suspended. Sites are numbered from 0 in each branch.
    pub fn new(alloc: Global, branch: BranchNo, site: u32) -> Self
        ensures { result ≡ start branch site }
    {
        SiteObject {
            alloc,
            branch,
            site,
            suspended: VecDeque::new(alloc),
            fired: IndexSet::new(alloc),
        }
    }

    /// Suspends the task behind those that are there, or hands it back.
    pub fn suspend(&mut self, task: Task) -> Result<(), (OutOfMemory, Task)>
        ensures state { OnOk result (self.new ≡ after_suspend self.old task) }
        ensures given { OnOk result (IsGiven (site_state self.old) (Suspend task.id)) }
        ensures step { OnOk result (site_state self.new ≡ after (site_state self.old) (Suspend task.id)) }
        ensures err { OnErr result (self.new ≡ self.old) }
        ensures returned { IfErr result (λ refused. refused.1 ≡ task) }
    {
        match self.suspended.push_back(task) {
            Ok(()) => Ok(()),
            Err(AllocFailed { value }) => Err((OutOfMemory, value)),
        }
    }

    /// Whether the task is at this site, and none of its name fired here.
    pub fn may_commit(&self, task: &Task) -> bool
        ensures { result ≡ can_commit (site_state self.now) task.now }
    {
        task.spot == Spot::Site(self.branch, self.site) && !self.fired.contains(&task.id)
    }

    /// The task that was suspended first goes on under the name of this one, which has the value and the causes of the
    /// awaited message alone.
    pub fn commit(&mut self, task: Task) -> Result<Commit, OutOfMemory>
        requires { IsTrue (can_commit (site_state self.old) task) }
        ensures reply { IfOk result (λ reply. reply ≡ commit_reply self.old task) }
        ensures state { IfOk result (λ reply. self.new ≡ after_commit self.old task) }
        ensures given { IfOk result (λ reply. (messages : List MsgId) → IsGiven (site_state self.old) (commit_note task messages reply)) }
        ensures step { IfOk result (λ reply. (messages : List MsgId) → site_state self.new ≡ after (site_state self.old) (commit_note task messages reply)) }
        ensures err { OnErr result (self.new ≡ self.old) }
    {
        let Some(first) = self.suspended.front() else {
            return Ok(Commit::Dead(By::NoneWaiting));
        };
        let next = resume(self.alloc, first, &task)?;
        self.fired.insert(task.id)?;
        self.suspended.pop_front();
        Ok(Commit::Fired {
            task: Some(next),
            cuts: List::new(self.alloc),
        })
    }
}

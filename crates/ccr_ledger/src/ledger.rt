//! The tables.

ghost use Rattle.std.specs.Prelude.{◌≡◌, [], ◌∷◌, ◌++◌, OnErr, OnOk, IfOk, length, replicate, false, if◌then◌else◌};
ghost use Rattle.ccr_wiring.specs.Wirings.{branch_of, is_branch, placements_from, segment_of};
ghost use Rattle.std.specs.Option.{option_map_or};
ghost use Rattle.ccr_ledger.specs.Rows.{empty_rows};
ghost use Rattle.ccr_ledger.specs.Books.{card_at, less, more, suspended_at, with_suspended};
ghost use Rattle.ccr_ledger.specs.Posting.{after_post, counted, uncounted};
ghost use Rattle.ccr_ledger.specs.Refused.{IsRefused};
ghost use Rattle.ccr_ledger.specs.Events.{after_admit, after_discard, after_drop, after_dropped, after_end, after_enter, after_event, after_last, after_start, after_stop, empty_books, is_yield};

use crate::counts::{add_one, take_one};
use crate::ports::{empty_ports, post_to};
use crate::tasks::{admit_root, count_post, end_root, move_to, stop, suspend, uncount_post};
use crate::{Card, HeldMessages, Rows, Runner, TaskStage};
use ccr_base::{ActorNo, Msg, MsgId, OutOfMemory, QueueNo, Spot, TaskId};
use ccr_model::{EndHow, Event};
use ccr_wiring::{ArbiterPart, MAX_ACTIONS, Wiring};
use indexmap::IndexMap;
use std::alloc::Global;
use std::marker::Model;

/// What stands where after a history. The numbers of ports, queues and domains are those of the wiring for which it was made;
/// a row past the last is empty.
#[derive(Drop)]
pub struct Ledger {
    pub(crate) alloc: Global,
    /// What each port holds.
    pub(crate) ports: Vec<HeldMessages>,
    /// By the names of the tasks that fired, in the order of their firings.
    pub(crate) tasks: IndexMap<TaskId, Card>,
    /// The index among them of the one that is most likely asked for next: a guess, which is tested.
    pub(crate) guess: usize,
    /// The queued tasks of each queue.
    pub(crate) queued: Rows<TaskId>,
    /// The tasks of each domain that wait for their admission.
    pub(crate) waiting: Rows<TaskId>,
    /// The suspended tasks of each await site, of which a branch has at most one for each of its `MAX_ACTIONS` actions.
    pub(crate) suspended: Rows<TaskId>,
    /// By their starts.
    pub(crate) running: Vec<Runner>,
    /// The posts that each poster has made.
    pub(crate) script_posts: Vec<u32>,
    /// The posts that tasks have made.
    pub(crate) task_posts: u32,
    /// Whether each branch has fired.
    pub(crate) spent: Vec<bool>,
    /// Whether a branch of each domain has fired.
    pub(crate) chosen: Vec<bool>,
    /// Whether a teardown branch of each domain has fired.
    pub(crate) torn: Vec<bool>,
    /// The admitted roots of each domain that aren't over.
    pub(crate) admitted: Vec<u32>,
    /// Those of them that no concurrent branch fired.
    pub(crate) alone: Vec<u32>,
    /// The tasks of branches that are on their way to each queue or queued.
    pub(crate) coming: Vec<u32>,
}

impl Model for Ledger {
    ghost use Rattle.ccr_ledger.specs.Books.{Books};

    ghost Value = { Books };

    ghost view = { λ l. record {
      ports = l.ports.items;
      tasks = l.tasks.entries;
      queued = l.queued;
      waiting = l.waiting;
      suspended = l.suspended;
      running = l.running.items;
      script_posts = l.script_posts.items;
      task_posts = l.task_posts;
      spent = l.spent.items;
      chosen = l.chosen.items;
      torn = l.torn.items;
      admitted = l.admitted.items;
      alone = l.alone.items;
      coming = l.coming.items;
    } };
}

/// One less on the way to the queue, where a branch fired the task.
pub(crate) fn arrive(coming: &mut Vec<u32>, spot: Spot, queue: QueueNo)
    ensures { coming.new.items ≡ (if is_branch spot then less queue coming.old.items else coming.old.items) }
{
    if let Spot::Branch(_) = spot {
        take_one(coming, queue as usize);
    }
}

/// The task is suspended at the site behind the spot at which it fired.
fn suspend_behind(suspended: &mut Rows<TaskId>, spot: Spot, task: TaskId) -> Result<(), OutOfMemory>
    ensures ok { OnOk result (suspended.new ≡ with_suspended suspended.old (branch_of spot) (segment_of spot) (suspended_at suspended.old (branch_of spot) (segment_of spot) ++ task ∷ [])) }
    ensures err { OnErr result (suspended.new ≡ suspended.old) }
{
    match spot {
        Spot::Branch(branch) => suspend(suspended, branch, 0, task),
        Spot::Site(branch, site) => match site.checked_add(1) {
            Some(next) => suspend(suspended, branch, next, task),
            None => Ok(()),
        },
    }
}

/// One more admitted root of the domain.
#[tactic(auto, using(crate::proofs::ChangedBack::less_more))]
fn count_root(
    admitted: &mut Vec<u32>,
    alone: &mut Vec<u32>,
    domain: usize,
    concurrent: bool,
) -> Result<(), OutOfMemory>
    ensures admitted { OnOk result (admitted.new.items ≡ more domain admitted.old.items) }
    ensures alone { OnOk result (alone.new.items ≡ (if concurrent then alone.old.items else more domain alone.old.items)) }
    ensures err { OnErr result ((admitted.new.items ≡ admitted.old.items) × (alone.new.items ≡ alone.old.items)) }
{
    add_one(admitted, domain)?;
    if concurrent {
        return Ok(());
    }
    if let Err(refused) = add_one(alone, domain) {
        take_one(admitted, domain);
        return Err(refused);
    }
    Ok(())
}

fn is_yield(how: EndHow) -> bool
    ensures { result ≡ is_yield how }
{
    match how {
        EndHow::Yield => true,
        _ => false,
    }
}

/// How many branches the arbiters have.
fn count_branches(arbiters: &[ArbiterPart]) -> Result<usize, OutOfMemory>
    ensures { IfOk result (λ count. count ≡ length (placements_from 0 arbiters.now)) }
{
    let mut count: usize = 0;
    for arbiter in arbiters {
        let Some(more) = count.checked_add(arbiter.branches.as_slice().len()) else {
            return Err(OutOfMemory);
        };
        count = more;
    }
    Ok(count)
}

/// No task in any row: of the queues, of the domains, and of the sites.
fn rows_of_tasks(
    alloc: Global,
    queues: usize,
    domains: usize,
    sites: usize,
) -> Result<(Rows<TaskId>, Rows<TaskId>, Rows<TaskId>), OutOfMemory>
    ensures { IfOk result (λ rows. (rows.0 ≡ empty_rows queues) × (rows.1 ≡ empty_rows domains) × (rows.2 ≡ empty_rows sites)) }
{
    let queued = Rows::new(alloc, queues)?;
    let waiting = Rows::new(alloc, domains)?;
    let suspended = Rows::new(alloc, sites)?;
    Ok((queued, waiting, suspended))
}

/// No branch has fired: of all, of each domain, and none of a teardown.
fn flags(
    alloc: Global,
    branches: usize,
    domains: usize,
) -> Result<(Vec<bool>, Vec<bool>, Vec<bool>), OutOfMemory>
    ensures { IfOk result (λ flags. (flags.0.items ≡ replicate branches false) × (flags.1.items ≡ replicate domains false) × (flags.2.items ≡ replicate domains false)) }
{
    let spent = vec![in alloc; false; branches]?;
    let chosen = vec![in alloc; false; domains]?;
    let torn = vec![in alloc; false; domains]?;
    Ok((spent, chosen, torn))
}

/// No root is admitted, in any group or alone, and no task is on its way to a queue.
fn counts(
    alloc: Global,
    domains: usize,
    queues: usize,
) -> Result<(Vec<u32>, Vec<u32>, Vec<u32>), OutOfMemory>
    ensures { IfOk result (λ counts. (counts.0.items ≡ replicate domains 0) × (counts.1.items ≡ replicate domains 0) × (counts.2.items ≡ replicate queues 0)) }
{
    let admitted = vec![in alloc; 0; domains]?;
    let alone = vec![in alloc; 0; domains]?;
    let coming = vec![in alloc; 0; queues]?;
    Ok((admitted, alone, coming))
}

impl Ledger {
    /// The tables of the empty history of the wiring.
    pub fn new(alloc: Global, wiring: &Wiring) -> Result<Self, OutOfMemory>
        ensures { IfOk result (λ ledger. ledger ≡ empty_books wiring.now) }
    {
        let parts = wiring.parts();
        let queues = parts.queues.as_slice().len();
        let domains = parts.arbiters.as_slice().len();
        let branches = count_branches(parts.arbiters.as_slice())?;
        let Some(sites) = branches.checked_mul(MAX_ACTIONS) else {
            return Err(OutOfMemory);
        };
        let (spent, chosen, torn) = flags(alloc, branches, domains)?;
        let (admitted, alone, coming) = counts(alloc, domains, queues)?;
        let script_posts = vec![in alloc; 0; parts.posters.as_slice().len()]?;
        let (queued, waiting, suspended) = rows_of_tasks(alloc, queues, domains, sites)?;
        Ok(Ledger {
            alloc,
            ports: empty_ports(alloc, parts.ports.as_slice().len())?,
            tasks: IndexMap::new(alloc),
            guess: 0,
            queued,
            waiting,
            suspended,
            running: Vec::new(alloc),
            script_posts,
            task_posts: 0,
            spent,
            chosen,
            torn,
            admitted,
            alone,
            coming,
        })
    }

    /// One more post of the poster, or of the task.
    fn count(&mut self, name: MsgId) -> Result<(), OutOfMemory>
        ensures ok { OnOk result (self.new ≡ counted name self.old) }
        ensures err { OnErr result (self.new ≡ self.old) }
    {
        match name {
            MsgId::Script { actor, .. } => add_one(&mut self.script_posts, actor as usize),
            MsgId::Task { task, .. } => {
                let Some(posts) = self.task_posts.checked_add(1) else {
                    return Err(OutOfMemory);
                };
                count_post(&mut self.tasks, task)?;
                self.task_posts = posts;
                Ok(())
            }
        }
    }

    /// One post less of the poster, or of the task.
    fn uncount(&mut self, name: MsgId)
        ensures { self.new ≡ uncounted name self.old }
    {
        match name {
            MsgId::Script { actor, .. } => take_one(&mut self.script_posts, actor as usize),
            MsgId::Task { task, .. } => {
                uncount_post(&mut self.tasks, task);
                self.task_posts = self.task_posts.saturating_sub(1);
            }
        }
    }

    /// The message comes to its port.
    #[tactic(auto, using(crate::proofs::ChangedBack::uncounted_counted))]
    fn post(&mut self, message: Msg) -> Result<(), OutOfMemory>
        ensures ok { OnOk result (self.new ≡ after_post message self.old) }
        ensures err { OnErr result (self.new ≡ self.old) }
    {
        let name = message.id;
        self.count(name)?;
        if let Err(refused) = post_to(&mut self.ports, message) {
            self.uncount(name);
            return Err(refused);
        }
        Ok(())
    }

    /// The task, which is the oldest that waits in its domain, is admitted.
    fn admit(&mut self, task: TaskId) -> Result<(), OutOfMemory>
        ensures ok { OnOk result (self.new ≡ option_map_or (λ card. after_admit task card self.old) (card_at self.old.tasks task) self.old) }
        ensures err { OnErr result (self.new ≡ self.old) }
    {
        let Some(card) = self.card(task) else {
            return Ok(());
        };
        let domain = card.domain;
        let concurrent = card.concurrent;
        count_root(&mut self.admitted, &mut self.alone, domain, concurrent)?;
        admit_root(&mut self.tasks, task);
        self.waiting.leave(domain);
        Ok(())
    }

    /// A last segment of the root has ended or was dropped.
    fn last(&mut self, root: TaskId)
        ensures { self.new ≡ after_last root self.old }
    {
        let Some(card) = self.card(root) else {
            return;
        };
        if !card.admitted {
            return;
        }
        let domain = card.domain;
        let concurrent = card.concurrent;
        end_root(&mut self.tasks, root);
        take_one(&mut self.admitted, domain);
        if !concurrent {
            take_one(&mut self.alone, domain);
        }
    }

    /// The task, which is the oldest of this queue, leaves it.
    fn discard(&mut self, task: TaskId, spot: Spot, queue: QueueNo)
        ensures { self.new ≡ after_discard task spot queue self.old }
    {
        move_to(&mut self.tasks, task, TaskStage::Dropped);
        self.queued.leave(queue as usize);
        arrive(&mut self.coming, spot, queue);
    }

    /// The task, which is the oldest of its queue, is dropped.
    fn drop_oldest(&mut self, task: TaskId)
        ensures { self.new ≡ option_map_or (λ card. after_drop task card self.old) (card_at self.old.tasks task) self.old }
    {
        let Some(card) = self.card(task) else {
            return;
        };
        let spot = card.spot;
        let queue = card.queue;
        let root = card.root;
        self.discard(task, spot, queue);
        self.last(root);
    }

    /// The task is put into its queue, which may drop its oldest.
    fn put(&mut self, task: TaskId, dropped: Option<TaskId>) -> Result<(), OutOfMemory>
        ensures ok { OnOk result (self.new ≡ option_map_or (λ card. after_enter task card (after_dropped dropped self.old)) (card_at self.old.tasks task) self.old) }
        ensures err { OnErr result (self.new ≡ after_dropped dropped self.old) }
    {
        let Some(card) = self.card(task) else {
            return Ok(());
        };
        let queue = card.queue;
        if let Some(oldest) = dropped {
            self.drop_oldest(oldest);
        }
        self.queued.enter(queue as usize, task)?;
        move_to(&mut self.tasks, task, TaskStage::Queued);
        Ok(())
    }

    /// The task, which is the oldest of its queue, is started by the actor.
    fn start(&mut self, task: TaskId, actor: ActorNo) -> Result<(), OutOfMemory>
        ensures ok { OnOk result (self.new ≡ option_map_or (λ card. after_start task actor card self.old) (card_at self.old.tasks task) self.old) }
        ensures err { OnErr result (self.new ≡ self.old) }
    {
        let Some(card) = self.card(task) else {
            return Ok(());
        };
        let spot = card.spot;
        let queue = card.queue;
        self.running.push(Runner { task, actor })?;
        move_to(&mut self.tasks, task, TaskStage::Running);
        self.queued.leave(queue as usize);
        arrive(&mut self.coming, spot, queue);
        Ok(())
    }

    /// The task runs no more.
    fn stop(&mut self, task: TaskId)
        ensures { self.new ≡ after_stop task self.old }
    {
        move_to(&mut self.tasks, task, TaskStage::Ended);
        stop(&mut self.running, task);
    }

    /// The task ends. It is suspended, or its root is over.
    fn end(&mut self, task: TaskId, how: EndHow) -> Result<(), OutOfMemory>
        ensures ok { OnOk result (self.new ≡ option_map_or (λ card. after_end task how card self.old) (card_at self.old.tasks task) self.old) }
        ensures err { OnErr result (self.new ≡ self.old) }
    {
        let Some(card) = self.card(task) else {
            return Ok(());
        };
        let spot = card.spot;
        let root = card.root;
        if is_yield(how) {
            suspend_behind(&mut self.suspended, spot, task)?;
            self.stop(task);
        } else {
            self.stop(task);
            self.last(root);
        }
        Ok(())
    }

    /// Enters the event, which is allowed after those before it. Without memory the tables stay as they were, but for what a
    /// firing has cut and taken, and for what a put has dropped.
    pub fn push(&mut self, wiring: &Wiring, event: &Event) -> Result<(), OutOfMemory>
        ensures ok { OnOk result (self.new ≡ after_event wiring.now event.now self.old) }
        ensures err { OnErr result (IsRefused event.now self.old self.new) }
    {
        match event {
            Event::Post(message) => self.post(message.copy(self.alloc)?),
            Event::Fire {
                task,
                spot,
                messages,
                cuts,
            } => self.fire(wiring, *task, *spot, messages.as_slice(), cuts.as_slice()),
            Event::Admit(task) => self.admit(*task),
            Event::Put { task, dropped } => self.put(*task, *dropped),
            Event::Start { task, actor } => self.start(*task, *actor),
            Event::End { task, how } => self.end(*task, *how),
        }
    }
}

//! The attempt: it books, claims port by port, commits, and settles what it has in hand.

ghost use Rattle.std.specs.Prelude.{◌≡◌, ◌⊎◌, ◌==◌, ◌≤◌, [], length, reverse, vec_capacity, IsTrue, IfOk, None};
ghost use Rattle.ccr_claim.specs.declared.asks.Due.TheVariants as dues;
ghost use Rattle.ccr_claim.specs.declared.asks.Reply.TheVariants as replies;
ghost use Rattle.ccr_claim.specs.declared.outcomes.Why.TheVariants as whys;
ghost use Rattle.ccr_claim.specs.Asks.{fits, may_come};
ghost use Rattle.ccr_claim.specs.Attempts.{begun, next, sent, replied, given_up, port_of, progress_of, IsAfter, IsAfterReply};
ghost use Rattle.ccr_claim.specs.Plans.{slots_in};

use crate::firing::{Firing, ready};
use crate::hand::{claim, completion, release, resumes, stage_due, unanswered_by};
use crate::outcomes::{Next, Outcome, Progress, Why};
use crate::slots::{copy_in, in_order, next_slot, order_in};
use crate::stages::{Stage, Unanswered};
use crate::{Ask, Asked, ClaimPlan, Due, Had, Reply};
use ccr_base::{
    ArbiterNo, Cut, List, Msg, OutOfMemory, Pattern, Place, PortNo, QueueNo, Slot, Spot, Task,
    TaskId,
};
use std::alloc::Global;
use std::collections::VecDeque;
use std::marker::Model;

/// One attempt to fire at a spot.
#[derive(Drop)]
pub struct Attempt {
    alloc: Global,
    plan: ClaimPlan,
    task: TaskId,
    stage: Stage,
    unanswered: Unanswered,
    /// The slots still to be claimed, the next one last.
    left: Vec<Slot>,
    /// What the claims got that aren't settled yet, the one that is settled next last. There is room for all slots.
    had: Vec<Had>,
    /// What is committed next.
    firing: Option<Firing>,
    /// Whether a booking is to be ended where the attempt was given up.
    booked: bool,
    /// The cut tasks whose bookings are still to be ended.
    cuts: VecDeque<Cut>,
    /// The task that is still to be put.
    put: Option<Task>,
    /// The task that the put dropped.
    dropped: Option<Task>,
}

impl Model for Attempt {
    ghost use Rattle.ccr_claim.specs.Attempts.{AttemptState};
    ghost use Rattle.ccr_claim.specs.Inside.{seen, IsSound};

    ghost Value = { AttemptState };

    ghost view = { λ a. seen a.plan a.task a.stage a.unanswered a.left.items a.had.items a.booked a.cuts.items a.put a.dropped };

    ghost use Rattle.std.specs.Prelude.{vec_capacity};

    ghost invariant = { λ a. IsSound a.plan a.task a.stage a.unanswered a.left.items a.had.items (vec_capacity a.had) a.firing };
}

/// No claims, with room for so many.
fn cleared(had: Vec<Had>, room: usize) -> Result<Vec<Had>, OutOfMemory>
    ensures { IfOk result (λ had. (had.items ≡ []) × (room ≤ vec_capacity had)) }
{
    let mut had = had;
    had.clear();
    had.reserve(room)?;
    Ok(had)
}

/// An attempt that has asked nothing yet, with its slots and no claims.
fn unasked(alloc: Global, plan: ClaimPlan, task: TaskId, left: Vec<Slot>, had: Vec<Had>) -> Attempt
    requires left { left.items ≡ reverse (slots_in plan.pattern) }
    requires had { had.items ≡ [] }
    requires room { length left.items ≤ vec_capacity had }
    ensures { result ≡ begun plan task }
{
    Attempt {
        alloc,
        plan,
        task,
        stage: Stage::Booking,
        unanswered: Unanswered::Nothing,
        left,
        had,
        firing: None,
        booked: false,
        cuts: VecDeque::new(alloc),
        put: None,
        dropped: None,
    }
}

impl Attempt {
    /// An attempt that has asked nothing yet. Takes the memory for its slots.
    pub fn begin(alloc: Global, plan: ClaimPlan, task: TaskId) -> Result<Attempt, OutOfMemory>
        ensures { IfOk result (λ attempt. attempt ≡ begun plan task) }
    {
        let left = in_order(alloc, &plan.pattern)?;
        let had = Vec::with_capacity(alloc, left.len())?;
        Ok(unasked(alloc, plan, task, left, had))
    }

    /// The same in the memory of an earlier attempt, which is done with, at a spot of the domain of this number. Where that has
    /// room for the slots, it takes none.
    pub fn begin_in(
        old: Attempt,
        spot: Spot,
        pattern: &Pattern,
        queue: QueueNo,
        domain: ArbiterNo,
        task: TaskId,
    ) -> Result<Attempt, OutOfMemory>
        ensures { IfOk result (λ attempt. attempt ≡ begun (record { spot = spot; pattern = pattern.now; queue = queue; arbiter = domain }) task) }
    {
        let Attempt {
            alloc,
            plan,
            left,
            had,
            ..
        } = old;
        let left = order_in(left, pattern)?;
        let had = cleared(had, left.len())?;
        let plan = ClaimPlan {
            spot,
            pattern: copy_in(alloc, plan.pattern, pattern)?,
            queue,
            arbiter: domain,
        };
        Ok(unasked(alloc, plan, task, left, had))
    }

    /// Moves out the next ask, or tells how the attempt ended; a dropped task is handed out once. Takes no memory.
    #[inline(always)]
    pub fn next(&mut self) -> Next
        requires { self.old.due ≡ dues.Nothing }
        ensures next { result ≡ next self.old }
        ensures kept { self.new ≡ sent self.old }
    {
        match self.stage {
            Stage::Booking => {
                self.unanswered = Unanswered::Ask;
                let ask = Ask::Book(self.task, resumes(&self.plan.spot));
                Next::Ask(Place::Queue(self.plan.queue), ask)
            }
            Stage::Claiming => {
                self.unanswered = Unanswered::Ask;
                let Asked { place, ask } = claim(
                    &self.plan,
                    self.task,
                    &self.left,
                    &self.had,
                    &mut self.firing,
                );
                Next::Ask(place, ask)
            }
            Stage::Fired { waits } => {
                match completion(self.task, &mut self.had, &mut self.cuts, &mut self.put) {
                    Some(Asked { place, ask }) => {
                        self.unanswered = unanswered_by(&ask);
                        Next::Ask(place, ask)
                    }
                    None => Next::Ended(Outcome::Fired {
                        waits,
                        dropped: self.dropped.take(),
                    }),
                }
            }
            Stage::GaveUp(why) => {
                match release(self.task, self.plan.queue, &mut self.had, &mut self.booked) {
                    Some(Asked { place, ask }) => {
                        self.unanswered = unanswered_by(&ask);
                        Next::Ask(place, ask)
                    }
                    None => Next::Ended(Outcome::GaveUp(why)),
                }
            }
        }
    }

    /// Which replies the unanswered ask may have; none where there is none.
    pub fn due(&self) -> Due
        ensures { result ≡ self.now.due }
    {
        match self.unanswered {
            Unanswered::Nothing => Due::Nothing,
            Unanswered::Ask => stage_due(self.stage, Unanswered::Ask, &self.left),
            Unanswered::Put => stage_due(self.stage, Unanswered::Put, &self.left),
        }
    }

    /// Where the attempt stands.
    pub fn progress(&self) -> Progress
        ensures { result ≡ progress_of self.now.ended }
    {
        match self.stage {
            Stage::Booking | Stage::Claiming => Progress::Running,
            Stage::Fired { waits } => Progress::Fired { waits },
            Stage::GaveUp(why) => Progress::GaveUp(why),
        }
    }

    /// Whether nothing is left to be settled.
    pub fn is_settled(&self) -> bool
        ensures { result ≡ (length self.now.hand == 0) }
    {
        match self.stage {
            Stage::Booking | Stage::Claiming => true,
            Stage::Fired { .. } => {
                self.had.is_empty() && self.cuts.is_empty() && self.put.is_none()
            }
            Stage::GaveUp(_) => self.had.is_empty() && !self.booked,
        }
    }

    /// Takes in the answer to the ask that was made last. Where the attempt finds no memory for what is next, it is
    /// given up.
    #[inline(always)]
    pub fn got(&mut self, reply: Result<Reply, OutOfMemory>)
        requires { IsTrue (may_come self.old.due reply) }
        ensures after { IsAfter self.old reply self.new }
        ensures quiet { self.new.due ≡ dues.Nothing }
    {
        match reply {
            Err(_) => {
                let _ = &self.stage;
                self.give_up(Why::Memory);
            }
            Ok(reply) => self.take_in(reply),
        }
    }

    #[inline(always)]
    fn take_in(&mut self, reply: Reply)
        requires { IsTrue (fits self.old.due reply) }
        ensures after { IsAfterReply self.old reply self.new }
        ensures quiet { self.new.due ≡ dues.Nothing }
    {
        let _ = &self.stage;
        match reply {
            Reply::Booked => self.booked(),
            Reply::Got(messages) => self.claimed(messages),
            Reply::Fired { task, cuts } => self.fired(task, cuts),
            Reply::Full(n) => self.give_up(Why::Full(n)),
            Reply::Busy(task) => {
                let port = self.port();
                self.give_up(Why::Busy(port, task));
            }
            Reply::Short(n) => {
                let port = self.port();
                self.give_up(Why::Short(port, n));
            }
            Reply::Dead(by) => self.give_up(Why::Dead(by)),
            Reply::Dropped(task) => self.note_dropped(task),
            _ => self.unanswered = Unanswered::Nothing,
        }
    }

    /// The port of the claim that is next or unanswered.
    fn port(&self) -> PortNo
        ensures { result ≡ port_of self.now.phase }
    {
        match self.stage {
            Stage::Claiming => match self.left.last() {
                Some(slot) => slot.port,
                None => 0,
            },
            _ => 0,
        }
    }

    /// Hands back what the attempt had.
    fn give_up(&mut self, why: Why)
        requires { self.old.ended ≡ None }
        ensures { self.new ≡ given_up why self.old }
    {
        self.booked = matches!(self.stage, Stage::Claiming);
        self.stage = Stage::GaveUp(why);
        self.unanswered = Unanswered::Nothing;
    }

    /// Makes the commit ready once no slot is left. Where there is no memory for it the attempt is given up.
    fn prepare(&mut self)
        requires { self.old.ended ≡ None }
        ensures { (self.new ≡ record self.old { due = dues.Nothing }) ⊎ (self.new ≡ given_up whys.Memory self.old) }
    {
        match ready(self.alloc, &self.left, &self.plan, self.task, &self.had) {
            Ok(firing) => {
                self.firing = firing;
                self.unanswered = Unanswered::Nothing;
            }
            Err(_) => self.give_up(Why::Memory),
        }
    }

    /// The queue booked the task.
    fn booked(&mut self)
        requires { IsTrue (fits self.old.due replies.Booked) }
        ensures { IsAfterReply self.old replies.Booked self.new }
    {
        self.stage = Stage::Claiming;
        self.prepare();
    }

    /// The claim got these messages.
    fn claimed(&mut self, messages: List<Msg>)
        requires { IsTrue (fits self.old.due (replies.Got messages)) }
        ensures { IsAfterReply self.old (replies.Got messages) self.new }
    {
        let got = messages.as_slice().len();
        let Some(slot) = next_slot(&self.plan.pattern, &mut self.left, got) else {
            unreachable!();
        };
        self.had.push_reserved(Had { slot, messages });
        self.prepare();
    }

    /// The attempt fired this task, and cut those.
    fn fired(&mut self, task: Option<Task>, cuts: List<Cut>)
        requires { IsTrue (fits self.old.due (replies.Fired task cuts)) }
        ensures { self.new ≡ replied self.old (replies.Fired task cuts) }
    {
        self.had.reverse();
        self.cuts = VecDeque::from_vec(cuts.into_vec());
        self.stage = Stage::Fired {
            waits: task.is_none(),
        };
        self.put = task;
        self.dropped = None;
        self.unanswered = Unanswered::Nothing;
    }

    /// The put dropped this task.
    fn note_dropped(&mut self, task: Option<Task>)
        requires { IsTrue (fits self.old.due (replies.Dropped task)) }
        ensures { self.new ≡ replied self.old (replies.Dropped task) }
    {
        self.unanswered = Unanswered::Nothing;
        if let Stage::Fired { .. } = self.stage {
            self.dropped = task;
        }
    }
}

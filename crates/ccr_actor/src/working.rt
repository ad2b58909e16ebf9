//! The work of an actor: its script, its rounds, and the plays of its tasks.

ghost use Rattle.std.specs.Prelude.{◌≡◌, [], ℕ, ◌<◌, ◌+◌, ◌^◌, false, IsTrue, OnOk, OnErr, length};
ghost use Rattle.ccr_base.specs.Bounds.{most_empty_rounds};
ghost use Rattle.ccr_actor.specs.Actors.{after_end, after_line, after_over, after_play, after_posting, after_round, after_take, after_work, round, begin_play, most_taken, next_round, rest_or_round, shedding, take_from};
ghost use Rattle.ccr_actor.specs.Courses.{state_of, IsBeside, IsCounted, IsPlayCounted, IsStep};
ghost use Rattle.ccr_actor.specs.Inside.{play_of, work_of};
ghost use Rattle.ccr_actor.specs.Needs.{adds_domain, end_needs, has_any, is_unnumbered, line_needs, play_needs, take_needs, take_unnumbered, work_needs, work_unnumbered};
ghost use Rattle.ccr_wiring.specs.Takers.{spots_at};
ghost use Rattle.ccr_claim.specs.Attempts.{booking};
ghost use Rattle.ccr_wiring.specs.Wirings.{segment_of};

use crate::course::{Course, EMPTY_ROUNDS, MOST};
use crate::driven::Driven;
use crate::wired::{play_in, throttled};
use crate::work::{Playing, Work};
use ccr_base::{OutOfMemory, Sent, Spot, Task};
use ccr_claim::{Lines, Reply};
use ccr_handler::{Play, PlayEnd};
use ccr_wiring::{QueuePart, branch_of, segment_of};
use std::collections::VecDeque;
use std::mem::replace;

/// The task ends for want of budget.
fn shed<'w>(playing: Playing) -> Work<'w>
    ensures work { work_of result ≡ shedding playing.task }
    ensures counted { (taken empty : ℕ) → empty < most_empty_rounds → IsCounted result taken empty }
{
    let Playing { task, .. } = playing;
    Work::Shedding(task)
}

impl<'w> Course<'w> {
    /// A worker takes no more after so many tasks.
    fn next_round(&mut self)
        requires { self.old.empty < most_empty_rounds }
        ensures state { state_of self.new ≡ record (state_of self.old) { work = next_round self.old.taken } }
        ensures counted { IsCounted self.new.work self.new.taken self.new.empty }
        ensures attempt { self.new.attempt ≡ self.old.attempt }
        ensures beside { IsBeside self.old self.new }
    {
        self.work = if self.taken < MOST {
            Work::Round
        } else {
            Work::Resting
        };
    }

    /// The line was posted, or the poster has left.
    pub fn line_made(&mut self, lines: Lines<'w>) -> Result<(), OutOfMemory>
        requires counted { lines.index + length lines.left < 2 ^ 32 }
        ensures ok { OnOk result (state_of self.new ≡ after_line self.old.wiring.now (state_of self.old) lines.entry.index lines.entry.left) }
        ensures counted { OnOk result (IsCounted self.new.work self.new.taken self.new.empty) }
        ensures err { OnErr result ((state_of self.new).hand ≡ (state_of self.old).hand) }
        ensures needs { OnErr result (IsTrue (line_needs self.old.wiring.now lines.entry.left)) }
        ensures attempt { self.new.attempt ≡ self.old.attempt }
        ensures beside { IsBeside self.old self.new }
    {
        let Some(sent) = lines.next() else {
            self.work = Work::Resting;
            return Ok(());
        };
        self.spots = Driven::of(self.wiring.spots_at(sent.port()));
        self.fired = 0;
        self.work = Work::Lines(lines.behind());
        Ok(())
    }

    /// An empty round: rest where all posters have left, or after so many.
    fn rest_or_round(&mut self, left: u32)
        requires taken { self.old.taken < most_taken }
        requires empty { self.old.empty < most_empty_rounds }
        ensures state { state_of self.new ≡ rest_or_round self.old.wiring.now (state_of self.old) left }
        ensures counted { IsCounted self.new.work self.new.taken self.new.empty }
        ensures attempt { self.new.attempt ≡ self.old.attempt }
        ensures beside { IsBeside self.old self.new }
    {
        self.empty += 1;
        let posters = self.wiring.parts().posters.as_slice().len();
        self.work = if left as usize == posters || self.empty >= EMPTY_ROUNDS {
            Work::Resting
        } else {
            Work::Round
        };
    }

    /// The queues from this one on are still to be asked.
    fn take_from(&mut self, left: u32, queue: u32, more: &'w [QueuePart])
        requires queues { queue + length more.now < 2 ^ 32 }
        requires taken { self.old.taken < most_taken }
        requires empty { self.old.empty < most_empty_rounds }
        ensures state { state_of self.new ≡ take_from self.old.wiring.now (state_of self.old) left queue more.now }
        ensures counted { IsCounted self.new.work self.new.taken self.new.empty }
        ensures attempt { self.new.attempt ≡ self.old.attempt }
        ensures beside { IsBeside self.old self.new }
    {
        if more.is_empty() {
            self.rest_or_round(left);
        } else {
            self.work = Work::Taking {
                left,
                queue,
                more: &more[1..],
            };
        }
    }

    /// The task's segment begins. Where it has no number of 32 bits, or more posts than there are such numbers, the answer is
    /// running out of memory.
    fn begin_play(&mut self, queue: u32, task: Task) -> Result<(), OutOfMemory>
        requires taken { self.old.taken < most_taken }
        requires empty { self.old.empty < most_empty_rounds }
        ensures ok { OnOk result (state_of self.new ≡ begin_play self.old.wiring.now (state_of self.old) queue task) }
        ensures counted { OnOk result (IsCounted self.new.work self.new.taken self.new.empty) }
        ensures err { OnErr result ((state_of self.new).hand ≡ (state_of self.old).hand) }
        ensures numbered { OnOk result (is_unnumbered self.old.wiring.now task ≡ false) }
        ensures attempt { self.new.attempt ≡ self.old.attempt }
        ensures beside { IsBeside self.old self.new }
    {
        let Some(segment) = segment_of(task.spot) else {
            return Err(OutOfMemory);
        };
        let Play { posts, end, causes } = play_in(self.alloc, self.wiring, &task, segment)?;
        if posts.len() > u32::MAX as usize {
            return Err(OutOfMemory);
        }
        self.spots = Driven::of(throttled(self.wiring, queue));
        self.fired = 0;
        self.taken += 1;
        self.work = Work::Playing(Playing {
            task,
            segment,
            index: 0,
            posts: VecDeque::from_vec(posts.into_vec()),
            end,
            causes,
        });
        Ok(())
    }

    /// The task is over: admissions at its Interleave, and a new round.
    pub fn task_over(&mut self, task: &Task) -> Result<(), OutOfMemory>
        requires { self.old.empty < most_empty_rounds }
        ensures ok { OnOk result (state_of self.new ≡ after_over self.old.wiring.now (state_of self.old) task.now) }
        ensures counted { OnOk result (IsCounted self.new.work self.new.taken self.new.empty) }
        ensures err { OnErr result ((state_of self.new).hand ≡ (state_of self.old).hand) }
        ensures needs { OnErr result (IsTrue (adds_domain self.old.wiring.now task.now.arbiter self.old.domains.items)) }
        ensures attempt { self.new.attempt ≡ self.old.attempt }
        ensures beside { IsBeside self.old self.new }
    {
        self.next_round();
        self.admitted = 0;
        self.add_domain(task.arbiter)
    }

    /// The task was suspended at the site, which is driven, and a new round follows; or it is over.
    fn play_ended(&mut self, playing: &Playing) -> Result<(), OutOfMemory>
        requires empty { self.old.empty < most_empty_rounds }
        requires segment { playing.now.segment ≡ segment_of playing.now.task.spot }
        ensures ok { OnOk result (state_of self.new ≡ after_end self.old.wiring.now (state_of self.old) playing.now.task playing.now.end) }
        ensures counted { OnOk result (IsCounted self.new.work self.new.taken self.new.empty) }
        ensures err { OnErr result ((state_of self.new).hand ≡ (state_of self.old).hand) }
        ensures needs { OnErr result (IsTrue (end_needs self.old.wiring.now (state_of self.old) playing.now.task playing.now.end)) }
        ensures attempt { self.new.attempt ≡ self.old.attempt }
        ensures beside { IsBeside self.old self.new }
    {
        match playing.end {
            PlayEnd::Done | PlayEnd::Failed(_) => self.task_over(&playing.task),
            PlayEnd::Yield(_) => {
                let site = Spot::Site(branch_of(playing.task.spot), playing.segment);
                self.spots = Driven::site(site);
                self.fired = 0;
                self.next_round();
                Ok(())
            }
        }
    }

    /// The next post was drawn, or no budget is left for it; or the play has ended.
    pub fn played(&mut self, mut playing: Playing, reply: &Reply) -> Result<(), OutOfMemory>
        requires empty { self.old.empty < most_empty_rounds }
        requires counted { IsPlayCounted playing (length playing.posts.items) }
        ensures ok { OnOk result (state_of self.new ≡ after_play self.old.wiring.now (state_of self.old) playing.task playing.index (play_of playing) playing.posts.items reply.now) }
        ensures counted { OnOk result (IsCounted self.new.work self.new.taken self.new.empty) }
        ensures err { OnErr result ((state_of self.new).hand ≡ (state_of self.old).hand) }
        ensures needs { OnErr result (IsTrue (play_needs self.old.wiring.now (state_of self.old) playing.task playing.end playing.posts.items)) }
        ensures attempt { self.new.attempt ≡ self.old.attempt }
        ensures beside { IsBeside self.old self.new }
    {
        let Some(sent) = playing.posts.pop_front() else {
            return self.play_ended(&playing);
        };
        self.work = match reply {
            Reply::Drawn(_) => Work::Posting(playing, sent),
            _ => shed(playing),
        };
        Ok(())
    }

    /// The post was made: the spots that name its port are driven.
    pub fn post_made(&mut self, playing: Playing, sent: &Sent) -> Result<(), OutOfMemory>
        requires empty { self.old.empty < most_empty_rounds }
        requires counted { IsPlayCounted playing (length playing.posts.items + 1) }
        ensures ok { OnOk result (state_of self.new ≡ after_posting self.old.wiring.now (state_of self.old) playing.task playing.index (play_of playing) sent.now) }
        ensures counted { OnOk result (IsCounted self.new.work self.new.taken self.new.empty) }
        ensures err { OnErr result ((state_of self.new).hand ≡ (state_of self.old).hand) }
        ensures needs { OnErr result (IsTrue (has_any (spots_at self.old.wiring.now sent.now.port))) }
        ensures attempt { self.new.attempt ≡ self.old.attempt }
        ensures beside { IsBeside self.old self.new }
    {
        self.spots = Driven::of(self.wiring.spots_at(sent.port));
        self.fired = 0;
        let index = playing.index + 1;
        self.work = Work::Playing(Playing { index, ..playing });
        Ok(())
    }

    /// How many posters have left: the queues are asked from the first on.
    pub fn round_begun(&mut self, left: u32)
        requires taken { self.old.taken < most_taken }
        requires empty { self.old.empty < most_empty_rounds }
        ensures state { state_of self.new ≡ take_from self.old.wiring.now (state_of self.old) left 0 self.old.wiring.now.queues }
        ensures counted { IsCounted self.new.work self.new.taken self.new.empty }
        ensures attempt { self.new.attempt ≡ self.old.attempt }
        ensures beside { IsBeside self.old self.new }
    {
        let queues = self.wiring.parts().queues.as_slice();
        self.take_from(left, 0, queues);
    }

    /// The meter answered, and the queues are asked.
    fn round_answered(&mut self, reply: &Reply)
        requires taken { self.old.taken < most_taken }
        requires empty { self.old.empty < most_empty_rounds }
        ensures state { state_of self.new ≡ after_round self.old.wiring.now (record (state_of self.old) { work = round }) reply.now }
        ensures counted { IsCounted self.new.work self.new.taken self.new.empty }
        ensures attempt { self.new.attempt ≡ self.old.attempt }
        ensures beside { IsBeside self.old self.new }
    {
        match reply {
            Reply::Left(left) => self.round_begun(*left),
            _ => self.work = Work::Round,
        }
    }

    /// A task was taken, or the next queue is asked.
    pub fn took(
        &mut self,
        left: u32,
        queue: u32,
        more: &'w [QueuePart],
        reply: Reply,
    ) -> Result<(), OutOfMemory>
        requires queues { queue + length more.now + 1 < 2 ^ 32 }
        requires taken { self.old.taken < most_taken }
        requires empty { self.old.empty < most_empty_rounds }
        ensures ok { OnOk result (state_of self.new ≡ after_take self.old.wiring.now (state_of self.old) left queue more.now reply) }
        ensures counted { OnOk result (IsCounted self.new.work self.new.taken self.new.empty) }
        ensures err { OnErr result ((state_of self.new).hand ≡ (state_of self.old).hand) }
        ensures needs { OnErr result (IsTrue (take_needs reply)) }
        ensures numbered { OnOk result (take_unnumbered self.old.wiring.now reply ≡ false) }
        ensures attempt { self.new.attempt ≡ self.old.attempt }
        ensures beside { IsBeside self.old self.new }
    {
        if let Reply::Taken(Some(task)) = reply {
            return self.begin_play(queue, task);
        }
        self.take_from(left, queue + 1, more);
        Ok(())
    }

    /// Takes in the reply to the ask of the work.
    #[inline(always)]
    pub fn worked(&mut self, reply: Reply) -> Result<(), OutOfMemory>
        requires counted { IsCounted self.old.work self.old.taken self.old.empty }
        requires idle { (state_of self.old).hand ≡ [] }
        requires phase { (state_of self.old).phase ≡ booking }
        ensures step { IsStep result self.old.wiring.now self.old.number (after_work self.old.wiring.now (state_of self.old) (state_of self.old).work reply) (state_of self.new) }
        ensures needs { OnErr result (IsTrue (work_needs self.old.wiring.now (state_of self.old) (state_of self.old).work reply)) }
        ensures numbered { OnOk result (work_unnumbered self.old.wiring.now (state_of self.old).work reply ≡ false) }
        ensures counted { OnOk result (IsCounted self.new.work self.new.taken self.new.empty) }
        ensures attempt { self.new.attempt ≡ self.old.attempt }
        ensures beside { IsBeside self.old self.new }
    {
        match replace(&mut self.work, Work::Resting) {
            Work::Lines(lines) => self.line_made(lines),
            Work::Round => {
                self.round_answered(&reply);
                Ok(())
            }
            Work::Taking { left, queue, more } => self.took(left, queue, more, reply),
            Work::Playing(playing) => self.played(playing, &reply),
            Work::Posting(playing, sent) => self.post_made(playing, &sent),
            Work::Shedding(task) => self.task_over(&task),
            Work::Resting => Ok(()),
        }
    }
}

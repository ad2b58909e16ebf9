//! What an actor asks next, and what it makes ready for that.

ghost use Rattle.std.specs.Prelude.{◌≡◌, ◌⊎◌, ◌==◌, true, false, [], not, is_some, length, IfOk, IsTrue, OnOk, OnErr, MatchOption, IfSome, IfNone, option_map};
ghost use Rattle.ccr_claim.specs.declared.asks.Due.TheVariants as dues;
ghost use Rattle.ccr_actor.specs.Acting.{asking_of, sent_state, sent_work};
ghost use Rattle.ccr_actor.specs.Actors.{asked, spots_left, turn, work_ask};
ghost use Rattle.ccr_actor.specs.Courses.{asking_by, due_at, due_next, is_running, state_of, taken_due, IsAsked, IsBeside, IsCounted, IsIdle, IsLine, IsPast, IsReady, IsUnderWay};
ghost use Rattle.ccr_actor.specs.Inside.{work_of};
ghost use Rattle.ccr_actor.specs.Needs.{has_any, next_needs, next_work_needs};
ghost use Rattle.ccr_claim.specs.Asks.{due_of};
ghost use Rattle.ccr_claim.specs.Attempts.{attempt_ask};

use crate::attempting::take_ask;
use crate::course::{Course, Part};
use crate::wired::attempt_at;
use crate::work::{Work, over};
use ccr_base::{CauseNo, How, List, OutOfMemory, Place, TaskId};
use ccr_claim::{Ask, Asked, Progress};
use std::alloc::Global;

/// The same causes. To copy none takes no memory.
fn copied(alloc: Global, causes: &[CauseNo]) -> Result<List<CauseNo>, OutOfMemory>
    ensures same { IfOk result (λ same. same ≡ causes.now) }
    ensures needs { OnErr result (IsTrue (has_any causes.now)) }
{
    if causes.is_empty() {
        return Ok(List::new(alloc));
    }
    Ok(List::from_vec(Vec::from_slice(alloc, causes)?))
}

impl Course<'_> {
    /// Moves out the ask of the work.
    fn work_ask(&mut self) -> Option<Asked>
        requires line { IsLine self.old.work self.old.line }
        requires counted { IsCounted self.old.work self.old.taken self.old.empty }
        ensures asked { result ≡ work_ask self.old.number (work_of self.old.work) }
        ensures state { state_of self.new ≡ record (state_of self.old) { work = sent_work (work_of self.old.work) } }
        ensures counted { IsCounted self.new.work self.new.taken self.new.empty }
        ensures attempt { self.new.attempt ≡ self.old.attempt }
        ensures idle { IsIdle self.old → IsIdle self.new }
        ensures beside { IsBeside self.old self.new }
    {
        match &mut self.work {
            Work::Lines(lines) => Some(lines.ask(self.number, &mut self.line)),
            Work::Round => Some(Asked {
                place: Place::Meter,
                ask: Ask::Left,
            }),
            Work::Taking { queue, .. } => Some(Asked {
                place: Place::Queue(*queue),
                ask: Ask::Take,
            }),
            Work::Playing(playing) => Some(playing.ask(self.alloc)),
            Work::Posting(playing, sent) => Some(playing.post(sent, self.alloc)),
            Work::Shedding(task) => Some(over(task, How::Shed)),
            Work::Resting => None,
        }
    }

    /// Moves out the ask of the attempt that runs.
    fn attempt_ask(&mut self) -> Asked
        requires way { IsUnderWay self.old }
        requires quiet { due_at self.old.attempt ≡ dues.Nothing }
        ensures asked { MatchOption self.old.attempt ⊥ (λ attempt. result ≡ attempt_ask attempt.plan attempt.task attempt.phase) }
        ensures state { state_of self.new ≡ state_of self.old }
        ensures due { due_at self.new.attempt ≡ due_of result.ask }
        ensures next { due_of result.ask ≡ due_next self.new.attempt }
        ensures way { IsUnderWay self.new }
        ensures work { (self.new.work ≡ self.old.work) × (self.new.line ≡ self.old.line) }
        ensures beside { IsBeside self.old self.new }
    {
        let Some(attempt) = &mut self.attempt else {
            unreachable!();
        };
        take_ask(attempt)
    }

    /// Whether an attempt runs.
    fn is_running(&self) -> bool
        ensures { result ≡ is_running self.now.attempt }
    {
        match &self.attempt {
            Some(attempt) => matches!(attempt.progress(), Progress::Running),
            None => false,
        }
    }

    /// An attempt at the first spot begins, unless one runs.
    fn begin_attempt(&mut self) -> Result<(), OutOfMemory>
        requires idle { IsIdle self.old }
        requires domains { self.old.domains.items ≡ [] }
        requires spots { not (length (spots_left (state_of self.old)) == 0) ≡ true }
        requires short { self.old.short ≡ false }
        requires attempt { IsPast self.old.attempt ⊎ IsUnderWay self.old }
        requires quiet { due_at self.old.attempt ≡ dues.Nothing }
        ensures state { state_of self.new ≡ state_of self.old }
        ensures way { OnOk result (IsUnderWay self.new) }
        ensures quiet { due_at self.new.attempt ≡ dues.Nothing }
        ensures past { OnErr result (IsPast self.new.attempt) }
        ensures needs { OnErr result (IsTrue (next_needs (state_of self.old))) }
        ensures work { (self.new.work ≡ self.old.work) × (self.new.line ≡ self.old.line) }
        ensures beside { IsBeside self.old self.new }
    {
        if self.is_running() {
            return Ok(());
        }
        let Some(spot) = self.spots.first() else {
            unreachable!();
        };
        let name = TaskId {
            actor: self.number,
            attempt: self.count as u32,
        };
        let earlier = self.attempt.take();
        self.attempt = Some(attempt_at(self.alloc, self.wiring, spot, name, earlier)?);
        Ok(())
    }

    /// The causes of the next line's post.
    fn make_line(&mut self) -> Result<(), OutOfMemory>
        ensures state { state_of self.new ≡ state_of self.old }
        ensures line { OnOk result (IsLine self.new.work self.new.line) }
        ensures needs { OnErr result (IsTrue (next_work_needs (work_of self.old.work))) }
        ensures attempt { self.new.attempt ≡ self.old.attempt }
        ensures idle { (self.new.dropped ≡ self.old.dropped) × (self.new.put ≡ self.old.put) }
        ensures work { self.new.work ≡ self.old.work }
        ensures beside { IsBeside self.old self.new }
    {
        if let Work::Lines(lines) = &self.work {
            if let Some(sent) = lines.next() {
                self.line = Some(copied(self.alloc, sent.causes())?);
            }
        }
        Ok(())
    }

    /// Whether anything is in hand.
    pub fn has_anything(&self) -> bool
        ensures idle { (result ≡ false → IsIdle self.now) × (result ≡ true → IsIdle self.now → ⊥) }
    {
        self.dropped.is_some() || self.has_hand() || self.put.is_some()
    }

    /// What is asked next is made ready.
    pub fn prepare(&mut self) -> Result<(), OutOfMemory>
        requires attempt { IsPast self.old.attempt ⊎ IsUnderWay self.old }
        requires quiet { due_at self.old.attempt ≡ dues.Nothing }
        requires short { self.old.short ≡ false }
        ensures state { state_of self.new ≡ state_of self.old }
        ensures ready { OnOk result (IsReady self.new) }
        ensures err { OnErr result (IsPast self.new.attempt) }
        ensures idle { OnErr result ((state_of self.new).hand ≡ []) }
        ensures needs { OnErr result (IsTrue (next_needs (state_of self.old))) }
        ensures quiet { due_at self.new.attempt ≡ dues.Nothing }
        ensures work { self.new.work ≡ self.old.work }
        ensures beside { IsBeside self.old self.new }
    {
        if self.has_anything() || !self.domains.is_empty() {
            return Ok(());
        }
        if self.drives() {
            self.begin_attempt()
        } else {
            self.make_line()
        }
    }

    /// Whether nothing is to be asked.
    pub fn is_done(&self) -> bool
        ensures { result ≡ not (is_some (asked self.now.wiring.now self.now.number (state_of self.now))) }
    {
        if self.has_anything() {
            return false;
        }
        if self.short {
            return true;
        }
        self.domains.is_empty() && !self.drives() && matches!(self.work, Work::Resting)
    }

    /// Moves out what is asked next, and tells which part asks.
    pub fn ask(&mut self) -> Option<(Part, Asked)>
        requires quiet { due_at self.old.attempt ≡ dues.Nothing }
        requires ready { IsReady self.old }
        requires counted { self.old.short ≡ false → IsCounted self.old.work self.old.taken self.old.empty }
        ensures asked { option_map (λ taken. taken.1) result ≡ asked self.old.wiring.now self.old.number (state_of self.old) }
        ensures state { state_of self.new ≡ sent_state (state_of self.old) (turn (state_of self.old)) }
        ensures asking { asking_by result ≡ asking_of (turn (state_of self.old)) (asked self.old.wiring.now self.old.number (state_of self.old)) }
        ensures part { IfSome result (λ taken. IsAsked self.new taken.0 (due_of taken.1.ask)) }
        ensures rest { IfNone result (IsReady self.new) }
        ensures due { due_at self.new.attempt ≡ taken_due result }
        ensures counted { self.new.short ≡ false → IsCounted self.new.work self.new.taken self.new.empty }
        ensures beside { IsBeside self.old self.new }
    {
        if let Some(taken) = self.take_hand() {
            return Some(taken);
        }
        if self.short {
            return None;
        }
        if let Some(domain) = self.domains.front() {
            let asked = Asked {
                place: Place::Arbiter(*domain),
                ask: Ask::Admit,
            };
            return Some((Part::Admit, asked));
        }
        if self.drives() {
            return Some((Part::Drive, self.attempt_ask()));
        }
        let asked = self.work_ask()?;
        Some((Part::Work, asked))
    }
}

//! The drive of an actor: an attempt after the other at its spots.

ghost use Rattle.std.specs.Prelude.{◌≡◌, ◌<◌, ◌==◌, ◌⊎◌, ◌^◌, ◌∷◌, drop, not, true, IsTrue, OnOk, OnErr, IsErr, length};
ghost use Rattle.ccr_claim.specs.declared.asks.Due.TheVariants as dues;
ghost use Rattle.ccr_claim.specs.Asks.{may_come};
ghost use Rattle.ccr_claim.specs.Attempts.{booking};
ghost use Rattle.ccr_actor.specs.Actors.{end_attempt, most_fired, spots_left};
ghost use Rattle.ccr_actor.specs.Courses.{state_of, phase_of, due_at, due_next, fired_on, heard_needs, HasHeard, IsBeside, IsPast, IsUnderWay};

use crate::attempting::{answer, is_memory};
use crate::course::{ATTEMPTS, Course, MOST};
use crate::driven::Driven;
use crate::wired::domain_of_spot;
use ccr_base::{OutOfMemory, Spot};
use ccr_claim::{Progress, Reply};

impl Course<'_> {
    /// Whether a spot is to be driven.
    pub fn drives(&self) -> bool
        ensures { result ≡ not (length (spots_left (state_of self.now)) == 0) }
    {
        !self.spots.is_empty() && self.count < ATTEMPTS
    }

    /// The attempt fired at the first spot, and its task waits or not.
    fn fire(&mut self, spot: Spot, waits: bool) -> Result<(), OutOfMemory>
        requires spot { self.old.spots ≡ spot ∷ drop 1 self.old.spots }
        requires phase { phase_of self.old.attempt ≡ booking }
        requires count { self.old.count < 2 ^ 32 }
        requires fired { self.old.fired < most_fired }
        ensures ok { OnOk result (state_of self.new ≡ fired_on self.old.wiring.now (state_of self.old) spot (drop 1 self.old.spots) waits (state_of self.old).hand) }
        ensures err { OnErr result ((state_of self.new).hand ≡ (state_of self.old).hand) }
        ensures needs { OnErr result (waits ≡ true) }
        ensures attempt { self.new.attempt ≡ self.old.attempt }
        ensures work { self.new.work ≡ self.old.work }
        ensures beside { IsBeside self.old self.new }
    {
        self.count += 1;
        self.fired += 1;
        if self.fired >= MOST {
            self.spots = Driven::none();
        }
        self.admitted = 0;
        self.domains.clear();
        if waits {
            let domain = domain_of_spot(self.wiring, spot);
            self.domains.push_back(domain)?;
        }
        Ok(())
    }

    /// The attempt was given up, and the spot is done with.
    fn give_up(&mut self)
        requires phase { phase_of self.old.attempt ≡ booking }
        requires count { self.old.count < 2 ^ 32 }
        requires spot { 0 < length self.old.spots }
        ensures state { state_of self.new ≡ end_attempt (state_of self.old) (state_of self.old).hand (drop 1 self.old.spots) }
        ensures attempt { self.new.attempt ≡ self.old.attempt }
        ensures work { self.new.work ≡ self.old.work }
        ensures beside { IsBeside self.old self.new }
    {
        self.count += 1;
        self.spots.skip();
    }

    /// Takes in the answer to the attempt's ask.
    #[inline(always)]
    pub fn hear(&mut self, reply: Result<Reply, OutOfMemory>) -> Result<(), OutOfMemory>
        requires way { IsUnderWay self.old }
        requires asked { due_at self.old.attempt ≡ due_next self.old.attempt }
        requires reply { IsTrue (may_come (due_at self.old.attempt) reply) }
        requires fired { self.old.fired < most_fired }
        ensures step { HasHeard result self.old reply self.new }
        ensures attempt { OnOk result (IsPast self.new.attempt ⊎ IsUnderWay self.new) }
        ensures past { OnErr result (IsPast self.new.attempt) }
        ensures refused { OnErr reply (IsErr result) }
        ensures needs { OnErr result (IsTrue (heard_needs reply)) }
        ensures counts { OnOk result ((self.new.taken ≡ self.old.taken) × (self.new.empty ≡ self.old.empty)) }
        ensures quiet { due_at self.new.attempt ≡ dues.Nothing }
        ensures work { self.new.work ≡ self.old.work }
        ensures beside { IsBeside self.old self.new }
    {
        let Some(spot) = self.spots.first() else {
            unreachable!();
        };
        let Some(attempt) = &mut self.attempt else {
            unreachable!();
        };
        match answer(attempt, reply) {
            Progress::Running => Ok(()),
            Progress::Fired { waits } => self.fire(spot, waits),
            Progress::GaveUp(why) => {
                if is_memory(why) {
                    return Err(OutOfMemory);
                }
                self.give_up();
                Ok(())
            }
        }
    }
}

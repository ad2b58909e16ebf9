//! What an actor does with an answer.

ghost use Rattle.std.specs.Prelude.{◌≡◌, ◌⊎◌, true, false, OnOk, OnErr, IsErr, IsTrue};
ghost use Rattle.ccr_claim.specs.declared.asks.Due.TheVariants as dues;
ghost use Rattle.ccr_actor.specs.Courses.{answer_needs, answer_unnumbered, due_at, state_of, target, IsAnswered, IsBeside, IsBounded, IsCounted, IsPast, IsReached, IsReady, IsShortened, IsStep, IsUnderWay};
ghost use Rattle.ccr_actor.specs.Needs.{next_needs};

use crate::course::{Course, Part};
use ccr_base::OutOfMemory;
use ccr_claim::Reply;

impl Course<'_> {
    /// Takes in the answer to the ask of this part.
    #[inline(always)]
    pub fn answer(
        &mut self,
        part: Part,
        reply: Result<Reply, OutOfMemory>,
    ) -> Result<(), OutOfMemory>
        requires answered { IsAnswered self.old part reply }
        requires bounded { self.old.short ≡ false → IsBounded (state_of self.old) }
        requires counted { self.old.short ≡ false → IsCounted self.old.work self.old.taken self.old.empty }
        ensures step { IsStep result self.old.wiring.now self.old.number (target part self.old.wiring.now self.old.number (state_of self.old) reply) (state_of self.new) }
        ensures attempt { OnOk result (IsPast self.new.attempt ⊎ IsUnderWay self.new) }
        ensures past { OnErr result (IsPast self.new.attempt) }
        ensures quiet { due_at self.new.attempt ≡ dues.Nothing }
        ensures counted { OnOk result (self.new.short ≡ false → IsCounted self.new.work self.new.taken self.new.empty) }
        ensures long { OnErr result (self.old.short ≡ false) }
        ensures refused { OnErr reply (IsErr result) }
        ensures needs { OnErr result (IsTrue (answer_needs part self.old.wiring.now (state_of self.old) reply)) }
        ensures numbered { OnOk result (answer_unnumbered part self.old.wiring.now (state_of self.old) reply ≡ false) }
        ensures beside { IsBeside self.old self.new }
    {
        if let Part::Drive = part {
            return self.hear(reply);
        }
        let reply = reply?;
        match part {
            Part::Admit => {
                self.admitted(reply);
                Ok(())
            }
            Part::Work => self.worked(reply),
            _ => self.settle(part, reply),
        }
    }

    /// What is asked next is made ready; where no memory is found the actor is short.
    #[inline(always)]
    pub fn finish(&mut self, made: Result<(), OutOfMemory>)
        requires attempt { OnOk made (IsPast self.old.attempt ⊎ IsUnderWay self.old) }
        requires past { OnErr made (IsPast self.old.attempt) }
        requires quiet { due_at self.old.attempt ≡ dues.Nothing }
        requires refused { OnErr made (self.old.short ≡ false) }
        requires counted { OnOk made (self.old.short ≡ false → IsCounted self.old.work self.old.taken self.old.empty) }
        ensures state { IsReached made self.old self.new }
        ensures refused { IsShortened made self.old self.new }
        ensures needs { OnOk made (self.old.short ≡ false → self.new.short ≡ true → IsTrue (next_needs (state_of self.old))) }
        ensures short { OnErr made (self.new.short ≡ true) }
        ensures ready { IsReady self.new }
        ensures quiet { due_at self.new.attempt ≡ dues.Nothing }
        ensures counted { self.new.short ≡ false → IsCounted self.new.work self.new.taken self.new.empty }
        ensures same { (self.new.wiring ≡ self.old.wiring) × (self.new.number ≡ self.old.number) }
    {
        if self.short {
            return;
        }
        match made {
            Ok(()) => {
                if self.prepare().is_err() {
                    self.short = true;
                }
            }
            Err(_) => self.short = true,
        }
    }
}

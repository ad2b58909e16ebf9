//! A step of an actor in two halves: its ask, and the answer to it. The gate is asked at the points of both.

ghost use Rattle.std.specs.Prelude.{◌≡◌, true, false, IfOk, IsTrue, Some};
ghost use Rattle.std.specs.Option.{is_some};
ghost use Rattle.ccr_wiring.specs.Valid.{IsValid};
ghost use Rattle.ccr_claim.specs.Asks.{due_of, may_come};
ghost use Rattle.ccr_actor.specs.Acting.{due_in, next, quiet, sent, IsAfter};
ghost use Rattle.ccr_actor.specs.Within.{IsWithin};
ghost use Rattle.ccr_actor.specs.Needs.{needs_memory, takes_unnumbered};

use crate::actor::Actor;
use crate::points::{point_after, point_before};
use ccr_base::{Gate, OutOfMemory, Place};
use ccr_claim::{Ask, Reply};

impl Actor<'_> {
    /// Moves out the next ask of an actor that isn't at rest, and its place. The gate is asked before the end of a running
    /// task and before its suspension.
    #[inline(always)]
    pub fn ask<G: Gate>(&mut self, gate: &G) -> (Place, Ask)
        requires quiet { self.old.asking ≡ quiet }
        requires asks { is_some (next self.old) ≡ true }
        ensures asked { next self.old ≡ Some (record { place = result.0; ask = result.1 }) }
        ensures sent { self.new ≡ sent self.old }
        ensures due { due_in self.new.asking ≡ due_of result.1 }
        ensures valid { IsValid self.old.wiring }
        ensures within { self.old.state.is_short ≡ false → IsWithin self.old.state }
    {
        let Some((place, ask)) = self.next() else {
            unreachable!();
        };
        if let Some(point) = point_before(&ask) {
            gate.at(point, self.number());
        }
        (place, ask)
    }

    /// Hands in the answer to the ask that was made last (`got`). The gate is asked after a claim that got its messages, after
    /// a firing, and after a task was taken.
    #[inline(always)]
    pub fn hear<G: Gate>(&mut self, gate: &G, answer: Result<Reply, OutOfMemory>)
        requires { IsTrue (may_come (due_in self.old.asking) answer) }
        ensures after { IsAfter self.old answer self.new }
        ensures needs { IfOk answer (λ r. self.old.state.is_short ≡ false → self.new.state.is_short ≡ true → IsTrue (needs_memory self.old r)) }
        ensures unnumbered { IfOk answer (λ r. IsTrue (takes_unnumbered self.old r) → self.new.state.is_short ≡ true) }
        ensures quiet { self.new.asking ≡ quiet }
        ensures within { self.new.state.is_short ≡ false → IsWithin self.new.state }
    {
        if let Ok(reply) = &answer {
            if let Some(point) = point_after(reply) {
                gate.at(point, self.number());
            }
        }
        self.got(answer);
    }
}

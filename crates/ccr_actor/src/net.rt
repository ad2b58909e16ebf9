//! Nets: what the places of a wiring are behind, for actors.

ghost use Rattle.std.specs.Prelude.{◌≡◌, ◌≢◌, ◌++◌, [], ◌∷◌, ℕ, List, true, IfOk, OnErr, IsOk};

use ccr_base::{ActorNo, OutOfMemory, Place};
use ccr_claim::{Ask, Reply};

/// A net serves a wiring: each ask goes to the place that it names. It keeps, for each actor, the list of the steps that
/// were answered.
pub trait Net {
    ghost use Rattle.ccr_wiring.specs.declared.parts.Parts.{Parts};
    ghost use Rattle.ccr_claim.specs.Asks.{is_settling, due_of, fits};
    ghost use Rattle.ccr_claim.specs.Wired.{IsReplyOf};
    ghost use Rattle.ccr_actor.specs.Nets.{Step, IsProper};

    ghost wiring: { Self → Parts };

    ghost steps: { Self → ℕ → List Step };

    /// Asks the place. Its reply fits the ask, and names only spots, domains, queues, ports and causes of the wiring, no cause
    /// twice in a message or task. Only running out of memory refuses an ask, never one that settles, and then no step is noted.
    fn act(&mut self, actor: ActorNo, place: Place, ask: Ask) -> Result<Reply, OutOfMemory>
        requires { IsProper (wiring self.old) actor (steps self.old actor) (record { place = place; ask = ask }) }
        ensures wiring { wiring self.new ≡ wiring self.old }
        ensures reply { IfOk result (λ reply. fits (due_of ask) reply ≡ true) }
        ensures known { IfOk result (λ reply. IsReplyOf (wiring self.old) reply) }
        ensures added { IfOk result (λ reply. steps self.new actor ≡ steps self.old actor ++ (record { asked = record { place = place; ask = ask }; reply = reply }) ∷ []) }
        ensures refused { OnErr result (steps self.new actor ≡ steps self.old actor) }
        ensures others { (other : ℕ) → other ≢ actor → steps self.new other ≡ steps self.old other }
        ensures settles { is_settling ask ≡ true → IsOk result };
}

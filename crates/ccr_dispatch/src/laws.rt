//! What holds of every actor over every net. The law is the contract of a function that does nothing.

ghost use Rattle.std.specs.Prelude.{◌≡◌, ◌<◌, []};
ghost use Rattle.ccr_wiring.specs.Valid.{IsValid};
ghost use Rattle.ccr_claim.specs.Asks.{AreSettling};
ghost use Rattle.ccr_dispatch.specs.ToRest.{IsSettled};
ghost use Rattle.ccr_dispatch.specs.Lawful.{Behind, HasBounds, OfAnswers};
ghost use Rattle.ccr_dispatch.specs.Ranks.{steps_left};

/// An actor comes to rest, whatever it is answered: while something is in hand each answer lowers what it owes, and leaves no
/// more behind that; else each answer lowers what is left.
pub fn actors_rest()
    ensures hand { OfAnswers (λ a answer new. (a.state.hand ≡ [] → ⊥) → AreSettling a.state.hand → Behind a answer new (IsSettled a new)) }
    ensures behind { OfAnswers (λ a answer new. a.state.hand ≡ [] → Behind a answer new (IsValid a.wiring → HasBounds a → HasBounds new → steps_left new < steps_left a)) }
{}

//! What holds of every attempt, whatever it is answered. Each law is the contract of a function that does nothing.

ghost use Rattle.std.specs.Prelude.{◌≡◌, ◌+◌, ◌*◌, ◌≤◌, Bool, [], length, Option, Some};
ghost use Rattle.ccr_base.specs.declared.tasks.Task.{Task};
ghost use Rattle.ccr_claim.specs.declared.outcomes.Outcome.TheVariants.{Fired, GaveUp};
ghost use Rattle.ccr_claim.specs.declared.outcomes.Why.{Why};
ghost use Rattle.ccr_claim.specs.Plans.{slots_in};
ghost use Rattle.ccr_claim.specs.Settling.{shots, cuts_of, IsCompleted, IsReleased, OfAttempts};

/// An attempt settles. What it asks to settle, once it has ended and nothing is in hand: where it gave up, that each claim that it
/// got is freed, the last first, and the booking ended, and it never fired; where it fired, once, that each claim is consumed, in
/// order, each cut task unbooked, and its task put, unless it waits. It asks nothing else that settles.
pub fn attempts_settle()
    ensures gave_up { OfAttempts (λ plan task steps after. (why : Why) → after.ended ≡ Some (GaveUp why) → after.hand ≡ [] → IsReleased task steps) }
    ensures fired { OfAttempts (λ plan task steps after. (waiting : Bool) (dropped : Option Task) → after.ended ≡ Some (Fired waiting dropped) → after.hand ≡ [] → IsCompleted task steps waiting) }
{}

/// An attempt stops: it makes at most `2 * slots + 3` asks, and one more for each task that it cut.
pub fn attempts_stop()
    ensures { OfAttempts (λ plan task steps after. length steps ≤ 2 * length (slots_in plan.pattern) + 3 + length (cuts_of (shots steps))) }
{}

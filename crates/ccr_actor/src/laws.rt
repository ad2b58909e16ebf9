//! What holds of every actor, whatever it is replied. Each law is the contract of a function that does nothing.

ghost use Rattle.std.specs.Prelude.{◌≡◌, ◌↔◌, ◌≤◌, ℕ, List, [], length, Option, Some, None, true};
ghost use Rattle.ccr_wiring.specs.declared.parts.Parts.{Parts};
ghost use Rattle.ccr_claim.specs.declared.asks.Asked.{Asked};
ghost use Rattle.ccr_claim.specs.declared.asks.Reply.{Reply};
ghost use Rattle.ccr_claim.specs.Asks.{AreSettling, is_settling};
ghost use Rattle.ccr_base.specs.declared.list.OutOfMemory.{OutOfMemory};
ghost use Rattle.ccr_actor.specs.Actors.{next, state_after};
ghost use Rattle.ccr_actor.specs.Acting.{Acting, is_at_rest, next as asked_by, started};
ghost use Rattle.ccr_actor.specs.Nets.{Step, IsProper, replies_of};
ghost use Rattle.ccr_actor.specs.Following.{Follows, GoesOn, LacksNothing, OfLong, OnlySettles, StaysThere};

/// What an actor has in hand is to be settled, and once it found no memory it asks nothing else: only asks that settle
/// follow, whatever was replied.
pub fn actors_settle()
    ensures hand { (wiring : Parts) (actor : ℕ) (lack : Option ℕ) (given : List Reply) → AreSettling (state_after wiring actor lack given).hand }
    ensures short { (wiring : Parts) (actor n : ℕ) (given : List Reply) (one : Asked) → n ≤ length given → next wiring actor (Some n) given ≡ Some one → is_settling one.ask ≡ true }
{}

/// What an actor asks, and the state that the answers lead it to, are those of the definition after the replies that it got:
/// a reply is one more step, a refused ask is none. As long as it isn't short each of its steps was the next one, where there
/// was memory throughout, and it is at rest exactly where there is no next one; once it is short it asks only what settles.
pub fn actors_follow()
    ensures start { (wiring : Parts) (actor : ℕ) → Follows wiring actor [] (started wiring actor) }
    ensures proper { (wiring : Parts) (actor : ℕ) (steps : List Step) (a : Acting) (one : Asked) → Follows wiring actor steps a → asked_by a ≡ Some one → IsProper wiring actor steps one }
    ensures reply { (wiring : Parts) (actor : ℕ) (steps : List Step) (a new : Acting) (one : Asked) (reply : Reply) → GoesOn wiring actor steps a new one reply }
    ensures refusal { (wiring : Parts) (actor : ℕ) (steps : List Step) (a new : Acting) (one : Asked) (refused : OutOfMemory) → StaysThere wiring actor steps a new one refused }
    ensures long { OfLong LacksNothing }
    ensures rest { OfLong (λ wiring actor steps a. (is_at_rest a ≡ true) ↔ (next wiring actor None (replies_of steps) ≡ None)) }
    ensures short { (wiring : Parts) (actor : ℕ) (steps : List Step) (a : Acting) (one : Asked) → OnlySettles wiring actor steps a one }
{}

//! What a place keeps and replies, whatever it was asked. The law is the contract of a function that does nothing.

ghost use Rattle.std.specs.Prelude.{◌≡◌, ◌↔◌, true};
ghost use Rattle.ccr_base.specs.declared.names.Place.{Place};
ghost use Rattle.ccr_wiring.specs.declared.parts.Parts.{Parts};
ghost use Rattle.ccr_claim.specs.declared.asks.Ask.{Ask};
ghost use Rattle.ccr_claim.specs.declared.asks.Reply.{Reply};
ghost use Rattle.ccr_claim.specs.Wired.{IsReplyOf};
ghost use Rattle.ccr_object.specs.declared.object.Placed.{Placed};
ghost use Rattle.ccr_object.specs.Keeping.{answers_known, keeps_own};
ghost use Rattle.ccr_object.specs.Numbers.{names_known, numbers_of};
ghost use Rattle.ccr_object.specs.Objects.{after_at, reply_of};
ghost use Rattle.ccr_object.specs.Starts.{placed_at};

/// A place keeps only messages and tasks whose spots, arbiters, queues, ports and causes are among its numbers, and of which no
/// cause stands twice, since it tests each ask for that. So its replies name no others: with the numbers of a wiring they name
/// only what the wiring has.
pub fn places_name_what_they_know()
    ensures start { (wiring : Parts) (place : Place) → keeps_own (placed_at wiring place) ≡ true }
    ensures kept { (place : Placed) (ask : Ask) → keeps_own place ≡ true → keeps_own (after_at place ask) ≡ true }
    ensures replies { (place : Placed) (ask : Ask) → keeps_own place ≡ true → answers_known place.numbers (reply_of place ask) ≡ true }
    ensures exact { (wiring : Parts) (reply : Reply) → (names_known (numbers_of wiring) reply ≡ true) ↔ IsReplyOf wiring reply }
{}

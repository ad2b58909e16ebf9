//! A legal history of a closed wiring is short. Each law is the contract of a function that does nothing.

ghost use Rattle.std.specs.Prelude.{◌≡◌, ◌≤◌, true, List, length};
ghost use Rattle.ccr_base.specs.Bounds.{most_events};
ghost use Rattle.ccr_wiring.specs.declared.parts.Parts.{Parts};
ghost use Rattle.ccr_wiring.specs.Openness.{is_closed};
ghost use Rattle.ccr_wiring.specs.Valid.{IsValid};
ghost use Rattle.ccr_model.specs.declared.history.Event.{Event};
ghost use Rattle.ccr_model.specs.Legal.{IsLegal};
ghost use Rattle.ccr_laws.specs.Potential.{TakesSome, event_bound};

/// A legal history of a closed wiring has at most six events for each message that may be posted.
pub fn histories_are_short()
    ensures { (wiring : Parts) → TakesSome wiring → is_closed wiring ≡ true → (history : List Event) → IsLegal wiring history → length history ≤ event_bound wiring }
{}

/// A legal history of a valid closed wiring has at most 120,000 events.
pub fn valid_histories_are_short()
    ensures { (wiring : Parts) → IsValid wiring → is_closed wiring ≡ true → (history : List Event) → IsLegal wiring history → length history ≤ most_events }
{}

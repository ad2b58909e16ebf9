//! When a history is quiet. The law is the contract of a function that does nothing.

ghost use Rattle.std.specs.Prelude.{◌≡◌, List, true, false};
ghost use Rattle.ccr_wiring.specs.declared.parts.Parts.{Parts};
ghost use Rattle.ccr_wiring.specs.Openness.{is_closed};
ghost use Rattle.ccr_wiring.specs.Valid.{IsValid};
ghost use Rattle.ccr_model.specs.declared.history.Event.{Event};
ghost use Rattle.ccr_model.specs.Legal.{IsLegal, IsQuiet};
ghost use Rattle.ccr_checker.specs.Left.{is_still};
ghost use Rattle.ccr_checker.specs.Quiet.{AllowsSome};

use ccr_model::{first_is_allowed, none_first_is_quiet};
use ccr_wiring::valid_wirings_are_sound;

/// Where nothing is left of a closed wiring no event is allowed, and where something is left after a legal history some event is.
pub fn still_is_quiet()
    ensures still { (wiring : Parts) (history : List Event) → IsValid wiring → is_closed wiring ≡ true → is_still wiring history ≡ true → IsQuiet wiring history }
    ensures left { (wiring : Parts) (history : List Event) → IsValid wiring → IsLegal wiring history → is_still wiring history ≡ false → AllowsSome wiring history }
{
    valid_wirings_are_sound();
    none_first_is_quiet();
    first_is_allowed();
}

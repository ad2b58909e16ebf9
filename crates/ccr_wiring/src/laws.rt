//! What every valid wiring promises.

ghost use Rattle.std.specs.Prelude.{◌≡◌, true};
ghost use Rattle.ccr_wiring.specs.declared.parts.Parts.{Parts};
ghost use Rattle.ccr_wiring.specs.Openness.{is_closed};
ghost use Rattle.ccr_wiring.specs.Valid.{IsValid, IsSound};

/// The numbers of a valid wiring name something and keep their limits. So nobody above tests them again.
pub fn valid_wirings_are_sound()
    ensures { (parts : Parts) → IsValid parts → IsSound parts }
{}

/// No poster and no handler of a wiring of version 1 is open.
pub fn old_wirings_are_closed()
    ensures { (parts : Parts) → IsValid parts → parts.version ≡ 1 → is_closed parts ≡ true }
{}

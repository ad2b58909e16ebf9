//! Lists of numbers.

ghost use Rattle.std.specs.Prelude.{◌≡◌};
ghost use Rattle.ccr_base.specs.Lists.{has_number};

/// Whether the number is among them.
pub fn has_number(numbers: &[u32], number: u32) -> bool
    ensures { result ≡ has_number numbers.now number }
{
    numbers.contains(&number)
}

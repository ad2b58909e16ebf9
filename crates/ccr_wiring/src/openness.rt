//! Open posters and handlers, by their numbers.

ghost use Rattle.std.specs.Prelude.{◌≡◌};
ghost use Rattle.std.specs.Option.{option_map};
ghost use Rattle.ccr_wiring.specs.Openness.{open_ports_in};

use crate::OpenPart;
use ccr_base::PortNo;

/// The ports of the part of this number, where the list has it.
pub(crate) fn open_ports_in(listed: &[OpenPart], number: u32) -> Option<&[PortNo]>
    ensures { option_map (λ ports. ports.now) result ≡ open_ports_in listed.now number }
{
    for part in listed {
        if part.part == number {
            return Some(part.ports.as_slice());
        }
    }
    None
}

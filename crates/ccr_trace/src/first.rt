//! The first line of a history.

ghost use Rattle.std.specs.Prelude.{◌≡◌};
ghost use Rattle.std.specs.Str.{bytes_eq};
ghost use Rattle.ccr_trace.specs.Reading.{first_line};

use ccr_wiring::Parts;

/// `history 1`, or `history 2` in a wiring of version 2, without its LF.
pub fn first_line(parts: &Parts) -> &'static [u8]
    ensures { result.now ≡ first_line parts.now }
{
    if parts.version == 2 {
        return b"history 2";
    }
    b"history 1"
}

/// Whether the line is the first of a history of this wiring.
pub fn is_first_line(parts: &Parts, line: &[u8]) -> bool
    ensures { result ≡ bytes_eq line.now (first_line parts.now) }
{
    line == first_line(parts)
}

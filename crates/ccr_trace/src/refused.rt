//! Why no history was read.

ghost use Rattle.std.specs.Prelude.{◌≡◌};
ghost use Rattle.ccr_trace.specs.Codes.{code_number};
ghost use Rattle.ccr_trace.specs.declared.refused.HistoryRefused.TheVariants.{Memory};

use ccr_base::OutOfMemory;
use thiserror::Error;

/// What is wrong with a line.
#[derive(Clone, Copy, PartialEq, Eq)]
pub enum HistoryCode {
    /// It has none of the forms.
    Malformed,
    /// It names what the wiring doesn't have.
    Unknown,
    /// The text ends before the line `report 1`.
    Unfinished,
}

impl HistoryCode {
    /// The number of the code (docs/FORMATS.md).
    pub fn number(self) -> u8
        ensures { result ≡ code_number self }
    {
        match self {
            HistoryCode::Malformed => 1,
            HistoryCode::Unknown => 2,
            HistoryCode::Unfinished => 3,
        }
    }
}

/// The first line that offends, and its code (docs/FORMATS.md), or running out of memory.
#[derive(Clone, Copy, Debug, PartialEq, Eq, Error)]
pub enum HistoryRefused {
    #[error("line {line} is refused with code {code}")]
    At { line: u32, code: u8 },
    #[error("no memory was left")]
    Memory,
}

impl From<OutOfMemory> for HistoryRefused {
    ghost from_gives = { λ _ e. e ≡ Memory };

    fn from(_: OutOfMemory) -> HistoryRefused {
        HistoryRefused::Memory
    }
}

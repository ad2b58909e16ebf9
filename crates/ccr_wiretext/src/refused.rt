//! Why no wiring was read.

ghost use Rattle.std.specs.Prelude.{◌≡◌};
ghost use Rattle.ccr_wiretext.specs.Answers.{refused};

use ccr_text::{Code, Stop};
use thiserror::Error;

/// The first line that offends, and its code (docs/FORMATS.md), or running out of memory.
#[derive(Clone, Copy, Debug, PartialEq, Eq, Error)]
pub enum ReadRefused {
    #[error("line {line} is refused with code {code}")]
    At { line: u32, code: u8 },
    #[error("no memory was left")]
    Memory,
}

impl ReadRefused {
    /// What is answered where reading stops at this line.
    pub fn of(line: u32, stop: Stop<Code>) -> Self
        ensures { result ≡ refused line stop }
    {
        match stop {
            Stop::Memory => ReadRefused::Memory,
            Stop::Refused(code) => ReadRefused::At {
                line,
                code: code.number(),
            },
        }
    }
}

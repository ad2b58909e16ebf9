//! Why a line is refused.

ghost use Rattle.std.specs.Prelude.{◌≡◌};
ghost use Rattle.ccr_replay.specs.Answers.{code_number, refused};

use ccr_wiretext::ReadRefused;

/// What is wrong with a line, of a record or of turns alone.
#[derive(Clone, Copy)]
pub enum RecordCode {
    /// The line isn't clean.
    Unclean,
    /// Another word stands where `1` or `0` has to, or the first word isn't `turn`.
    Keyword,
    /// A word is missing or too many.
    WordCount,
    /// Another word stands where the number of workers or of an actor has to.
    Number,
    /// There are too many workers, or no such actor, or the wiring's text is too long.
    Limit,
    /// No line is that of the record.
    NoRecord,
    /// There is no last line, or something stands behind it.
    Ending,
}

impl RecordCode {
    /// The number of the code (docs/FORMATS.md).
    fn number(self) -> u8
        ensures { result ≡ code_number self }
    {
        match self {
            RecordCode::Unclean => 1,
            RecordCode::Keyword => 3,
            RecordCode::WordCount => 4,
            RecordCode::Number => 5,
            RecordCode::Limit => 10,
            RecordCode::NoRecord => 16,
            RecordCode::Ending => 17,
        }
    }
}

/// The line is refused with the code.
pub fn refused(line: u32, code: RecordCode) -> ReadRefused
    ensures { result ≡ refused line code }
{
    ReadRefused::At {
        line,
        code: code.number(),
    }
}

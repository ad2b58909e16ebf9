//! The codes with which a text is refused.

ghost use Rattle.std.specs.Prelude.{◌≡◌};
ghost use Rattle.ccr_text.specs.Codes.{code_number};

/// What is wrong with a line, or with the end of the text. Wirings and services have the same codes, and a reader has those of
/// its own text.
#[derive(Clone, Copy, PartialEq, Eq)]
pub enum Code {
    /// The line isn't clean.
    Unclean,
    /// The first line that isn't skipped gives no version, or there is none.
    Version,
    /// Another word stands where a keyword has to.
    Keyword,
    /// A word is missing or too many.
    WordCount,
    /// Another word stands where a number, a value or an expression has to.
    Number,
    /// The name is declared already.
    Declared,
    /// The name isn't declared, or it is of another kind.
    Reference,
    /// The same stands twice.
    Repeat,
    /// The text ends inside a block.
    OpenBlock,
    /// A number is outside its limit, or there is one more than a limit.
    Limit,
    /// A choice or Interleave has no branch, or a service no operation.
    Empty,
    /// Too many spots name one port.
    Crowded,
    /// A line that may stand once stands again: a budget, or a policy.
    Second,
    /// The name isn't of the form of names.
    NameForm,
}

impl Code {
    /// The number of the code (docs/FORMATS.md).
    pub fn number(self) -> u8
        ensures { result ≡ code_number self }
    {
        match self {
            Code::Unclean => 1,
            Code::Version => 2,
            Code::Keyword => 3,
            Code::WordCount => 4,
            Code::Number => 5,
            Code::Declared => 6,
            Code::Reference => 7,
            Code::Repeat => 8,
            Code::OpenBlock => 9,
            Code::Limit => 10,
            Code::Empty => 11,
            Code::Crowded => 12,
            Code::Second => 13,
            Code::NameForm => 14,
        }
    }
}

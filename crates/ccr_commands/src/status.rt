//! With what the program ends.

ghost use Rattle.std.specs.Prelude.{◌≡◌};
ghost use Rattle.ccr_commands.specs.declared.status.Status.TheVariants.{Memory};

use ccr_base::OutOfMemory;

/// How the program ends. The number is its exit status.
#[derive(Clone, Copy, PartialEq, Eq)]
pub enum Status {
    /// The text is written whole; of a run, no task in it was shed.
    Done = 0,
    /// The words ask for nothing.
    Usage = 1,
    /// The input is refused.
    Refused = 2,
    /// The source had a fault, and nothing is written.
    ReadFault = 3,
    /// The sink had a fault, and a prefix of the text may be written.
    WriteFault = 4,
    /// Memory ran out, and nothing is written.
    Memory = 5,
    /// The text of a run is written whole, and a task in it was shed.
    Shed = 6,
    /// The output that was judged has a fault.
    Illegal = 7,
    /// The input is too long.
    TooLong = 8,
}

impl From<OutOfMemory> for Status {
    ghost from_gives = { λ _ why. why ≡ Memory };

    fn from(_: OutOfMemory) -> Self {
        Status::Memory
    }
}

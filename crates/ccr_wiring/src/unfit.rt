//! Why parts make no wiring.

use ccr_base::OutOfMemory;
use thiserror::Error;

/// Why parts make no wiring: the least code of refusal that stands in them, or no memory was left.
/// The codes are those of the wiring text.
#[derive(Clone, Copy, Debug, PartialEq, Eq, Error)]
pub enum Unfit {
    #[error("code {0} stands in the parts")]
    Code(u8),
    #[error("no memory was left")]
    Memory,
}

impl From<OutOfMemory> for Unfit {
    ghost use Rattle.std.specs.Prelude.{◌≡◌};
    ghost use Rattle.ccr_wiring.specs.declared.unfit.Unfit.TheVariants.{Memory};

    ghost from_gives = { λ refused unfit. unfit ≡ Memory };

    fn from(_: OutOfMemory) -> Self {
        Unfit::Memory
    }
}

//! Why reading stops before the end of the text.

ghost use Rattle.std.specs.Prelude.{◌≡◌};
ghost use Rattle.ccr_text.specs.declared.stop.Stop.TheVariants.{Memory};

use ccr_base::OutOfMemory;
use std::alloc::{AllocError, AllocFailed};

/// A line is refused, for what the text's reader finds wrong with it, or no memory was left.
#[derive(Clone, Copy, PartialEq, Eq)]
pub enum Stop<C> {
    Memory,
    Refused(C),
}

impl<C> From<AllocError> for Stop<C> {
    ghost from_gives = { λ _ e. e ≡ Memory };

    fn from(_: AllocError) -> Stop<C> {
        Stop::Memory
    }
}

impl<C> From<OutOfMemory> for Stop<C> {
    ghost from_gives = { λ _ e. e ≡ Memory };

    fn from(_: OutOfMemory) -> Stop<C> {
        Stop::Memory
    }
}

impl<C, T: Drop> From<AllocFailed<T>> for Stop<C> {
    ghost from_gives = { λ _ e. e ≡ Memory };

    fn from(_: AllocFailed<T>) -> Stop<C> {
        Stop::Memory
    }
}

//! Lists of one item.

ghost use Rattle.std.specs.Prelude.{◌≡◌, [], ◌∷◌, IfOk};

use ccr_base::{List, OutOfMemory};
use std::alloc::Global;

/// The list of this item alone.
pub fn only<T: Drop>(alloc: Global, item: T) -> Result<List<T>, OutOfMemory>
    ensures { IfOk result (λ list. list ≡ item ∷ []) }
{
    let mut list = List::new(alloc);
    match list.push(item) {
        Ok(()) => Ok(list),
        Err((refused, _)) => Err(refused),
    }
}

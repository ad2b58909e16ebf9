//! The order of stamps.

ghost use Rattle.std.specs.Prelude.{◌≡◌, IfOk};
ghost use Rattle.ccr_runs.specs.Orders.{in_order};

use ccr_base::OutOfMemory;

/// Something with a stamp.
#[derive(Drop)]
pub struct StampedItem<E> {
    pub stamp: u128,
    pub item: E,
}

/// All by their stamps; those of one stamp stand as they stood.
pub fn in_order<E: Drop>(items: Vec<StampedItem<E>>) -> Result<Vec<StampedItem<E>>, OutOfMemory>
    ensures { IfOk result (λ sorted. sorted.items ≡ in_order (λ one. one.stamp) items.items) }
{
    let mut sorted = items;
    sorted.sort_by_key(|one| one.stamp)?;
    Ok(sorted)
}

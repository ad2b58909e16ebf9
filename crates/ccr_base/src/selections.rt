//! The selection of a slot: which of a port's messages a firing takes.

ghost use Rattle.std.specs.Prelude.{◌≡◌, ◌<◌, ◌≤◌, ◌^◌, IfOk, length, take};
ghost use Rattle.std.specs.Option.{option_map};
ghost use Rattle.ccr_base.specs.Selection.{selection, chosen, is_choosable, messages_at, indices_from};

use crate::{List, OutOfMemory, Pred, Seen, Slot};
use std::alloc::Global;

/// Goes through the messages from the oldest on, and notes the indices of those that the predicate takes, until it has `most`.
fn first_indices<T: Seen>(
    alloc: Global,
    items: &[T],
    pred: Pred,
    most: u32,
) -> Result<Vec<u32>, OutOfMemory>
    requires { length items.now < 2 ^ 32 }
    ensures { IfOk result (λ indices. indices.items ≡ take most (indices_from 0 pred (T.seen items.now))) }
{
    let mut indices = Vec::new(alloc);
    let mut left = most;
    for (index, message) in items.iter().enumerate() {
        if left == 0 {
            return Ok(indices);
        }
        if pred.holds(&message.value()) {
            indices.push(index as u32)?;
            left -= 1;
        }
    }
    Ok(indices)
}

/// The indices, from 0 and rising, of the first messages that satisfy the slot's predicate, at most `most` of them.
/// None where fewer than `least` satisfy it.
pub fn choose<T: Seen>(
    alloc: Global,
    items: &[T],
    slot: &Slot,
) -> Result<Option<List<u32>>, OutOfMemory>
    requires ordered { slot.now.least ≤ slot.now.most }
    requires fits { length items.now < 2 ^ 32 }
    ensures indices { IfOk result (λ indices. indices ≡ chosen slot.now (T.seen items.now)) }
    ensures selection { IfOk result (λ indices. option_map (messages_at (T.seen items.now)) indices ≡ selection slot.now (T.seen items.now)) }
{
    let indices = first_indices(alloc, items, slot.pred, slot.most)?;
    if indices.len() < slot.least as usize {
        return Ok(None);
    }
    Ok(Some(List::from_vec(indices)))
}

/// Whether `choose` answers indices. It takes no memory and has no condition.
pub fn can_choose<T: Seen>(items: &[T], slot: &Slot) -> bool
    ensures { result ≡ is_choosable slot.now (T.seen items.now) }
{
    let mut left = slot.least;
    for message in items {
        if left == 0 {
            return true;
        }
        if slot.pred.holds(&message.value()) {
            left -= 1;
        }
    }
    left == 0
}

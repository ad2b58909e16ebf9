//! What a claim answers, and how its messages are found, copied and taken out.

ghost use Rattle.std.specs.Prelude.{◌≡◌, ◌≤◌, IsTrue, IfOk, length, take, slice_get, option_copied};
ghost use Rattle.ccr_port.specs.Entries.{are_under, can_take, messages_of, messages_under, without_entries};
ghost use Rattle.ccr_port.specs.Lanes.{AreLanes};

use crate::items::Items;
use crate::lane::KeyLane;
use crate::lanes::leave_all;
use ccr_base::{List, Msg, OutOfMemory, TaskId};
use ccr_places::StandingClaim;
use std::alloc::Global;

/// What a claim met: copies of the messages that are now marked, the task whose claim stands, or how many messages fit
/// where they are too few.
#[derive(Drop)]
pub enum Claimed {
    Got(List<Msg>),
    Busy(TaskId),
    Short(u32),
}

/// The claim that stands, with the keys of the messages that it marks.
#[derive(Drop)]
pub(crate) struct MarkedClaim {
    pub standing: StandingClaim,
    pub keys: Vec<usize>,
}

/// The first keys of the lane.
pub(crate) fn first_keys(
    alloc: Global,
    lane: &KeyLane,
    most: u32,
) -> Result<Vec<usize>, OutOfMemory>
    requires { most ≤ length lane.now.keys }
    ensures { IfOk result (λ keys. keys.items ≡ take most lane.now.keys) }
{
    let mut keys = Vec::new(alloc);
    let mut key = lane.first();
    for _index in 0..most {
        let Some(here) = key else { unreachable!() };
        keys.push(here)?;
        key = lane.behind(here);
    }
    Ok(keys)
}

/// Copies of the messages under the keys.
pub(crate) fn copies_of(
    alloc: Global,
    items: &Items,
    keys: &[usize],
) -> Result<List<Msg>, OutOfMemory>
    requires { IsTrue (are_under keys.now items.now) }
    ensures { IfOk result (λ copies. copies ≡ messages_under keys.now items.now) }
{
    let mut copies = Vec::new(alloc);
    for key in keys {
        copies.push(items.message(*key).copy(alloc)?)?;
    }
    Ok(List::from_vec(copies))
}

/// Takes the messages under the keys out, and the keys out of the lanes. It takes no memory.
pub(crate) fn take_marked(items: &mut Items, lanes: &mut Vec<KeyLane>, keys: &[usize])
    requires there { IsTrue (can_take keys.now items.old) }
    requires lanes { AreLanes items.old lanes.old.items }
    ensures rest { items.new ≡ without_entries keys.now items.old }
    ensures lanes { AreLanes items.new lanes.new.items }
{
    for key in keys {
        let message = items.take(*key);
        leave_all(lanes, *key, message.value);
    }
}

/// The message at the index, from 0 for the oldest; none past the last.
pub(crate) fn item_at(items: &Items, index: u32) -> Option<&Msg>
    ensures { option_copied result ≡ slice_get (messages_of items.now) index }
{
    if index >= items.len() {
        return None;
    }
    let mut key = items.first();
    for _before in 0..index {
        let Some(here) = key else { unreachable!() };
        key = items.behind(here);
    }
    let Some(here) = key else { unreachable!() };
    Some(items.message(here))
}

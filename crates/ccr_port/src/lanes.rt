//! The lanes of a port: one for each predicate that a claim has named.

ghost use Rattle.std.specs.Prelude.{◌≡◌, ℕ, IsTrue, IfOk, OnOk, map};
ghost use Rattle.std.specs.List.{list_all};
ghost use Rattle.ccr_port.specs.Lanes.{AreLanes, AreSame, HasLane, can_enter, can_leave, entered, fitting_keys, have_room, left};

use crate::items::Items;
use crate::lane::KeyLane;
use ccr_base::{OutOfMemory, Pred, Value};
use std::alloc::Global;

/// Room for the key in each lane.
pub(crate) fn make_room(lanes: &mut Vec<KeyLane>, key: usize) -> Result<(), OutOfMemory>
    ensures same { AreSame lanes.old.items lanes.new.items }
    ensures room { OnOk result (IsTrue (have_room key lanes.new.items)) }
{
    for number in 0..lanes.len() {
        let lane = &mut lanes[number];
        lane.make_room(key)?;
    }
    Ok(())
}

/// Puts the key last in each lane whose predicate the value satisfies. It takes no memory.
pub(crate) fn enter_all(lanes: &mut Vec<KeyLane>, key: usize, value: Value)
    requires { IsTrue (list_all (can_enter key) lanes.old.items) }
    ensures { lanes.new.items ≡ map (entered key value) lanes.old.items }
{
    for number in 0..lanes.len() {
        let lane = &mut lanes[number];
        lane.enter(key, value);
    }
}

/// Takes the key out of each lane whose predicate the value satisfies. It takes no memory.
pub(crate) fn leave_all(lanes: &mut Vec<KeyLane>, key: usize, value: Value)
    requires { IsTrue (list_all (can_leave key value) lanes.old.items) }
    ensures { lanes.new.items ≡ map (left key value) lanes.old.items }
{
    for number in 0..lanes.len() {
        let lane = &mut lanes[number];
        lane.leave(key, value);
    }
}

/// A lane of the predicate with the keys of all messages that satisfy it.
fn lane_of(alloc: Global, items: &Items, pred: Pred) -> Result<KeyLane, OutOfMemory>
    ensures pred { IfOk result (λ lane. lane.pred ≡ pred) }
    ensures keys { IfOk result (λ lane. lane.keys ≡ fitting_keys pred items.now) }
{
    let mut lane = KeyLane::new(alloc, pred);
    let mut key = items.first();
    for _index in 0..items.len() {
        let Some(here) = key else { unreachable!() };
        let value = items.message(here).value;
        lane.make_room(here)?;
        lane.enter(here, value);
        key = items.behind(here);
    }
    Ok(lane)
}

/// The number of the lane of the predicate, which is made where there is none, and only there.
pub(crate) fn lane_for(
    alloc: Global,
    items: &Items,
    lanes: &mut Vec<KeyLane>,
    pred: Pred,
) -> Result<usize, OutOfMemory>
    requires { AreLanes items.now lanes.old.items }
    ensures lanes { AreLanes items.now lanes.new.items }
    ensures found { IfOk result (λ number. HasLane lanes.new.items number pred) }
    ensures once { (number : ℕ) → HasLane lanes.old.items number pred → lanes.new.items ≡ lanes.old.items }
{
    for number in 0..lanes.len() {
        if lanes[number].is_of(pred) {
            return Ok(number);
        }
    }
    let number = lanes.len();
    lanes.push(lane_of(alloc, items, pred)?)?;
    Ok(number)
}

//! Which spots can fire now.

ghost use Rattle.std.specs.Prelude.{◌≡◌, IfOk};
ghost use Rattle.std.specs.List.{list_all};
ghost use Rattle.ccr_base.specs.Selection.{is_choosable};
ghost use Rattle.ccr_model.specs.Posts.{held};
ghost use Rattle.ccr_model.specs.Enough.{can_fire, can_take, has_enough};

use crate::Event;
use crate::live::{has_room, is_live};
use crate::posts::held;
use ccr_base::{OutOfMemory, Pattern, Slot, Spot, can_choose};
use ccr_wiring::Wiring;
use std::alloc::Global;

/// Whether the slot's port holds enough for it.
fn slot_has_enough(alloc: Global, events: &[Event], slot: &Slot) -> Result<bool, OutOfMemory>
    ensures { IfOk result (λ enough. enough ≡ is_choosable slot.now (held events.now slot.now.port)) }
{
    let held = held(alloc, events, slot.port)?;
    Ok(can_choose(&held, slot))
}

/// Whether each slot's port holds enough for it.
fn slots_have_enough(alloc: Global, events: &[Event], slots: &[Slot]) -> Result<bool, OutOfMemory>
    ensures { IfOk result (λ all. all ≡ list_all (λ slot. is_choosable slot (held events.now slot.port)) slots.now) }
{
    for slot in slots {
        if !slot_has_enough(alloc, events, slot)? {
            return Ok(false);
        }
    }
    Ok(true)
}

/// Whether the ports hold enough for the pattern.
fn has_enough(alloc: Global, events: &[Event], pattern: &Pattern) -> Result<bool, OutOfMemory>
    ensures { IfOk result (λ enough. enough ≡ has_enough (held events.now) pattern.now) }
{
    match pattern {
        Pattern::Slots(slots) => slots_have_enough(alloc, events, slots.as_slice()),
        Pattern::Gather {
            total,
            first,
            second,
        } => {
            let of_first = held(alloc, events, *first)?.len();
            let of_second = held(alloc, events, *second)?.len();
            Ok((*total as usize).saturating_sub(of_first) <= of_second)
        }
    }
}

/// Whether there is something for the spot to take.
fn can_take(
    alloc: Global,
    wiring: &Wiring,
    events: &[Event],
    spot: Spot,
) -> Result<bool, OutOfMemory>
    ensures { IfOk result (λ can. can ≡ can_take wiring.now events.now spot) }
{
    match spot {
        Spot::Branch(branch) => match wiring.placement(branch) {
            Some(placement) => has_enough(alloc, events, &placement.branch.pattern),
            None => Ok(false),
        },
        Spot::Site(branch, site) => match wiring.site_port(branch, site) {
            Some(port) => Ok(!held(alloc, events, port)?.is_empty()),
            None => Ok(false),
        },
    }
}

/// Whether the spot can fire: it is live, its queue has room, and there is something for it to take.
pub fn can_fire(
    alloc: Global,
    wiring: &Wiring,
    events: &[Event],
    spot: Spot,
) -> Result<bool, OutOfMemory>
    ensures { IfOk result (λ can. can ≡ can_fire wiring.now events.now spot) }
{
    if !is_live(alloc, wiring, events, spot)? || !has_room(alloc, wiring, events, spot)? {
        return Ok(false);
    }
    can_take(alloc, wiring, events, spot)
}

//! Which messages a firing may take.

ghost use Rattle.std.specs.Prelude.{◌≡◌, IfOk};
ghost use Rattle.std.specs.Option.{option_map};
ghost use Rattle.ccr_base.specs.Names.{same_message, same_lists};
ghost use Rattle.ccr_base.specs.Selection.{selection, fitting};
ghost use Rattle.ccr_model.specs.Posts.{held};
ghost use Rattle.ccr_model.specs.Selection.{names_of, selection_of_slots, are_first, are_split, is_selection_of, are_oldest, is_selection};
ghost use Rattle.ccr_model.specs.Views.{seen};

use crate::Event;
use crate::posts::held;
use ccr_base::{List, Msg, MsgId, OutOfMemory, Pattern, PortNo, Slot, Spot};
use ccr_wiring::Wiring;
use std::alloc::Global;

/// The names of the slot's selection from what its port holds.
fn selection_names(
    alloc: Global,
    held: &[&Msg],
    slot: &Slot,
) -> Result<Option<Vec<MsgId>>, OutOfMemory>
    ensures { IfOk result (λ names. option_map (λ found. found.items) names ≡ option_map names_of (selection slot.now (seen held.now))) }
{
    let mut names = fitting_names(alloc, held, slot)?;
    if names.len() < slot.least as usize {
        return Ok(None);
    }
    names.truncate(slot.most as usize);
    Ok(Some(names))
}

/// The names of the messages that satisfy the slot's predicate.
fn fitting_names(alloc: Global, held: &[&Msg], slot: &Slot) -> Result<Vec<MsgId>, OutOfMemory>
    ensures { IfOk result (λ names. names.items ≡ names_of (fitting slot.now.pred (seen held.now))) }
{
    let mut names = Vec::new(alloc);
    for message in held {
        if slot.pred.holds(&message.value) {
            names.push(message.id)?;
        }
    }
    Ok(names)
}

/// The names of the selection of all slots, slot by slot.
fn names_of_slots(
    alloc: Global,
    events: &[Event],
    slots: &[Slot],
) -> Result<Option<Vec<MsgId>>, OutOfMemory>
    ensures { IfOk result (λ names. option_map (λ found. found.items) names ≡ option_map names_of (selection_of_slots (held events.now) slots.now)) }
{
    let mut names = Vec::new(alloc);
    for slot in slots {
        let held = held(alloc, events, slot.port)?;
        let Some(found) = selection_names(alloc, &held, slot)? else {
            return Ok(None);
        };
        names.extend_from_slice(&found)?;
    }
    Ok(Some(names))
}

/// Whether two lists of names are the same.
pub fn are_same(names: &[MsgId], others: &[MsgId]) -> bool
    ensures { result ≡ same_lists same_message names.now others.now }
{
    match (names, others) {
        ([], []) => true,
        ([name, names @ ..], [other, others @ ..]) => name == other && are_same(names, others),
        _ => false,
    }
}

/// Whether the names are those of the first messages.
fn are_first(messages: &[&Msg], names: &[MsgId]) -> bool
    ensures { result ≡ are_first (seen messages.now) names.now }
{
    let Some((name, names)) = names.split_first() else {
        return true;
    };
    let Some((message, messages)) = messages.split_first() else {
        return false;
    };
    message.id == *name && are_first(messages, names)
}

/// Whether the names are those of some first messages of one list, followed by some of the other.
fn are_split(first: &[&Msg], second: &[&Msg], names: &[MsgId]) -> bool
    ensures { result ≡ are_split (seen first.now) (seen second.now) names.now }
{
    let Some((name, later)) = names.split_first() else {
        return true;
    };
    let Some((message, others)) = first.split_first() else {
        return are_first(second, names);
    };
    are_first(second, names) || (message.id == *name && are_split(others, second, later))
}

/// Whether the names are those of all the slots' selection.
fn is_selection_of_slots(
    alloc: Global,
    events: &[Event],
    slots: &List<Slot>,
    names: &[MsgId],
) -> Result<bool, OutOfMemory>
    ensures { IfOk result (λ is. is ≡ is_selection_of (held events.now) (Pattern.Slots slots.now) names.now) }
{
    match names_of_slots(alloc, events, slots.as_slice())? {
        Some(chosen) => Ok(are_same(&chosen, names)),
        None => Ok(false),
    }
}

/// Whether the names are those of a selection of the pattern. Which split of a gather is free.
fn is_selection_of(
    alloc: Global,
    events: &[Event],
    pattern: &Pattern,
    names: &[MsgId],
) -> Result<bool, OutOfMemory>
    ensures { IfOk result (λ is. is ≡ is_selection_of (held events.now) pattern.now names.now) }
{
    match pattern {
        Pattern::Slots(slots) => is_selection_of_slots(alloc, events, slots, names),
        Pattern::Gather {
            total,
            first,
            second,
        } => {
            let of_first = held(alloc, events, *first)?;
            let of_second = held(alloc, events, *second)?;
            Ok(names.len() == *total as usize && are_split(&of_first, &of_second, names))
        }
    }
}

/// Whether the names are the one oldest message's of the port.
fn are_oldest(
    alloc: Global,
    events: &[Event],
    port: PortNo,
    names: &[MsgId],
) -> Result<bool, OutOfMemory>
    ensures { IfOk result (λ is. is ≡ are_oldest (held events.now port) names.now) }
{
    let held = held(alloc, events, port)?;
    Ok(names.len() == 1 && are_first(&held, names))
}

/// Whether a firing at the spot may take the messages of these names.
pub fn is_selection(
    alloc: Global,
    wiring: &Wiring,
    events: &[Event],
    spot: Spot,
    names: &[MsgId],
) -> Result<bool, OutOfMemory>
    ensures { IfOk result (λ is. is ≡ is_selection wiring.now events.now spot names.now) }
{
    match spot {
        Spot::Branch(branch) => match wiring.placement(branch) {
            Some(placement) => is_selection_of(alloc, events, &placement.branch.pattern, names),
            None => Ok(false),
        },
        Spot::Site(branch, site) => match wiring.site_port(branch, site) {
            Some(port) => are_oldest(alloc, events, port, names),
            None => Ok(false),
        },
    }
}

//! What the ports hold for a pattern.

ghost use Rattle.std.specs.Prelude.{◌≡◌, ◌++◌, IfOk, OnOk, length, take};
ghost use Rattle.std.specs.List.{list_all};
ghost use Rattle.std.specs.Option.{option_map};
ghost use Rattle.ccr_base.specs.Selection.{is_choosable};
ghost use Rattle.ccr_ledger.specs.Rows.{row};
ghost use Rattle.ccr_model.specs.Selection.{selection_of_slots, engine_selection_of, engine_gather, names_of, oldest};
ghost use Rattle.ccr_model.specs.Enough.{has_enough};
ghost use Rattle.ccr_ledger.specs.Taking.{slot_takes};

use crate::HeldMessages;
use ccr_base::{MsgId, OutOfMemory, Pattern, PortNo, Slot};
use std::alloc::Global;

/// How many messages the port holds.
pub(crate) fn count(ports: &[HeldMessages], port: PortNo) -> usize
    ensures { result ≡ length (row ports.now port) }
{
    match ports.get(port as usize) {
        Some(port) => port.len(),
        None => 0,
    }
}

/// Whether the slot's port holds enough for it.
fn slot_has_enough(ports: &mut Vec<HeldMessages>, slot: &Slot) -> Result<bool, OutOfMemory>
    ensures enough { IfOk result (λ enough. enough ≡ is_choosable slot.now (row ports.old.items slot.now.port)) }
    ensures kept { ports.new.items ≡ ports.old.items }
{
    let number = slot.port as usize;
    if number < ports.len() {
        let port = &mut ports[number];
        port.has(slot.pred, slot.least as usize)
    } else {
        Ok(slot.least == 0)
    }
}

/// Whether each slot's port holds enough for it.
fn slots_have_enough(ports: &mut Vec<HeldMessages>, slots: &[Slot]) -> Result<bool, OutOfMemory>
    ensures enough { IfOk result (λ all. all ≡ list_all (λ slot. is_choosable slot (row ports.old.items slot.port)) slots.now) }
    ensures kept { ports.new.items ≡ ports.old.items }
{
    for slot in slots {
        if !slot_has_enough(ports, slot)? {
            return Ok(false);
        }
    }
    Ok(true)
}

/// Whether the ports hold enough for the pattern.
pub(crate) fn has_enough(
    ports: &mut Vec<HeldMessages>,
    pattern: &Pattern,
) -> Result<bool, OutOfMemory>
    ensures enough { IfOk result (λ enough. enough ≡ has_enough (row ports.old.items) pattern.now) }
    ensures kept { ports.new.items ≡ ports.old.items }
{
    match pattern {
        Pattern::Slots(slots) => slots_have_enough(ports, slots.as_slice()),
        Pattern::Gather {
            total,
            first,
            second,
        } => {
            let of_first = count(ports, *first);
            let of_second = count(ports, *second);
            Ok((*total as usize).saturating_sub(of_first) <= of_second)
        }
    }
}

/// The names of the oldest messages of the slot's port that satisfy its predicate, at most as many as it takes, come behind those
/// that are there.
fn add_slot_names(
    ports: &mut Vec<HeldMessages>,
    slot: &Slot,
    names: &mut Vec<MsgId>,
) -> Result<(), OutOfMemory>
    ensures names { OnOk result (names.new.items ≡ names.old.items ++ names_of (slot_takes (row ports.old.items) slot.now)) }
    ensures kept { ports.new.items ≡ ports.old.items }
{
    let number = slot.port as usize;
    if number < ports.len() {
        let port = &mut ports[number];
        port.add_names(slot.pred, slot.most as usize, names)?;
    }
    Ok(())
}

/// The names of the slots' selection, slot by slot, if each port holds enough.
pub(crate) fn names_of_slots(
    alloc: Global,
    ports: &mut Vec<HeldMessages>,
    slots: &[Slot],
) -> Result<Option<Vec<MsgId>>, OutOfMemory>
    ensures names { IfOk result (λ names. option_map (λ found. found.items) names ≡ option_map names_of (selection_of_slots (row ports.old.items) slots.now)) }
    ensures kept { ports.new.items ≡ ports.old.items }
{
    if !slots_have_enough(ports, slots)? {
        return Ok(None);
    }
    let mut names = Vec::new(alloc);
    for slot in slots {
        add_slot_names(ports, slot, &mut names)?;
    }
    Ok(Some(names))
}

/// The names of so many of the oldest messages of the port.
pub(crate) fn oldest_names(
    alloc: Global,
    ports: &mut Vec<HeldMessages>,
    port: PortNo,
    most: usize,
) -> Result<Vec<MsgId>, OutOfMemory>
    ensures names { IfOk result (λ names. names.items ≡ names_of (take most (row ports.old.items port))) }
    ensures kept { ports.new.items ≡ ports.old.items }
{
    let number = port as usize;
    if number < ports.len() {
        let port = &mut ports[number];
        port.oldest_names(most)
    } else {
        Ok(Vec::new(alloc))
    }
}

/// The names of what a gather takes: as many as can be had from the port of the lower number.
fn names_of_gather(
    alloc: Global,
    ports: &mut Vec<HeldMessages>,
    total: usize,
    first: PortNo,
    second: PortNo,
) -> Result<Option<Vec<MsgId>>, OutOfMemory>
    ensures names { IfOk result (λ names. option_map (λ found. found.items) names ≡ option_map names_of (engine_gather total first second (row ports.old.items first) (row ports.old.items second))) }
    ensures kept { ports.new.items ≡ ports.old.items }
{
    let of_first = count(ports, first);
    let of_second = count(ports, second);
    if of_second < total.saturating_sub(of_first) {
        return Ok(None);
    }
    let (most_first, most_second) = if first < second {
        (total, total.saturating_sub(of_first))
    } else {
        (total.saturating_sub(of_second), total)
    };
    let mut names = oldest_names(alloc, ports, first, most_first)?;
    let more = oldest_names(alloc, ports, second, most_second)?;
    names.extend_from_slice(&more)?;
    Ok(Some(names))
}

/// The names of the selection that one thread makes of the pattern.
pub(crate) fn names_of_selection(
    alloc: Global,
    ports: &mut Vec<HeldMessages>,
    pattern: &Pattern,
) -> Result<Option<Vec<MsgId>>, OutOfMemory>
    ensures names { IfOk result (λ names. option_map (λ found. found.items) names ≡ option_map names_of (engine_selection_of (row ports.old.items) pattern.now)) }
    ensures kept { ports.new.items ≡ ports.old.items }
{
    match pattern {
        Pattern::Slots(slots) => names_of_slots(alloc, ports, slots.as_slice()),
        Pattern::Gather {
            total,
            first,
            second,
        } => names_of_gather(alloc, ports, *total as usize, *first, *second),
    }
}

/// The name of the oldest message of the port, alone, if there is one.
pub(crate) fn names_of_site(
    alloc: Global,
    ports: &mut Vec<HeldMessages>,
    port: PortNo,
) -> Result<Option<Vec<MsgId>>, OutOfMemory>
    ensures names { IfOk result (λ names. option_map (λ found. found.items) names ≡ option_map names_of (oldest (row ports.old.items port))) }
    ensures kept { ports.new.items ≡ ports.old.items }
{
    let names = oldest_names(alloc, ports, port, 1)?;
    if names.is_empty() {
        Ok(None)
    } else {
        Ok(Some(names))
    }
}

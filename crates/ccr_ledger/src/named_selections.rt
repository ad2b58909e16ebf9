//! Whether names are those of a selection from what the ports hold.

ghost use Rattle.std.specs.Prelude.{◌≡◌, ◌==◌, ◌&&◌, IfOk, length};
ghost use Rattle.ccr_base.specs.declared.patterns.Pattern.TheVariants.{Slots};
ghost use Rattle.ccr_ledger.specs.Rows.{row};
ghost use Rattle.ccr_model.specs.Selection.{are_oldest, are_split, is_selection_of};
ghost use Rattle.ccr_ledger.specs.Prefixes.{are_prefix, are_prefixes};

use crate::HeldMessages;
use crate::selections::{names_of_slots, oldest_names};
use ccr_base::{MsgId, OutOfMemory, Pattern, PortNo, Slot};
use ccr_model::selections::are_same;
use std::alloc::Global;

/// Whether the names are the first of these.
fn are_prefix(oldest: &[MsgId], names: &[MsgId]) -> bool
    ensures { result ≡ are_prefix oldest.now names.now }
{
    let Some((name, later)) = names.split_first() else {
        return true;
    };
    let Some((first, others)) = oldest.split_first() else {
        return false;
    };
    first == name && are_prefix(others, later)
}

/// Whether the names are the first of one list, followed by the first of the other.
fn are_prefixes(first: &[MsgId], second: &[MsgId], names: &[MsgId]) -> bool
    ensures { result ≡ are_prefixes first.now second.now names.now }
{
    let Some((name, later)) = names.split_first() else {
        return true;
    };
    let Some((oldest, others)) = first.split_first() else {
        return are_prefix(second, names);
    };
    are_prefix(second, names) || (oldest == name && are_prefixes(others, second, later))
}

/// Whether the names are those of the slots' selection.
fn are_slots(
    alloc: Global,
    ports: &mut Vec<HeldMessages>,
    slots: &[Slot],
    names: &[MsgId],
) -> Result<bool, OutOfMemory>
    ensures are { IfOk result (λ are. are ≡ is_selection_of (row ports.old.items) (Slots slots.now) names.now) }
    ensures kept { ports.new.items ≡ ports.old.items }
{
    match names_of_slots(alloc, ports, slots)? {
        Some(chosen) => Ok(are_same(&chosen, names)),
        None => Ok(false),
    }
}

/// Whether the names are those of some split of a gather that gives its total. It takes a time linear in the names where
/// no two messages of the ports have one name, as after each legal history.
fn are_gather(
    alloc: Global,
    ports: &mut Vec<HeldMessages>,
    total: usize,
    first: PortNo,
    second: PortNo,
    names: &[MsgId],
) -> Result<bool, OutOfMemory>
    ensures are { IfOk result (λ are. are ≡ ((length names.now == total) && are_split (row ports.old.items first) (row ports.old.items second) names.now)) }
    ensures kept { ports.new.items ≡ ports.old.items }
{
    if names.len() != total {
        return Ok(false);
    }
    let of_first = oldest_names(alloc, ports, first, total)?;
    let of_second = oldest_names(alloc, ports, second, total)?;
    Ok(are_prefixes(&of_first, &of_second, names))
}

/// Whether the names are those of a selection of the pattern. Which split of a gather is free.
pub(crate) fn are_selected_by(
    alloc: Global,
    ports: &mut Vec<HeldMessages>,
    pattern: &Pattern,
    names: &[MsgId],
) -> Result<bool, OutOfMemory>
    ensures are { IfOk result (λ are. are ≡ is_selection_of (row ports.old.items) pattern.now names.now) }
    ensures kept { ports.new.items ≡ ports.old.items }
{
    match pattern {
        Pattern::Slots(slots) => are_slots(alloc, ports, slots.as_slice(), names),
        Pattern::Gather {
            total,
            first,
            second,
        } => are_gather(alloc, ports, *total as usize, *first, *second, names),
    }
}

/// Whether the names are the one oldest message's of the port.
pub(crate) fn are_oldest(
    alloc: Global,
    ports: &mut Vec<HeldMessages>,
    port: PortNo,
    names: &[MsgId],
) -> Result<bool, OutOfMemory>
    ensures are { IfOk result (λ are. are ≡ are_oldest (row ports.old.items port) names.now) }
    ensures kept { ports.new.items ≡ ports.old.items }
{
    if names.len() != 1 {
        return Ok(false);
    }
    let oldest = oldest_names(alloc, ports, port, 1)?;
    Ok(are_prefix(&oldest, names))
}

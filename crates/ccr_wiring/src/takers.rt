//! The spots by the ports that they take from, and the branches by their queues.

ghost use Rattle.std.specs.Prelude.{◌≡◌, ◌==◌, [], true, Bool, ℕ, slice_get, unwrap_or, IfOk, OnOk};
ghost use Rattle.ccr_base.specs.declared.names.Spot.{Spot as SpotOf};
ghost use Rattle.ccr_base.specs.Lists.{has_number};
ghost use Rattle.ccr_wiring.specs.Repeats.{are_slots_apart, names_ports_once, slot_ports};
ghost use Rattle.ccr_wiring.specs.Spots.{pattern_ports};
ghost use Rattle.ccr_wiring.specs.Takers.{AreListed, AreTaken, IsNoted, is_for, takes_from};
ghost use Rattle.ccr_wiring.specs.Valid.{IsValid};
ghost use Rattle.ccr_wiring.specs.Wirings.{awaited, site_port};
ghost use Rattle.ccr_wiring.specs.Placements.{positions as positions_of};

use crate::Parts;
use crate::placements::{Position, placement_of};
use crate::spots::actions_of;
use ccr_base::{Action, BranchNo, List, OutOfMemory, Pattern, PortNo, Slot, Spot};
use std::alloc::Global;

/// For each port the spots that take from it, and for each queue its branches, in the order of the spots.
#[derive(Drop)]
pub(crate) struct Takers {
    pub ports: Vec<List<Spot>>,
    pub queues: Vec<List<Spot>>,
}

/// So many empty lists.
fn empty_lists(alloc: Global, count: usize) -> Result<Vec<List<Spot>>, OutOfMemory>
    ensures { (test : ℕ → SpotOf → Bool) → IfOk result (λ lists. AreListed test count [] lists.items) }
{
    let mut lists = Vec::new(alloc);
    for _ in 0..count {
        lists.push(List::new(alloc))?;
    }
    Ok(lists)
}

/// The spot comes into the list of this number. There is none past the last.
fn note(lists: &mut [List<Spot>], number: u32, spot: Spot) -> Result<(), OutOfMemory>
    ensures { OnOk result (IsNoted (λ other. number == other) spot lists.old lists.new) }
{
    if (number as usize) < lists.len() {
        let list = &mut lists[number as usize];
        list.add(spot)?;
    }
    Ok(())
}

/// The spot comes into the lists of the ports of these slots.
fn note_slots(lists: &mut [List<Spot>], slots: &[Slot], spot: Spot) -> Result<(), OutOfMemory>
    requires { are_slots_apart slots.now ≡ true }
    ensures { OnOk result (IsNoted (has_number (slot_ports slots.now)) spot lists.old lists.new) }
{
    for slot in slots {
        note(lists, slot.port, spot)?;
    }
    Ok(())
}

/// The spot comes into the lists of the ports of the pattern.
fn note_pattern(lists: &mut [List<Spot>], pattern: &Pattern, spot: Spot) -> Result<(), OutOfMemory>
    requires { names_ports_once pattern.now ≡ true }
    ensures { OnOk result (IsNoted (has_number (pattern_ports pattern.now)) spot lists.old lists.new) }
{
    match pattern {
        Pattern::Slots(slots) => note_slots(lists, slots.as_slice(), spot),
        Pattern::Gather { first, second, .. } => {
            note(lists, *first, spot)?;
            note(lists, *second, spot)?;
            Ok(())
        }
    }
}

/// The port that the actions await at this site.
fn awaited_at(actions: &[Action], site: u32) -> Option<PortNo>
    ensures { result ≡ slice_get (awaited actions.now) site }
{
    let mut left = site;
    for action in actions {
        if let Action::Await(port) = action {
            if left == 0 {
                return Some(*port);
            }
            left -= 1;
        }
    }
    None
}

/// The port that is awaited at this site of the branch.
pub(crate) fn site_port(
    parts: &Parts,
    positions: &[Position],
    branch: BranchNo,
    site: u32,
) -> Option<PortNo>
    requires { positions.now ≡ positions_of parts.now }
    ensures { result ≡ site_port parts.now branch site }
{
    let placement = placement_of(parts, positions, branch)?;
    awaited_at(actions_of(parts, placement.branch.handler), site)
}

/// The spot comes into the lists of the ports that it takes from.
fn note_ports(
    lists: &mut [List<Spot>],
    parts: &Parts,
    positions: &[Position],
    spot: Spot,
) -> Result<(), OutOfMemory>
    requires valid { IsValid parts.now }
    requires positions { positions.now ≡ positions_of parts.now }
    ensures { OnOk result (IsNoted (λ port. takes_from parts.now port spot) spot lists.old lists.new) }
{
    match spot {
        Spot::Branch(branch) => match placement_of(parts, positions, branch) {
            Some(placement) => note_pattern(lists, &placement.branch.pattern, spot),
            None => Ok(()),
        },
        Spot::Site(branch, site) => match site_port(parts, positions, branch, site) {
            Some(port) => note(lists, port, spot),
            None => Ok(()),
        },
    }
}

/// The spot comes into the list of its queue, where it is a branch.
fn note_queue(
    lists: &mut [List<Spot>],
    parts: &Parts,
    positions: &[Position],
    spot: Spot,
) -> Result<(), OutOfMemory>
    requires { positions.now ≡ positions_of parts.now }
    ensures { OnOk result (IsNoted (λ queue. is_for parts.now queue spot) spot lists.old lists.new) }
{
    match spot {
        Spot::Branch(branch) => match placement_of(parts, positions, branch) {
            Some(placement) => note(lists, placement.branch.queue, spot),
            None => Ok(()),
        },
        Spot::Site(..) => Ok(()),
    }
}

/// All the spots come in, in one pass over them.
fn note_spots(
    takers: &mut Takers,
    parts: &Parts,
    positions: &[Position],
    spots: &[Spot],
) -> Result<(), OutOfMemory>
    requires valid { IsValid parts.now }
    requires positions { positions.now ≡ positions_of parts.now }
    requires empty { AreTaken parts.now [] takers.old.ports.items takers.old.queues.items }
    ensures { OnOk result (AreTaken parts.now spots.now takers.new.ports.items takers.new.queues.items) }
{
    for spot in spots {
        note_ports(&mut takers.ports, parts, positions, *spot)?;
        note_queue(&mut takers.queues, parts, positions, *spot)?;
    }
    Ok(())
}

/// The lists of all ports and queues.
pub(crate) fn all_takers(
    alloc: Global,
    parts: &Parts,
    positions: &[Position],
    spots: &[Spot],
) -> Result<Takers, OutOfMemory>
    requires valid { IsValid parts.now }
    requires positions { positions.now ≡ positions_of parts.now }
    ensures { IfOk result (λ takers. AreTaken parts.now spots.now takers.ports.items takers.queues.items) }
{
    let mut takers = Takers {
        ports: empty_lists(alloc, parts.ports.as_slice().len())?,
        queues: empty_lists(alloc, parts.queues.as_slice().len())?,
    };
    note_spots(&mut takers, parts, positions, spots)?;
    Ok(takers)
}

/// The list of this number; empty where there is none.
pub(crate) fn list_of(lists: &[List<Spot>], number: u32) -> &[Spot]
    ensures { result.now ≡ unwrap_or (slice_get lists.now number) [] }
{
    match lists.get(number as usize) {
        Some(list) => list.as_slice(),
        None => &[],
    }
}

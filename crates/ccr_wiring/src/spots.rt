//! The spots of a wiring, and the ports that they name.

ghost use Rattle.std.specs.Prelude.{◌≡◌, false, ◌<◌, ◌≤◌, ◌+◌, ◌^◌, ◌++◌, IfOk, IfSome, IfNone, OnOk, length};
ghost use Rattle.ccr_wiring.specs.Wirings.{sites_from, spots, awaited, actions_of, branch_of, segment_of};
ghost use Rattle.ccr_wiring.specs.Repeats.{slot_ports};
ghost use Rattle.ccr_wiring.specs.Spots.{pattern_ports, branch_named, branches_named, arbiters_named, named_ports, has_crowded, branch_spots, all_branches};
ghost use Rattle.ccr_wiring.specs.Limits.{has_outside};

use crate::limits::MAX_SPOTS;
use crate::{ArbiterPart, BranchPart, Parts};
use ccr_base::{Action, BranchNo, HandlerNo, OutOfMemory, Pattern, PortNo, Slot, Spot};
use indexmap::IndexMap;
use std::alloc::Global;

pub(crate) fn actions_of(parts: &Parts, handler: HandlerNo) -> &[Action]
    ensures { result.now ≡ actions_of parts.now handler }
{
    match parts.handlers.as_slice().get(handler as usize) {
        Some(part) => part.handler.actions.as_slice(),
        None => &[],
    }
}

fn add_awaited(ports: &mut Vec<PortNo>, actions: &[Action]) -> Result<(), OutOfMemory>
    ensures { OnOk result (ports.new.items ≡ ports.old.items ++ awaited actions.now) }
{
    for action in actions {
        if let Action::Await(port) = *action {
            ports.push(port)?;
        }
    }
    Ok(())
}

fn add_slots(ports: &mut Vec<PortNo>, slots: &[Slot]) -> Result<(), OutOfMemory>
    ensures { OnOk result (ports.new.items ≡ ports.old.items ++ slot_ports slots.now) }
{
    for slot in slots {
        ports.push(slot.port)?;
    }
    Ok(())
}

fn add_pattern(ports: &mut Vec<PortNo>, pattern: &Pattern) -> Result<(), OutOfMemory>
    ensures { OnOk result (ports.new.items ≡ ports.old.items ++ pattern_ports pattern.now) }
{
    match pattern {
        Pattern::Slots(slots) => add_slots(ports, slots.as_slice()),
        Pattern::Gather { first, second, .. } => {
            ports.push(*first)?;
            ports.push(*second)?;
            Ok(())
        }
    }
}

/// Adds the ports that the branch names, and behind them those that its sites await.
pub fn add_branch_ports(
    ports: &mut Vec<PortNo>,
    parts: &Parts,
    branch: &BranchPart,
) -> Result<(), OutOfMemory>
    ensures { OnOk result (ports.new.items ≡ ports.old.items ++ branch_named parts.now branch.now) }
{
    add_pattern(ports, &branch.pattern)?;
    add_awaited(ports, actions_of(parts, branch.handler))
}

fn add_branches(
    ports: &mut Vec<PortNo>,
    parts: &Parts,
    branches: &[BranchPart],
) -> Result<(), OutOfMemory>
    ensures { OnOk result (ports.new.items ≡ ports.old.items ++ branches_named parts.now branches.now) }
{
    for branch in branches {
        add_branch_ports(ports, parts, branch)?;
    }
    Ok(())
}

fn add_arbiters(
    ports: &mut Vec<PortNo>,
    parts: &Parts,
    arbiters: &[ArbiterPart],
) -> Result<(), OutOfMemory>
    ensures { OnOk result (ports.new.items ≡ ports.old.items ++ arbiters_named parts.now arbiters.now) }
{
    for arbiter in arbiters {
        add_branches(ports, parts, arbiter.branches.as_slice())?;
    }
    Ok(())
}

/// The ports that spots name, once for each spot.
fn named_ports(alloc: Global, parts: &Parts) -> Result<Vec<PortNo>, OutOfMemory>
    ensures { IfOk result (λ ports. ports.items ≡ named_ports parts.now) }
{
    let mut ports = Vec::new(alloc);
    add_arbiters(&mut ports, parts, parts.arbiters.as_slice())?;
    Ok(ports)
}

/// Whether one port stands there more often than spots may name one.
fn has_crowded(alloc: Global, ports: &[PortNo]) -> Result<bool, OutOfMemory>
    ensures { IfOk result (λ crowded. crowded ≡ has_crowded ports.now) }
{
    let mut counts: IndexMap<PortNo, u32> = IndexMap::new(alloc);
    for port in ports {
        let count = counts.get(port).copied().unwrap_or(0);
        if count >= MAX_SPOTS {
            return Ok(true);
        }
        counts.insert(*port, count + 1)?;
    }
    Ok(false)
}

/// Whether more spots name one port than may.
pub(crate) fn has_crowded_port(alloc: Global, parts: &Parts) -> Result<bool, OutOfMemory>
    ensures { IfOk result (λ crowded. crowded ≡ has_crowded (named_ports parts.now)) }
{
    let ports = named_ports(alloc, parts)?;
    has_crowded(alloc, &ports)
}

fn add_sites(spots: &mut Vec<Spot>, branch: BranchNo, actions: &[Action]) -> Result<(), OutOfMemory>
    requires { length actions.now < 2 ^ 32 }
    ensures { OnOk result (spots.new.items ≡ spots.old.items ++ sites_from branch 0 (awaited actions.now)) }
{
    let mut site: u32 = 0;
    for action in actions {
        if let Action::Await(_) = *action {
            spots.push(Spot::Site(branch, site))?;
            site += 1;
        }
    }
    Ok(())
}

fn add_branch_spots(
    spots: &mut Vec<Spot>,
    parts: &Parts,
    first: BranchNo,
    branches: &[BranchPart],
) -> Result<(), OutOfMemory>
    requires limits { has_outside parts.now ≡ false }
    requires fits { first + length branches.now < 2 ^ 32 }
    ensures { OnOk result (spots.new.items ≡ spots.old.items ++ branch_spots parts.now first branches.now) }
{
    let mut number = first;
    for branch in branches {
        spots.push(Spot::Branch(number))?;
        add_sites(spots, number, actions_of(parts, branch.handler))?;
        number += 1;
    }
    Ok(())
}

fn add_all_spots(
    spots: &mut Vec<Spot>,
    parts: &Parts,
    arbiters: &[ArbiterPart],
) -> Result<(), OutOfMemory>
    requires limits { has_outside parts.now ≡ false }
    requires fits { length (all_branches arbiters.now) < 2 ^ 32 }
    ensures { OnOk result (spots.new.items ≡ spots.old.items ++ branch_spots parts.now 0 (all_branches arbiters.now)) }
{
    let mut number: u32 = 0;
    for arbiter in arbiters {
        let branches = arbiter.branches.as_slice();
        add_branch_spots(spots, parts, number, branches)?;
        number += branches.len() as u32;
    }
    Ok(())
}

/// Each branch in the order of the wiring, followed by its sites.
pub(crate) fn all_spots(alloc: Global, parts: &Parts) -> Result<Vec<Spot>, OutOfMemory>
    requires { has_outside parts.now ≡ false }
    ensures { IfOk result (λ listed. listed.items ≡ spots parts.now) }
{
    let mut listed = Vec::new(alloc);
    add_all_spots(&mut listed, parts, parts.arbiters.as_slice())?;
    Ok(listed)
}

/// The branch of which the spot is, or is a site.
pub fn branch_of(spot: Spot) -> BranchNo
    ensures { result ≡ branch_of spot }
{
    match spot {
        Spot::Branch(branch) | Spot::Site(branch, _) => branch,
    }
}

/// The number of the segment that a task fired at the spot runs; none where it has none of 32 bits.
pub fn segment_of(spot: Spot) -> Option<u32>
    ensures number { IfSome result (λ segment. segment ≡ segment_of spot) }
    ensures none { IfNone result (2 ^ 32 ≤ segment_of spot) }
{
    match spot {
        Spot::Branch(_) => Some(0),
        Spot::Site(_, site) => site.checked_add(1),
    }
}

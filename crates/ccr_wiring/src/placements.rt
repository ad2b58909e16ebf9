//! Where each branch stands, by its number.

ghost use Rattle.std.specs.Prelude.{◌≡◌, false, ◌<◌, ◌^◌, ◌++◌, IfOk, OnOk, length};
ghost use Rattle.std.specs.Option.{option_map};
ghost use Rattle.ccr_wiring.specs.Limits.{has_outside};
ghost use Rattle.ccr_wiring.specs.Wirings.{placement};
ghost use Rattle.ccr_wiring.specs.Placements.{positions as positions_of, positions, positions_in, positions_from, placement_at, placement_seen};

use crate::domains::domain_of;
use crate::{ArbiterPart, BranchPart, DomainPart, Kind, Parts};
use ccr_base::{ArbiterNo, BranchNo, OutOfMemory};
use std::alloc::Global;

/// A branch with the number of its arbiter's domain and the arbiter's kind.
#[derive(Clone, Copy)]
pub struct PlacementOf<'w> {
    pub domain: usize,
    pub kind: Kind,
    pub branch: &'w BranchPart,
}

/// Where a branch stands: its position among the branches of its arbiter, and the arbiter's domain.
#[derive(Clone, Copy)]
pub(crate) struct Position {
    pub arbiter: ArbiterNo,
    pub domain: ArbiterNo,
    pub branch: usize,
}

fn add_positions(
    positions: &mut Vec<Position>,
    arbiter: ArbiterNo,
    domain: ArbiterNo,
    count: usize,
) -> Result<(), OutOfMemory>
    ensures { OnOk result (positions.new.items ≡ positions.old.items ++ positions_in arbiter domain count) }
{
    for branch in 0..count {
        positions.push(Position {
            arbiter,
            domain,
            branch,
        })?;
    }
    Ok(())
}

fn add_all_positions(
    positions: &mut Vec<Position>,
    domains: &[DomainPart],
    arbiters: &[ArbiterPart],
) -> Result<(), OutOfMemory>
    requires { length arbiters.now < 2 ^ 32 }
    ensures { OnOk result (positions.new.items ≡ positions.old.items ++ positions_from domains.now 0 arbiters.now) }
{
    let mut number: ArbiterNo = 0;
    for arbiter in arbiters {
        let domain = domain_of(domains, number);
        add_positions(positions, number, domain, arbiter.branches.as_slice().len())?;
        number += 1;
    }
    Ok(())
}

/// Where the branches stand, in the order of their numbers.
pub(crate) fn all_positions(alloc: Global, parts: &Parts) -> Result<Vec<Position>, OutOfMemory>
    requires { has_outside parts.now ≡ false }
    ensures { IfOk result (λ listed. listed.items ≡ positions parts.now) }
{
    let mut listed = Vec::new(alloc);
    add_all_positions(
        &mut listed,
        parts.domains.as_slice(),
        parts.arbiters.as_slice(),
    )?;
    Ok(listed)
}

/// The branch of this number.
pub(crate) fn placement_of<'p>(
    parts: &'p Parts,
    positions: &[Position],
    branch: BranchNo,
) -> Option<PlacementOf<'p>>
    requires { positions.now ≡ positions_of parts.now }
    ensures { option_map placement_seen result ≡ placement parts.now branch }
{
    let position = positions.get(branch as usize)?;
    placement_at(parts.arbiters.as_slice(), *position)
}

/// The branch at the position.
pub(crate) fn placement_at(arbiters: &[ArbiterPart], position: Position) -> Option<PlacementOf<'_>>
    ensures { option_map placement_seen result ≡ placement_at arbiters.now position }
{
    let arbiter = arbiters.get(position.arbiter as usize)?;
    let branch = arbiter.branches.as_slice().get(position.branch)?;
    Some(PlacementOf {
        domain: position.domain as usize,
        kind: arbiter.kind,
        branch,
    })
}

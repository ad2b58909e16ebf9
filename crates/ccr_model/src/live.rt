//! Which spots may fire once more.

ghost use Rattle.std.specs.Prelude.{◌≡◌, IfOk};
ghost use Rattle.ccr_model.specs.Live.{is_live_in, is_live, has_room_in, has_room};

use crate::Event;
use crate::firings::fired_at;
use crate::sites::suspended;
use crate::tasks::{Branches, coming, fired_by};
use ccr_base::{BranchNo, Group, OutOfMemory, Policy, QueueNo, Spot};
use ccr_wiring::Wiring;
use std::alloc::Global;

/// Whether a branch of this group may fire once more.
fn is_live_in(
    alloc: Global,
    wiring: &Wiring,
    events: &[Event],
    branch: BranchNo,
    domain: usize,
    group: Group,
) -> Result<bool, OutOfMemory>
    ensures { IfOk result (λ live. live ≡ is_live_in wiring.now events.now branch domain group) }
{
    let fired = match group {
        Group::Always => return Ok(true),
        Group::Once => fired_at(alloc, events, Spot::Branch(branch))?,
        Group::Choice => fired_by(alloc, wiring, events, Branches::OfDomain(domain))?,
        Group::Teardown | Group::Exclusive | Group::Concurrent => {
            fired_by(alloc, wiring, events, Branches::TeardownsOf(domain))?
        }
    };
    Ok(fired.is_empty())
}

/// Whether the spot may fire once more: its group and its domain allow it, or a task is suspended there.
pub fn is_live(
    alloc: Global,
    wiring: &Wiring,
    events: &[Event],
    spot: Spot,
) -> Result<bool, OutOfMemory>
    ensures { IfOk result (λ live. live ≡ is_live wiring.now events.now spot) }
{
    let Spot::Branch(branch) = spot else {
        return Ok(!suspended(alloc, events, spot)?.is_empty());
    };
    match wiring.placement(branch) {
        Some(placement) => is_live_in(
            alloc,
            wiring,
            events,
            branch,
            placement.domain,
            placement.branch.group,
        ),
        None => Ok(false),
    }
}

/// Whether a throttle lets one more task come.
fn has_room_in(
    alloc: Global,
    wiring: &Wiring,
    events: &[Event],
    queue: QueueNo,
    policy: Policy,
) -> Result<bool, OutOfMemory>
    ensures { IfOk result (λ room. room ≡ has_room_in wiring.now events.now queue policy) }
{
    match policy {
        Policy::Throttle(most) => {
            Ok(coming(alloc, wiring, events, queue)?.len() < most as usize)
        }
        Policy::Unbounded | Policy::Discard(_) => Ok(true),
    }
}

/// Whether the queue of the spot lets it fire. A resumed task needs no room.
pub fn has_room(
    alloc: Global,
    wiring: &Wiring,
    events: &[Event],
    spot: Spot,
) -> Result<bool, OutOfMemory>
    ensures { IfOk result (λ room. room ≡ has_room wiring.now events.now spot) }
{
    let Spot::Branch(branch) = spot else {
        return Ok(true);
    };
    match wiring.placement(branch) {
        Some(placement) => {
            let queue = placement.branch.queue;
            has_room_in(alloc, wiring, events, queue, wiring.policy_of(queue))
        }
        None => Ok(true),
    }
}

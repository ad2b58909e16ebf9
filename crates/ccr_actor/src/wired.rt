//! What a wiring says that an actor goes by: the plan at a spot, the spots to drive, and the play of a task.

ghost use Rattle.std.specs.Prelude.{◌≡◌, IfOk};
ghost use Rattle.ccr_wiring.specs.Wirings.{segment_of, policy_of, queue_of_spot, domain_of_spot};
ghost use Rattle.ccr_claim.specs.Attempts.{begun};
ghost use Rattle.ccr_actor.specs.Actors.{play_in};
ghost use Rattle.ccr_actor.specs.Plans.{one_of, pattern_at, plan_of, throttled};

use ccr_base::{
    ArbiterNo, List, OutOfMemory, Pattern, Policy, PortNo, Pred, QueueNo, Slot, Spot, Task, TaskId,
};
use ccr_claim::{Attempt, ClaimPlan};
use ccr_handler::{Play, branch_play};
use ccr_wiring::{Wiring, branch_of};
use std::alloc::Global;

/// One message of the port.
fn one_of(alloc: Global, port: PortNo) -> Result<Pattern, OutOfMemory>
    ensures { IfOk result (λ pattern. pattern ≡ one_of port) }
{
    let mut slots = List::new(alloc);
    slots.add(Slot {
        port,
        least: 1,
        most: 1,
        pred: Pred::Any,
    })?;
    Ok(Pattern::Slots(slots))
}

/// What a firing at the spot takes.
fn pattern_at(alloc: Global, wiring: &Wiring, spot: Spot) -> Result<Pattern, OutOfMemory>
    ensures { IfOk result (λ pattern. pattern ≡ pattern_at wiring.now spot) }
{
    match spot {
        Spot::Branch(branch) => match wiring.placement(branch) {
            Some(placement) => placement.branch.pattern.copy(alloc),
            None => Ok(Pattern::Slots(List::new(alloc))),
        },
        Spot::Site(branch, site) => match wiring.site_port(branch, site) {
            Some(port) => one_of(alloc, port),
            None => Ok(Pattern::Slots(List::new(alloc))),
        },
    }
}

/// The queue of the spot's branch.
fn queue_of_spot(wiring: &Wiring, spot: Spot) -> QueueNo
    ensures { result ≡ queue_of_spot wiring.now spot }
{
    match wiring.placement(branch_of(spot)) {
        Some(placement) => placement.branch.queue,
        None => 0,
    }
}

/// The domain of the spot's branch.
pub fn domain_of_spot(wiring: &Wiring, spot: Spot) -> ArbiterNo
    ensures { result ≡ domain_of_spot wiring.now spot }
{
    // `parts` says that the wiring is valid.
    let _valid = wiring.parts();
    match wiring.placement(branch_of(spot)) {
        Some(placement) => placement.domain as ArbiterNo,
        None => 0,
    }
}

/// An attempt at the spot under this name, in the memory of an earlier one, if any. A branch's pattern isn't copied anew then.
pub fn attempt_at(
    alloc: Global,
    wiring: &Wiring,
    spot: Spot,
    name: TaskId,
    earlier: Option<Attempt>,
) -> Result<Attempt, OutOfMemory>
    ensures { IfOk result (λ attempt. attempt ≡ begun (plan_of wiring.now spot) name) }
{
    if let Spot::Branch(branch) = spot {
        if let Some(placement) = wiring.placement(branch) {
            return begin(
                alloc,
                wiring,
                spot,
                &placement.branch.pattern,
                name,
                earlier,
            );
        }
    }
    let pattern = pattern_at(alloc, wiring, spot)?;
    begin(alloc, wiring, spot, &pattern, name, earlier)
}

fn begin(
    alloc: Global,
    wiring: &Wiring,
    spot: Spot,
    pattern: &Pattern,
    name: TaskId,
    earlier: Option<Attempt>,
) -> Result<Attempt, OutOfMemory>
    requires { pattern.now ≡ pattern_at wiring.now spot }
    ensures { IfOk result (λ attempt. attempt ≡ begun (plan_of wiring.now spot) name) }
{
    let queue = queue_of_spot(wiring, spot);
    let domain = domain_of_spot(wiring, spot);
    match earlier {
        Some(old) => Attempt::begin_in(old, spot, pattern, queue, domain, name),
        None => {
            let plan = ClaimPlan {
                spot,
                pattern: pattern.copy(alloc)?,
                queue,
                arbiter: domain,
            };
            Attempt::begin(alloc, plan, name)
        }
    }
}

/// The branches of a throttle queue; none of another.
pub fn throttled(wiring: &Wiring, queue: QueueNo) -> &[Spot]
    ensures { result.now ≡ throttled wiring.now queue (policy_of wiring.now queue) }
{
    match wiring.policy_of(queue) {
        Policy::Throttle(_) => wiring.branches_of(queue),
        _ => &[],
    }
}

/// The play of the task's segment, which has this number.
pub fn play_in(
    alloc: Global,
    wiring: &Wiring,
    task: &Task,
    segment: u32,
) -> Result<Play, OutOfMemory>
    requires { segment ≡ segment_of task.now.spot }
    ensures { IfOk result (λ found. found ≡ play_in wiring.now task.now) }
{
    let branch = branch_of(task.spot);
    branch_play(
        alloc,
        wiring,
        branch,
        segment,
        task.values.as_slice(),
        &task.causes,
    )
}

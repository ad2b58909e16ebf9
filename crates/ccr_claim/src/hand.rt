//! The asks of an attempt.

ghost use Rattle.std.specs.Prelude.{◌≡◌, reverse, IfSome};
ghost use Rattle.ccr_claim.specs.Asks.{due_of};
ghost use Rattle.ccr_claim.specs.Attempts.{claim_ask};
ghost use Rattle.ccr_claim.specs.Firings.{ready_of};
ghost use Rattle.ccr_claim.specs.Inside.{IsFirst, completing, releasing, unanswered_by, hand_due, stage_due};
ghost use Rattle.ccr_claim.specs.Plans.{commit_place, resumes};

use crate::firing::Firing;
use crate::stages::{Stage, Unanswered};
use crate::{Ask, Asked, ClaimPlan, Due, Had};
use ccr_base::{Cut, Place, QueueNo, Slot, Spot, Task, TaskId};
use std::collections::VecDeque;

/// Whether a firing at the spot goes on for a suspended task.
pub fn resumes(spot: &Spot) -> bool
    ensures { result ≡ resumes spot.now }
{
    matches!(spot, Spot::Site(..))
}

/// Where the attempt commits.
fn commit_place(plan: &ClaimPlan) -> Place
    ensures { result ≡ commit_place plan.now plan.now.spot }
{
    match plan.spot {
        Spot::Branch(_) => Place::Arbiter(plan.arbiter),
        Spot::Site(branch, site) => Place::Site(branch, site),
    }
}

/// The claim of the next slot, or the commit that was made ready. The next slot stands last.
pub fn claim(
    plan: &ClaimPlan,
    task: TaskId,
    left: &[Slot],
    had: &[Had],
    firing: &mut Option<Firing>,
) -> Asked
    requires { firing.old ≡ ready_of left.now plan.now task had.now }
    ensures { result ≡ claim_ask plan.now task (reverse left.now) had.now }
{
    match left.last() {
        Some(slot) => Asked {
            place: Place::Port(slot.port),
            ask: Ask::Claim(task, *slot),
        },
        None => match firing.take() {
            Some(Firing { task, names }) => Asked {
                place: commit_place(plan),
                ask: Ask::Commit(task, names),
            },
            None => unreachable!(),
        },
    }
}

/// Moves out what completes a firing next.
pub fn completion(
    task: TaskId,
    had: &mut Vec<Had>,
    cuts: &mut VecDeque<Cut>,
    put: &mut Option<Task>,
) -> Option<Asked>
    ensures first { IsFirst result (completing task had.old.items cuts.old.items put.old) (completing task had.new.items cuts.new.items put.new) }
    ensures due { IfSome result (λ asked. due_of asked.ask ≡ hand_due (unanswered_by asked.ask)) }
{
    if let Some(Had { slot, .. }) = had.pop() {
        return Some(Asked {
            place: Place::Port(slot.port),
            ask: Ask::Consume(task),
        });
    }
    if let Some(cut) = cuts.pop_front() {
        return Some(Asked {
            place: Place::Queue(cut.queue),
            ask: Ask::Unbook(cut.task),
        });
    }
    let task = put.take()?;
    Some(Asked {
        place: Place::Queue(task.queue),
        ask: Ask::Put(task),
    })
}

/// Moves out what hands back next.
pub fn release(task: TaskId, queue: QueueNo, had: &mut Vec<Had>, booked: &mut bool) -> Option<Asked>
    ensures first { IsFirst result (releasing task queue had.old.items booked.old) (releasing task queue had.new.items booked.new) }
    ensures due { IfSome result (λ asked. due_of asked.ask ≡ hand_due (unanswered_by asked.ask)) }
{
    if let Some(Had { slot, .. }) = had.pop() {
        return Some(Asked {
            place: Place::Port(slot.port),
            ask: Ask::Free(task),
        });
    }
    if *booked {
        *booked = false;
        return Some(Asked {
            place: Place::Queue(queue),
            ask: Ask::Unbook(task),
        });
    }
    None
}

/// How an ask of the hand is unanswered.
pub fn unanswered_by(ask: &Ask) -> Unanswered
    ensures { result ≡ unanswered_by ask.now }
{
    match ask {
        Ask::Put(_) => Unanswered::Put,
        _ => Unanswered::Ask,
    }
}

/// Which replies an ask in this stage may have. The next slot stands last.
pub fn stage_due(stage: Stage, waiting: Unanswered, left: &[Slot]) -> Due
    ensures { result ≡ stage_due stage (reverse left.now) waiting }
{
    match stage {
        Stage::Booking => Due::Booking,
        Stage::Claiming => match left.last() {
            Some(slot) => Due::Claim(*slot),
            None => Due::Commit,
        },
        Stage::Fired { .. } | Stage::GaveUp(_) => match waiting {
            Unanswered::Nothing => Due::Nothing,
            Unanswered::Ask => Due::Settled,
            Unanswered::Put => Due::Put,
        },
    }
}

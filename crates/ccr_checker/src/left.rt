//! What is left to do, by the tables.

ghost use Rattle.std.specs.Prelude.{◌≡◌, IfOk};
ghost use Rattle.std.specs.List.{list_any};
ghost use Rattle.ccr_wiring.specs.Wirings.{spots};
ghost use Rattle.ccr_checker.specs.LeftInTables.{can_admit_in, can_fire_in, has_admission_in, has_line_left_in, has_queued_in, has_ready, is_ready_at, is_still_in};

use ccr_base::{ActorNo, OutOfMemory, QueueNo, Spot};
use ccr_ledger::Ledger;
use ccr_wiring::{Wiring, valid_wirings_are_sound};

/// Whether some poster has a line of its script left.
#[tactic(auto, using(crate::proofs::Numbered::numbered))]
fn has_line_left(wiring: &Wiring, ledger: &Ledger) -> bool
    ensures { result ≡ has_line_left_in ledger.now 0 wiring.now.posters }
{
    valid_wirings_are_sound();
    for (number, poster) in wiring.parts().posters.as_slice().iter().enumerate() {
        if (ledger.script_posts(number as ActorNo) as usize) < poster.posts.as_slice().len() {
            return true;
        }
    }
    false
}

/// Whether the spot can fire. The tables stay as they are.
fn can_fire(wiring: &Wiring, ledger: &mut Ledger, spot: Spot) -> Result<bool, OutOfMemory>
    ensures can { IfOk result (λ can. can ≡ can_fire_in wiring.now ledger.old spot) }
    ensures kept { ledger.new ≡ ledger.old }
{
    if ledger.lives(wiring, spot) && ledger.room(wiring, spot) {
        ledger.can_choose(wiring, spot)
    } else {
        Ok(false)
    }
}

/// Whether some spot can fire. The tables stay as they are.
fn has_firing(wiring: &Wiring, ledger: &mut Ledger) -> Result<bool, OutOfMemory>
    ensures has { IfOk result (λ has. has ≡ list_any (can_fire_in wiring.now ledger.old) (spots wiring.now)) }
    ensures kept { ledger.new ≡ ledger.old }
{
    for spot in wiring.spots() {
        if can_fire(wiring, ledger, *spot)? {
            return Ok(true);
        }
    }
    Ok(false)
}

/// Whether the oldest task that waits in the domain may be admitted.
fn can_admit(ledger: &Ledger, domain: usize) -> bool
    ensures { result ≡ can_admit_in ledger.now domain }
{
    match ledger.oldest_waiting(domain) {
        Some(task) => ledger.may_admit_task(task),
        None => false,
    }
}

/// Whether some domain can admit a task.
#[tactic(auto, using(crate::proofs::Numbered::numbered))]
fn has_admission(wiring: &Wiring, ledger: &Ledger) -> bool
    ensures { result ≡ has_admission_in ledger.now 0 wiring.now.arbiters }
{
    for number in 0..wiring.parts().arbiters.as_slice().len() {
        if can_admit(ledger, number) {
            return true;
        }
    }
    false
}

/// Whether the task that fired after so many others may be put.
fn is_ready_at(ledger: &Ledger, number: usize) -> bool
    ensures { result ≡ is_ready_at ledger.now number }
{
    match ledger.fired(number) {
        Some(task) => ledger.is_ready(task),
        None => false,
    }
}

/// Whether some task may be put.
#[tactic(auto, using(crate::proofs::Numbered::numbered))]
fn has_ready(ledger: &Ledger) -> bool
    ensures { result ≡ has_ready ledger.now }
{
    for number in 0..ledger.count_fired() {
        if is_ready_at(ledger, number) {
            return true;
        }
    }
    false
}

/// Whether some queue has a queued task.
#[tactic(auto, using(crate::proofs::Numbered::numbered))]
fn has_queued(wiring: &Wiring, ledger: &Ledger) -> bool
    ensures { result ≡ has_queued_in ledger.now 0 wiring.now.queues }
{
    valid_wirings_are_sound();
    for number in 0..wiring.parts().queues.as_slice().len() as QueueNo {
        if ledger.oldest_queued(number).is_some() {
            return true;
        }
    }
    false
}

/// Whether nothing is left to do.
#[tactic(auto, unfolding(crate::specs::LeftInTables::is_still_in))]
pub(crate) fn is_still(wiring: &Wiring, ledger: &mut Ledger) -> Result<bool, OutOfMemory>
    ensures still { IfOk result (λ still. still ≡ is_still_in wiring.now ledger.old) }
    ensures kept { ledger.new ≡ ledger.old }
{
    if has_firing(wiring, ledger)? {
        return Ok(false);
    }
    Ok(
        !has_line_left(wiring, ledger)
            && !has_admission(wiring, ledger)
            && !has_ready(ledger)
            && ledger.running().is_empty()
            && !has_queued(wiring, ledger),
    )
}

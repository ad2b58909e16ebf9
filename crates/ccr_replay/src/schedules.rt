//! The schedule of a run.

ghost use Rattle.std.specs.Prelude.{◌≡◌, ◌≤◌, true, IfOk, IfSome, Ok, None};
ghost use Rattle.ccr_base.specs.Bounds.{most_workers};
ghost use Rattle.ccr_replay.specs.Schedules.{schedule, IsOfNextSteps};
ghost use Rattle.ccr_wiring.specs.Openness.{is_closed};

use crate::laws::schedules_give_runs_again;
use crate::same::are_same;
use ccr_actor::{actor_count, are_below};
use ccr_base::{ActorNo, List, OutOfMemory};
use ccr_net::run_schedule;
use ccr_runs::{Entry, Full};
use ccr_wiring::Wiring;
use std::alloc::Global;

/// Whose step each entry is, in order.
fn actors_of(alloc: Global, entries: &[Entry]) -> Result<Vec<ActorNo>, OutOfMemory>
    ensures { IfOk result (λ actors. actors.items ≡ schedule entries.now) }
{
    let mut actors = Vec::with_capacity(alloc, entries.len())?;
    for entry in entries {
        actors.push(entry.actor)?;
    }
    Ok(actors)
}

/// The actors of the entries, in order, where these are a run in which each step of each actor is its next one; then that
/// schedule gives the run again. None exactly where they are no such run. It runs the schedule and compares.
pub fn schedule_of(
    alloc: Global,
    wiring: &Wiring,
    workers: u32,
    full: &Full,
) -> Result<Option<List<ActorNo>>, OutOfMemory>
    requires few { workers ≤ most_workers }
    requires closed { is_closed wiring.now ≡ true }
    ensures schedule { IfOk result (λ found. IfSome found (λ turns. turns ≡ schedule full.now.entries)) }
    ensures some { IfOk result (λ found. IfSome found (λ _. IsOfNextSteps wiring.now workers full.now.entries)) }
    ensures none { result ≡ Ok None → IsOfNextSteps wiring.now workers full.now.entries → ⊥ }
{
    schedules_give_runs_again();
    let entries = full.entries.as_slice();
    let turns = actors_of(alloc, entries)?;
    if !are_below(&turns, actor_count(wiring, workers)) {
        return Ok(None);
    }
    let again = run_schedule(alloc, wiring, workers, &turns)?;
    if !are_same(again.entries.as_slice(), entries) {
        return Ok(None);
    }
    Ok(Some(List::from_vec(turns)))
}

//! Actors take turns on one thread, and what is visible of them is written down.

ghost use Rattle.std.specs.Prelude.{◌≡◌, ◌≤◌, IfOk, IfSome, true};
ghost use Rattle.ccr_wiring.specs.Openness.{is_closed};
ghost use Rattle.ccr_base.specs.Bounds.{most_workers};
ghost use Rattle.ccr_model.specs.Legal.{IsLegal};
ghost use Rattle.ccr_runs.specs.EntryRuns.{scheduled};
ghost use Rattle.ccr_runs.specs.Visible.{visible};

use ccr_actor::{actor_count, are_below};
use ccr_base::{ActorNo, OutOfMemory};
use ccr_model::History;
use ccr_net::{run_schedule, visible};
use ccr_wiring::Wiring;
use std::alloc::Global;

/// What is visible of the run in which each turn is the next step of that actor: posters first, then so many workers. None where a
/// turn is of no actor.
pub fn follow(
    alloc: Global,
    wiring: &Wiring,
    workers: u32,
    turns: &[ActorNo],
) -> Result<Option<History>, OutOfMemory>
    requires closed { is_closed wiring.now ≡ true }
    requires workers { workers ≤ most_workers }
    ensures shown { IfOk result (λ seen. IfSome seen (λ history. history ≡ visible (scheduled wiring.now turns.now))) }
    ensures legal { IfOk result (λ seen. IfSome seen (IsLegal wiring.now)) }
{
    if !are_below(turns, actor_count(wiring, workers)) {
        return Ok(None);
    }
    let full = run_schedule(alloc, wiring, workers, turns)?;
    Ok(Some(visible(alloc, wiring, &full)?))
}

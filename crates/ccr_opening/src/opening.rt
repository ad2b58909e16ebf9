//! What the actors do before the serial order finishes the run.

ghost use Rattle.std.specs.Prelude.{◌≡◌, ◌==◌, ◌<◌, ◌≤◌, All, IfOk, IfSome, None, Some, is_ok, length, option_map, true};
ghost use Rattle.ccr_wiring.specs.Openness.{is_closed};
ghost use Rattle.ccr_base.specs.Bounds.{most_workers};
ghost use Rattle.ccr_wiring.specs.Actors.{actor_count};
ghost use Rattle.ccr_model.specs.Firings.{fired};
ghost use Rattle.ccr_model.specs.Legal.{IsLegal};
ghost use Rattle.ccr_model.specs.Order.{most_attempts, next_attempt};
ghost use Rattle.ccr_opening.specs.Begins.{Begins};

use crate::threads::run_threads;
use ccr_base::{ActorNo, Gate, OutOfMemory};
use ccr_model::History;
use ccr_net::{closers_are_new_to_runs, run_schedule, visible};
use ccr_space::Shown;
use ccr_wiring::Wiring;
use std::alloc::Global;
use std::sync::Wait;
use std::thread::Threads;

/// What is visible of the run of these turns.
fn scheduled_history(
    alloc: Global,
    wiring: &Wiring,
    workers: u32,
    turns: &[ActorNo],
) -> Result<History, OutOfMemory>
    requires closed { is_closed wiring.now ≡ true }
    requires workers { workers ≤ most_workers }
    requires turns { All (λ actor. actor < actor_count wiring.now workers) turns.now }
    ensures begins { IfOk result (Begins wiring.now workers (Some turns.now)) }
    ensures legal { IfOk result (IsLegal wiring.now) }
    ensures attempts { IfOk result (λ first. next_attempt (actor_count wiring.now workers) (fired first) ≤ most_attempts) }
{
    closers_are_new_to_runs();
    // `parts` says that the wiring is valid, on which the promises stand.
    let _valid = wiring.parts();
    let full = run_schedule(alloc, wiring, workers, turns)?;
    let first = visible(alloc, wiring, &full)?;
    Ok(first)
}

/// What is visible of the run of the posters and so many workers, each in a thread of its own where one can be made. Where one of
/// them found no memory the run is given up.
fn threaded_history<R: AllocGlobal + Threads + Wait + Sync, G: Gate + Sync>(
    rt: &R,
    gate: &G,
    wiring: &Wiring,
    workers: u32,
) -> Result<History, OutOfMemory>
    requires closed { is_closed wiring.now ≡ true }
    requires some { 0 < workers }
    requires many { workers ≤ most_workers }
    ensures begins { IfOk result (Begins wiring.now workers None) }
    ensures legal { IfOk result (IsLegal wiring.now) }
    ensures attempts { IfOk result (λ first. next_attempt (actor_count wiring.now workers) (fired first) ≤ most_attempts) }
{
    closers_are_new_to_runs();
    // `parts` says that the wiring is valid, on which the promises stand.
    let _valid = wiring.parts();
    let closed = run_threads(rt, rt.alloc(), wiring, workers, gate)?;
    let first = unless_short(closed)?;
    Ok(first)
}

/// The history of the closed run. Where it names an actor that was told that memory ran out, that is the answer.
fn unless_short(closed: Shown) -> Result<History, OutOfMemory>
    ensures short { is_ok result ≡ (length closed.short == 0) }
    ensures history { IfOk result (λ first. first ≡ closed.history) }
{
    if closed.short.is_empty() {
        Ok(closed.history)
    } else {
        Err(OutOfMemory)
    }
}

/// What stands before the events of the serial order.
pub fn first_history<R: AllocGlobal + Threads + Wait + Sync, G: Gate + Sync>(
    rt: &R,
    gate: &G,
    wiring: &Wiring,
    workers: u32,
    turns: Option<&[ActorNo]>,
) -> Result<History, OutOfMemory>
    requires closed { is_closed wiring.now ≡ true }
    requires workers { workers ≤ most_workers }
    requires turns { IfSome turns (λ turns. All (λ actor. actor < actor_count wiring.now workers) turns.now) }
    ensures begins { IfOk result (Begins wiring.now workers (option_map (λ t. t.now) turns.entry)) }
    ensures legal { IfOk result (IsLegal wiring.now) }
    ensures attempts { IfOk result (λ first. next_attempt (actor_count wiring.now workers) (fired first) ≤ most_attempts) }
{
    match turns {
        Some(turns) => scheduled_history(rt.alloc(), wiring, workers, turns),
        None if workers == 0 => Ok(History::new(rt.alloc())),
        None => threaded_history(rt, gate, wiring, workers),
    }
}

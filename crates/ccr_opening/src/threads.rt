//! A run in threads.

ghost use Rattle.std.specs.Prelude.{◌≡◌, ◌≤◌, ◌<◌, ℕ, [], true, IfOk};
ghost use Rattle.ccr_wiring.specs.Openness.{is_closed};
ghost use Rattle.ccr_base.specs.Bounds.{most_workers};
ghost use Rattle.ccr_wiring.specs.Actors.{actor_count};
ghost use Rattle.ccr_model.specs.Legal.{IsLegal, is_covered};
ghost use Rattle.ccr_runs.specs.EntryRuns.{IsRunAfter, never};
ghost use Rattle.ccr_runs.specs.Visible.{visible as shown};
ghost use Rattle.ccr_space.specs.Closes.{IsAtEnd, IsBroughtToRest, IsOfRunToRest};

use ccr_base::{Gate, OutOfMemory};
use ccr_net::{played_runs_are_runs, visible_runs_are_legal_and_covered};
use ccr_space::{Closed, Shown, closed_threads, shown_threads};
use ccr_wiring::Wiring;
use std::alloc::Global;
use std::sync::Wait;
use std::thread::Threads;

/// Runs all posters and so many workers to rest, each in a thread of its own where one can be made, and closes. The history is what
/// some run shows in which each step was its actor's next one, and after which each actor that isn't short has no next step. What shows
/// nothing there has no place in memory.
pub fn run_threads<R: Threads + Wait + Sync, G: Gate + Sync>(
    rt: &R,
    alloc: Global,
    wiring: &Wiring,
    workers: u32,
    gate: &G,
) -> Result<Shown, OutOfMemory>
    requires closed { is_closed wiring.now ≡ true }
    requires workers { workers ≤ most_workers }
    requires actors { 1 ≤ actor_count wiring.now workers }
    ensures run { IfOk result (λ seen. IsOfRunToRest wiring.now workers seen.history seen.short) }
    ensures legal { IfOk result (λ seen. IsLegal wiring.now seen.history) }
    ensures covered { IfOk result (λ seen. is_covered wiring.now seen.history ≡ true) }
{
    played_runs_are_runs();
    visible_runs_are_legal_and_covered();
    // `parts` says that the wiring is valid, on which the promises stand.
    let _valid = wiring.parts();
    let seen = shown_threads(rt, alloc, wiring, workers, gate)?;
    Ok(seen)
}

/// The same, with every entry: what shows nothing in the history too.
pub fn run_threads_in_full<R: Threads + Wait + Sync, G: Gate + Sync>(
    rt: &R,
    alloc: Global,
    wiring: &Wiring,
    workers: u32,
    gate: &G,
) -> Result<Closed, OutOfMemory>
    requires closed { is_closed wiring.now ≡ true }
    requires workers { workers ≤ most_workers }
    requires actors { 1 ≤ actor_count wiring.now workers }
    ensures run { IfOk result (λ closed. IsRunAfter wiring.now workers never [] closed.full.entries) }
    ensures rest { IfOk result (λ closed. (actor : ℕ) → actor < actor_count wiring.now workers → IsAtEnd wiring.now closed.full.entries closed.short actor) }
    ensures threads { IfOk result (λ closed. IsBroughtToRest wiring.now (actor_count wiring.now workers) closed.full.entries closed.short) }
    ensures history { IfOk result (λ closed. closed.history ≡ shown closed.full.entries) }
    ensures legal { IfOk result (λ closed. IsLegal wiring.now closed.history) }
    ensures covered { IfOk result (λ closed. is_covered wiring.now closed.history ≡ true) }
{
    played_runs_are_runs();
    visible_runs_are_legal_and_covered();
    // `parts` says that the wiring is valid, on which the promises stand.
    let _valid = wiring.parts();
    let closed = closed_threads(rt, alloc, wiring, workers, gate)?;
    Ok(closed)
}

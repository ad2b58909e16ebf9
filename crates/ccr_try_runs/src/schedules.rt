//! Runs by turns.

ghost use Rattle.std.specs.Prelude.{IfOk};
ghost use Rattle.ccr_runs.specs.EntryRuns.{IsRun};

use ccr_actor::{actor_count, are_below};
use ccr_base::{ActorNo, List, MAX_WORKERS, OutOfMemory};
use ccr_net::run_schedule;
use ccr_plain::run_short;
use ccr_replay::{schedule_of, steps_text};
use ccr_runs::Full;
use ccr_try::{first_number, numbers_of, put, put_number, put_numbers, put_word};
use ccr_wiring::{Wiring, is_closed};
use std::alloc::Global;

/// The run of the turns, with so many workers.
fn run(
    alloc: Global,
    wiring: &Wiring,
    workers: u32,
    turns: &[ActorNo],
) -> Result<Full, OutOfMemory> {
    if workers > MAX_WORKERS
        || !are_below(turns, actor_count(wiring, workers))
        || !is_closed(wiring.parts())
    {
        return Err(OutOfMemory);
    }
    run_schedule(alloc, wiring, workers, turns)
}

/// The run of the turns without workers, where the ask of this number finds no memory.
pub fn shortened(
    alloc: Global,
    wiring: &Wiring,
    turns: &[ActorNo],
    refused: u64,
) -> Result<Full, OutOfMemory>
    ensures { IfOk result (λ full. IsRun wiring.now 0 full.entries) }
{
    if !are_below(turns, actor_count(wiring, 0)) || !is_closed(wiring.parts()) {
        return Err(OutOfMemory);
    }
    run_short(alloc, wiring, 0, turns, &[refused])
}

/// Adds the run's steps.
pub fn put_steps(alloc: Global, wiring: &Wiring, full: &Full, out: &mut List<u8>) {
    if let Ok(text) = steps_text(alloc, wiring, full) {
        put(out, text.as_slice());
    }
}

/// For `WORKERS TURN ..` the steps of the run.
pub fn steps(alloc: Global, wiring: &Wiring, input: &str, out: &mut List<u8>) {
    let (workers, turns) = first_number(input);
    let turns = numbers_of(alloc, turns);
    if let Ok(full) = run(alloc, wiring, workers, turns.as_slice()) {
        put_steps(alloc, wiring, &full, out);
    }
}

/// For `WORKERS TURN ..` the turns that give the run again.
pub fn schedule(alloc: Global, wiring: &Wiring, input: &str, out: &mut List<u8>) {
    let (workers, turns) = first_number(input);
    if workers > MAX_WORKERS || !is_closed(wiring.parts()) {
        return;
    }
    let turns = numbers_of(alloc, turns);
    if let Ok(full) = run(alloc, wiring, workers, turns.as_slice()) {
        if let Ok(Some(again)) = schedule_of(alloc, wiring, workers, &full) {
            put_numbers(out, again.as_slice());
        }
    }
}

/// Adds how many turns give the run again, if some do.
fn put_turns(alloc: Global, wiring: &Wiring, full: &Full, out: &mut List<u8>) {
    if !is_closed(wiring.parts()) {
        return;
    }
    match schedule_of(alloc, wiring, 0, full) {
        Ok(Some(turns)) => put_number(out, turns.len() as u64),
        Ok(None) => put_word(out, b"none"),
        Err(_) => put_word(out, b"memory"),
    }
}

/// For `ASK TURN ..` the steps of the run where the ask of this number finds no memory, and how many turns give it again.
pub fn short(alloc: Global, wiring: &Wiring, input: &str, out: &mut List<u8>) {
    let (refused, turns) = first_number(input);
    let turns = numbers_of(alloc, turns);
    if let Ok(full) = shortened(alloc, wiring, turns.as_slice(), u64::from(refused)) {
        put_steps(alloc, wiring, &full, out);
        put_turns(alloc, wiring, &full, out);
    }
}

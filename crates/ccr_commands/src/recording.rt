//! A run that is written down as whose turn it was.

ghost use Rattle.std.specs.Prelude.{◌≡◌, ◌==◌, ◌<◌, ◌≤◌, ◌+◌, IfOk, is_ok, length, true};
ghost use Rattle.ccr_wiring.specs.Openness.{is_closed};
ghost use Rattle.ccr_base.specs.Bounds.{most_wiring_bytes, most_workers};
ghost use Rattle.ccr_commands.specs.Answers.{AnswersText};
ghost use Rattle.ccr_commands.specs.Records.{AreTurnsToRest, RecordGives};
ghost use Rattle.ccr_words.specs.declared.requests.Command.TheVariants.{Record};

use crate::outputs::{Output, refused};
use crate::status::Status;
use ccr_base::{ActorNo, Gate, List, OutOfMemory};
use ccr_opening::run_threads_in_full;
use ccr_replay::{schedule_of, schedules_give_runs_again, write_record};
use ccr_runs::Full;
use ccr_space::Closed;
use ccr_wiretext::read_wiring;
use ccr_wiring::Wiring;
use std::sync::Wait;
use std::thread::Threads;

/// The entries of the closed run. Where it names an actor that was told that memory ran out, that is the answer.
fn entries_unless_short(closed: Closed) -> Result<Full, OutOfMemory>
    ensures short { is_ok result ≡ (length closed.short == 0) }
    ensures entries { IfOk result (λ full. full ≡ closed.full) }
{
    if closed.short.is_empty() {
        Ok(closed.full)
    } else {
        Err(OutOfMemory)
    }
}

/// Whose turn it was in a run of the posters and so many workers to rest, each in a thread of its own where one can be made.
fn threaded_turns<R: AllocGlobal + Threads + Wait + Sync, G: Gate + Sync>(
    rt: &R,
    gate: &G,
    wiring: &Wiring,
    workers: u32,
) -> Result<List<ActorNo>, OutOfMemory>
    requires closed { is_closed wiring.now ≡ true }
    requires some { 0 < workers }
    requires many { workers ≤ most_workers }
    ensures { IfOk result (AreTurnsToRest wiring.now workers) }
{
    schedules_give_runs_again();
    let alloc = rt.alloc();
    let closed = run_threads_in_full(rt, alloc, wiring, workers, gate)?;
    let full = entries_unless_short(closed)?;
    match schedule_of(alloc, wiring, workers, &full)? {
        Some(turns) => Ok(turns),
        None => unreachable!(),
    }
}

/// Whose turn it was in a run. Without workers no thread runs, and it was nobody's turn.
fn turns_to_rest<R: AllocGlobal + Threads + Wait + Sync, G: Gate + Sync>(
    rt: &R,
    gate: &G,
    wiring: &Wiring,
    workers: u32,
) -> Result<List<ActorNo>, OutOfMemory>
    requires closed { is_closed wiring.now ≡ true }
    requires workers { workers ≤ most_workers }
    ensures { IfOk result (AreTurnsToRest wiring.now workers) }
{
    if workers == 0 {
        Ok(List::new(rt.alloc()))
    } else {
        threaded_turns(rt, gate, wiring, workers)
    }
}

/// The record of a run of the wiring that the text says.
fn record<R: AllocGlobal + Threads + Wait + Sync, G: Gate + Sync>(
    rt: &R,
    gate: &G,
    text: &[u8],
    wiring: &Wiring,
    workers: u32,
) -> Result<Output, OutOfMemory>
    requires closed { is_closed wiring.now ≡ true }
    requires workers { workers ≤ most_workers }
    ensures { IfOk result (λ due. RecordGives wiring.now workers text.now due.status due.text) }
{
    let turns = turns_to_rest(rt, gate, wiring, workers)?;
    Ok(Output {
        status: Status::Done,
        text: write_record(rt.alloc(), text, workers, turns.as_slice())?,
    })
}

/// What `record` writes.
pub fn answer_record<R: AllocGlobal + Threads + Wait + Sync, G: Gate + Sync>(
    rt: &R,
    gate: &G,
    text: &[u8],
    workers: u32,
) -> Result<Output, OutOfMemory>
    requires workers { workers ≤ most_workers }
    requires length { length text.now ≤ most_wiring_bytes }
    ensures { (json : _) → IfOk result (λ due. AnswersText (Record workers) json text.now due.status due.text) }
{
    match read_wiring(rt.alloc(), text) {
        Ok(wiring) => record(rt, gate, text, &wiring, workers),
        Err(why) => refused(rt.alloc(), why),
    }
}

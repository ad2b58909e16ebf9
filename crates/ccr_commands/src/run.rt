//! A run, as text: what the actors do, and what the serial order does behind it.

ghost use Rattle.std.specs.Prelude.{◌≡◌, ◌<◌, ◌≤◌, ◌++◌, List as Listed, All, IfOk, IfSome, option_map, true};
ghost use Rattle.ccr_wiring.specs.Openness.{is_closed};
ghost use Rattle.ccr_base.specs.Bounds.{most_workers};
ghost use Rattle.ccr_wiring.specs.Actors.{actor_count};
ghost use Rattle.ccr_model.specs.declared.history.Event.{Event};
ghost use Rattle.ccr_report.specs.Counted.{HasRows, IsCounted};
ghost use Rattle.ccr_commands.specs.Runs.{report_of, IsToldOf, RunGives};

use crate::accounting::complete_histories_account_for_all;
use crate::outputs::Output;
use crate::sheds::sheds;
use crate::status::Status;
use ccr_actor::actor_count;
use ccr_base::{ActorNo, Gate, List, OutOfMemory};
use ccr_json::counted_json;
use ccr_opening::first_history;
use ccr_report::{Counts, counted_text};
use ccr_telling::{Told, tell_to_end};
use ccr_text::put_bytes;
use ccr_wiring::Wiring;
use std::alloc::Global;
use std::sync::Wait;
use std::thread::Threads;

/// The report as lines, or as one line of JSON, on each history whose counts these are.
fn report_of(
    alloc: Global,
    wiring: &Wiring,
    counts: &Counts,
    json: bool,
) -> Result<List<u8>, OutOfMemory>
    requires { HasRows wiring.now counts.now }
    ensures { IfOk result (λ text. (history : Listed Event) → IsCounted wiring.now history counts.now → text ≡ report_of json wiring.now history) }
{
    if json {
        counted_json(alloc, wiring, counts)
    } else {
        counted_text(alloc, wiring, counts)
    }
}

/// The history's text, its report and the last line.
fn run_text(
    alloc: Global,
    wiring: &Wiring,
    told: Told,
    json: bool,
    last: &[u8],
) -> Result<List<u8>, OutOfMemory>
    requires { HasRows wiring.now told.counts }
    ensures { IfOk result (λ text. (history : Listed Event) → IsCounted wiring.now history told.counts → text ≡ told.text ++ report_of json wiring.now history ++ last.now) }
{
    let Told { mut text, counts } = told;
    let report = report_of(alloc, wiring, &counts, json)?;
    put_bytes(&mut text, report.as_slice())?;
    put_bytes(&mut text, last)?;
    Ok(text)
}

/// What is told of the history of a run from its beginning to its end, which the serial order makes.
fn tell_run<R: AllocGlobal + Threads + Wait + Sync, G: Gate + Sync>(
    rt: &R,
    gate: &G,
    wiring: &Wiring,
    workers: u32,
    turns: Option<&[ActorNo]>,
) -> Result<Told, OutOfMemory>
    requires closed { is_closed wiring.now ≡ true }
    requires workers { workers ≤ most_workers }
    requires turns { IfSome turns (λ turns. All (λ actor. actor < actor_count wiring.now workers) turns.now) }
    ensures { IfOk result (IsToldOf wiring.now workers (option_map (λ t. t.now) turns.entry)) }
{
    complete_histories_account_for_all();
    // `parts` says that the wiring is valid.
    let _valid = wiring.parts();
    let first = first_history(rt, gate, wiring, workers, turns)?;
    let told = tell_to_end(rt.alloc(), wiring, actor_count(wiring, workers), first)?;
    Ok(told)
}

/// What a run of the wiring writes.
pub fn run<R: AllocGlobal + Threads + Wait + Sync, G: Gate + Sync>(
    rt: &R,
    gate: &G,
    wiring: &Wiring,
    workers: u32,
    turns: Option<&[ActorNo]>,
    json: bool,
) -> Result<Output, OutOfMemory>
    requires closed { is_closed wiring.now ≡ true }
    requires workers { workers ≤ most_workers }
    requires turns { IfSome turns (λ turns. All (λ actor. actor < actor_count wiring.now workers) turns.now) }
    ensures { IfOk result (λ due. RunGives json wiring.now workers (option_map (λ t. t.now) turns.entry) due.status due.text) }
{
    let alloc = rt.alloc();
    let told = tell_run(rt, gate, wiring, workers, turns)?;
    if sheds(&told.counts) {
        Ok(Output {
            status: Status::Shed,
            text: run_text(alloc, wiring, told, json, b"done 6\n")?,
        })
    } else {
        Ok(Output {
            status: Status::Done,
            text: run_text(alloc, wiring, told, json, b"done 0\n")?,
        })
    }
}

//! A run of a generated wiring, of which the totals are written.

ghost use Rattle.std.specs.Prelude.{◌≡◌, ◌<◌, ◌≤◌, ◌++◌, ◌∷◌, [], true, IfOk, codes, decimal};
ghost use Rattle.ccr_base.specs.Bounds.{most_size, most_workers};
ghost use Rattle.ccr_gen.specs.Generated.{generated};
ghost use Rattle.ccr_steady.specs.Agreement.{is_counts, Agrees};
ghost use Rattle.ccr_commands.specs.Loads.{totals_of, IsLoad, LoadGives};

use crate::accounting::complete_histories_account_for_all;
use crate::outputs::Output;
use crate::status::Status;
use ccr_actor::actor_count;
use ccr_base::{Gate, List, OutOfMemory};
use ccr_gen::{generate, generated_wirings_never_shed};
use ccr_json::totals_json;
use ccr_model::Totals;
use ccr_opening::first_history;
use ccr_report::put_total;
use ccr_steady::{Agreed, agreed, answers_hold_of_quiet_histories, generated_wirings_agree};
use ccr_telling::count_to_end;
use ccr_text::{put_bytes, put_number};
use ccr_wiring::Wiring;
use std::alloc::Global;
use std::sync::Wait;
use std::thread::Threads;

/// The totals as a line of words, or as one line of JSON.
fn totals_of(alloc: Global, totals: &Totals, json: bool) -> Result<List<u8>, OutOfMemory>
    ensures { IfOk result (λ text. text ≡ totals_of json totals.now) }
{
    if json {
        return totals_json(alloc, totals);
    }
    let mut line = List::new(alloc);
    put_total(alloc, &mut line, totals)?;
    Ok(line)
}

/// The size, the totals and the last line.
fn sized_text(alloc: Global, size: u32, totals: &[u8]) -> Result<List<u8>, OutOfMemory>
    ensures { IfOk result (λ text. text ≡ codes "load " ++ decimal size ++ 10 ∷ [] ++ totals.now ++ codes "done 0" ++ 10 ∷ []) }
{
    let mut text = List::from_vec(Vec::from_slice(alloc, b"load ")?);
    put_number(&mut text, u64::from(size))?;
    put_bytes(&mut text, b"\n")?;
    put_bytes(&mut text, totals)?;
    put_bytes(&mut text, b"done 0\n")?;
    Ok(text)
}

/// What all runs of the generated wiring agree on: it is steady, and no run of it spends the budget, so that counts are told.
fn agreed_counts(alloc: Global, wiring: &Wiring, size: u32) -> Result<Agreed, OutOfMemory>
    requires generated { wiring.now ≡ generated size }
    requires many { size ≤ most_size }
    ensures agrees { IfOk result (λ told. Agrees wiring.now told) }
    ensures counts { IfOk result (λ told. is_counts told ≡ true) }
{
    generated_wirings_agree();
    agreed(alloc, wiring)
}

/// The totals of the run of the generated wiring. No task is shed in it.
fn load_text<R: AllocGlobal + Threads + Wait + Sync, G: Gate + Sync>(
    rt: &R,
    gate: &G,
    size: u32,
    workers: u32,
    json: bool,
) -> Result<List<u8>, OutOfMemory>
    requires some { 0 < size }
    requires many { size ≤ most_size }
    requires workers { workers ≤ most_workers }
    ensures { IfOk result (IsLoad size workers json) }
{
    generated_wirings_never_shed();
    answers_hold_of_quiet_histories();
    complete_histories_account_for_all();
    let alloc = rt.alloc();
    let wiring = generate(alloc, size)?;
    // `parts` says that the wiring is valid.
    let _valid = wiring.parts();
    let _told = agreed_counts(alloc, &wiring, size)?;
    let first = first_history(rt, gate, &wiring, workers, None)?;
    let counts = count_to_end(alloc, &wiring, actor_count(&wiring, workers), first)?;
    let totals = totals_of(alloc, &counts.totals, json)?;
    sized_text(alloc, size, totals.as_slice())
}

/// What a load of so many posts writes.
pub fn load<R: AllocGlobal + Threads + Wait + Sync, G: Gate + Sync>(
    rt: &R,
    gate: &G,
    size: u32,
    workers: u32,
    json: bool,
) -> Result<Output, OutOfMemory>
    requires some { 0 < size }
    requires many { size ≤ most_size }
    requires workers { workers ≤ most_workers }
    ensures { IfOk result (λ due. LoadGives size workers json due.status due.text) }
{
    Ok(Output {
        status: Status::Done,
        text: load_text(rt, gate, size, workers, json)?,
    })
}

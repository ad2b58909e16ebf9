//! A record: its run made again, or the steps of that run.

ghost use Rattle.std.specs.Prelude.{◌<◌, ◌≤◌, All, IfOk, length, ◌≡◌, true};
ghost use Rattle.ccr_wiring.specs.Openness.{is_closed};
ghost use Rattle.ccr_base.specs.Bounds.{most_bytes, most_workers};
ghost use Rattle.ccr_wiring.specs.Actors.{actor_count};
ghost use Rattle.ccr_commands.specs.Answers.{AnswersText};
ghost use Rattle.ccr_commands.specs.Records.{ReplayGives, StepsGives};
ghost use Rattle.ccr_words.specs.declared.requests.Command.TheVariants.{Replay, Steps};

use crate::outputs::{Output, refused};
use crate::run::run;
use crate::status::Status;
use ccr_base::{Gate, OutOfMemory};
use ccr_net::run_schedule;
use ccr_replay::{Record, read_record, steps_text};
use std::alloc::Global;
use std::sync::Wait;
use std::thread::Threads;

/// What a scheduled run of the record's turns writes. It ends as done also where a task was shed.
fn replay<R: AllocGlobal + Threads + Wait + Sync, G: Gate + Sync>(
    rt: &R,
    gate: &G,
    said: &Record,
) -> Result<Output, OutOfMemory>
    requires closed { is_closed said.now.wiring ≡ true }
    requires workers { said.now.workers ≤ most_workers }
    requires turns { All (λ actor. actor < actor_count said.now.wiring said.now.workers) said.now.turns }
    ensures { IfOk result (λ due. ReplayGives said.now due.status due.text) }
{
    let turns = Some(said.turns.as_slice());
    let Output { status: _, text } = run(rt, gate, &said.wiring, said.workers, turns, false)?;
    Ok(Output {
        status: Status::Done,
        text,
    })
}

/// The steps of the run of the record's turns.
fn steps(alloc: Global, said: &Record) -> Result<Output, OutOfMemory>
    requires closed { is_closed said.now.wiring ≡ true }
    requires workers { said.now.workers ≤ most_workers }
    requires turns { All (λ actor. actor < actor_count said.now.wiring said.now.workers) said.now.turns }
    ensures { IfOk result (λ due. StepsGives said.now due.status due.text) }
{
    let full = run_schedule(alloc, &said.wiring, said.workers, said.turns.as_slice())?;
    Ok(Output {
        status: Status::Done,
        text: steps_text(alloc, &said.wiring, &full)?,
    })
}

/// What `replay` writes.
pub fn answer_replay<R: AllocGlobal + Threads + Wait + Sync, G: Gate + Sync>(
    rt: &R,
    gate: &G,
    text: &[u8],
) -> Result<Output, OutOfMemory>
    requires { length text.now ≤ most_bytes }
    ensures { (json : _) → IfOk result (λ due. AnswersText Replay json text.now due.status due.text) }
{
    match read_record(rt.alloc(), text) {
        Ok(said) => replay(rt, gate, &said),
        Err(why) => refused(rt.alloc(), why),
    }
}

/// What `steps` writes.
pub fn answer_steps(alloc: Global, text: &[u8]) -> Result<Output, OutOfMemory>
    requires { length text.now ≤ most_bytes }
    ensures { (json : _) → IfOk result (λ due. AnswersText Steps json text.now due.status due.text) }
{
    match read_record(alloc, text) {
        Ok(said) => steps(alloc, &said),
        Err(why) => refused(alloc, why),
    }
}

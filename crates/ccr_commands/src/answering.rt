//! The text that is due for words and an input, whole before a byte of it is written.

ghost use Rattle.std.specs.Prelude.{◌≡◌, ◌≤◌, Bool, ℕ, None, Some, true, false, IfOk, IfSome, IfErr, IsErrOf, length};
ghost use Rattle.ccr_base.specs.Bounds.{most_bytes, most_wiring_bytes, most_workers};
ghost use Rattle.ccr_io.specs.Faults.{Rose};
ghost use Rattle.ccr_words.specs.AskedFor.{asked_for};
ghost use Rattle.ccr_words.specs.Table.{HasFewWorkers, IsWithin};
ghost use Rattle.ccr_words.specs.declared.requests.Command.TheVariants.{Check, Run, Verify};
ghost use Rattle.ccr_words.specs.declared.requests.Request.TheVariants.{Read, Load};
ghost use Rattle.ccr_commands.specs.Statuses.{is_of_text, is_silent};
ghost use Rattle.ccr_commands.specs.Inputs.{limit_of};
ghost use Rattle.ccr_commands.specs.Answers.{AnswersText, AnswersInput, AnswersRequest, IsDue, IsExhausted, IsExhaustedFor, IsAccepted, IsDeclined, IsExcessive, IsVerified, OfCommand, may_end, reads};

use crate::load::load;
use crate::outputs::{Output, check, refused, too_long, usage};
use crate::recording::answer_record;
use crate::replaying::{answer_replay, answer_steps};
use crate::run::run;
use crate::schedule::answer_schedule;
use crate::serving::{answer_expand, answer_service};
use crate::status::Status;
use crate::steady::answer_steady;
use crate::verify::verify;
use ccr_base::{Gate, Name, OutOfMemory};
use ccr_io::{ReadEnd, Source, read_all};
use ccr_text::MAX_TEXT;
use ccr_wiretext::{MAX_WIRING_TEXT, read_wiring};
use ccr_words::{Command, Request, read_words};
use std::alloc::Global;
use std::sync::Wait;
use std::thread::Threads;

/// The most bytes that an input may have.
fn limit_of(command: Command) -> usize
    ensures limit { result ≡ limit_of command }
    ensures most { result ≤ most_bytes }
{
    match command {
        Command::Verify | Command::Replay | Command::Steps => MAX_TEXT,
        Command::Check
        | Command::Run { .. }
        | Command::Record { .. }
        | Command::Steady
        | Command::Service { .. }
        | Command::Expand => MAX_WIRING_TEXT,
    }
}

fn answer_check(alloc: Global, text: &[u8], json: bool) -> Result<Output, OutOfMemory>
    requires { length text.now ≤ most_wiring_bytes }
    ensures { IfOk result (λ due. AnswersText Check json text.now due.status due.text) }
{
    match read_wiring(alloc, text) {
        Ok(wiring) => check(alloc, &wiring, json),
        Err(why) => refused(alloc, why),
    }
}

fn answer_run<R: AllocGlobal + Threads + Wait + Sync, G: Gate + Sync>(
    rt: &R,
    gate: &G,
    text: &[u8],
    workers: u32,
    json: bool,
) -> Result<Output, OutOfMemory>
    requires workers { workers ≤ most_workers }
    requires length { length text.now ≤ most_wiring_bytes }
    ensures { IfOk result (λ due. AnswersText (Run workers false) json text.now due.status due.text) }
{
    match read_wiring(rt.alloc(), text) {
        Ok(wiring) => run(rt, gate, &wiring, workers, None, json),
        Err(why) => refused(rt.alloc(), why),
    }
}

fn answer_text<R: AllocGlobal + Threads + Wait + Sync, G: Gate + Sync>(
    rt: &R,
    gate: &G,
    command: Command,
    text: &[u8],
    json: bool,
) -> Result<Output, OutOfMemory>
    requires workers { HasFewWorkers command }
    requires length { length text.now ≤ limit_of command }
    ensures { IfOk result (λ due. AnswersText command json text.now due.status due.text) }
{
    match command {
        Command::Check => answer_check(rt.alloc(), text, json),
        Command::Run {
            workers,
            schedule: false,
        } => answer_run(rt, gate, text, workers, json),
        Command::Run {
            workers,
            schedule: true,
        } => answer_schedule(rt, gate, text, workers, json),
        Command::Verify => verify(rt.alloc(), text),
        Command::Record { workers } => answer_record(rt, gate, text, workers),
        Command::Replay => answer_replay(rt, gate, text),
        Command::Steps => answer_steps(rt.alloc(), text),
        Command::Steady => answer_steady(rt.alloc(), text),
        Command::Service { workers } => answer_service(rt, gate, text, workers),
        Command::Expand => answer_expand(rt.alloc(), text),
    }
}

/// What is to be written for an input.
fn answer_input<R: AllocGlobal + Threads + Wait + Sync, S: Source, G: Gate + Sync>(
    rt: &R,
    gate: &G,
    command: Command,
    source: &mut S,
    json: bool,
) -> Result<Output, Status>
    requires { HasFewWorkers command }
    ensures due { IfOk result (λ due. AnswersInput command json (S.rest source.old) due.status due.text) }
    ensures exhausted { IfOk result (λ due. IsExhausted due.status (S.rest source.old) (S.rest source.new)) }
    ensures silent { IfErr result (λ why. is_silent why ≡ true) }
    ensures fault { IsErrOf result Status.ReadFault → Rose (S.faults source.old) (S.faults source.new) }
{
    match read_all(rt.alloc(), source, limit_of(command)) {
        Ok(bytes) => Ok(answer_text(rt, gate, command, bytes.as_slice(), json)?),
        Err(ReadEnd::TooLong) => Ok(too_long(rt.alloc())?),
        Err(ReadEnd::Fault) => Err(Status::ReadFault),
        Err(ReadEnd::Memory) => Err(Status::Memory),
    }
}

/// What is to be written for what was asked for. Only what reads an input moves the source.
fn answer_request<R: AllocGlobal + Threads + Wait + Sync, S: Source, G: Gate + Sync>(
    rt: &R,
    gate: &G,
    request: Option<Request>,
    source: &mut S,
) -> Result<Output, Status>
    requires { IfSome request IsWithin }
    ensures due { IfOk result (λ due. AnswersRequest request (S.rest source.old) due.status due.text) }
    ensures exhausted { IfOk result (λ due. IsExhaustedFor request due.status (S.rest source.old) (S.rest source.new)) }
    ensures silent { IfErr result (λ why. is_silent why ≡ true) }
    ensures fault { IsErrOf result Status.ReadFault → Rose (S.faults source.old) (S.faults source.new) }
    ensures reads { IsErrOf result Status.ReadFault → reads request ≡ true }
    ensures source { reads request ≡ false → source.new ≡ source.old }
{
    match request {
        Some(Request::Read { command, json }) => {
            let answer = answer_input(rt, gate, command, source, json)?;
            Ok(answer)
        }
        Some(
            Request::Load {
                size,
                workers,
                json,
            },
        ) => Ok(load(rt, gate, size, workers, json)?),
        None => Ok(usage(rt.alloc())?),
    }
}

/// What is to be written for the words.
pub fn answer_words<R: AllocGlobal + Threads + Wait + Sync, S: Source, G: Gate + Sync>(
    rt: &R,
    gate: &G,
    words: &[Name],
    source: &mut S,
) -> Result<Output, Status>
    ensures due { IfOk result (λ due. IsDue due.status words.now (S.rest source.old) due.text) }
    ensures of_text { IfOk result (λ due. is_of_text due.status ≡ true) }
    ensures usage { asked_for words.now ≡ None → IfOk result (λ due. due.status ≡ Status.Usage) }
    ensures refused { OfCommand words.now (λ command. IsDeclined command (S.rest source.old) → IfOk result (λ due. due.status ≡ Status.Refused)) }
    ensures excessive { OfCommand words.now (λ command. IsExcessive command (S.rest source.old) → IfOk result (λ due. due.status ≡ Status.TooLong)) }
    ensures accepted { OfCommand words.now (λ command. IsAccepted command (S.rest source.old) → IfOk result (λ due. may_end command due.status ≡ true)) }
    ensures faulty { (json : Bool) → asked_for words.now ≡ Some (Read Verify json) → IsVerified true (S.rest source.old) → IfOk result (λ due. due.status ≡ Status.Illegal) }
    ensures loaded { (size workers : ℕ) → (json : Bool) → asked_for words.now ≡ Some (Load size workers json) → IfOk result (λ due. due.status ≡ Status.Done) }
    ensures exhausted { IfOk result (λ due. IsExhaustedFor (asked_for words.now) due.status (S.rest source.old) (S.rest source.new)) }
    ensures silent { IfErr result (λ why. is_silent why ≡ true) }
    ensures fault { IsErrOf result Status.ReadFault → Rose (S.faults source.old) (S.faults source.new) }
    ensures reads { IsErrOf result Status.ReadFault → reads (asked_for words.now) ≡ true }
    ensures source { reads (asked_for words.now) ≡ false → source.new ≡ source.old }
{
    let request = read_words(rt.alloc(), words)?;
    let answer = answer_request(rt, gate, request, source)?;
    Ok(answer)
}

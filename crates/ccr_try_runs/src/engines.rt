//! The order of one thread.

ghost use Rattle.std.specs.Prelude.{◌≡◌, ◌≤◌, IfOk, true};
ghost use Rattle.ccr_wiring.specs.Actors.{actor_count};
ghost use Rattle.ccr_model.specs.Firings.{fired};
ghost use Rattle.ccr_model.specs.Legal.{IsLegal, IsQuiet, is_complete};
ghost use Rattle.ccr_model.specs.Order.{most_attempts, next_attempt};
ghost use Rattle.ccr_runs.specs.EntryRuns.{IsRun};
ghost use Rattle.ccr_service.specs.Expansion.{expansion};

use crate::schedules::shortened;
use ccr_actor::actor_count;
use ccr_base::{ActorNo, List, OutOfMemory};
use ccr_model::History;
use ccr_net::{closers_are_new_to_runs, visible};
use ccr_runs::Full;
use ccr_serial::{Serial, Stepped};
use ccr_service::{Answer, Service, answers, expand, read_service};
use ccr_trace::write_history;
use ccr_try::{first_number, numbers_of, put, put_number, put_word, text_of};
use ccr_wiretext::MAX_WIRING_TEXT;
use ccr_wiring::{Wiring, is_closed};
use std::alloc::Global;

/// What is visible of a run without workers.
fn shown(alloc: Global, wiring: &Wiring, full: &Full) -> Result<History, OutOfMemory>
    requires run { IsRun wiring.now 0 full.now.entries }
    ensures legal { IfOk result (λ history. IsLegal wiring.now history) }
    ensures attempts { IfOk result (λ history. next_attempt (actor_count wiring.now 0) (fired history) ≤ most_attempts) }
{
    closers_are_new_to_runs();
    // `parts` says that the wiring is valid.
    let _valid = wiring.parts();
    visible(alloc, wiring, full)
}

/// The history, gone on with until nothing more may happen.
fn finished(alloc: Global, wiring: &Wiring, first: History) -> Result<History, OutOfMemory>
    requires legal { IsLegal wiring.now first }
    requires attempts { next_attempt (actor_count wiring.now 0) (fired first) ≤ most_attempts }
{
    if !is_closed(wiring.parts()) {
        return Err(OutOfMemory);
    }
    match Serial::resume(alloc, wiring, actor_count(wiring, 0), first) {
        Ok(engine) => engine.finish(),
        Err(_) => Err(OutOfMemory),
    }
}

fn put_history(alloc: Global, wiring: &Wiring, history: &History, out: &mut List<u8>) {
    if let Ok(text) = write_history(alloc, wiring, history) {
        put(out, text.as_slice());
    }
}

/// What is visible of the run without workers where the ask of this number finds no memory.
fn shown_short(
    alloc: Global,
    wiring: &Wiring,
    turns: &[ActorNo],
    refused: u64,
) -> Result<History, OutOfMemory>
    ensures legal { IfOk result (λ history. IsLegal wiring.now history) }
    ensures attempts { IfOk result (λ history. next_attempt (actor_count wiring.now 0) (fired history) ≤ most_attempts) }
{
    match shortened(alloc, wiring, turns, refused) {
        Ok(full) => shown(alloc, wiring, &full),
        Err(_) => Err(OutOfMemory),
    }
}

/// The same history, gone on with.
fn finished_short(
    alloc: Global,
    wiring: &Wiring,
    turns: &[ActorNo],
    refused: u64,
) -> Result<History, OutOfMemory> {
    match shown_short(alloc, wiring, turns, refused) {
        Ok(first) => finished(alloc, wiring, first),
        Err(_) => Err(OutOfMemory),
    }
}

/// For `ASK TURN ..` the history of the run where the ask of this number finds no memory, once one thread has finished it.
pub fn finish_short(alloc: Global, wiring: &Wiring, input: &str, out: &mut List<u8>) {
    let (refused, turns) = first_number(input);
    let turns = numbers_of(alloc, turns);
    if let Ok(history) = finished_short(alloc, wiring, turns.as_slice(), u64::from(refused)) {
        put_history(alloc, wiring, &history, out);
    }
}

/// Adds whether nothing more may happen, and answers whether the step made an event.
fn put_stepped(out: &mut List<u8>, stepped: &Result<Stepped, OutOfMemory>) -> bool {
    match stepped {
        Ok(Stepped::Did(_)) => true,
        Ok(Stepped::Quiet) => {
            put_word(out, b"quiet");
            false
        }
        Err(_) => false,
    }
}

/// Makes a step, adds how many events there are then, and answers whether it made one.
fn put_step(engine: &mut Serial<'_>, out: &mut List<u8>) -> bool {
    let stepped = engine.step();
    put_number(out, engine.history().events().len() as u64);
    put_stepped(out, &stepped)
}

/// Adds how many events there are after each step, up to one that makes none.
fn put_counts(engine: &mut Serial<'_>, out: &mut List<u8>) {
    for _ in 0..100 {
        if !put_step(engine, out) {
            return;
        }
    }
}

/// How many events the engine has after each step.
pub fn engine(alloc: Global, wiring: &Wiring, out: &mut List<u8>) {
    if !is_closed(wiring.parts()) {
        return;
    }
    if let Ok(mut engine) = Serial::start(alloc, wiring, actor_count(wiring, 0)) {
        put_counts(&mut engine, out);
    }
}

/// How many events the engine has at the end, which goes on from none.
pub fn resume(alloc: Global, wiring: &Wiring, out: &mut List<u8>) {
    if !is_closed(wiring.parts()) {
        return;
    }
    let resumed = Serial::resume(alloc, wiring, actor_count(wiring, 1), History::new(alloc));
    if let Ok(engine) = resumed {
        if let Ok(history) = engine.finish() {
            put_number(out, history.events().len() as u64);
        }
    }
}

fn put_answer(out: &mut List<u8>, answer: &Answer) {
    match answer {
        Answer::Success(message) => {
            put_word(out, b"success");
            put_number(out, message.value.first());
        }
        Answer::Fault(message) => {
            put_word(out, b"fault");
            put_number(out, message.value.first());
        }
        Answer::Held => put_word(out, b"held"),
        Answer::Cut => put_word(out, b"cut"),
        Answer::Dropped => put_word(out, b"dropped"),
    }
}

/// The history of one thread, up to where nothing more may happen.
fn whole(alloc: Global, wiring: &Wiring) -> Result<History, OutOfMemory>
    ensures legal { IfOk result (IsLegal wiring.now) }
    ensures complete { IfOk result (λ history. is_complete wiring.now history ≡ true) }
    ensures quiet { IfOk result (IsQuiet wiring.now) }
{
    if !is_closed(wiring.parts()) {
        return Err(OutOfMemory);
    }
    Serial::start(alloc, wiring, actor_count(wiring, 0))?.finish()
}

/// Adds what became of each request in this history.
fn put_answers(alloc: Global, service: &Service, history: &History, out: &mut List<u8>)
    requires legal { IsLegal (expansion service.now) history.now }
    requires complete { is_complete (expansion service.now) history.now ≡ true }
    requires quiet { IsQuiet (expansion service.now) history.now }
{
    if let Ok(answers) = answers(alloc, service, history) {
        for answer in answers.as_slice() {
            put_answer(out, answer);
        }
    }
}

/// Adds what became of each request in the order of one thread over this wiring, the service's.
fn put_whole(alloc: Global, service: &Service, wiring: &Wiring, out: &mut List<u8>)
    requires { wiring.now ≡ expansion service.now }
{
    if let Ok(history) = whole(alloc, wiring) {
        put_answers(alloc, service, &history, out);
    }
}

/// Adds what became of each request of the service.
fn put_expanded(alloc: Global, service: &Service, out: &mut List<u8>) {
    if let Ok(wiring) = expand(alloc, service) {
        put_whole(alloc, service, &wiring, out);
    }
}

/// Adds what became of each request of the service that these bytes say.
fn put_served(alloc: Global, text: &[u8], out: &mut List<u8>) {
    if text.len() > MAX_WIRING_TEXT {
        return;
    }
    match read_service(alloc, text) {
        Ok(service) => put_expanded(alloc, &service, out),
        Err(_) => put(out, b"no service"),
    }
}

/// What became of each request of the service.
pub fn answers_of(alloc: Global, text: &str, out: &mut List<u8>) {
    let text = text_of(alloc, text, "");
    put_served(alloc, text.as_slice(), out);
}

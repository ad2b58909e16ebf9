//! A record, read line by line.

ghost use Rattle.std.specs.Prelude.{◌≡◌, ◌≢◌, ◌≤◌, ◌<◌, ◌+◌, [], ◌∷◌, All, length, IfErr, IfOk, true};
ghost use Rattle.ccr_wiring.specs.Openness.{is_closed};
ghost use Rattle.ccr_base.specs.Bounds.{most_bytes, most_wiring_bytes, most_workers};
ghost use Rattle.ccr_text.specs.Lines.{split_text, numbered, behind_line};
ghost use Rattle.ccr_wiring.specs.Actors.{actor_count};
ghost use Rattle.ccr_wiretext.specs.Answers.{IsReading};
ghost use Rattle.ccr_replay.specs.Answers.{SaysNothing};
ghost use Rattle.ccr_replay.specs.Grammar.{Says};
ghost use Rattle.ccr_replay.specs.Reading.{ending, line_at, part_before, reading_behind, reading_part, reading_record, record_behind, skipped_lines, turns_behind};
ghost use Rattle.ccr_replay.specs.Turns.{most_lines_before};

use crate::lines::{done_on, skipped_on, workers_on};
use crate::read_turns;
use crate::records::Record;
use crate::refusals::{RecordCode, refused};
use ccr_actor::actor_count;
use ccr_base::{ActorNo, List};
use ccr_text::{find_line, numbered_line, split_line};
use ccr_wiretext::{MAX_WIRING_TEXT, ReadRefused, read_wiring};
use ccr_wiring::Wiring;
use std::alloc::Global;

/// The number of the line at which the byte of this index stands.
fn line_at(index: usize, text: &[u8]) -> u32
    requires within { index ≤ length text.now }
    requires small { index ≤ most_wiring_bytes }
    ensures { result ≡ line_at index text.now }
{
    let mut line = 1;
    for byte in &text[..index] {
        if *byte == b'\n' {
            line += 1;
        }
    }
    line
}

/// The wiring that a part of a longer input says. A part that is too long is refused at the line of the first byte too many, with
/// the code of what is outside a limit (docs/FORMATS.md).
pub fn read_part(alloc: Global, part: &[u8]) -> Result<Wiring, ReadRefused>
    ensures reading { IsReading result (reading_part part.now) }
    ensures closed { IfOk result (λ wiring. is_closed wiring ≡ true) }
{
    if part.len() > MAX_WIRING_TEXT {
        let line = line_at(MAX_WIRING_TEXT, part);
        return Err(refused(line, RecordCode::Limit));
    }
    read_wiring(alloc, part)
}

/// All lines of the text are skipped, where so many stand before them.
fn read_skipped(alloc: Global, text: &[u8], before: u32) -> Result<(), ReadRefused>
    requires text { length text.now ≤ most_bytes }
    requires before { before ≤ most_lines_before }
    ensures { IsReading result (skipped_lines (numbered (before + 1) (split_text text.now))) }
{
    let mut rest = text;
    let mut number = before;
    'lines: while !rest.is_empty() {
        let (bytes, after) = split_line(rest);
        number += 1;
        let Ok(line) = numbered_line(alloc, number, bytes) else {
            return Err(ReadRefused::Memory);
        };
        if let Err(code) = skipped_on(&line) {
            return Err(refused(number, code));
        }
        rest = after.unwrap_or(&[]);
    }
    Ok(())
}

/// The last line of the record, and skipped ones behind it.
fn read_ending(alloc: Global, text: &[u8], before: u32) -> Result<(), ReadRefused>
    requires text { length text.now ≤ most_bytes }
    requires before { before < most_lines_before }
    ensures { IsReading result (ending before (split_text text.now)) }
{
    if text.is_empty() {
        return Err(refused(before, RecordCode::Ending));
    }
    let (bytes, after) = split_line(text);
    let Ok(line) = numbered_line(alloc, before + 1, bytes) else {
        return Err(ReadRefused::Memory);
    };
    if let Err(code) = done_on(&line) {
        return Err(refused(before + 1, code));
    }
    read_skipped(alloc, after.unwrap_or(&[]), before + 1)
}

/// The turns up to the last line of the record, which has to stand behind them.
fn read_turns_behind(
    alloc: Global,
    text: &[u8],
    before: u32,
    actors: u32,
) -> Result<List<ActorNo>, ReadRefused>
    requires text { length text.now ≤ most_bytes }
    requires before { before ≤ most_bytes + 1 }
    ensures turns { IsReading result (turns_behind actors before text.now) }
    ensures below { IfOk result (λ turns. All (λ actor. actor < actors) turns) }
{
    let (index, count) = find_line(text, b"done");
    let turns = match read_turns(alloc, &text[..index], before, actors) {
        Ok(turns) => turns,
        Err(why) => return Err(why),
    };
    match read_ending(alloc, &text[index..], before + count) {
        Ok(()) => Ok(turns),
        Err(why) => Err(why),
    }
}

/// The record of the wiring and so many workers, which stands behind their line.
fn read_record_behind(
    alloc: Global,
    wiring: Wiring,
    text: &[u8],
    before: u32,
    workers: u32,
) -> Result<Record, ReadRefused>
    requires closed { is_closed wiring ≡ true }
    requires text { length text.now ≤ most_bytes }
    requires before { before ≤ most_bytes + 1 }
    requires workers { workers ≤ most_workers }
    ensures reading { IsReading result (record_behind wiring before workers text.now) }
    ensures closed { IfOk result (λ read. is_closed read.wiring ≡ true) }
    ensures workers { IfOk result (λ read. read.workers ≤ most_workers) }
    ensures turns { IfOk result (λ read. All (λ actor. actor < actor_count read.wiring read.workers) read.turns) }
{
    let actors = actor_count(&wiring, workers);
    match read_turns_behind(alloc, text, before, actors) {
        Ok(turns) => Ok(Record {
            wiring,
            workers,
            turns,
        }),
        Err(why) => Err(why),
    }
}

/// The record of the wiring, from its line on.
fn read_behind(
    alloc: Global,
    wiring: Wiring,
    text: &[u8],
    before: u32,
) -> Result<Record, ReadRefused>
    requires closed { is_closed wiring ≡ true }
    requires text { length text.now ≤ most_bytes }
    requires before { before ≤ most_bytes }
    ensures reading { IsReading result (reading_behind wiring before text.now) }
    ensures closed { IfOk result (λ read. is_closed read.wiring ≡ true) }
    ensures workers { IfOk result (λ read. read.workers ≤ most_workers) }
    ensures turns { IfOk result (λ read. All (λ actor. actor < actor_count read.wiring read.workers) read.turns) }
{
    if text.is_empty() {
        return Err(refused(before.max(1), RecordCode::NoRecord));
    }
    let (bytes, after) = first_line(text);
    let Ok(line) = numbered_line(alloc, before + 1, bytes) else {
        return Err(ReadRefused::Memory);
    };
    match workers_on(&line) {
        Ok(workers) => read_record_behind(alloc, wiring, after, before + 1, workers),
        Err(code) => Err(refused(before + 1, code)),
    }
}

/// The first line of a text that isn't empty, and what follows its LF.
fn first_line(text: &[u8]) -> (&[u8], &[u8])
    requires { text.now ≢ [] }
    ensures first { split_text text.now ≡ result.0.now ∷ split_text result.1.now }
    ensures after { result.1.now ≡ behind_line text.now }
    ensures shorter { length result.1.now ≤ length text.now }
{
    let (line, after) = split_line(text);
    match after {
        Some(rest) => (line, rest),
        None => (line, &[]),
    }
}

/// What stands before the line that begins at this byte, less the LF at its end; the whole text where there is no such line.
fn part_before(text: &[u8], index: usize) -> &[u8]
    requires { index ≤ length text.now }
    ensures { result.now ≡ part_before index text.now }
{
    if index < text.len() {
        &text[..index.saturating_sub(1)]
    } else {
        text
    }
}

fn read_text(alloc: Global, text: &[u8]) -> Result<Record, ReadRefused>
    requires { length text.now ≤ most_bytes }
    ensures reading { IsReading result (reading_record text.now) }
    ensures closed { IfOk result (λ read. is_closed read.wiring ≡ true) }
    ensures workers { IfOk result (λ read. read.workers ≤ most_workers) }
    ensures turns { IfOk result (λ read. All (λ actor. actor < actor_count read.wiring read.workers) read.turns) }
{
    let (index, before) = find_line(text, b"record");
    match read_part(alloc, part_before(text, index)) {
        Ok(wiring) => read_behind(alloc, wiring, &text[index..], before),
        Err(why) => Err(why),
    }
}

/// The record that a text says: the wiring is what stands before the first line whose first word is `record`, less the LF at its
/// end; then stand that line with the number of workers, a line for each turn, and the last line. Or the first offending line
/// and its code (docs/FORMATS.md).
pub fn read_record(alloc: Global, text: &[u8]) -> Result<Record, ReadRefused>
    requires { length text.now ≤ most_bytes }
    ensures reading { IsReading result (reading_record text.now) }
    ensures grammar { IfOk result (Says text.now) }
    ensures refused { IfErr result (SaysNothing text.now) }
    ensures closed { IfOk result (λ read. is_closed read.wiring ≡ true) }
    ensures workers { IfOk result (λ read. read.workers ≤ most_workers) }
    ensures turns { IfOk result (λ read. All (λ actor. actor < actor_count read.wiring read.workers) read.turns) }
{
    read_text(alloc, text)
}

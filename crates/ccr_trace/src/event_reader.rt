//! A history's text, read event by event.

ghost use Rattle.std.specs.Prelude.{◌≡◌, ◌<◌, ◌≤◌, ◌+◌, Err, IfErr, IfNone, IfOk, IfSome, OnOk, length};
ghost use Rattle.ccr_base.specs.Bounds.{most_bytes};
ghost use Rattle.ccr_trace.specs.Pieces.{bytes_in};
ghost use Rattle.ccr_trace.specs.Codes.{code_number};
ghost use Rattle.ccr_trace.specs.declared.refused.HistoryRefused.TheVariants.{At};
ghost use Rattle.ccr_trace.specs.Answers.{IsReading, IsRefusal, refused};
ghost use Rattle.ccr_trace.specs.EventReaders.{HasRead, HasReadAll, IsBefore, reading_of};
ghost use Rattle.ccr_trace.specs.Reading.{ended, head, line_limit, reading, reading_from, reading_lines};

use crate::first::is_first_line;
use crate::forms::event_on;
use crate::known::Known;
use crate::line_fault::LineFault;
use crate::pieces::Pieces;
use crate::refused::{HistoryCode, HistoryRefused};
use ccr_model::{Event, GhostHistory};
use ccr_text::{Stop, is_text};
use ccr_wiring::{Parts, Wiring};
use std::alloc::Global;
use std::marker::Model;

/// The line is refused with the code.
fn refusal_at(line: u32, code: HistoryCode) -> HistoryRefused
    ensures { result ≡ At line (code_number code) }
{
    HistoryRefused::At {
        line,
        code: code.number(),
    }
}

/// What is answered where a line stops the reading.
fn refused(line: u32, stop: Stop<LineFault>) -> HistoryRefused
    ensures { result ≡ refused line stop }
{
    match stop {
        Stop::Memory => HistoryRefused::Memory,
        Stop::Refused(LineFault::Malformed) => refusal_at(line, HistoryCode::Malformed),
        Stop::Refused(LineFault::Unknown) => refusal_at(line, HistoryCode::Unknown),
    }
}

/// What is answered where the text ends: behind so many lines with their LF, these bytes have none.
fn ended(lines: u32, bytes: &[u8]) -> HistoryRefused
    requires { lines < line_limit }
    ensures { IsRefusal result (ended lines bytes.now) }
{
    if bytes.is_empty() {
        return refusal_at(lines.max(1), HistoryCode::Unfinished);
    }
    refusal_at(lines + 1, HistoryCode::Malformed)
}

/// Takes the first line, which is `history 1`, or `history 2` in version 2.
fn take_first(parts: &Parts, lines: &mut Pieces<'_>) -> Result<(), HistoryRefused>
    ensures events { OnOk result (reading_lines parts.now lines.old ≡ reading_from parts.now head lines.new) }
    ensures room { OnOk result (bytes_in lines.new ≤ bytes_in lines.old) }
    ensures refused { IfErr result (λ refusal. IsReading (Err refusal) (reading_lines parts.now lines.old)) }
{
    let Some(first) = lines.take() else {
        return Err(ended(0, &[]));
    };
    if lines.is_empty() {
        return Err(ended(0, first));
    }
    if !is_first_line(parts, first) {
        return Err(refusal_at(1, HistoryCode::Malformed));
    }
    Ok(())
}

/// The events of a text, up to its line `report 1`. Contracts see those that were read, of which none is kept.
#[derive(Drop)]
pub struct EventReader<'a> {
    alloc: Global,
    known: Known<'a>,
    /// The lines that are left.
    left: Pieces<'a>,
    /// The byte where they begin.
    rest: usize,
    /// How many lines stand before them.
    lines: u32,
    /// The events that were read, for contracts alone: they take no memory.
    read: GhostHistory,
}

impl<'a> Model for EventReader<'a> {
    ghost use Rattle.ccr_trace.specs.EventReaders.{IsReader, Reader};

    ghost Value = { Reader };

    ghost view = { λ r. record { wiring = r.known; so_far = record { history = r.read; rest = r.rest; lines = r.lines }; left = r.left } };

    ghost invariant = { λ r. IsReader (record { wiring = r.known; so_far = record { history = r.read; rest = r.rest; lines = r.lines }; left = r.left }) };
}

impl<'a> EventReader<'a> {
    /// Before the events of a text.
    pub fn new(alloc: Global, wiring: &'a Wiring, text: &'a [u8]) -> Result<Self, HistoryRefused>
        requires { length text.now ≤ most_bytes }
        ensures before { IfOk result (IsBefore wiring.now text.now) }
        ensures refused { IfErr result (λ refusal. IsReading (Err refusal) (reading wiring.now text.now)) }
    {
        let known = Known::new(alloc, wiring)?;
        let mut left = Pieces::new(b'\n', text);
        take_first(known.parts(), &mut left)?;
        Ok(EventReader {
            alloc,
            known,
            left,
            rest: 10,
            lines: 1,
            read: GhostHistory::new(alloc),
        })
    }

    /// The next event, or none where the line `report 1` stands. Nothing is to be read behind it.
    pub fn next(&mut self) -> Result<Option<Event>, HistoryRefused>
        ensures some { IfOk result (λ found. IfSome found (λ event. HasRead self.old event self.new)) }
        ensures none { IfOk result (λ found. IfNone found (HasReadAll self.old self.new)) }
        ensures refused { IfErr result (λ refusal. IsReading (Err refusal) (reading_of self.old)) }
    {
        let Some(line) = self.left.take() else {
            return Err(ended(self.lines, &[]));
        };
        if self.left.is_empty() {
            return Err(ended(self.lines, line));
        }
        if is_text(line, "report 1") {
            return Ok(None);
        }
        match event_on(self.alloc, &self.known, line) {
            Ok(event) => {
                self.read.push(&event)?;
                self.rest += line.len() + 1;
                self.lines += 1;
                Ok(Some(event))
            }
            Err(stop) => Err(refused(self.lines + 1, stop)),
        }
    }

    /// The byte where the lines that are left begin.
    pub fn rest(&self) -> usize
        ensures { result ≡ self.now.so_far.rest }
    {
        self.rest
    }

    /// How many lines stand before them: the first, and one for each event.
    pub fn lines(&self) -> u32
        ensures lines { result ≡ self.now.so_far.lines }
        ensures events { result ≡ length self.now.so_far.history + 1 }
    {
        self.lines
    }
}

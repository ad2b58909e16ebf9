//! Asks objects, tables and small calls what standard input has, makes its attempts, courses and runs, and names the rows that are answered
//! otherwise than is due. README.md says which calls there are.
#![tactic(auto)]

mod answers;
mod asks;
mod attempts;
mod counts;
mod courses;
mod engines;
mod handlers;
mod lines;
mod lists;
mod making;
mod nets;
mod objects;
mod replies;
mod schedules;
mod selections;
mod showing;
mod streams;
mod tables;

use ccr_base::List;
use ccr_io::{StdSink, StdSource, read_all, write_all};
use ccr_try::{Row, RowLine, is_due, put, read_line, text_of};
use ccr_wiretext::{MAX_WIRING_TEXT, read_wiring};
use ccr_wiring::Wiring;
use std::alloc::Global;
use std::io;

/// What a course, a run or objects answer over the wiring.
fn tell_over(alloc: Global, wiring: &Wiring, row: &Row<'_>, out: &mut List<u8>) {
    match row.call {
        "course" => courses::course(alloc, wiring, row.input, out),
        "steps" => schedules::steps(alloc, wiring, row.input, out),
        "schedule" => schedules::schedule(alloc, wiring, row.input, out),
        "short" => schedules::short(alloc, wiring, row.input, out),
        "finish" => engines::finish_short(alloc, wiring, row.input, out),
        "engine" => engines::engine(alloc, wiring, out),
        "resume" => engines::resume(alloc, wiring, out),
        "rest" => nets::rest(alloc, wiring, out),
        "steady" => counts::steady(alloc, wiring, out),
        "place_number" => showing::number(alloc, wiring, row.input, out),
        "shows" => showing::shows(alloc, wiring, row.input, out),
        "met_event" => showing::met(alloc, wiring, row.input, out),
        "object" | "met" | "places" => objects::tell(alloc, wiring, row, out),
        _ => put(out, b"no such call"),
    }
}

/// What it answers over the wiring of this text.
fn tell_with(alloc: Global, with: &str, row: &Row<'_>, out: &mut List<u8>) {
    let text = text_of(alloc, with, "");
    if text.len() <= MAX_WIRING_TEXT {
        match read_wiring(alloc, text.as_slice()) {
            Ok(wiring) => tell_over(alloc, &wiring, row, out),
            Err(_) => put(out, b"no wiring"),
        }
    }
}

/// Adds what the call answers: of tables, of streams and handlers, or of a small call.
fn tell_small(alloc: Global, row: &Row<'_>, out: &mut List<u8>) {
    match row.call {
        "play" => handlers::play(alloc, row.input, out),
        "held" => tables::held(alloc, row.input, out),
        "rows" => tables::rows(alloc, row.input, out),
        "source" => streams::source(alloc, row.input, out),
        "fault" => streams::fault(alloc, row.input, out),
        "sink" => streams::sink(alloc, row.input, out),
        "sure" => streams::sure(alloc, row.input, out),
        "standard" => streams::standard(alloc, out),
        "choose" => selections::choose_in(alloc, row.input, out),
        "copy" => selections::copies(alloc, out),
        "value" => selections::value(row.input, out),
        "holds" => selections::holds(row.input, out),
        "list" => lists::list(alloc, row.input, out),
        "union" => lists::joined(alloc, row.input, out),
        "causes" => lists::causes(alloc, row.input, out),
        _ => lines::tell(alloc, row, out),
    }
}

/// Adds what the call answers: of attempts, courses and runs, of objects, or what `tell_small` adds.
fn answer(alloc: Global, with: &str, row: &Row<'_>, out: &mut List<u8>) {
    match row.call {
        "gather" | "slots" | "site" => attempts::attempt(alloc, row.call, row.input, out),
        "answers" => engines::answers_of(alloc, row.input, out),
        "generated" => counts::generated(alloc, row.input, out),
        "dealt" => counts::dealt(alloc, row.input, out),
        "course"
        | "steps"
        | "schedule"
        | "short"
        | "finish"
        | "engine"
        | "resume"
        | "rest"
        | "steady"
        | "place_number"
        | "shows"
        | "met_event"
        | "object"
        | "met"
        | "places" => tell_with(alloc, with, row, out),
        _ => tell_small(alloc, row, out),
    }
}

/// All of standard input, where it is no longer than a wiring may be.
fn read_input(rt: &HostRuntime) -> List<u8> {
    let mut source = StdSource::new(rt.stdin());
    match read_all(rt.alloc(), &mut source, MAX_WIRING_TEXT) {
        Ok(text) => text,
        Err(_) => List::new(rt.alloc()),
    }
}

/// Tells whether the row is answered as is due, and names it where it isn't.
fn is_right(
    rt: &HostRuntime,
    case: &str,
    with: &str,
    row: &Row<'_>,
    line: &str,
) -> io::Result<bool> {
    let mut found = List::new(rt.alloc());
    answer(rt.alloc(), with, row, &mut found);
    if is_due(found.as_slice(), row.due) {
        return Ok(true);
    }
    let shown = str::from_utf8(found.as_slice()).unwrap_or("no text");
    println!(rt; "{case}: {line} is answered {shown}")?;
    Ok(false)
}

/// Tries the rows of the text.
fn tell_rows(rt: &HostRuntime, text: &str) -> io::Result<()> {
    let (mut rows, mut wrong) = (0u64, 0u64);
    let (mut case, mut with) = ("", "");
    for line in text.split('\n') {
        match read_line(line) {
            RowLine::Case(name) => case = name,
            RowLine::With(start) => with = start,
            RowLine::Row(row) => {
                rows = rows.saturating_add(1);
                if !is_right(rt, case, with, &row, line)? {
                    wrong = wrong.saturating_add(1);
                }
            }
            RowLine::Past(_) | RowLine::Nothing => {}
        }
    }
    println!(rt; "{rows} rows, {wrong} wrong")
}

fn main(rt: HostRuntime) -> io::Result<()> {
    let text = read_input(&rt);
    let _ = write_all(&mut StdSink::new(rt.stdout()), b"written\n");
    tell_rows(&rt, str::from_utf8(text.as_slice()).unwrap_or(""))
}

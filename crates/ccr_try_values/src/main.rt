//! Reads texts, checks parts of wirings and asks what holds of histories that standard input has, and names the rows that are answered
//! otherwise than is due. README.md says which calls there are.
#![tactic(auto)]

mod arbiters;
mod asking;
mod domains;
mod events;
mod judging;
mod making;
mod reading;
mod records;
mod samples;
mod sizes;
mod telling;
mod values;
mod wirings;
mod words;

use crate::making::put_code;
use crate::sizes::{FULL, SMALL, Sizes, parts, set};
use ccr_base::List;
use ccr_try::{Row, RowLine, first_number, is_due, put, read_line, text_of};
use ccr_wiretext::{MAX_WIRING_TEXT, read_wiring};
use ccr_wiring::Wiring;
use std::alloc::Global;
use std::io;

/// What the rows of a case start from: the texts of a wiring and of a history.
#[derive(Clone, Copy)]
struct Start<'a> {
    with: &'a str,
    past: &'a str,
}

/// What the call answers over the wiring.
fn tell_over(alloc: Global, wiring: &Wiring, past: &str, row: &Row<'_>, out: &mut List<u8>) {
    match row.call {
        "history" => reading::refusal(alloc, wiring, past, row.input, out),
        "again" => reading::again(alloc, wiring, row.input, out),
        "event" => reading::event(alloc, wiring, row.input, out),
        "parts" => telling::wiring(alloc, wiring, out),
        "site" => telling::site(alloc, wiring, row.input, out),
        _ => match reading::history_of(alloc, wiring, past) {
            Some(history) => telling::of_history(alloc, wiring, &history, row, out),
            None => put(out, b"no history"),
        },
    }
}

/// What the call answers of the wiring and the history that the rows start from.
fn tell_history(alloc: Global, start: Start<'_>, row: &Row<'_>, out: &mut List<u8>) {
    let text = text_of(alloc, start.with, "");
    if text.len() <= MAX_WIRING_TEXT {
        match read_wiring(alloc, text.as_slice()) {
            Ok(wiring) => tell_over(alloc, &wiring, start.past, row, out),
            Err(_) => put(out, b"no wiring"),
        }
    }
}

/// What the call answers of the text that the input says, behind that of `with`; a call of no text is one over a history.
fn tell_text(alloc: Global, start: Start<'_>, row: &Row<'_>, out: &mut List<u8>) {
    let text = text_of(alloc, start.with, row.input);
    let text = text.as_slice();
    match row.call {
        "wiring" => wirings::read(alloc, text, out),
        "canonical" => wirings::write(alloc, text, out),
        "service" => wirings::read_services(alloc, text, out),
        "expansion" => wirings::expand_service(alloc, text, out),
        "record" => records::read(alloc, text, out),
        "written" => records::write(alloc, start.with, row.input, out),
        "turns" => records::turns(alloc, row.input, out),
        "words" => words::request(alloc, text, out),
        _ => tell_history(alloc, start, row, out),
    }
}

/// The code of parts of these sizes, but for the fields that are told.
fn sized(alloc: Global, sizes: Sizes, input: &str, out: &mut List<u8>) {
    let mut sizes = sizes;
    for told in input.split(", ") {
        let (field, number) = told.split_once(' ').unwrap_or((told, ""));
        let (number, _) = first_number(number);
        set(&mut sizes, field, number);
    }
    put_code(alloc, parts(alloc, &sizes), out);
}

/// What the call answers of parts; a call of no parts is one over a text or a history.
fn tell_parts(alloc: Global, start: Start<'_>, row: &Row<'_>, out: &mut List<u8>) {
    match row.call {
        "full" => sized(alloc, FULL, row.input, out),
        "small" => sized(alloc, SMALL, row.input, out),
        "arbiter" => arbiters::with_arbiter(alloc, row.input, out),
        "spots" => arbiters::branches_at_one_port(alloc, row.input, out),
        "domains" => domains::code_of_domains(alloc, row.input, out),
        "domain" => domains::domain(alloc, row.input, out),
        "branch" => domains::domain_of_branch(alloc, row.input, out),
        "post" => values::with_post(alloc, row.input, out),
        "fail" => values::with_failure(alloc, row.input, out),
        "sample" => samples::sample(alloc, row.input, out),
        _ => tell_text(alloc, start, row, out),
    }
}

/// Tells whether the row is answered as is due, and names it where it isn't.
fn is_right(
    rt: &HostRuntime,
    case: &str,
    start: Start<'_>,
    row: &Row<'_>,
    line: &str,
) -> io::Result<bool> {
    let mut found = List::new(rt.alloc());
    tell_parts(rt.alloc(), start, row, &mut found);
    if is_due(found.as_slice(), row.due) {
        return Ok(true);
    }
    let shown = str::from_utf8(found.as_slice()).unwrap_or("no text");
    println!(rt; "{case}: {line} is answered {shown}")?;
    Ok(false)
}

/// Tries the rows of the text.
fn tell_rows(rt: &HostRuntime, text: &str) -> io::Result<()> {
    let (mut rows, mut wrong) = (0u64, 0u64);
    let mut case = "";
    let mut start = Start { with: "", past: "" };
    for line in text.split('\n') {
        match read_line(line) {
            RowLine::Case(name) => {
                case = name;
                start = Start { with: "", past: "" };
            }
            RowLine::With(with) => start.with = with,
            RowLine::Past(past) => start.past = past,
            RowLine::Row(row) => {
                rows = rows.saturating_add(1);
                if !is_right(rt, case, start, &row, line)? {
                    wrong = wrong.saturating_add(1);
                }
            }
            RowLine::Nothing => {}
        }
    }
    println!(rt; "{rows} rows, {wrong} wrong")
}

fn main(rt: HostRuntime) -> io::Result<()> {
    let text = io::read_to_string(rt.alloc(), rt.stdin())?;
    tell_rows(&rt, text.as_str())
}

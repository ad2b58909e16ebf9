//! Turns, and records of runs.

use crate::wirings::put_refusal;
use ccr_base::List;
use ccr_replay::{read_record, read_turns, write_record};
use ccr_text::MAX_TEXT;
use ccr_try::{first_number, numbers_of, put, put_number, put_numbers, text_of};
use std::alloc::Global;

/// The most lines before turns.
const MOST_LINES: u32 = 4_000_000_000;

/// The workers and the turns, or the line and code with which the text is refused.
pub fn read(alloc: Global, text: &[u8], out: &mut List<u8>) {
    if text.len() > MAX_TEXT {
        return;
    }
    match read_record(alloc, text) {
        Ok(record) => {
            put_number(out, u64::from(record.workers));
            put_numbers(out, record.turns.as_slice());
        }
        Err(refused) => put_refusal(out, refused),
    }
}

/// The record of the wiring text, for `WORKERS TURN ..`.
pub fn write(alloc: Global, wiring: &str, input: &str, out: &mut List<u8>) {
    let (workers, turns) = first_number(input);
    let text = text_of(alloc, wiring, "");
    let turns = numbers_of(alloc, turns);
    if let Ok(written) = write_record(alloc, text.as_slice(), workers, turns.as_slice()) {
        put(out, written.as_slice());
    }
}

/// For `LINES ACTORS TEXT` the turns, of so many actors and behind so many lines, or the line and code with which they are refused.
pub fn turns(alloc: Global, input: &str, out: &mut List<u8>) {
    let (lines, rest) = first_number(input);
    let (actors, rest) = first_number(rest);
    let text = text_of(alloc, rest, "");
    let text = text.as_slice();
    if text.len() > MAX_TEXT || lines > MOST_LINES {
        return;
    }
    match read_turns(alloc, text, lines, actors) {
        Ok(turns) => put_numbers(out, turns.as_slice()),
        Err(refused) => put_refusal(out, refused),
    }
}

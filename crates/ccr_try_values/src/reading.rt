//! Texts of histories.

use crate::events::put_event;
use ccr_base::List;
use ccr_model::History;
use ccr_text::MAX_TEXT;
use ccr_trace::{HistoryRefused, read_history, write_history};
use ccr_try::{put, put_number, put_refused, text_of};
use ccr_wiring::Wiring;
use std::alloc::Global;

/// 0 0, or the line and code with which both texts, one behind the other, are refused.
pub fn refusal(alloc: Global, wiring: &Wiring, past: &str, lines: &str, out: &mut List<u8>) {
    let text = text_of(alloc, past, lines);
    if text.len() > MAX_TEXT {
        return;
    }
    match read_history(alloc, wiring, text.as_slice()) {
        Ok(_) => put_refused(out, 0, 0),
        Err(HistoryRefused::At { line, code }) => put_refused(out, line, code),
        Err(HistoryRefused::Memory) => put(out, b"memory"),
    }
}

/// The history that these bytes say.
fn read(alloc: Global, wiring: &Wiring, text: &[u8]) -> Option<History> {
    if text.len() > MAX_TEXT {
        return None;
    }
    match read_history(alloc, wiring, text) {
        Ok(read) => Some(read.history),
        Err(_) => None,
    }
}

/// The history that the text says.
pub fn history_of(alloc: Global, wiring: &Wiring, text: &str) -> Option<History> {
    let text = text_of(alloc, text, "");
    read(alloc, wiring, text.as_slice())
}

fn put_history(alloc: Global, wiring: &Wiring, history: &History, out: &mut List<u8>) {
    if let Ok(text) = write_history(alloc, wiring, history) {
        put(out, text.as_slice());
    }
}

/// How many lines and bytes stand before the line `report 1`, and the history, written again.
pub fn again(alloc: Global, wiring: &Wiring, text: &str, out: &mut List<u8>) {
    let text = text_of(alloc, text, "");
    if text.len() > MAX_TEXT {
        return;
    }
    if let Ok(read) = read_history(alloc, wiring, text.as_slice()) {
        put_number(out, u64::from(read.lines));
        put_number(out, read.rest as u64);
        put(out, b" ");
        put_history(alloc, wiring, &read.history, out);
    }
}

/// The history of the one event of this line.
pub fn one_event(alloc: Global, wiring: &Wiring, line: &str) -> Option<History> {
    let head = if wiring.parts().version == 2 {
        "history 2;"
    } else {
        "history 1;"
    };
    let mut text = text_of(alloc, head, line);
    put(&mut text, b"\nreport 1\n");
    read(alloc, wiring, text.as_slice())
}

/// The numbers of the line's event, and the text of its history.
pub fn event(alloc: Global, wiring: &Wiring, line: &str, out: &mut List<u8>) {
    if let Some(history) = one_event(alloc, wiring, line) {
        for event in history.events() {
            put_event(out, event);
        }
        put(out, b" = ");
        put_history(alloc, wiring, &history, out);
    }
}

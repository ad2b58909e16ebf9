//! What is told of a wiring and of a history.

use crate::asking::{ask, refused};
use crate::judging::{allowed, feed, judge, verdict_of};
use ccr_base::{List, Spot};
use ccr_json::{report_json, totals_json, wiring_json};
use ccr_model::History;
use ccr_report::{put_total, report_text, totals};
use ccr_try::{Row, first_number, put};
use ccr_wiring::{Wiring, branch_names, spot_text};
use std::alloc::Global;

/// The wiring as JSON.
pub fn wiring(alloc: Global, wiring: &Wiring, out: &mut List<u8>) {
    if let Ok(text) = wiring_json(alloc, wiring) {
        put(out, text.as_slice());
    }
}

/// The name of the site, for `BRANCH SITE`.
pub fn site(alloc: Global, wiring: &Wiring, input: &str, out: &mut List<u8>) {
    let (branch, rest) = first_number(input);
    let (site, _) = first_number(rest);
    if let Ok(names) = branch_names(alloc, wiring.parts()) {
        if let Ok(text) = spot_text(alloc, names.as_slice(), Spot::Site(branch, site)) {
            put(out, text.as_slice());
        }
    }
}

fn put_report(alloc: Global, wiring: &Wiring, history: &History, out: &mut List<u8>) {
    if let Ok(text) = report_text(alloc, wiring, history) {
        put(out, text.as_slice());
    }
}

fn put_report_json(alloc: Global, wiring: &Wiring, history: &History, out: &mut List<u8>) {
    if let Ok(text) = report_json(alloc, wiring, history) {
        put(out, text.as_slice());
    }
}

/// The totals as a line and as JSON.
fn put_totals(alloc: Global, wiring: &Wiring, history: &History, out: &mut List<u8>) {
    if let Ok(totals) = totals(alloc, wiring, history) {
        let _ = put_total(alloc, out, &totals);
        if let Ok(text) = totals_json(alloc, &totals) {
            put(out, text.as_slice());
        }
    }
}

/// What the call answers of the history.
pub fn of_history(
    alloc: Global,
    wiring: &Wiring,
    history: &History,
    row: &Row<'_>,
    out: &mut List<u8>,
) {
    match row.call {
        "report" => put_report(alloc, wiring, history, out),
        "json" => put_report_json(alloc, wiring, history, out),
        "totals" => put_totals(alloc, wiring, history, out),
        "allowed" => allowed(alloc, wiring, history.events(), out),
        "refused" => refused(alloc, wiring, history, row.input, out),
        "ask" => ask(alloc, wiring, history, row.input, out),
        "verdict" => verdict_of(alloc, wiring, history, out),
        "feed" => feed(alloc, wiring, history.events(), out),
        "judge" => judge(alloc, wiring, history.events(), out),
        _ => put(out, b"no such call"),
    }
}

//! Events one after the other: by the rules, and by a judge.

use ccr_base::List;
use ccr_check::{Judge, Verdict, verdict};
use ccr_model::{Event, History, refused_by};
use ccr_try::{put, put_number, put_truth, put_word};
use ccr_wiring::{Wiring, is_closed};
use std::alloc::Global;

/// Adds a copy of the event.
pub fn push(alloc: Global, history: &mut History, event: &Event) {
    if let Ok(event) = event.copy(alloc) {
        let _ = history.push(event);
    }
}

/// Adds the rule, if there is one.
pub fn put_rule(out: &mut List<u8>, rule: Option<u8>) {
    match rule {
        Some(rule) => put_number(out, u64::from(rule)),
        None => put_word(out, b"none"),
    }
}

/// How many of the events the rules allow, each behind those before it.
pub fn allowed(alloc: Global, wiring: &Wiring, events: &[Event], out: &mut List<u8>) {
    let mut history = History::new(alloc);
    let mut count = 0u64;
    for event in events {
        if let Ok(None) = refused_by(alloc, wiring, &history, event) {
            count = count.saturating_add(1);
        }
        push(alloc, &mut history, event);
    }
    put_number(out, count);
}

/// What the judge says of the whole.
pub fn verdict_of(alloc: Global, wiring: &Wiring, history: &History, out: &mut List<u8>) {
    if history.events().len() > u32::MAX as usize || !is_closed(wiring.parts()) {
        return;
    }
    match verdict(alloc, wiring, history) {
        Ok(Verdict::Legal { complete, quiet }) => {
            put(out, b"legal");
            put_truth(out, complete);
            put_truth(out, quiet);
        }
        Ok(Verdict::Illegal { at, rule }) => {
            put_number(out, u64::from(at));
            put_number(out, u64::from(rule));
        }
        Err(_) => put(out, b"memory"),
    }
}

/// Gives the events to the judge, and tells how many it refuses, and the rule of the last that it does.
fn give(judge: &mut Judge<'_>, events: &[Event]) -> (u64, Option<u8>) {
    let mut refused = 0u64;
    let mut last = None;
    for event in events {
        if let Ok(Some(rule)) = judge.feed(event) {
            refused = refused.saturating_add(1);
            last = Some(rule);
        }
    }
    (refused, last)
}

/// How many events the judge refuses, the rule of the last, and how many it has then.
pub fn feed(alloc: Global, wiring: &Wiring, events: &[Event], out: &mut List<u8>) {
    if !is_closed(wiring.parts()) {
        return;
    }
    if let Ok(mut judge) = Judge::new(alloc, wiring) {
        let (refused, last) = give(&mut judge, events);
        put_number(out, refused);
        put_rule(out, last);
        put_number(out, u64::from(judge.len()));
    }
}

/// How many events the judge has, and whether they are complete and quiet.
pub fn judge(alloc: Global, wiring: &Wiring, events: &[Event], out: &mut List<u8>) {
    if !is_closed(wiring.parts()) {
        return;
    }
    if let Ok(mut judge) = Judge::new(alloc, wiring) {
        let _ = give(&mut judge, events);
        put_number(out, u64::from(judge.len()));
        put_truth(out, judge.complete());
        if let Ok(quiet) = judge.quiet() {
            put_truth(out, quiet);
        }
    }
}

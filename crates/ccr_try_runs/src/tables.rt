//! What a port holds, by predicate and in order, and rows of numbers.

use crate::making::{at, first_part, message, pred_in, word_and_numbers};
use ccr_base::{List, Msg, MsgId};
use ccr_ledger::{HeldMessages, Rows};
use ccr_try::{first_number, numbers_of, put_number, put_truth, put_word};
use std::alloc::Global;

/// A port with messages of these values, named by their indices.
fn filled(alloc: Global, values: &[u32]) -> HeldMessages {
    let mut port = HeldMessages::new(alloc);
    let mut index = 0u32;
    for value in values {
        let _ = port.post(message(alloc, 2, index, *value));
        index = index.saturating_add(1);
    }
    port
}

/// Adds the indices of the messages that have the names.
fn put_indices(out: &mut List<u8>, names: &[MsgId]) {
    for name in names {
        if let MsgId::Script { place, .. } = name {
            put_number(out, u64::from(*place));
        }
    }
}

fn put_first(out: &mut List<u8>, taken: &Option<Msg>) {
    match taken {
        Some(message) => put_indices(out, &[message.id]),
        None => put_word(out, b"none"),
    }
}

/// The names of the messages at these indices.
fn names_of(alloc: Global, indices: &[u32]) -> List<MsgId> {
    let mut names = List::new(alloc);
    for index in indices {
        let name = MsgId::Script {
            actor: 0,
            place: *index,
        };
        let _ = names.add(name);
    }
    names
}

fn put_named(out: &mut List<u8>, port: &mut HeldMessages, input: &str) {
    let (pred, rest) = pred_in(input);
    let (most, _) = first_number(rest);
    if let Ok(names) = port.names(pred, most as usize) {
        put_indices(out, &names);
    }
}

fn put_has(out: &mut List<u8>, port: &mut HeldMessages, input: &str) {
    let (pred, rest) = pred_in(input);
    let (least, _) = first_number(rest);
    if let Ok(truth) = port.has(pred, least as usize) {
        put_truth(out, truth);
    }
}

/// Takes so many of those that satisfy the predicate, and then the oldest, and adds the indices of those that are left.
fn put_left(alloc: Global, out: &mut List<u8>, port: &mut HeldMessages, input: &str) {
    let (pred, rest) = pred_in(input);
    let (most, _) = first_number(rest);
    let mut taken = Vec::new(alloc);
    let _ = port.take_some(pred, most as usize, &mut taken);
    let _ = port.take_oldest(1, &mut taken);
    if let Ok(names) = port.oldest_names(4) {
        put_indices(out, &names);
    }
}

/// Adds how many of the messages at these indices the port holds.
fn put_shared(alloc: Global, out: &mut List<u8>, port: &mut HeldMessages, input: &str) {
    let names = names_of(alloc, numbers_of(alloc, input).as_slice());
    if let Ok(count) = port.shared(names.as_slice()) {
        put_number(out, count as u64);
    }
}

/// Takes the first that satisfies the predicate, and adds its index.
fn put_taken(out: &mut List<u8>, port: &mut HeldMessages, input: &str) {
    let (pred, _) = pred_in(input);
    if let Ok(taken) = port.take(pred) {
        put_first(out, &taken);
    }
}

/// What the port answers to the question.
fn put_answer(alloc: Global, out: &mut List<u8>, port: &mut HeldMessages, question: &str) {
    let (word, rest) = question.split_once(' ').unwrap_or((question, ""));
    match word {
        "names" => put_named(out, port, rest),
        "has" => put_has(out, port, rest),
        "shared" => put_shared(alloc, out, port, rest),
        "first" => put_taken(out, port, rest),
        _ => put_left(alloc, out, port, rest),
    }
}

/// For `VALUE .. : QUESTION` what a port answers that holds messages of these values.
pub fn held(alloc: Global, input: &str, out: &mut List<u8>) {
    let (values, question) = first_part(input);
    let values = numbers_of(alloc, values);
    let mut port = filled(alloc, values.as_slice());
    put_answer(alloc, out, &mut port, question);
}

fn put_item(out: &mut List<u8>, item: Option<u32>) {
    match item {
        Some(number) => put_number(out, u64::from(number)),
        None => put_word(out, b"none"),
    }
}

/// One step of the rows, or what they answer to it.
fn step(rows: &mut Rows<u32>, word: &str, numbers: &[u32], out: &mut List<u8>) {
    let (row, number) = (at(numbers, 0) as usize, at(numbers, 1));
    match word {
        "enter" => {
            let _ = rows.enter(row, number);
        }
        "alone" => {
            let _ = rows.enter_alone(row, number);
        }
        "len" => put_number(out, rows.len(row) as u64),
        "first" => put_item(out, rows.first(row).copied()),
        "at" => put_item(out, rows.at(row, number as usize).copied()),
        "leave" => put_item(out, rows.leave(row)),
        "clear" => rows.clear(row),
        _ => put_word(out, b"no such step"),
    }
}

/// For `STEP, ..` what two rows of numbers answer.
pub fn rows(alloc: Global, steps: &str, out: &mut List<u8>) {
    if let Ok(mut rows) = Rows::new(alloc, 2) {
        for text in steps.split(", ") {
            let (word, numbers) = word_and_numbers(alloc, text);
            step(&mut rows, word, numbers.as_slice(), out);
        }
    }
}

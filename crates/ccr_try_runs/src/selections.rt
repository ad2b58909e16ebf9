//! Values, copies, and the selection of messages.

ghost use Rattle.std.specs.Prelude.{◌≤◌};

use crate::answers::put_values;
use crate::making::{first_part, message, pred_in};
use ccr_base::{List, Msg, Slot, Spot, Task, TaskId, Value, can_choose, choose};
use ccr_try::{
    first_number, numbers_of, put_message, put_number, put_numbers, put_task, put_truth, put_word,
};
use std::alloc::Global;

fn messages(alloc: Global, values: &[u32]) -> List<Msg> {
    let mut found = List::new(alloc);
    let mut index = 0u32;
    for value in values {
        let _ = found.add(message(alloc, 0, index, *value));
        index = index.saturating_add(1);
    }
    found
}

fn references<'a>(alloc: Global, items: &'a [Msg]) -> Vec<&'a Msg> {
    let mut found = Vec::new(alloc);
    for item in items {
        let _ = found.push(item);
    }
    found
}

fn put_indices(out: &mut List<u8>, indices: &Option<List<u32>>) {
    match indices {
        Some(indices) => put_numbers(out, indices.as_slice()),
        None => put_word(out, b"none"),
    }
}

fn put_selection(alloc: Global, items: &[Msg], slot: &Slot, out: &mut List<u8>)
    requires { slot.now.least ≤ slot.now.most }
{
    if items.len() > u32::MAX as usize {
        return;
    }
    if let Ok(indices) = choose(alloc, items, slot) {
        put_indices(out, &indices);
    }
    put_truth(out, can_choose(items, slot));
}

/// The same of references.
fn put_selection_of(alloc: Global, items: &[Msg], slot: &Slot, out: &mut List<u8>)
    requires { slot.now.least ≤ slot.now.most }
{
    let waiting = references(alloc, items);
    if waiting.len() > u32::MAX as usize {
        return;
    }
    if let Ok(indices) = choose(alloc, &waiting, slot) {
        put_indices(out, &indices);
    }
    put_truth(out, can_choose(&waiting, slot));
}

/// For `LEAST MOST PRED NUMBER : VALUE ..` the indices of the messages that are chosen, and whether there is a selection; of messages and
/// of references to them.
pub fn choose_in(alloc: Global, input: &str, out: &mut List<u8>) {
    let (slot, values) = first_part(input);
    let (least, rest) = first_number(slot);
    let (most, rest) = first_number(rest);
    let (pred, _) = pred_in(rest);
    let slot = Slot {
        port: 0,
        least,
        most,
        pred,
    };
    if least <= most {
        let items = messages(alloc, numbers_of(alloc, values).as_slice());
        put_selection(alloc, items.as_slice(), &slot, out);
        put_selection_of(alloc, items.as_slice(), &slot, out);
    }
}

/// The task t1.2 with the values 5 and 6.
fn task(alloc: Global) -> Task {
    let id = TaskId {
        actor: 1,
        attempt: 2,
    };
    let mut values = List::new(alloc);
    let _ = values.add(Value::one(5));
    let _ = values.add(Value::one(6));
    Task {
        id,
        root: id,
        spot: Spot::Branch(0),
        arbiter: 0,
        queue: 0,
        values,
        causes: List::new(alloc),
    }
}

/// The copies of a message s0.7 of value 5, and of a task.
pub fn copies(alloc: Global, out: &mut List<u8>) {
    if let Ok(copied) = message(alloc, 0, 7, 5).copy(alloc) {
        put_message(out, copied.id);
        put_number(out, copied.value.first());
    }
    if let Ok(copied) = task(alloc).copy(alloc) {
        put_task(out, copied.id);
        put_values(out, copied.values.as_slice());
    }
}

/// So many numbers 5, 0, 7 and so on as a value, and whether it is the value of 5 alone.
pub fn value(input: &str, out: &mut List<u8>) {
    let numbers = [5, 0, 7, 1, 1, 1, 1, 1, 1];
    let count = input.parse::<usize>().unwrap_or(0);
    match Value::of(numbers.get(..count).unwrap_or(&[])) {
        Some(value) => {
            for number in value.numbers() {
                put_number(out, *number);
            }
            put_truth(out, value == Value::one(5));
        }
        None => put_word(out, b"none"),
    }
}

/// For `PRED NUMBER` whether it holds of the value 5,0,7.
pub fn holds(input: &str, out: &mut List<u8>) {
    let (pred, _) = pred_in(input);
    if let Some(value) = Value::of(&[5, 0, 7]) {
        put_truth(out, pred.holds(&value));
    }
}

//! What objects answer.

use ccr_base::{By, List, Msg, Spot, Task, Value};
use ccr_claim::Reply;
use ccr_object::PlaceAnswer;
use ccr_try::{put, put_number, put_numbers, put_spot, put_task, put_word};

pub fn put_values(out: &mut List<u8>, values: &[Value]) {
    for value in values {
        put_number(out, value.first());
    }
}

/// Adds the values of the first messages, and how many there are.
fn put_messages(out: &mut List<u8>, messages: &[Msg]) {
    for message in messages.iter().take(8) {
        put_number(out, message.value.first());
    }
    put_word(out, b"of");
    put_number(out, messages.len() as u64);
}

/// Adds the task's name, and of one of a site its root, site, arbiter, values and causes.
fn put_whole(out: &mut List<u8>, task: &Task) {
    put_task(out, task.id);
    if let Spot::Site(..) = task.spot {
        put_task(out, task.root);
        put_spot(out, task.spot);
        put_number(out, u64::from(task.arbiter));
        put_word(out, b"values");
        put_values(out, task.values.as_slice());
        put_word(out, b"causes");
        put_numbers(out, task.causes.as_slice());
    }
}

/// Adds the word, and the task's name if there is one.
fn put_option(out: &mut List<u8>, word: &[u8], task: &Option<Task>) {
    put_word(out, word);
    match task {
        Some(task) => put_whole(out, task),
        None => put_word(out, b"none"),
    }
}

fn put_counted(out: &mut List<u8>, word: &[u8], number: u32) {
    put_word(out, word);
    put_number(out, u64::from(number));
}

fn as_count(count: usize) -> u32 {
    u32::try_from(count).unwrap_or(u32::MAX)
}

fn put_dead(out: &mut List<u8>, by: By) {
    put_word(out, b"dead");
    match by {
        By::Fired(task) => put_task(out, task),
        By::NoneWaiting => put_word(out, b"none"),
    }
}

fn put_reply(out: &mut List<u8>, reply: &Reply) {
    match reply {
        Reply::Done => put_word(out, b"done"),
        Reply::Got(messages) => {
            put_word(out, b"got");
            put_messages(out, messages.as_slice());
        }
        Reply::Busy(task) => {
            put_word(out, b"busy");
            put_task(out, *task);
        }
        Reply::Short(count) => put_counted(out, b"short", *count),
        Reply::Fired { task, cuts } => {
            put_option(out, b"fired", task);
            put_counted(out, b"cuts", as_count(cuts.len()));
        }
        Reply::Dead(by) => put_dead(out, *by),
        Reply::Admitted(task) => put_option(out, b"admitted", task),
        Reply::Booked => put_word(out, b"booked"),
        Reply::Full(count) => put_counted(out, b"full", *count),
        Reply::Dropped(task) => put_option(out, b"drops", task),
        Reply::Taken(task) => put_option(out, b"taken", task),
        Reply::Drawn(count) => put_counted(out, b"drawn", *count),
        Reply::Spent => put_word(out, b"spent"),
        Reply::Left(count) => put_counted(out, b"left", *count),
    }
}

/// Adds the answer, and a comma.
pub fn put_answer(out: &mut List<u8>, answer: &PlaceAnswer) {
    match answer {
        PlaceAnswer::Replied(reply) => put_reply(out, reply),
        PlaceAnswer::Unmet => put_word(out, b"unmet"),
    }
    put(out, b",");
}

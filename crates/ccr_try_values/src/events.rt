//! Events by their numbers.

use ccr_base::{List, Msg, MsgId, TaskId};
use ccr_model::{EndHow, Event};
use ccr_try::{put, put_message, put_number, put_numbers, put_spot, put_task};

pub fn put_tasks(out: &mut List<u8>, tasks: &[TaskId]) {
    for task in tasks {
        put_task(out, *task);
    }
}

pub fn put_messages(out: &mut List<u8>, messages: &[MsgId]) {
    for message in messages {
        put_message(out, *message);
    }
}

pub fn put_values(out: &mut List<u8>, numbers: &[u64]) {
    for number in numbers {
        put_number(out, *number);
    }
}

fn put_post(out: &mut List<u8>, message: &Msg) {
    put(out, b"post");
    put_message(out, message.id);
    put_number(out, u64::from(message.port));
    put_values(out, message.value.numbers());
    put(out, b" causes");
    put_numbers(out, message.causes.as_slice());
}

pub fn put_end(out: &mut List<u8>, how: EndHow) {
    match how {
        EndHow::Done => put(out, b" done"),
        EndHow::Failed(value) => {
            put(out, b" failed");
            put_values(out, value.numbers());
        }
        EndHow::Yield => put(out, b" yield"),
        EndHow::Shed => put(out, b" shed"),
    }
}

/// Adds the word, and the task.
fn put_of_task(out: &mut List<u8>, word: &[u8], task: TaskId) {
    put(out, word);
    put_task(out, task);
}

/// Adds the event with numbers for the names of ports, branches and causes.
pub fn put_event(out: &mut List<u8>, event: &Event) {
    match event {
        Event::Post(message) => put_post(out, message),
        Event::Fire {
            task,
            spot,
            messages,
            cuts,
        } => {
            put_of_task(out, b"fire", *task);
            put_spot(out, *spot);
            put_messages(out, messages.as_slice());
            put(out, b" cuts");
            put_tasks(out, cuts.as_slice());
        }
        Event::Admit(task) => put_of_task(out, b"admit", *task),
        Event::Put { task, dropped } => {
            put_of_task(out, b"put", *task);
            if let Some(other) = dropped {
                put_of_task(out, b" drops", *other);
            }
        }
        Event::Start { task, actor } => {
            put_of_task(out, b"start", *task);
            put_number(out, u64::from(*actor));
        }
        Event::End { task, how } => {
            put_of_task(out, b"end", *task);
            put_end(out, *how);
        }
    }
}

//! What the model's queries answer after the first events of a history.

use crate::events::{put_end, put_messages, put_tasks, put_values};
use crate::judging::{push, put_rule};
use crate::reading::one_event;
use ccr_base::{List, MsgId, OutOfMemory, PortNo, Spot, TaskId};
use ccr_laws::fate;
use ccr_model::data::play_of;
use ccr_model::enough::can_fire;
use ccr_model::firings::{cut, dropped, fired, put as put_of};
use ccr_model::live::{has_room, is_live};
use ccr_model::posts::{held, taken};
use ccr_model::rules::{cuts_at, drop_at, may_admit, may_put};
use ccr_model::selections::is_selection;
use ccr_model::tasks::{queued, running, waiting};
use ccr_model::{Event, Fate, History, TaskState, refused_by};
use ccr_try::{first_number, put, put_message, put_number, put_task, put_truth};
use ccr_wiring::Wiring;
use std::alloc::Global;

/// The history of the first so many events.
fn first(alloc: Global, history: &History, count: u32) -> History {
    let mut begun = History::new(alloc);
    for event in history.events().iter().take(count as usize) {
        push(alloc, &mut begun, event);
    }
    begun
}

/// Adds the rule by which the event is refused behind this history.
fn put_refusal(alloc: Global, wiring: &Wiring, begun: &History, event: &Event, out: &mut List<u8>) {
    if let Ok(rule) = refused_by(alloc, wiring, begun, event) {
        put_rule(out, rule);
    }
}

/// For `COUNT EVENT` the rule by which the event is refused after so many events.
pub fn refused(alloc: Global, wiring: &Wiring, history: &History, input: &str, out: &mut List<u8>) {
    let (count, line) = first_number(input);
    let begun = first(alloc, history, count);
    if let Some(one) = one_event(alloc, wiring, line) {
        if let Some(event) = one.events().first() {
            put_refusal(alloc, wiring, &begun, event, out);
        }
    }
}

/// What is asked for: a task, a spot and a message.
#[derive(Clone, Copy)]
struct Subject {
    task: TaskId,
    spot: Spot,
    message: MsgId,
}

/// The subject that the first event names, a firing.
fn first_subject(events: &[Event]) -> Option<Subject> {
    match events.first()? {
        Event::Fire {
            task,
            spot,
            messages,
            ..
        } => Some(Subject {
            task: *task,
            spot: *spot,
            message: *messages.as_slice().first()?,
        }),
        _ => None,
    }
}

/// The subject that a line `fire TASK SPOT MESSAGE` names.
fn subject_of(alloc: Global, wiring: &Wiring, line: &str) -> Option<Subject> {
    match one_event(alloc, wiring, line) {
        Some(history) => first_subject(history.events()),
        None => None,
    }
}

/// Adds the tasks that were found.
fn put_found(out: &mut List<u8>, found: &Result<Vec<TaskId>, OutOfMemory>) {
    if let Ok(tasks) = found {
        put_tasks(out, tasks);
    }
}

/// Adds the tasks of the one Interleave and the one queue, and answers whether the word asks for tasks.
fn put_tasks_of(
    alloc: Global,
    wiring: &Wiring,
    events: &[Event],
    word: &str,
    spot: Spot,
    out: &mut List<u8>,
) -> bool {
    let found = match word {
        "fired" => fired(alloc, events),
        "cut" => cut(alloc, events),
        "put" => put_of(alloc, events),
        "dropped" => dropped(alloc, events),
        "waiting" => waiting(alloc, wiring, events, 0),
        "queued" => queued(alloc, wiring, events, 0),
        "running" => running(alloc, events),
        "cuts_at" => cuts_at(alloc, wiring, events, spot),
        _ => return false,
    };
    put_found(out, &found);
    true
}

/// What holds of a spot or a task.
fn holds(
    alloc: Global,
    wiring: &Wiring,
    events: &[Event],
    word: &str,
    of: Subject,
) -> Option<Result<bool, OutOfMemory>> {
    Some(match word {
        "is_live" => is_live(alloc, wiring, events, of.spot),
        "has_room" => has_room(alloc, wiring, events, of.spot),
        "can_fire" => can_fire(alloc, wiring, events, of.spot),
        "is_selection" => is_selection(alloc, wiring, events, of.spot, &[of.message]),
        "may_admit" => may_admit(alloc, wiring, events, of.task),
        "may_put" => may_put(alloc, wiring, events, of.task),
        _ => return None,
    })
}

fn put_held(alloc: Global, events: &[Event], port: PortNo, out: &mut List<u8>) {
    if let Ok(messages) = held(alloc, events, port) {
        for message in &messages {
            put_message(out, message.id);
        }
    }
}

fn put_taken(alloc: Global, events: &[Event], out: &mut List<u8>) {
    if let Ok(messages) = taken(alloc, events) {
        put_messages(out, &messages);
    }
}

fn put_drop(alloc: Global, wiring: &Wiring, events: &[Event], task: TaskId, out: &mut List<u8>) {
    match drop_at(alloc, wiring, events, task) {
        Ok(Some(other)) => put_task(out, other),
        Ok(None) => put(out, b"none"),
        Err(_) => put(out, b"memory"),
    }
}

/// The ports and values of the posts of the task's segment.
fn put_play(alloc: Global, wiring: &Wiring, events: &[Event], task: TaskId, out: &mut List<u8>) {
    if let Ok(play) = play_of(alloc, wiring, events, task) {
        for sent in play.posts.as_slice() {
            put_number(out, u64::from(sent.port));
            put_values(out, sent.value.numbers());
        }
    }
}

fn put_state(out: &mut List<u8>, state: TaskState) {
    match state {
        TaskState::Waiting => put(out, b" waiting"),
        TaskState::Cut => put(out, b" cut"),
        TaskState::Ready => put(out, b" ready"),
        TaskState::Queued => put(out, b" queued"),
        TaskState::Dropped => put(out, b" dropped"),
        TaskState::Running => put(out, b" running"),
        TaskState::Ended(how) => put_end(out, how),
    }
}

fn put_fate(alloc: Global, wiring: &Wiring, history: &History, name: MsgId, out: &mut List<u8>) {
    match fate(alloc, wiring, history, &name) {
        Ok(Some(Fate::Taken { task, state })) => {
            put_task(out, task);
            put_state(out, state);
        }
        Ok(Some(Fate::Held)) => put(out, b"held"),
        Ok(None) => put(out, b"none"),
        Err(_) => put(out, b"memory"),
    }
}

/// What the other queries answer.
fn put_other(
    alloc: Global,
    wiring: &Wiring,
    history: &History,
    word: &str,
    of: Subject,
    out: &mut List<u8>,
) {
    let events = history.events();
    match word {
        "held_at_0" => put_held(alloc, events, 0, out),
        "held_at_1" => put_held(alloc, events, 1, out),
        "taken" => put_taken(alloc, events, out),
        "drop_at" => put_drop(alloc, wiring, events, of.task, out),
        "play_of" => put_play(alloc, wiring, events, of.task, out),
        "fate" => put_fate(alloc, wiring, history, of.message, out),
        _ => put(out, b"no such question"),
    }
}

/// What the query of this word answers behind this history.
fn put_answer(
    alloc: Global,
    wiring: &Wiring,
    begun: &History,
    word: &str,
    of: Subject,
    out: &mut List<u8>,
) {
    let events = begun.events();
    if put_tasks_of(alloc, wiring, events, word, of.spot, out) {
        return;
    }
    match holds(alloc, wiring, events, word, of) {
        Some(Ok(truth)) => put_truth(out, truth),
        Some(Err(_)) => {}
        None => put_other(alloc, wiring, begun, word, of, out),
    }
}

/// For `COUNT WORD fire TASK SPOT MESSAGE` what the query of this word answers after so many events.
pub fn ask(alloc: Global, wiring: &Wiring, history: &History, input: &str, out: &mut List<u8>) {
    let (count, rest) = first_number(input);
    let (word, line) = rest.split_once(' ').unwrap_or((rest, ""));
    if let Some(of) = subject_of(alloc, wiring, line) {
        let begun = first(alloc, history, count);
        put_answer(alloc, wiring, &begun, word, of, out);
    }
}

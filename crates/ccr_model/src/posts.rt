//! What stands in a history of messages: posted, taken, held.

ghost use Rattle.std.specs.Prelude.{◌≡◌, ◌≤◌, IfOk, length};
ghost use Rattle.ccr_base.specs.Names.{has_message};
ghost use Rattle.std.specs.Option.{option_map};
ghost use Rattle.ccr_model.specs.Posts.{held, taken, is_script_of, is_message_of, is_task_message, posts_of_poster, posts_of_task, posts_of_tasks, message_named};
ghost use Rattle.ccr_model.specs.Views.{seen};

use crate::Event;
use ccr_base::{ActorNo, Msg, MsgId, OutOfMemory, PortNo, TaskId};
use std::alloc::Global;

/// Whether the name stands in the list.
pub fn has_message(names: &[MsgId], name: MsgId) -> bool
    ensures { result ≡ has_message names.now name }
{
    names.iter().any(|other| name == *other)
}

/// The names of the messages that firings took, in order.
pub fn taken(alloc: Global, events: &[Event]) -> Result<Vec<MsgId>, OutOfMemory>
    ensures { IfOk result (λ names. names.items ≡ taken events.now) }
{
    let mut names = Vec::new(alloc);
    for event in events {
        if let Event::Fire { messages, .. } = event {
            names.extend_from_slice(messages.as_slice())?;
        }
    }
    Ok(names)
}

/// What the port holds, oldest first.
pub fn held<'a>(
    alloc: Global,
    events: &'a [Event],
    port: PortNo,
) -> Result<Vec<&'a Msg>, OutOfMemory>
    ensures { IfOk result (λ messages. seen messages.items ≡ held events.now port) }
{
    let taken = taken(alloc, events)?;
    let mut messages = Vec::new(alloc);
    for event in events {
        if let Event::Post(message) = event {
            if message.port == port && !has_message(&taken, message.id) {
                messages.push(message)?;
            }
        }
    }
    Ok(messages)
}

fn is_script_of(poster: ActorNo, name: MsgId) -> bool
    ensures { result ≡ is_script_of poster name }
{
    match name {
        MsgId::Script { actor, .. } => actor == poster,
        MsgId::Task { .. } => false,
    }
}

fn is_message_of(task: TaskId, name: MsgId) -> bool
    ensures { result ≡ is_message_of task name }
{
    match name {
        MsgId::Script { .. } => false,
        MsgId::Task { task: other, .. } => task == other,
    }
}

fn is_task_message(name: MsgId) -> bool
    ensures { result ≡ is_task_message name }
{
    match name {
        MsgId::Script { .. } => false,
        MsgId::Task { .. } => true,
    }
}

/// How many posts of its script the poster has made.
pub fn posts_of_poster(events: &[Event], poster: ActorNo) -> usize
    ensures count { result ≡ posts_of_poster events.now poster }
    ensures few { result ≤ length events.now }
{
    let mut count = 0;
    for event in events {
        if let Event::Post(message) = event {
            if is_script_of(poster, message.id) {
                count += 1;
            }
        }
    }
    count
}

/// How many posts the task has made.
pub(crate) fn posts_of_task(events: &[Event], task: TaskId) -> usize
    ensures count { result ≡ posts_of_task events.now task }
    ensures few { result ≤ length events.now }
{
    let mut count = 0;
    for event in events {
        if let Event::Post(message) = event {
            if is_message_of(task, message.id) {
                count += 1;
            }
        }
    }
    count
}

/// How many posts all tasks have made.
pub fn posts_of_tasks(events: &[Event]) -> usize
    ensures { result ≡ posts_of_tasks events.now }
{
    let mut count = 0;
    for event in events {
        if let Event::Post(message) = event {
            if is_task_message(message.id) {
                count += 1;
            }
        }
    }
    count
}

/// The first post of this name.
pub fn message_named<'a>(events: &'a [Event], name: MsgId) -> Option<&'a Msg>
    ensures { option_map (λ message. message.now) result ≡ message_named events.now name }
{
    for event in events {
        if let Event::Post(message) = event {
            if message.id == name {
                return Some(message);
            }
        }
    }
    None
}

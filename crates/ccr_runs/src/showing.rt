//! What is visible of entries.

ghost use Rattle.std.specs.Prelude.{◌≡◌, ◌++◌, IfOk, OnOk, OnErr, option_to_list};
ghost use Rattle.ccr_runs.specs.Visible.{end_by, shown, visible};

use crate::{Entry, Full};
use ccr_base::{ActorNo, How, OutOfMemory, TaskId};
use ccr_model::{EndHow, Event, History};
use ccr_places::Note;
use std::alloc::Global;

fn end(task: TaskId, how: EndHow) -> Event
    ensures { result ≡ Event.End task how }
{
    Event::End { task, how }
}

/// The end of a task whose root is over. A dropped task never started, so its end shows nothing.
fn end_by(task: TaskId, how: How) -> Option<Event>
    ensures { option_to_list result ≡ end_by task how }
{
    match how {
        How::Done => Some(end(task, EndHow::Done)),
        How::Failed(value) => Some(end(task, EndHow::Failed(value))),
        How::Shed => Some(end(task, EndHow::Shed)),
        How::Dropped => None,
    }
}

/// What a note of this actor shows.
fn shown(alloc: Global, actor: ActorNo, note: &Note) -> Result<Option<Event>, OutOfMemory>
    ensures { IfOk result (λ event. option_to_list event ≡ shown actor note.now) }
{
    Ok(match note {
        Note::Post(message) => Some(Event::Post(message.copy(alloc)?)),
        Note::Fired {
            task,
            spot,
            messages,
            cuts,
        } => Some(Event::Fire {
            task: *task,
            spot: *spot,
            messages: messages.copy(alloc)?,
            cuts: cuts.copy(alloc)?,
        }),
        Note::Admit(Some(task)) => Some(Event::Admit(*task)),
        Note::Put { task, dropped } => Some(Event::Put {
            task: *task,
            dropped: *dropped,
        }),
        Note::Take(Some(task)) => Some(Event::Start { task: *task, actor }),
        Note::Over { task, how, .. } => end_by(*task, *how),
        Note::Suspend(task) => Some(end(*task, EndHow::Yield)),
        _ => None,
    })
}

/// The same of a note that is no longer needed, from which the event is moved out.
pub fn event_of(actor: ActorNo, note: Note) -> Option<Event>
    ensures { option_to_list result ≡ shown actor note }
{
    match note {
        Note::Post(message) => Some(Event::Post(message)),
        Note::Fired {
            task,
            spot,
            messages,
            cuts,
        } => Some(Event::Fire {
            task,
            spot,
            messages,
            cuts,
        }),
        Note::Admit(Some(task)) => Some(Event::Admit(task)),
        Note::Put { task, dropped } => Some(Event::Put { task, dropped }),
        Note::Take(Some(task)) => Some(Event::Start { task, actor }),
        Note::Over { task, how, .. } => end_by(task, how),
        Note::Suspend(task) => Some(end(task, EndHow::Yield)),
        _ => None,
    }
}

/// Adds what the entry shows.
fn show(alloc: Global, history: &mut History, entry: &Entry) -> Result<(), OutOfMemory>
    ensures ok { OnOk result (history.new ≡ history.old ++ shown entry.now.actor entry.now.note) }
    ensures err { OnErr result (history.new ≡ history.old) }
{
    match shown(alloc, entry.actor, &entry.note)? {
        Some(event) => match history.push(event) {
            Ok(()) => Ok(()),
            Err((error, _)) => Err(error),
        },
        None => Ok(()),
    }
}

/// The history that the entries show: bookings, claims, the meter's entries and what was answered with nothing vanish.
pub fn history_of(alloc: Global, full: &Full) -> Result<History, OutOfMemory>
    ensures exact { IfOk result (λ history. history ≡ visible full.now.entries) }
{
    let mut history = History::new(alloc);
    let entries = full.entries.as_slice();
    for entry in entries {
        show(alloc, &mut history, entry)?;
    }
    Ok(history)
}

//! What entries show, and the places of a wiring by number.

use ccr_base::{ActorNo, How, List, Place, TaskId};
use ccr_claim::Ask;
use ccr_model::Event;
use ccr_net::visible;
use ccr_object::Deed;
use ccr_places::Note;
use ccr_runs::{Act, Directory, Entry, Full, full_of};
use ccr_try::{first_number, put_number, put_task, put_word};
use ccr_wiring::Wiring;
use std::alloc::Global;
use std::snapshot::Snapshot;

const TASK: TaskId = TaskId {
    actor: 0,
    attempt: 0,
};

/// The note of this word, if it is one.
fn note_of(word: &str) -> Option<Note> {
    Some(match word {
        "take" => Note::Take(Some(TASK)),
        "suspend" => Note::Suspend(TASK),
        "over" => Note::Over {
            task: TASK,
            root: TASK,
            how: How::Dropped,
        },
        "none" => Note::Take(None),
        "unbook" => Note::Unbook(TASK),
        _ => return None,
    })
}

fn put_event(out: &mut List<u8>, event: &Event) {
    match event {
        Event::Start { task, actor } => {
            put_word(out, b"start");
            put_task(out, *task);
            put_number(out, u64::from(*actor));
        }
        Event::End { task, .. } => {
            put_word(out, b"end");
            put_task(out, *task);
        }
        _ => put_word(out, b"other"),
    }
}

/// The run of one entry of the first queue.
fn one_entry(alloc: Global, actor: ActorNo, note: Note) -> Full {
    let mut entries = List::new(alloc);
    let entry = Entry {
        actor,
        place: Place::Queue(0),
        stamp: 1,
        note,
    };
    let _ = entries.add(entry);
    Full { entries }
}

/// The run of one entry of the first queue with the note of this word, if it is one.
fn entry_of(alloc: Global, actor: ActorNo, word: &str) -> Option<Full> {
    match note_of(word) {
        Some(note) => Some(one_entry(alloc, actor, note)),
        None => None,
    }
}

/// Adds how many events the run shows, and each.
fn put_shown(alloc: Global, wiring: &Wiring, full: &Full, out: &mut List<u8>) {
    if let Ok(history) = visible(alloc, wiring, full) {
        put_number(out, history.events().len() as u64);
        for event in history.events() {
            put_event(out, event);
        }
    }
}

/// For `ACTOR NOTE` the events that the actor's note shows.
pub fn shows(alloc: Global, wiring: &Wiring, input: &str, out: &mut List<u8>) {
    let (actor, word) = first_number(input);
    if let Some(full) = entry_of(alloc, actor, word) {
        put_shown(alloc, wiring, &full, out);
    }
}

fn put_place(out: &mut List<u8>, place: Place) {
    match place {
        Place::Port(port) => {
            put_word(out, b"port");
            put_number(out, u64::from(port));
        }
        Place::Queue(queue) => {
            put_word(out, b"queue");
            put_number(out, u64::from(queue));
        }
        Place::Meter => put_word(out, b"meter"),
        Place::Arbiter(_) | Place::Site(..) => put_word(out, b"other"),
    }
}

/// Adds the number of the place, and the place of that number.
fn put_numbered(out: &mut List<u8>, directory: &Directory, place: Place) {
    let number = directory.number(place);
    put_number(out, u64::from(number));
    put_place(out, directory.place(number));
}

/// For `port`, `queue` or `meter` the number of the first such place, and the place of that number.
pub fn number(alloc: Global, wiring: &Wiring, word: &str, out: &mut List<u8>) {
    let place = match word {
        "port" => Place::Port(0),
        "queue" => Place::Queue(0),
        _ => Place::Meter,
    };
    if let Ok(directory) = Directory::of(alloc, wiring) {
        put_numbered(out, &directory, place);
    }
}

/// The acts of the third place, one that noted this.
fn one_act(alloc: Global, note: Option<Note>) -> List<Act<Deed>> {
    let mut acts = List::new(alloc);
    let act = Act {
        place: 2,
        seat: 1,
        stamp: 5,
        note: Deed {
            note,
            ask: Snapshot::of(&Ask::Take),
        },
    };
    let _ = acts.add(act);
    acts
}

/// The places of the entries of an act at the third place with this note, or with none.
pub fn met(alloc: Global, wiring: &Wiring, word: &str, out: &mut List<u8>) {
    let acts = one_act(alloc, note_of(word));
    if let Ok(full) = full_of(alloc, wiring, acts) {
        put_number(out, full.entries.len() as u64);
        for entry in full.entries.as_slice() {
            put_place(out, entry.place);
        }
    }
}

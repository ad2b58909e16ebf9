//! Asks and replies as words.

use ccr_base::{By, Cut, How, List, Msg, MsgId, OutOfMemory, Place, Spot, Task, TaskId, Value};
use ccr_claim::{Ask, Reply};
use ccr_try::{put, put_word};
use std::alloc::Global;

/// Another task than the one that is asked for.
pub const RIVAL: TaskId = TaskId {
    actor: 4,
    attempt: 1,
};

/// Adds the number behind a point.
pub fn put_point(out: &mut List<u8>, number: u32) {
    put(out, b".");
    let _ = ccr_text::put_number(out, u64::from(number));
}

/// Adds the word, and these numbers behind points.
fn put_ask(out: &mut List<u8>, word: &[u8], numbers: &[u32]) {
    put_word(out, word);
    for number in numbers {
        put_point(out, *number);
    }
}

fn put_over(out: &mut List<u8>, arbiter: u32, how: How) {
    match how {
        How::Done => put_ask(out, b"done", &[arbiter]),
        How::Shed => put_ask(out, b"shed", &[arbiter]),
        How::Dropped => put_ask(out, b"dropped", &[arbiter]),
        How::Failed(_) => put_ask(out, b"failed", &[arbiter]),
    }
}

fn put_of_port(out: &mut List<u8>, port: u32, ask: &Ask) {
    match ask {
        Ask::Post(_) => put_ask(out, b"post", &[port]),
        Ask::Claim(_, slot) => put_ask(out, b"claim", &[port, slot.least, slot.most]),
        Ask::Consume(_) => put_ask(out, b"consume", &[port]),
        Ask::Free(_) => put_ask(out, b"free", &[port]),
        _ => put_word(out, b"other"),
    }
}

fn put_of_queue(out: &mut List<u8>, queue: u32, ask: &Ask) {
    match ask {
        Ask::Book(_, false) => put_ask(out, b"book", &[queue]),
        Ask::Book(_, true) => put_ask(out, b"rebook", &[queue]),
        Ask::Unbook(_) => put_ask(out, b"unbook", &[queue]),
        Ask::Put(_) => put_ask(out, b"put", &[queue]),
        Ask::Take => put_ask(out, b"take", &[queue]),
        _ => put_word(out, b"other"),
    }
}

fn put_of_arbiter(out: &mut List<u8>, arbiter: u32, ask: &Ask) {
    match ask {
        Ask::Commit(..) => put_ask(out, b"commit", &[arbiter]),
        Ask::Over { how, .. } => put_over(out, arbiter, *how),
        Ask::Admit => put_ask(out, b"admit", &[arbiter]),
        _ => put_word(out, b"other"),
    }
}

fn put_of_meter(out: &mut List<u8>, ask: &Ask) {
    match ask {
        Ask::Leave => put_word(out, b"leave"),
        Ask::Left => put_word(out, b"left"),
        Ask::Draw => put_word(out, b"draw"),
        _ => put_word(out, b"other"),
    }
}

/// Adds the ask: its kind, the number of its place, and how many messages a claim wants.
pub fn put_asked(out: &mut List<u8>, place: Place, ask: &Ask) {
    match place {
        Place::Port(port) => put_of_port(out, port, ask),
        Place::Queue(queue) => put_of_queue(out, queue, ask),
        Place::Arbiter(arbiter) => put_of_arbiter(out, arbiter, ask),
        Place::Site(branch, site) => match ask {
            Ask::Suspend(_) => put_ask(out, b"suspend", &[branch, site]),
            Ask::Commit(..) => put_ask(out, b"resume", &[branch, site]),
            _ => put_word(out, b"other"),
        },
        Place::Meter => put_of_meter(out, ask),
    }
}

/// The rival's task, for this queue.
fn task(alloc: Global, queue: u32) -> Task {
    Task {
        id: RIVAL,
        root: RIVAL,
        spot: Spot::Branch(0),
        arbiter: 0,
        queue,
        values: List::new(alloc),
        causes: List::new(alloc),
    }
}

/// So many messages of the port.
fn messages(alloc: Global, port: u32, count: u32) -> List<Msg> {
    let mut messages = List::new(alloc);
    for place in 0..count {
        let message = Msg {
            id: MsgId::Script { actor: 0, place },
            port,
            value: Value::one(7),
            causes: List::new(alloc),
        };
        let _ = messages.add(message);
    }
    messages
}

/// A firing whose task waits, and which cuts the rival's task of this queue.
fn cutting(alloc: Global, queue: u32) -> Reply {
    let mut cuts = List::new(alloc);
    let cut = Cut { task: RIVAL, queue };
    let _ = cuts.add(cut);
    Reply::Fired { task: None, cuts }
}

/// A firing of the rival's task, if there is one.
fn firing(alloc: Global, task: Option<Task>) -> Reply {
    Reply::Fired {
        task,
        cuts: List::new(alloc),
    }
}

/// The reply of this word, with these numbers behind it. Running out of memory for `memory`, and for a word that is none.
fn reply(alloc: Global, word: &str, first: u32, second: u32) -> Result<Reply, OutOfMemory> {
    Ok(match word {
        "done" => Reply::Done,
        "left" => Reply::Left(first),
        "task" => Reply::Taken(Some(task(alloc, 0))),
        "none" => Reply::Taken(None),
        "drawn" => Reply::Drawn(4),
        "spent" => Reply::Spent,
        "booked" => Reply::Booked,
        "full" => Reply::Full(1),
        "got" => Reply::Got(messages(alloc, first, second)),
        "busy" => Reply::Busy(RIVAL),
        "short" => Reply::Short(0),
        "dead" => Reply::Dead(By::Fired(RIVAL)),
        "fired" => firing(alloc, Some(task(alloc, first))),
        "kept" => firing(alloc, None),
        "cutting" => cutting(alloc, first),
        "dropped" => Reply::Dropped(None),
        "displaced" => Reply::Dropped(Some(task(alloc, 0))),
        "admitted" => Reply::Admitted(Some(task(alloc, 0))),
        "nobody" => Reply::Admitted(None),
        _ => return Err(OutOfMemory),
    })
}

/// The number that the text begins with, up to a point, and what stands behind it.
fn number_of<'a>(text: &'a str) -> (u32, &'a str) {
    let (word, rest) = text.split_once('.').unwrap_or((text, ""));
    (word.parse::<u32>().unwrap_or(0), rest)
}

/// The reply that `WORD`, `WORD.NUMBER` or `WORD.NUMBER.NUMBER` says.
pub fn reply_of(alloc: Global, text: &str) -> Result<Reply, OutOfMemory> {
    let (word, rest) = text.split_once('.').unwrap_or((text, ""));
    let (first, rest) = number_of(rest);
    let (second, _) = number_of(rest);
    reply(alloc, word, first, second)
}

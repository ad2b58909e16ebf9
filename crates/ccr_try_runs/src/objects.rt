//! Objects of places, asked one ask after the other.

use crate::answers::put_answer;
use crate::asks::ask_of;
use crate::making::{at, first_part, word_and_numbers};
use ccr_arbiter::ArbiterObject;
use ccr_await::SiteObject;
use ccr_base::{Group, List, Policy};
use ccr_interleave::InterleaveObject;
use ccr_object::{Deed, Numbers, Object, PlaceAnswer, PlaceObject, place_objects};
use ccr_port::PortObject;
use ccr_queue::{Meter, QueueObject};
use ccr_try::{Row, put, put_number, put_task, put_word};
use ccr_wiring::Wiring;
use std::alloc::Global;
use std::sync::Arc;

/// The branches of a domain, where 6 and 7 aren't.
const DOMAIN_BRANCHES: [u32; 3] = [4, 5, 8];

const DOMAIN_GROUPS: [Group; 3] = [Group::Exclusive, Group::Concurrent, Group::Teardown];

/// The list of these items; an empty one where memory is refused.
fn listed<T: Copy + Drop>(alloc: Global, items: &[T]) -> List<T> {
    match Vec::from_slice(alloc, items) {
        Ok(items) => List::from_vec(items),
        Err(_) => List::new(alloc),
    }
}

/// An Interleave of these branches, each in the group of its index.
fn interleave(alloc: Global, branches: &[u32], groups: &[Group]) -> Option<Object> {
    let branches = listed(alloc, branches);
    let groups = listed(alloc, groups);
    if branches.len() == groups.len() {
        Some(Object::Interleave(InterleaveObject::new(alloc, branches, groups)))
    } else {
        None
    }
}

/// A new object of this kind.
fn object(alloc: Global, kind: &str, first: u32, second: u32) -> Option<Object> {
    Some(match kind {
        "port" => Object::Port(PortObject::new(alloc, first)),
        "receiver" => Object::Arbiter(ArbiterObject::receiver(alloc, first, false)),
        "once" => Object::Arbiter(ArbiterObject::receiver(alloc, first, true)),
        "choice" => Object::Arbiter(ArbiterObject::choice(alloc, first, second)),
        "interleave" => return interleave(alloc, &[0], &[Group::Concurrent]),
        "domain" => return interleave(alloc, &DOMAIN_BRANCHES, &DOMAIN_GROUPS),
        "site" => Object::Site(SiteObject::new(alloc, first, second)),
        "unbounded" => Object::Queue(QueueObject::new(alloc, 0, Policy::Unbounded)),
        "throttle" => Object::Queue(QueueObject::new(alloc, 0, Policy::Throttle(first))),
        "discard" => Object::Queue(QueueObject::new(alloc, 0, Policy::Discard(first))),
        "meter" => Object::Meter(Meter::new(first)),
        _ => return None,
    })
}

fn boxed(alloc: Global, kind: &str, numbers: &[u32]) -> Option<Box<Object>> {
    let object = object(alloc, kind, at(numbers, 0), at(numbers, 1))?;
    Box::new(alloc, object).ok()
}

fn numbers_of(alloc: Global, wiring: &Wiring) -> Option<Arc<Numbers>> {
    let numbers = Numbers::of(alloc, wiring).ok()?;
    Arc::new(alloc, numbers).ok()
}

/// The place of a new object, which knows the numbers of the wiring.
fn place(alloc: Global, wiring: &Wiring, kind: &str) -> Option<PlaceObject> {
    let numbers = numbers_of(alloc, wiring)?;
    let (kind, first) = word_and_numbers(alloc, kind);
    match boxed(alloc, kind, first.as_slice()) {
        Some(object) => Some(PlaceObject {
            alloc,
            numbers,
            object,
        }),
        None => None,
    }
}

/// Adds the answer, and tells whether it is a reply. Its entry and its answer tell alike whether the ask was met.
fn put_given(out: &mut List<u8>, given: &(PlaceAnswer, Deed)) -> bool {
    let is_reply = matches!(given.0, PlaceAnswer::Replied(_));
    if given.1.note.is_some() == is_reply {
        put_answer(out, &given.0);
        is_reply
    } else {
        put_word(out, b"no such ask");
        false
    }
}

/// Adds what the place answers, and tells whether it is a reply.
fn ask(
    alloc: Global,
    place: &mut PlaceObject,
    word: &str,
    numbers: &[u32],
    out: &mut List<u8>,
) -> bool {
    if let Some(ask) = ask_of(alloc, word, numbers)
        && let Ok(given) = place.answer(ask)
    {
        return put_given(out, &given);
    }
    put_word(out, b"no such ask");
    false
}

/// Adds the values of the messages that stand in the port.
fn put_held(out: &mut List<u8>, port: &PortObject) {
    put_word(out, b"holds");
    for index in 0..port.len() {
        if let Some(message) = port.item(index) {
            put_number(out, message.value.first());
        }
    }
    put(out, b",");
}

/// Adds the task whose claim stands at the port, how many messages are in it, and the value of the last.
fn put_claim(out: &mut List<u8>, port: &PortObject) {
    match port.claimed_by() {
        Some(task) => put_task(out, task),
        None => put_word(out, b"free"),
    }
    put_number(out, u64::from(port.len()));
    if let Some(message) = port.item(port.len().saturating_sub(1)) {
        put_number(out, message.value.first());
    }
    put(out, b",");
}

/// Posts the numbers below the count.
fn post_all(alloc: Global, place: &mut PlaceObject, port: u32, count: u32, out: &mut List<u8>) {
    let mut answers = List::new(alloc);
    let mut posted = 0u64;
    for number in 0..count {
        if ask(alloc, place, "post", &[port, number, number], &mut answers) {
            posted = posted.saturating_add(1);
        }
    }
    put_number(out, posted);
    put(out, b",");
}

/// One ask, or a question that only a port has.
fn ask_one(alloc: Global, place: &mut PlaceObject, text: &str, out: &mut List<u8>) {
    let (word, numbers) = word_and_numbers(alloc, text);
    ask_with(alloc, place, word, numbers.as_slice(), out);
}

/// The same of this word with these numbers.
fn ask_with(
    alloc: Global,
    place: &mut PlaceObject,
    word: &str,
    numbers: &[u32],
    out: &mut List<u8>,
) {
    match (word, &*place.object) {
        ("holds", Object::Port(port)) => put_held(out, port),
        ("claimed", Object::Port(port)) => put_claim(out, port),
        ("posts", _) => post_all(alloc, place, at(numbers, 0), at(numbers, 1), out),
        _ => {
            ask(alloc, place, word, numbers, out);
        }
    }
}

/// The answers to the asks, one after the other.
fn ask_all(alloc: Global, place: &mut PlaceObject, asks: &str, out: &mut List<u8>) {
    for text in asks.split(", ") {
        ask_one(alloc, place, text, out);
    }
}

/// How many of the asks are met, one after the other.
fn ask_met(alloc: Global, place: &mut PlaceObject, asks: &str, out: &mut List<u8>) {
    let mut answers = List::new(alloc);
    let mut count = 0u64;
    for text in asks.split(", ") {
        let (word, numbers) = word_and_numbers(alloc, text);
        if ask(alloc, place, word, numbers.as_slice(), &mut answers) {
            count = count.saturating_add(1);
        }
    }
    put_number(out, count);
}

/// The kinds of the objects of the wiring's places.
fn put_places(alloc: Global, wiring: &Wiring, out: &mut List<u8>) {
    if let Ok(places) = place_objects(alloc, wiring) {
        for place in places.as_slice() {
            match &*place.object {
                Object::Port(_) => put_word(out, b"port"),
                Object::Arbiter(_) => put_word(out, b"arbiter"),
                Object::Interleave(_) => put_word(out, b"interleave"),
                Object::Site(_) => put_word(out, b"site"),
                Object::Queue(_) => put_word(out, b"queue"),
                Object::Meter(_) => put_word(out, b"meter"),
            }
        }
    }
}

/// For `KIND NUMBER .. : ASK, ..` what a new object answers.
pub fn tell(alloc: Global, wiring: &Wiring, row: &Row<'_>, out: &mut List<u8>) {
    if row.call == "places" {
        put_places(alloc, wiring, out);
        return;
    }
    let (kind, asks) = first_part(row.input);
    if let Some(mut place) = place(alloc, wiring, kind) {
        if row.call == "met" {
            ask_met(alloc, &mut place, asks, out);
        } else {
            ask_all(alloc, &mut place, asks, out);
        }
    }
}

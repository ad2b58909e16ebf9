//! What rows call objects with.

use ccr_base::{List, Msg, MsgId, Pred, Spot, Task, TaskId, Value};
use ccr_try::{first_number, numbers_of};
use std::alloc::Global;

/// The number at this index, and 0 where there is none.
pub fn at(numbers: &[u32], index: usize) -> u32 {
    numbers.get(index).copied().unwrap_or(0)
}

/// The predicate of this word.
pub fn pred_of(word: &str, number: u32) -> Pred {
    let number = u64::from(number);
    match word {
        "eq" => Pred::Eq(number),
        "lt" => Pred::Lt(number),
        "ge" => Pred::Ge(number),
        _ => Pred::Any,
    }
}

/// The post at this index of poster 0.
pub fn message(alloc: Global, port: u32, place: u32, value: u32) -> Msg {
    Msg {
        id: MsgId::Script { actor: 0, place },
        port,
        value: Value::one(u64::from(value)),
        causes: List::new(alloc),
    }
}

/// The task of these numbers: actor, attempt, branch and queue. It is its own root, of arbiter 0, and has no value and no cause.
pub fn task(alloc: Global, numbers: &[u32]) -> Task {
    let id = TaskId {
        actor: at(numbers, 0),
        attempt: at(numbers, 1),
    };
    Task {
        id,
        root: id,
        spot: Spot::Branch(at(numbers, 2)),
        arbiter: 0,
        queue: at(numbers, 3),
        values: List::new(alloc),
        causes: List::new(alloc),
    }
}

/// The task of a site: an attempt of actor 3 whose root is the attempt before it, at branch 5 or at its second site, with a value and a
/// cause.
pub fn task_of_site(alloc: Global, spot: Spot, numbers: &[u32]) -> Task {
    let attempt = at(numbers, 0);
    let mut values = List::new(alloc);
    let _ = values.add(Value::one(u64::from(at(numbers, 1))));
    let mut causes = List::new(alloc);
    let _ = causes.add(at(numbers, 2));
    Task {
        id: TaskId { actor: 3, attempt },
        root: TaskId {
            actor: 3,
            attempt: attempt / 2,
        },
        spot,
        arbiter: attempt,
        queue: 6,
        values,
        causes,
    }
}

/// The word and the numbers behind it.
pub fn word_and_numbers<'a>(alloc: Global, text: &'a str) -> (&'a str, List<u32>) {
    let (word, rest) = text.split_once(' ').unwrap_or((text, ""));
    (word, numbers_of(alloc, rest))
}

/// What stands before the first ` : `, and what stands behind it.
pub fn first_part<'a>(text: &'a str) -> (&'a str, &'a str) {
    text.split_once(" : ").unwrap_or((text, ""))
}

/// A predicate and its number, as `ge 10`, and what stands behind them.
pub fn pred_in<'a>(text: &'a str) -> (Pred, &'a str) {
    let (word, rest) = text.split_once(' ').unwrap_or((text, ""));
    let (number, rest) = first_number(rest);
    (pred_of(word, number), rest)
}

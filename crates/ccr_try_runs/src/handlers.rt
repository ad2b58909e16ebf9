//! Segments that are played.

use crate::making::first_part;
use ccr_base::{Action, Expr, Handler, List, PortNo, Value};
use ccr_handler::{Play, PlayEnd, plays};
use ccr_try::{first_number, numbers_of, put, put_number, put_numbers, put_word};
use std::alloc::Global;

/// The exception ports of the causes 0, 1 and 2.
const EXCEPTION_PORTS: [PortNo; 3] = [10, 11, 12];

/// The value whose numbers commas part.
fn value_of(alloc: Global, text: &str) -> Option<Value> {
    let mut numbers = List::new(alloc);
    for word in text.split(',') {
        match word.parse::<u64>() {
            Ok(number) => {
                let _ = numbers.add(number);
            }
            Err(_) => return None,
        }
    }
    Value::of(numbers.as_slice())
}

fn values_of(alloc: Global, text: &str) -> List<Value> {
    let mut values = List::new(alloc);
    for word in text.split(' ') {
        if let Some(value) = value_of(alloc, word) {
            let _ = values.add(value);
        }
    }
    values
}

/// The expression that the words say. A value that is none stands for the count.
fn expr_of(alloc: Global, text: &str) -> Expr {
    let (word, rest) = text.split_once(' ').unwrap_or((text, ""));
    let (first, second) = first_number(rest);
    match word {
        "arg" => Expr::Arg(first),
        "part" => Expr::Part(first, first_number(second).0),
        "sum" => Expr::Sum,
        "count" => Expr::Count,
        _ => match value_of(alloc, word) {
            Some(value) => Expr::Number(value),
            None => Expr::Count,
        },
    }
}

/// Adds the action that the line says.
fn add_action(alloc: Global, actions: &mut List<Action>, line: &str) {
    let (word, rest) = line.split_once(' ').unwrap_or((line, ""));
    let (number, behind) = first_number(rest);
    let expr: Expr = expr_of(alloc, if word == "post" { behind } else { rest });
    let _ = actions.add(match word {
        "post" => Action::Post(number, expr),
        "fail" => Action::Fail(expr),
        "add" => Action::Add(number),
        "remove" => Action::Remove(number),
        _ => Action::Await(number),
    });
}

fn actions_of(alloc: Global, text: &str) -> List<Action> {
    let mut actions = List::new(alloc);
    for line in text.split(", ") {
        add_action(alloc, &mut actions, line);
    }
    actions
}

fn put_value(out: &mut List<u8>, value: Value) {
    for number in value.numbers() {
        put_number(out, *number);
    }
}

fn put_end(out: &mut List<u8>, end: PlayEnd) {
    match end {
        PlayEnd::Done => put_word(out, b"done"),
        PlayEnd::Failed(value) => {
            put_word(out, b"failed");
            put_value(out, value);
        }
        PlayEnd::Yield(site) => {
            put_word(out, b"yield");
            put_number(out, u64::from(site));
        }
    }
}

fn put_causes(out: &mut List<u8>, causes: &[u32]) {
    put_word(out, b"causes");
    put_numbers(out, causes);
}

/// Adds the port, value and causes of each post, how the segment ends, and its causes then.
fn put_play(out: &mut List<u8>, play: &Play) {
    for post in play.posts.as_slice() {
        put_number(out, u64::from(post.port));
        put_word(out, b"value");
        put_value(out, post.value);
        put_causes(out, post.causes.as_slice());
        put(out, b",");
    }
    put_end(out, play.end);
    put_causes(out, play.causes.as_slice());
}

/// For `SEGMENT VALUE .. : CAUSE .. : ACTION, ..` the play of the segment.
pub fn play(alloc: Global, input: &str, out: &mut List<u8>) {
    let (task, rest) = first_part(input);
    let (causes, actions) = first_part(rest);
    let (segment, values) = first_number(task);
    let values = values_of(alloc, values);
    let causes = numbers_of(alloc, causes);
    let handler = Handler {
        actions: actions_of(alloc, actions),
    };
    let played = plays(
        alloc,
        &handler,
        &EXCEPTION_PORTS,
        segment,
        values.as_slice(),
        &causes,
    );
    if let Ok(play) = played {
        put_play(out, &play);
    }
}

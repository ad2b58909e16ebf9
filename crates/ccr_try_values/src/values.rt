//! What only version 2 has.

use crate::making::{add, add_post, name, put_code};
use crate::sizes::{SMALL, parts};
use ccr_base::{Action, Expr, Handler, List, Sent, Value};
use ccr_try::first_number;
use ccr_wiring::{HandlerPart, PosterPart};
use std::alloc::Global;

/// The code of small parts of this version with one poster that posts the value 1,2.
pub fn with_post(alloc: Global, input: &str, out: &mut List<u8>) {
    let (version, _) = first_number(input);
    let Some(value) = Value::of(&[1, 2]) else {
        return;
    };
    let mut parts = parts(alloc, &SMALL);
    parts.version = version;
    let mut posts = List::new(alloc);
    let post = Sent {
        port: 0,
        value,
        causes: List::new(alloc),
    };
    add_post(alloc, &mut posts, post);
    let poster = PosterPart {
        name: name(alloc, b"w", 0),
        posts,
    };
    add(&mut parts.posters, poster);
    put_code(alloc, parts, out);
}

/// The value 1,2 for `pair`, or the part of these numbers.
fn expr_of(text: &str) -> Option<Expr> {
    if text == "pair" {
        return Some(Expr::Number(Value::of(&[1, 2])?));
    }
    let (value, rest) = first_number(text);
    let (index, _) = first_number(rest);
    Some(Expr::Part(value, index))
}

/// For `VERSION pair` or `VERSION VALUE INDEX` the code of small parts with one more handler, which fails with that expression.
pub fn with_failure(alloc: Global, input: &str, out: &mut List<u8>) {
    let (version, rest) = first_number(input);
    let Some(expr) = expr_of(rest) else {
        return;
    };
    let mut parts = parts(alloc, &SMALL);
    parts.version = version;
    let mut actions = List::new(alloc);
    add(&mut actions, Action::Fail(expr));
    let part = HandlerPart {
        name: name(alloc, b"x", 0),
        handler: Handler { actions },
    };
    add(&mut parts.handlers, part);
    put_code(alloc, parts, out);
}

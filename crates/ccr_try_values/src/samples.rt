//! The parts that tests of other crates start from.

use crate::making::add;
use ccr_base::{Action, Expr, List, OutOfMemory, Policy};
use ccr_try::{
    one_cause, one_handler, one_post, one_queue, one_receiver, put_number, put_spot, put_word,
};
use ccr_wiring::{Parts, Unfit, Wiring};
use std::alloc::Global;

/// A post of the count at port 0, and an await there.
fn awaiting(alloc: Global) -> List<Action> {
    let mut actions = List::new(alloc);
    add(&mut actions, Action::Post(0, Expr::Count));
    add(&mut actions, Action::Await(0));
    actions
}

/// One receiver, with what the word puts in the place of one of its parts.
fn parts_of(alloc: Global, word: &str) -> Result<Parts, OutOfMemory> {
    let mut parts = one_receiver(alloc)?;
    match word {
        "post" => parts.posters = one_post(alloc)?,
        "wrong" => parts.causes = one_cause(alloc, 1)?,
        "changed" => {
            parts.causes = one_cause(alloc, 0)?;
            parts.handlers = one_handler(alloc, awaiting(alloc))?;
            parts.queues = one_queue(alloc, Policy::Discard(1))?;
        }
        _ => {}
    }
    Ok(parts)
}

/// The spots of the sample of this name and how many posters it has, or the code that stands in it.
pub fn sample(alloc: Global, word: &str, out: &mut List<u8>) {
    let Ok(parts) = parts_of(alloc, word) else {
        return;
    };
    match Wiring::check(alloc, parts) {
        Ok(wiring) => {
            for spot in wiring.spots() {
                put_spot(out, *spot);
            }
            put_word(out, b"posters");
            put_number(out, wiring.parts().posters.len() as u64);
        }
        Err(Unfit::Code(code)) => {
            put_word(out, b"code");
            put_number(out, u64::from(code));
        }
        Err(Unfit::Memory) => put_word(out, b"memory"),
    }
}

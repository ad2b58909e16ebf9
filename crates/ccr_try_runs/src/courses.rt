//! Actors over scripted replies.

ghost use Rattle.std.specs.Prelude.{◌≡◌, IfOk, IsTrue};
ghost use Rattle.ccr_actor.specs.Acting.{quiet, started};

use crate::replies::{put_asked, reply_of};
use ccr_actor::Actor;
use ccr_base::{ActorNo, List, OutOfMemory, Place};
use ccr_claim::{Ask, may_come};
use ccr_try::{first_number, put_truth, put_word};
use ccr_wiring::Wiring;
use std::alloc::Global;

/// Adds the ask, and answers whether something is asked.
fn put_next(out: &mut List<u8>, next: &Option<(Place, Ask)>) -> bool {
    let Some((place, ask)) = next else {
        return false;
    };
    put_asked(out, *place, ask);
    true
}

/// Adds what the actor asks next, and answers whether it asks.
fn asks(actor: &mut Actor<'_>, out: &mut List<u8>) -> bool
    requires { actor.old.asking ≡ quiet }
{
    put_next(out, &actor.next())
}

/// Gives the actor the reply of this word if it is one that may come, and answers whether it is.
fn gets(alloc: Global, actor: &mut Actor<'_>, word: &str) -> bool
    ensures { IsTrue result → actor.new.asking ≡ quiet }
{
    let reply = reply_of(alloc, word);
    let comes = may_come(actor.due(), &reply);
    if comes {
        actor.got(reply);
    }
    comes
}

/// What the actor asks, reply by reply, and whether it is at rest behind the last, and short of memory.
fn follow(alloc: Global, actor: &mut Actor<'_>, replies: &str, out: &mut List<u8>)
    requires { actor.old.asking ≡ quiet }
{
    for word in replies.split(' ') {
        if !asks(actor, out) {
            return;
        }
        if !gets(alloc, actor, word) {
            put_word(out, b"no such reply");
            return;
        }
    }
    put_word(out, b": rests");
    put_truth(out, actor.at_rest());
    put_word(out, b"short");
    put_truth(out, actor.short());
}

/// The actor of this number before its first step, in a box: who drops it drops one value and not each of its lists.
pub fn boxed_actor<'w>(
    alloc: Global,
    wiring: &'w Wiring,
    number: ActorNo,
) -> Result<Box<Actor<'w>>, OutOfMemory>
    ensures { IfOk result (λ actor. actor.value ≡ started wiring.now number) }
{
    let actor = Actor::start(alloc, wiring, number)?;
    Ok(Box::new(alloc, actor)?)
}

/// For `ACTOR REPLY ..` the course of this actor.
pub fn course(alloc: Global, wiring: &Wiring, input: &str, out: &mut List<u8>) {
    let (number, replies) = first_number(input);
    if let Ok(mut actor) = boxed_actor(alloc, wiring, number) {
        follow(alloc, &mut actor, replies, out);
    }
}

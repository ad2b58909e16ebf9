//! The object of a place, which locks can keep.

ghost use Rattle.std.specs.Prelude.{◌≡◌, IfOk, OnErr, IsOk, true};
ghost use Rattle.ccr_claim.specs.Asks.{is_settling};
ghost use Rattle.ccr_object.specs.Events.{has_event};
ghost use Rattle.ccr_object.specs.Objects.{answer, after, answered, noted, after_at, after_deed, is_due, placed, reply_of, note_of, IsGiven};

use crate::deed::{Deed, PlaceAnswer};
use crate::events::has_event;
use crate::numbers::Numbers;
use ccr_arbiter::ArbiterObject;
use ccr_await::SiteObject;
use ccr_base::OutOfMemory;
use ccr_claim::{Ask, Reply};
use ccr_interleave::InterleaveObject;
use ccr_places::Note;
use ccr_port::PortObject;
use ccr_queue::{Meter, QueueObject};
use ccr_turns::Kept;
use std::alloc::Global;
use std::snapshot::Snapshot;
use std::sync::Arc;

mod arbiter;
mod interleave;
mod meter;
mod noting;
mod port;
mod queue;
mod site;

/// What stands at a place.
#[derive(Drop)]
pub enum Object {
    Port(PortObject),
    Arbiter(ArbiterObject),
    Interleave(InterleaveObject),
    Site(SiteObject),
    Queue(QueueObject),
    Meter(Meter),
}

/// The object of a place, with the allocator that copies for its notes come from, and the numbers that its asks may name.
/// It is boxed, since each turn moves it out of its lock and back.
#[derive(Drop)]
pub struct PlaceObject {
    pub alloc: Global,
    pub numbers: Arc<Numbers>,
    pub object: Box<Object>,
}

/// What contracts see of it. No value of it is made.
#[derive(Drop)]
pub struct Placed {
    pub numbers: Numbers,
    pub object: Object,
}

impl PlaceObject {
    /// Tests the condition of the ask, and does what it asks. Where the condition isn't met, or the ask isn't one for this
    /// kind of place, the object stays as it was, and so it does where memory runs out. A reply is one that the ask may have.
    #[inline(always)]
    pub fn answer(&mut self, ask: Ask) -> Result<(PlaceAnswer, Deed), OutOfMemory>
        ensures reply { IfOk result (λ given. given.0 ≡ reply_of (placed self.old) ask) }
        ensures fits { IfOk result (λ given. is_due ask given.0 ≡ true) }
        ensures note { IfOk result (λ given. given.1.note ≡ note_of (placed self.old) ask) }
        ensures ask { IfOk result (λ given. given.1.ask.value ≡ ask) }
        ensures state { IfOk result (λ given. placed self.new ≡ after_at (placed self.old) ask) }
        ensures refused { OnErr result (placed self.new ≡ placed self.old) }
        ensures settles { is_settling ask ≡ true → IsOk result }
    {
        let asked = Snapshot::of(&ask);
        let given = if self.numbers.knows(&ask) {
            act(self.alloc, &mut *self.object, ask)?
        } else {
            None
        };
        Ok(told(given, asked))
    }
}

impl Kept for PlaceObject {
    type Ask = Ask;

    type Reply = PlaceAnswer;

    type Note = Deed;

    type Value = Placed;

    ghost value = { placed };

    ghost may = { IsGiven };

    ghost after = { after_deed };

    ghost seen = { has_event };

    #[inline(always)]
    fn is_seen(deed: &Deed) -> bool {
        has_event(deed)
    }

    fn act(&mut self, ask: Ask) -> Result<(PlaceAnswer, Deed), OutOfMemory> {
        self.answer(ask)
    }
}

/// What the object answers: a reply with its note, or none where the condition isn't met.
#[inline(always)]
fn act(alloc: Global, object: &mut Object, ask: Ask) -> Result<Option<(Reply, Note)>, OutOfMemory>
    ensures answer { IfOk result (λ given. given ≡ answer object.old ask) }
    ensures fits { IfOk result (λ given. is_due ask (answered given) ≡ true) }
    ensures state { IfOk result (λ given. object.new ≡ after object.old ask) }
    ensures err { OnErr result (object.new ≡ object.old) }
    ensures settles { is_settling ask ≡ true → IsOk result }
{
    match object {
        Object::Port(port) => port::act(alloc, port, ask),
        Object::Arbiter(arbiter) => arbiter::act(alloc, arbiter, ask),
        Object::Interleave(place) => interleave::act(alloc, place, ask),
        Object::Site(site) => site::act(alloc, site, ask),
        Object::Queue(queue) => queue::act(queue, ask),
        Object::Meter(meter) => Ok(meter::act(meter, ask)),
    }
}

/// The answer, and the entry that bears the ask.
#[inline(always)]
fn told(given: Option<(Reply, Note)>, ask: Snapshot<Ask>) -> (PlaceAnswer, Deed)
    ensures reply { result.0 ≡ answered given }
    ensures deed { result.1 ≡ record { note = noted given; ask = ask } }
{
    match given {
        Some((reply, note)) => (
            PlaceAnswer::Replied(reply),
            Deed {
                note: Some(note),
                ask,
            },
        ),
        None => (PlaceAnswer::Unmet, Deed { note: None, ask }),
    }
}

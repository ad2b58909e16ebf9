//! A net of scripted replies.

ghost use Rattle.std.specs.Prelude.{◌≡◌, ◌==◌, [], true, IfOk, IsOk, filter, map};
ghost use Rattle.ccr_wiring.specs.declared.parts.Parts.{Parts};
ghost use Rattle.ccr_claim.specs.Asks.{due_of, fits, is_settling};
ghost use Rattle.ccr_claim.specs.Wired.{IsReplyOf};

use ccr_actor::Net;
use ccr_base::{ActorNo, List, Msg, MsgId, OutOfMemory, Place, Spot, Task, TaskId, Value};
use ccr_claim::{Ask, Asked, Reply, due_of, fits, settles};
use ccr_object::Numbers;
use ccr_try::only;
use ccr_wiring::Wiring;
use std::alloc::Global;
use std::cell::Cell;
use std::process::Abort;

/// An answer in short.
#[derive(Clone, Copy)]
pub enum Says {
    Done,
    Left(u32),
    Task,
    NoTask,
    Drawn,
    Booked,
    Full,
    Got,
    Short,
    Fired,
}

/// A task of another actor.
fn task(alloc: Global) -> Task {
    let id = TaskId {
        actor: 4,
        attempt: 1,
    };
    Task {
        id,
        root: id,
        spot: Spot::Branch(0),
        arbiter: 0,
        queue: 0,
        values: List::new(alloc),
        causes: List::new(alloc),
    }
}

/// The message of the script's first line.
fn message(alloc: Global) -> Msg {
    Msg {
        id: MsgId::Script { actor: 0, place: 0 },
        port: 0,
        value: Value::one(7),
        causes: List::new(alloc),
    }
}

/// What settles settles. To another ask the script's next reply comes where it fits and names only what the wiring has; else no
/// memory is found. It counts the asks that were made of it.
#[derive(Drop)]
pub struct Script<'w, R: Abort> {
    rt: &'w R,
    alloc: Global,
    wiring: &'w Wiring,
    says: &'w [Says],
    asks: &'w Cell<u64>,
    made: List<(ActorNo, Asked, Reply)>,
}

impl<'w, R: Abort> Script<'w, R> {
    pub fn new(
        rt: &'w R,
        alloc: Global,
        wiring: &'w Wiring,
        says: &'w [Says],
        asks: &'w Cell<u64>,
    ) -> Self
        ensures wiring { result.wiring.now ≡ wiring.now }
        ensures made { result.made ≡ [] }
    {
        Script {
            rt,
            alloc,
            wiring,
            says,
            asks,
            made: List::new(alloc),
        }
    }

    /// How many replies are left.
    pub fn left(&self) -> usize {
        self.says.len()
    }

    /// A reply to the ask, twice.
    fn reply(&mut self, ask: &Ask) -> Result<(Reply, Reply), OutOfMemory>
        ensures wiring { self.new.wiring ≡ self.old.wiring }
        ensures made { self.new.made ≡ self.old.made }
        ensures fits { IfOk result (λ both. fits (due_of ask.now) both.0 ≡ true) }
        ensures known { IfOk result (λ both. IsReplyOf self.old.wiring.now both.0) }
        ensures same { IfOk result (λ both. both.1 ≡ both.0) }
        ensures settles { is_settling ask.now ≡ true → IsOk result }
    {
        if settles(ask) {
            return Ok(settled(ask));
        }
        if self.says.is_empty() {
            return Err(OutOfMemory);
        }
        let (reply, kept) = twice(self.rt, self.alloc, self.says[0]);
        if !fits(due_of(ask), &reply) || !is_of(self.rt, self.alloc, self.wiring, &reply) {
            drop((reply, kept));
            return Err(OutOfMemory);
        }
        self.says = &self.says[1..];
        Ok((reply, kept))
    }
}

impl<'w, R: Abort> Net for Script<'w, R> {
    ghost wiring = { λ net. net.wiring.now };

    ghost steps = { λ net actor. map (λ row. record { asked = row.1; reply = row.2 }) (filter (λ row. row.0 == actor) net.made) };

    fn act(&mut self, actor: ActorNo, place: Place, ask: Ask) -> Result<Reply, OutOfMemory> {
        self.asks.set(self.asks.get().saturating_add(1));
        match self.reply(&ask) {
            Ok((reply, kept)) => {
                let row = (actor, Asked { place, ask }, kept);
                self.made.add(row).expect(self.rt, "memory");
                Ok(reply)
            }
            Err(refused) => {
                drop(ask);
                Err(refused)
            }
        }
    }
}

/// Whether the reply names only what the wiring has.
fn is_of(rt: &impl Abort, alloc: Global, wiring: &Wiring, reply: &Reply) -> bool
    ensures { result ≡ true → IsReplyOf wiring.now reply.now }
{
    let numbers = Numbers::of(alloc, wiring).expect(rt, "memory");
    numbers.names(reply)
}

/// The reply to an ask that settles, twice.
fn settled(ask: &Ask) -> (Reply, Reply)
    requires { is_settling ask.now ≡ true }
    ensures fits { fits (due_of ask.now) result.0 ≡ true }
    ensures known { (wiring : Parts) → IsReplyOf wiring result.0 }
    ensures same { result.1 ≡ result.0 }
{
    match ask {
        Ask::Put(_) => (Reply::Dropped(None), Reply::Dropped(None)),
        _ => (Reply::Done, Reply::Done),
    }
}

/// The task that is taken, twice.
fn taken(rt: &impl Abort, alloc: Global) -> (Reply, Reply)
    ensures { result.1 ≡ result.0 }
{
    let first = task(alloc);
    let second = first.copy(alloc).expect(rt, "memory");
    (Reply::Taken(Some(first)), Reply::Taken(Some(second)))
}

/// A firing whose task is put, twice.
fn fired(rt: &impl Abort, alloc: Global) -> (Reply, Reply)
    ensures { result.1 ≡ result.0 }
{
    let first = task(alloc);
    let second = first.copy(alloc).expect(rt, "memory");
    let cuts = List::new(alloc);
    let other = List::new(alloc);
    (
        Reply::Fired {
            task: Some(first),
            cuts,
        },
        Reply::Fired {
            task: Some(second),
            cuts: other,
        },
    )
}

/// The message that is claimed, twice.
fn got(rt: &impl Abort, alloc: Global) -> (Reply, Reply)
    ensures { result.1 ≡ result.0 }
{
    let first = message(alloc);
    let second = first.copy(alloc).expect(rt, "memory");
    (
        Reply::Got(only(alloc, first).expect(rt, "memory")),
        Reply::Got(only(alloc, second).expect(rt, "memory")),
    )
}

/// The reply, twice. What settles needs none of the script's.
fn twice(rt: &impl Abort, alloc: Global, says: Says) -> (Reply, Reply)
    ensures { result.1 ≡ result.0 }
{
    match says {
        Says::Done => (Reply::Done, Reply::Done),
        Says::Left(n) => (Reply::Left(n), Reply::Left(n)),
        Says::Task => taken(rt, alloc),
        Says::NoTask => (Reply::Taken(None), Reply::Taken(None)),
        Says::Drawn => (Reply::Drawn(4), Reply::Drawn(4)),
        Says::Booked => (Reply::Booked, Reply::Booked),
        Says::Full => (Reply::Full(1), Reply::Full(1)),
        Says::Got => got(rt, alloc),
        Says::Short => (Reply::Short(0), Reply::Short(0)),
        Says::Fired => fired(rt, alloc),
    }
}

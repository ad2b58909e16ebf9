//! Drives over scripted replies: how many steps they have, and when the gate is asked.

ghost use Rattle.std.specs.Prelude.{◌≡◌};
ghost use Rattle.ccr_actor.specs.Acting.{started};

use crate::script::{Says, Script};
use crate::spaces::wiring_of;
use ccr_actor::Actor;
use ccr_base::{ActorNo, Gate, Point};
use ccr_dispatch::drive;
use ccr_wiring::Wiring;
use std::alloc::Global;
use std::cell::Cell;
use std::process::Abort;
use std::test::*;

/// How often the gate was asked at a point, and behind how many asks of the net the last time.
#[derive(Clone, Copy, PartialEq, Eq)]
struct GateCount {
    times: u32,
    asks: u64,
}

const NEVER: GateCount = GateCount { times: 0, asks: 0 };

/// Notes at each point how often it was asked there, and when the last time.
#[derive(Drop)]
struct Watch<'c> {
    asks: &'c Cell<u64>,
    claimed: Cell<GateCount>,
    committed: Cell<GateCount>,
    started: Cell<GateCount>,
    before_end: Cell<GateCount>,
}

impl Gate for Watch<'_> {
    fn at(&self, point: Point, _actor: ActorNo) {
        let count = match point {
            Point::Claimed => &self.claimed,
            Point::Committed => &self.committed,
            Point::Started => &self.started,
            Point::BeforeEnd => &self.before_end,
        };
        count.set(GateCount {
            times: count.get().times.saturating_add(1),
            asks: self.asks.get(),
        });
    }
}

/// What a drive shows: how many steps it made, how many replies it left, and what the gate noted at each point.
#[derive(Clone, Copy, PartialEq, Eq)]
struct DriveShown {
    steps: u64,
    left: usize,
    claimed: GateCount,
    committed: GateCount,
    started: GateCount,
    before_end: GateCount,
}

/// A receive, and a poster with one post to it.
const ONE_POST: &str = "ccr 1
queue q unbounded
port a
handler h
end
receive x always q h take a 1 any
poster p
post a 7
end
";

/// The same, where the handler posts to the port and awaits it.
const ONE_WAIT: &str = "ccr 1
queue q unbounded
port a
handler h
post a count
await a
end
receive x always q h take a 1 any
poster p
post a 7
end
";

/// The actor of this number, before its first step, in a box: who drops it drops one value and not each of its lists.
fn first<'w>(rt: &impl Abort, alloc: Global, wiring: &'w Wiring, number: u32) -> Box<Actor<'w>>
    ensures { result.value ≡ started wiring.now number }
{
    let posters = wiring.parts().posters.as_slice().len();
    let actor = if (number as usize) < posters {
        Actor::poster(alloc, wiring, number).expect(rt, "memory")
    } else {
        Actor::worker(alloc, wiring, number).expect(rt, "memory")
    };
    Box::new(alloc, actor).ok().expect(rt, "memory")
}

/// The drive of the actor of this number over these replies.
fn drive_over<R: Abort>(
    rt: &R,
    alloc: Global,
    wiring: &Wiring,
    number: ActorNo,
    says: &[Says],
) -> DriveShown {
    let mut actor = first(rt, alloc, wiring, number);
    let asks = Cell::new(0);
    let mut net = Script::new(rt, alloc, wiring, says, &asks);
    let watch = Watch {
        asks: &asks,
        claimed: Cell::new(NEVER),
        committed: Cell::new(NEVER),
        started: Cell::new(NEVER),
        before_end: Cell::new(NEVER),
    };
    let steps = drive(&mut net, &mut actor, &watch);
    DriveShown {
        steps,
        left: net.left(),
        claimed: watch.claimed.get(),
        committed: watch.committed.get(),
        started: watch.started.get(),
        before_end: watch.before_end.get(),
    }
}

/// A wiring, the number of an actor, the replies to it, how many steps it makes, and what the gate notes at each point.
type Row = (&'static str, ActorNo, &'static [Says], u64, [GateCount; 4]);

/// A poster posts, books, claims and commits; consumes and puts, which settle; books, finds the port empty, gives the booking back,
/// which settles, and leaves.
/// A worker finds no task; then it takes one and ends it, which settles; then it finds none, and the poster has left.
/// Another takes a task, which posts; then no spot has room, and the task is suspended; its site has no room, and the poster has left.
/// Where nothing is replied the first ask is refused, which is no step, and the actor rests.
static DRIVES: [Row; 5] = [
    (
        ONE_POST,
        0,
        &[
            Says::Done,
            Says::Booked,
            Says::Got,
            Says::Fired,
            Says::Booked,
            Says::Short,
            Says::Done,
        ],
        10,
        [
            GateCount { times: 1, asks: 3 },
            GateCount { times: 1, asks: 4 },
            NEVER,
            NEVER,
        ],
    ),
    (
        ONE_POST,
        1,
        &[
            Says::Left(0),
            Says::NoTask,
            Says::Left(1),
            Says::Task,
            Says::Left(1),
            Says::NoTask,
        ],
        7,
        [
            NEVER,
            NEVER,
            GateCount { times: 1, asks: 4 },
            GateCount { times: 1, asks: 4 },
        ],
    ),
    (
        ONE_WAIT,
        1,
        &[
            Says::Left(0),
            Says::Task,
            Says::Drawn,
            Says::Done,
            Says::Full,
            Says::Full,
            Says::Done,
            Says::Full,
            Says::Left(1),
            Says::NoTask,
        ],
        10,
        [
            NEVER,
            NEVER,
            GateCount { times: 1, asks: 2 },
            GateCount { times: 1, asks: 6 },
        ],
    ),
    (ONE_POST, 0, &[], 0, [NEVER, NEVER, NEVER, NEVER]),
    (ONE_POST, 1, &[], 0, [NEVER, NEVER, NEVER, NEVER]),
];

/// Whether the drive of the row shows what is due, and leaves no reply.
fn is_right<R: Abort>(rt: &R, alloc: Global, row: &Row) -> bool {
    let wiring = wiring_of(rt, alloc, row.0);
    let shown = drive_over(rt, alloc, &wiring, row.1, row.2);
    let wanted = DriveShown {
        steps: row.3,
        left: 0,
        claimed: row.4[0],
        committed: row.4[1],
        started: row.4[2],
        before_end: row.4[3],
    };
    shown == wanted
}

#[test]
fn actors_pass_the_gate(rt: HostRuntime) {
    for row in &DRIVES {
        assert!(rt; is_right(&rt, rt.alloc(), row));
    }
}

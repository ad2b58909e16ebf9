//! Two places whose objects meet: one act returns only once the other has begun.

ghost use Rattle.std.specs.Prelude.{◌≡◌, true};
ghost use Rattle.ccr_turns.specs.Locks.{place_count, IsSeatOf};

use crate::compare::same;
use ccr_base::{List, OutOfMemory};
use ccr_turns::{Keep, Kept, Seat, Turns};
use std::alloc::Global;
use std::process::Abort;
use std::sync::atomic::{AtomicU64, Ordering};
use std::sync::{Arc, Wait};
use std::test::*;
use std::thread;

// How often the first object looks at the flag. Many seconds of looking, since a busy machine may let the other thread wait.
const LOOKS: u64 = 20_000_000_000;

#[derive(Drop)]
enum Meeting {
    Waits(Arc<AtomicU64, Global>),
    Begins(Arc<AtomicU64, Global>),
}

impl Kept for Meeting {
    type Ask = ();

    type Reply = bool;

    type Note = ();

    type Value = ();

    ghost value = { λ _. tt };

    ghost may = { λ _ _ _ _. Unit {0} };

    ghost after = { λ value _. value };

    ghost seen = { λ _. true };

    fn is_seen(_note: &()) -> bool {
        true
    }

    // Whether the act at the second place was seen to begin.
    fn act(&mut self, _ask: ()) -> Result<(bool, ()), OutOfMemory> {
        match self {
            Meeting::Begins(begun) => {
                begun.store(1, Ordering::SeqCst);
                Ok((true, ()))
            }
            Meeting::Waits(begun) => Ok((sees(begun), ())),
        }
    }
}

fn sees(begun: &AtomicU64) -> bool {
    for _ in 0..LOOKS {
        if begun.load(Ordering::SeqCst) == 1 {
            return true;
        }
    }
    false
}

fn meet<R: Wait>(rt: &R, turns: &Turns<Meeting>, mut seat: Seat<Meeting>) -> bool
    requires seat { IsSeatOf turns.now seat }
    requires places { place_count turns.now ≡ 2 }
{
    let place = if seat.number() == 0 { 0 } else { 1 };
    matches!(turns.act(rt, &mut seat, place, ()), Ok(true))
}

/// The two places.
fn places(rt: &impl Abort, alloc: Global) -> List<Meeting> {
    let flag = Arc::new(alloc, AtomicU64::new(0)).ok().expect(rt, "memory");
    let other = Arc::try_clone(&flag).expect(rt, "memory");
    let mut places = List::new(alloc);
    places.add(Meeting::Waits(other)).expect(rt, "memory");
    places.add(Meeting::Begins(flag)).expect(rt, "memory");
    places
}

#[test]
fn two_places_at_once(rt: HostRuntime) {
    let places = places(&rt, rt.alloc());
    assert!(rt; places.len() == 2);
    let (turns, seats) = Turns::make(rt.alloc(), places, 2, Keep::Every).expect(&rt, "memory");
    let met = thread::map_vec(
        &rt,
        seats.into_vec(),
        &|seat: Seat<Meeting>| -> bool
            requires { IsSeatOf turns seat × (place_count turns ≡ 2) }
        { meet(&rt, &turns, seat) },
    )
    .expect(&rt, "threads");
    same(&rt, met.as_slice(), [true, true].as_slice());
}

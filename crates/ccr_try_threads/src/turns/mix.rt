//! Sixteen seats over 64 places, under a mix of asks.

ghost use Rattle.std.specs.Prelude.{◌≡◌, ◌<◌};
ghost use Rattle.ccr_turns.specs.Locks.{place_count, IsSeatOf};

use super::counter::{Ask, Counter, counters};
use super::entries_of;
use crate::compare::same;
use ccr_base::List;
use ccr_turns::{Held, Keep, Seat, Turns};
use std::alloc::Global;
use std::process::Abort;
use std::sync::Wait;
use std::test::*;
use std::thread;
use std::thread::Threads;

const SEATS: u32 = 16;

const PLACES: u32 = 64;

const STEPS: u32 = 500;

// Where and what a seat asks in one of its steps: each fifth ask is to be refused.
fn planned(number: u32, step: u32) -> (u32, Ask)
    ensures { result.0 < 64 }
{
    let place = (u64::from(number) * 5 + u64::from(step) * 7) % u64::from(PLACES);
    let ask = if step % 5 == 4 {
        Ask::Refuse
    } else {
        Ask::Raise
    };
    (place as u32, ask)
}

fn run<R: Wait>(rt: &R, turns: &Turns<Counter>, mut seat: Seat<Counter>) -> Seat<Counter>
    requires seat { IsSeatOf turns.now seat }
    requires places { place_count turns.now ≡ 64 }
    ensures { IsSeatOf turns.now result }
{
    let number = seat.number();
    for step in 0..STEPS {
        let (place, ask) = planned(number, step);
        let _ = turns.act(rt, &mut seat, place, ask);
    }
    seat
}

// How many entries a seat has to leave at a place.
fn due(number: u32, place: u32) -> usize {
    (0..STEPS)
        .filter(|step| planned(number, *step) == (place, Ask::Raise))
        .count()
}

// The notes are the numbers from 1 on, and the stamps rise.
fn is_in_order(history: &[Held<u64>]) -> bool {
    let mut number = 0u64;
    let mut stamp = 0u128;
    for entry in history {
        if entry.note.checked_sub(1) != Some(number) || entry.stamp <= stamp {
            return false;
        }
        number = entry.note;
        stamp = entry.stamp;
    }
    true
}

/// What each place has left, once all seats have made their steps side by side.
fn mixed<R: Threads + Wait + Sync + Abort>(
    rt: &R,
    alloc: Global,
) -> List<(Counter, List<Held<u64>>)> {
    let counters = counters(alloc, PLACES as usize).expect(rt, "memory");
    let (turns, seats) = Turns::make(alloc, counters, SEATS, Keep::Every).expect(rt, "memory");
    let seats = thread::map_vec(
        rt,
        seats.into_vec(),
        &|seat: Seat<Counter>| -> Seat<Counter>
            requires { IsSeatOf turns seat × (place_count turns ≡ 64) }
            ensures { IsSeatOf turns result }
        { run(rt, &turns, seat) },
    )
    .expect(rt, "threads");
    turns
        .close(alloc, List::from_vec(seats))
        .ok()
        .expect(rt, "memory")
}

/// Stops the test unless the place has each entry that is due at it, in order.
fn has_what_is_due(rt: &impl Abort, counter: &Counter, history: &[Held<u64>], place: u32) {
    same(rt, counter.raised(), history.len() as u64);
    assert!(rt; is_in_order(history));
    for number in 0..SEATS {
        same(rt, entries_of(history, number), due(number, place));
    }
}

#[test]
fn sixteen_seats_over_many_places(rt: HostRuntime) {
    let kept = mixed(&rt, rt.alloc());
    same(&rt, kept.as_slice().len(), 64);
    for ((counter, history), place) in kept.as_slice().iter().zip(0..PLACES) {
        has_what_is_due(&rt, counter, history.as_slice(), place);
    }
}

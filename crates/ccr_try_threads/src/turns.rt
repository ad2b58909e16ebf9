//! Threads at the locks: no entry is lost, and each lock is its own.

ghost use Rattle.std.specs.Prelude.{◌<◌};
ghost use Rattle.ccr_turns.specs.Locks.{place_count, IsSeatOf};

use crate::compare::same;
use ccr_base::List;
use ccr_turns::{Held, Keep, Seat, Turns};
use std::alloc::Global;
use std::process::Abort;
use std::sync::Wait;
use std::test::*;
use std::thread;
use std::thread::Threads;

mod counter;
mod meeting;
mod mix;

use counter::{Ask, Counter, counters};

// So many raises, and an ask that is refused.
fn raise<R: Wait>(
    rt: &R,
    turns: &Turns<Counter>,
    mut seat: Seat<Counter>,
    times: u32,
) -> Seat<Counter>
    requires seat { IsSeatOf turns.now seat }
    requires place { 0 < place_count turns.now }
    ensures { IsSeatOf turns.now result }
{
    for _ in 0..times {
        let _ = turns.act(rt, &mut seat, 0, Ask::Raise);
    }
    let _ = turns.act(rt, &mut seat, 0, Ask::Refuse);
    seat
}

fn entries_of(history: &[Held<u64>], seat: u32) -> usize {
    history.iter().filter(|entry| entry.seat == seat).count()
}

/// What the one place has left, once two threads have raised its counter so often each.
fn raised_by_two<R: Threads + Wait + Sync + Abort>(
    rt: &R,
    alloc: Global,
    keep: Keep,
    times: u32,
) -> List<(Counter, List<Held<u64>>)> {
    let counters = counters(alloc, 1).expect(rt, "memory");
    let (turns, seats) = Turns::make(alloc, counters, 2, keep).expect(rt, "memory");
    let seats = thread::map_vec(
        rt,
        seats.into_vec(),
        &|seat: Seat<Counter>| -> Seat<Counter>
            requires { IsSeatOf turns seat × (0 < place_count turns) }
            ensures { IsSeatOf turns result }
        { raise(rt, &turns, seat, times) },
    )
    .expect(rt, "threads");
    turns
        .close(alloc, List::from_vec(seats))
        .ok()
        .expect(rt, "memory")
}

/// Stops the test unless the place was raised 2000 times, by each seat 1000 times, and has each number.
fn has_every_note(rt: &impl Abort, counter: &Counter, history: &[Held<u64>]) {
    same(rt, counter.raised(), 2000);
    same(rt, history.len(), 2000);
    for (entry, number) in history.iter().zip(1..2001u64) {
        same(rt, entry.note, number);
    }
    same(rt, entries_of(history, 0), 1000);
    same(rt, entries_of(history, 1), 1000);
}

/// Stops the test unless the place was raised 1200 times, and has each third number.
fn has_each_third(rt: &impl Abort, counter: &Counter, history: &[Held<u64>]) {
    same(rt, counter.raised(), 1200);
    same(rt, history.len(), 400);
    for entry in history {
        same(rt, entry.note % 3, 0);
    }
}

#[test]
fn two_threads_raise_one_counter(rt: HostRuntime) {
    let kept = raised_by_two(&rt, rt.alloc(), Keep::Every, 1000);
    let (counter, history) = kept.as_slice().first().expect(&rt, "no place");
    has_every_note(&rt, counter, history.as_slice());
}

#[test]
fn a_lock_keeps_what_is_seen(rt: HostRuntime) {
    let kept = raised_by_two(&rt, rt.alloc(), Keep::Seen, 600);
    let (counter, history) = kept.as_slice().first().expect(&rt, "no place");
    has_each_third(&rt, counter, history.as_slice());
}

//! An object of one's own under locks that keep its history: a sum that threads add to.

ghost use Rattle.std.specs.Prelude.{◌≡◌, ◌+◌, ◌<◌, true, length, IfOk};
ghost use Rattle.ccr_turns.specs.Locks.{place_count, IsSeatOf};

use ccr_base::{List, OutOfMemory};
use ccr_turns::{Held, Keep, Kept, Seat, Turns};
use std::alloc::Global;
use std::sync::Wait;
use std::thread::{self, Threads};

#[derive(Drop)]
pub struct SharedSum(u64);

/// What a shared sum is asked: to add this number. It answers the new sum, and notes it.
#[derive(Clone, Copy)]
pub struct Add(pub u64);

impl Kept for SharedSum {
    type Ask = Add;

    type Reply = u64;

    type Note = u64;

    type Value = u64;

    ghost value = { λ tally. tally.0 };

    ghost may = { λ sum ask reply note. (reply ≡ sum + ask.0) × (note ≡ sum + ask.0) };

    ghost after = { λ sum note. note };

    ghost seen = { λ _. true };

    fn is_seen(_note: &u64) -> bool {
        true
    }

    fn act(&mut self, ask: Add) -> Result<(u64, u64), OutOfMemory> {
        let Some(sum) = self.0.checked_add(ask.0) else {
            return Err(OutOfMemory);
        };
        self.0 = sum;
        Ok((sum, sum))
    }
}

// So many times 2 is added, at the lock of place 0.
fn raise<R: Wait>(
    rt: &R,
    turns: &Turns<SharedSum>,
    mut seat: Seat<SharedSum>,
    times: u32,
) -> Seat<SharedSum>
    requires seat { IsSeatOf turns.now seat }
    requires place { 0 < place_count turns.now }
    ensures { IsSeatOf turns.now result }
{
    for _ in 0..times {
        let _ = turns.act(rt, &mut seat, 0, Add(2));
    }
    seat
}

/// One tally, of 0.
fn tallies(alloc: Global) -> Result<List<SharedSum>, OutOfMemory>
    ensures { IfOk result (λ tallies. length tallies ≡ 1) }
{
    let mut tallies = Vec::new(alloc);
    tallies.push(SharedSum(0))?;
    Ok(List::from_vec(tallies))
}

/// The sum of the first tally, and how many entries its history has.
fn sum_of(kept: &[(SharedSum, List<Held<u64>>)]) -> (u64, usize) {
    match kept.first() {
        Some((tally, history)) => (tally.0, history.as_slice().len()),
        None => (0, 0),
    }
}

/// Two threads add 2 so many times each: the sum, and how many entries the lock's history has.
pub fn raise_by_two<R: AllocGlobal + Threads + Wait + Sync>(
    rt: &R,
    times: u32,
) -> Result<(u64, usize), OutOfMemory> {
    let alloc = rt.alloc();
    let (turns, seats) = Turns::make(alloc, tallies(alloc)?, 2, Keep::Every)?;
    let seats = thread::map_vec(
        rt,
        seats.into_vec(),
        &|seat: Seat<SharedSum>| -> Seat<SharedSum>
            requires { IsSeatOf turns seat × (0 < place_count turns) }
            ensures { IsSeatOf turns result }
        { raise(rt, &turns, seat, times) },
    )?;
    match turns.close(alloc, List::from_vec(seats)) {
        Ok(kept) => Ok(sum_of(kept.as_slice())),
        Err(_) => Err(OutOfMemory),
    }
}

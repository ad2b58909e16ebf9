//! An object that counts.

ghost use Rattle.std.specs.Prelude.{◌≡◌, ◌+◌, ◌%◌, ◌==◌, IfOk, length};

use ccr_base::{List, OutOfMemory};
use ccr_turns::Kept;
use std::alloc::Global;

#[derive(Drop)]
pub struct Counter(u64);

#[derive(Clone, Copy, PartialEq, Eq)]
pub enum Ask {
    Raise,
    Refuse,
}

impl Kept for Counter {
    type Ask = Ask;

    type Reply = u64;

    type Note = u64;

    type Value = u64;

    ghost value = { λ counter. counter.0 };

    ghost may = { λ number ask reply note. (reply ≡ number + 1) × (note ≡ number + 1) };

    ghost after = { λ number note. note };

    ghost seen = { λ note. note % 3 == 0 };

    // Each third number.
    fn is_seen(note: &u64) -> bool {
        *note % 3 == 0
    }

    fn act(&mut self, ask: Ask) -> Result<(u64, u64), OutOfMemory> {
        if ask == Ask::Refuse || self.0 == u64::MAX {
            return Err(OutOfMemory);
        }
        self.0 += 1;
        Ok((self.0, self.0))
    }
}

impl Counter {
    pub fn raised(&self) -> u64
        ensures { result ≡ self.now.0 }
    {
        self.0
    }
}

pub fn counters(alloc: Global, count: usize) -> Result<List<Counter>, OutOfMemory>
    ensures { IfOk result (λ counters. length counters ≡ count) }
{
    let mut counters = Vec::new(alloc);
    for _ in 0..count {
        counters.push(Counter(0))?;
    }
    Ok(List::from_vec(counters))
}

//! The branches that lacked room when they were asked, by their queues.

ghost use Rattle.std.specs.Prelude.{◌≡◌, ◌∷◌, ◌<◌, ◌==◌, ◌||◌, ℕ, IfOk, IfSome, OnOk, length};
ghost use Rattle.std.specs.List.{slice_get};
ghost use Rattle.ccr_base.specs.Lists.{has_number};
ghost use Rattle.ccr_ledger.specs.Rows.{row, with_row, empty_rows};
ghost use Rattle.ccr_engine.specs.Ready.{IsLeastFirst};

use crate::number_set::NumberSet;
use ccr_base::OutOfMemory;
use std::alloc::Global;
use std::marker::Model;

/// The indices of the blocked branches, of each queue its own.
#[derive(Drop)]
pub(crate) struct Blocked {
    queues: Vec<NumberSet>,
}

impl Model for Blocked {
    ghost use Rattle.std.specs.Prelude.{List as Listed, ℕ};

    ghost Value = { Listed (Listed ℕ) };

    ghost view = { λ b. b.queues.items };
}

impl Blocked {
    /// So many queues, and no branch blocked.
    pub(crate) fn new(alloc: Global, count: usize) -> Result<Self, OutOfMemory>
        ensures { IfOk result (λ blocked. blocked ≡ empty_rows count) }
    {
        let mut queues = Vec::new(alloc);
        for _ in 0..count {
            queues.push(NumberSet::new(alloc))?;
        }
        Ok(Blocked { queues })
    }

    /// How many queues there are.
    pub(crate) fn count(&self) -> usize
        ensures { result ≡ length self.now }
    {
        self.queues.len()
    }

    /// The least index at the queue, if any.
    pub(crate) fn first(&self, queue: usize) -> Option<usize>
        ensures { result ≡ slice_get (row self.now queue) 0 }
    {
        match self.queues.get(queue) {
            Some(indices) => indices.first(),
            None => None,
        }
    }

    /// The index is one of those at the queue.
    pub(crate) fn enter(&mut self, queue: usize, index: usize) -> Result<(), OutOfMemory>
        requires within { queue < length self.old }
        ensures others { OnOk result (self.new ≡ with_row self.old queue (row self.new queue)) }
        ensures members { OnOk result ((other : ℕ) → has_number (row self.new queue) other ≡ (other == index) || has_number (row self.old queue) other) }
        ensures least { OnOk result (IsLeastFirst (row self.new queue)) }
    {
        let indices = &mut self.queues[queue];
        indices.enter(index)
    }

    /// The queue without the least index.
    pub(crate) fn leave_first(&mut self, queue: usize)
        requires within { queue < length self.old }
        ensures others { self.new ≡ with_row self.old queue (row self.new queue) }
        ensures rest { IfSome (slice_get (row self.old queue) 0) (λ index. row self.old queue ≡ index ∷ row self.new queue) }
        ensures least { IsLeastFirst (row self.new queue) }
    {
        let indices = &mut self.queues[queue];
        indices.leave_first();
    }
}

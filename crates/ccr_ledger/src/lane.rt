//! The indices of the messages that satisfy one predicate, and how many of these are there.

ghost use Rattle.std.specs.Prelude.{◌≡◌, ◌<◌, [], OnOk, length};
ghost use Rattle.std.specs.Bool.{Decides};
ghost use Rattle.std.specs.List.{slice_get, remove};
ghost use Rattle.ccr_ledger.specs.Lanes.{entered, lost};

use ccr_base::{OutOfMemory, Pred, Value};
use std::alloc::Global;
use std::collections::VecDeque;
use std::marker::Model;

/// Indices of messages that satisfy a predicate, rising. An index whose message was taken may still stand here.
#[derive(Drop)]
pub(crate) struct IndexLane {
    pred: Pred,
    indices: VecDeque<usize>,
    /// How many messages that satisfy the predicate are there.
    count: usize,
}

impl Model for IndexLane {
    ghost use Rattle.ccr_ledger.specs.Lanes.{IndexLaneState};

    ghost Value = { IndexLaneState };

    ghost view = { λ lane. record { pred = lane.pred; indices = lane.indices.items; count = lane.count } };
}

impl IndexLane {
    pub fn new(alloc: Global, pred: Pred) -> IndexLane
        ensures { result ≡ record { pred = pred; indices = []; count = 0 } }
    {
        IndexLane {
            pred,
            indices: VecDeque::new(alloc),
            count: 0,
        }
    }

    pub fn is_of(&self, pred: Pred) -> bool
        ensures { Decides result (self.now.pred ≡ pred) }
    {
        self.pred == pred
    }

    pub fn count(&self) -> usize
        ensures { result ≡ self.now.count }
    {
        self.count
    }

    /// The message of the index comes, which becomes the last where the value satisfies the predicate.
    pub fn enter(&mut self, index: usize, value: Value) -> Result<(), OutOfMemory>
        ensures { OnOk result (self.new ≡ entered index value self.old) }
    {
        if !self.pred.holds(&value) {
            return Ok(());
        }
        let Some(count) = self.count.checked_add(1) else {
            return Err(OutOfMemory);
        };
        self.indices.push_back(index)?;
        self.count = count;
        Ok(())
    }

    /// A message of this value was taken. Its index stays.
    pub fn lose(&mut self, value: Value)
        ensures { self.new ≡ lost value self.old }
    {
        if self.pred.holds(&value) {
            self.count = self.count.saturating_sub(1);
        }
    }

    pub fn at(&self, number: usize) -> Option<usize>
        ensures { result ≡ slice_get self.now.indices number }
    {
        self.indices.get(number).copied()
    }

    /// The index of this number leaves. The indices on its shorter side move.
    pub fn remove(&mut self, number: usize)
        requires { number < length self.old.indices }
        ensures { self.new ≡ record self.old { indices = remove self.old.indices number } }
    {
        self.indices.remove(number);
    }
}

//! A set of numbers, of which the least is found at once.

ghost use Rattle.std.specs.Prelude.{◌≡◌, [], ◌∷◌, ℕ, ◌==◌, ◌&&◌, ◌||◌, not, IfSome, OnOk};
ghost use Rattle.std.specs.List.{slice_get};
ghost use Rattle.ccr_base.specs.Lists.{has_number};
ghost use Rattle.ccr_engine.specs.Ready.{IsLeastFirst};

use ccr_base::OutOfMemory;
use std::alloc::Global;
use std::collections::BTreeSet;
use std::marker::Model;

/// Numbers, each once.
#[derive(Drop)]
pub(crate) struct NumberSet {
    numbers: BTreeSet<usize>,
}

impl Model for NumberSet {
    ghost use Rattle.std.specs.Prelude.{List as Listed, ℕ};

    ghost Value = { Listed ℕ };

    ghost view = { λ s. s.numbers.keys };
}

impl NumberSet {
    /// No numbers.
    pub(crate) fn new(alloc: Global) -> Self
        ensures { result ≡ [] }
    {
        NumberSet {
            numbers: BTreeSet::new(alloc),
        }
    }

    /// The least of them, if any.
    pub(crate) fn first(&self) -> Option<usize>
        ensures { result ≡ slice_get self.now 0 }
    {
        let number = self.numbers.first()?;
        Some(*number)
    }

    /// The number is one of them.
    pub(crate) fn enter(&mut self, number: usize) -> Result<(), OutOfMemory>
        ensures members { OnOk result ((other : ℕ) → has_number self.new other ≡ (other == number) || has_number self.old other) }
        ensures least { OnOk result (IsLeastFirst self.new) }
    {
        self.numbers.insert(number)?;
        Ok(())
    }

    /// Without the least.
    pub(crate) fn leave_first(&mut self)
        ensures rest { IfSome (slice_get self.old 0) (λ number. self.old ≡ number ∷ self.new) }
        ensures least { IsLeastFirst self.new }
    {
        self.numbers.pop_first();
    }

    /// The number is none of them.
    pub(crate) fn leave(&mut self, number: usize)
        ensures members { (other : ℕ) → has_number self.new other ≡ not (other == number) && has_number self.old other }
        ensures least { IsLeastFirst self.new }
    {
        self.numbers.remove(&number);
    }
}

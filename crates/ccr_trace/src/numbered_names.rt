//! The numbers of names.

ghost use Rattle.std.specs.Prelude.{◌≡◌, ◌<◌, ◌≤◌, false, [], ◌∷◌, ◌++◌, IfOk, OnOk, length, map};
ghost use Rattle.std.specs.List.{list_any};
ghost use Rattle.std.specs.Str.{bytes_eq};
ghost use Rattle.ccr_base.specs.Bounds.{most_branches};
ghost use Rattle.ccr_wiring.specs.Names.{has_repeated};
ghost use Rattle.ccr_trace.specs.Known.{number_in};

use ccr_base::OutOfMemory;
use indexmap::IndexSet;
use std::alloc::Global;
use std::marker::Model;

/// Names, each with its number, found by hashing. Contracts see the names in the order of their numbers.
#[derive(Drop)]
pub struct NumberedNames<'w> {
    names: IndexSet<&'w [u8]>,
}

impl<'w> Model for NumberedNames<'w> {
    ghost use Rattle.std.specs.Prelude.{List as Listed, ℕ, ◌≤◌, length, map};
    ghost use Rattle.ccr_base.specs.Bounds.{most_branches};

    ghost Value = { Listed (Listed ℕ) };

    ghost view = { λ numbers. map (λ name. name.now) numbers.names.keys };

    ghost invariant = { λ numbers. length numbers.names.keys ≤ most_branches };
}

impl<'w> NumberedNames<'w> {
    fn new(alloc: Global) -> Self
        ensures { result ≡ [] }
    {
        NumberedNames {
            names: IndexSet::new(alloc),
        }
    }

    fn add(&mut self, name: &'w [u8]) -> Result<(), OutOfMemory>
        requires fresh { list_any (bytes_eq name.now) self.old ≡ false }
        requires room { length self.old < most_branches }
        ensures { OnOk result (self.new ≡ self.old ++ name.now ∷ []) }
    {
        self.names.insert(name)?;
        Ok(())
    }

    /// The numbers of these names, of which there are at most 256.
    pub fn of(alloc: Global, names: &[&'w [u8]]) -> Result<Self, OutOfMemory>
        requires apart { has_repeated (map (λ name. name.now) names.now) ≡ false }
        requires few { length names.now ≤ most_branches }
        ensures { IfOk result (λ numbers. numbers ≡ map (λ name. name.now) names.now) }
    {
        let mut numbers = NumberedNames::new(alloc);
        for name in names {
            numbers.add(*name)?;
        }
        Ok(numbers)
    }

    pub fn get(&self, name: &[u8]) -> Option<u32>
        ensures { result ≡ number_in self.now name.now }
    {
        let number = self.names.get_index_of(name)?;
        Some(number as u32)
    }
}

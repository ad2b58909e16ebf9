//! What the declared names stand for.

ghost use Rattle.std.specs.Prelude.{◌≡◌, [], ◌∷◌, ◌++◌, None, OnOk};
ghost use Rattle.ccr_text.specs.Names.{meaning_of};

use indexmap::IndexMap;
use std::alloc::{AllocError, Global};
use std::marker::Model;

/// The declared names, each with what it stands for, found by hashing. Contracts see them as a list, in the order of their
/// declaration.
#[derive(Drop)]
pub struct Names<T> {
    alloc: Global,
    entries: IndexMap<Vec<u8>, T>,
}

impl<T> Model for Names<T> {
    ghost use Rattle.std.specs.Prelude.{List as Listed, ℕ, map};

    ghost Value = { Listed (Listed ℕ × T) };

    ghost view = { λ names. map (λ entry. (entry.0.items, entry.1)) names.entries.entries };
}

impl<T: Copy + Drop> Names<T> {
    /// No name.
    pub fn new(alloc: Global) -> Self
        ensures { result ≡ [] }
    {
        Names {
            alloc,
            entries: IndexMap::new(alloc),
        }
    }

    /// What the name stands for, if it is declared.
    pub fn get(&self, name: &[u8]) -> Option<T>
        ensures { result ≡ meaning_of self.now name.now }
    {
        self.entries.get(name).copied()
    }

    /// Declares a new name.
    pub fn add(&mut self, name: &[u8], what: T) -> Result<(), AllocError>
        requires { meaning_of self.old name.now ≡ None }
        ensures { OnOk result (self.new ≡ self.old ++ (name.now, what) ∷ []) }
    {
        let name = Vec::from_slice(self.alloc, name)?;
        self.entries.insert(name, what)?;
        Ok(())
    }
}

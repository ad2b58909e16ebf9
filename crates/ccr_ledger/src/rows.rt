//! The rows.

ghost use Rattle.std.specs.Prelude.{◌≡◌, ◌<◌, ◌++◌, ◌∷◌, [], IfOk, OnOk, OnErr, length, drop};
ghost use Rattle.std.specs.List.{slice_get};
ghost use Rattle.std.specs.Option.{option_map};
ghost use Rattle.ccr_ledger.specs.Rows.{row, with_row, empty_rows};

use ccr_base::OutOfMemory;
use std::alloc::Global;
use std::collections::VecDeque;
use std::marker::Model;

/// Rows, numbered from 0.
#[derive(Drop)]
pub struct Rows<T> {
    rows: Vec<VecDeque<T>>,
}

impl<T> Model for Rows<T> {
    ghost use Rattle.std.specs.Prelude.{List as Listed, map};

    ghost Value = { Listed (Listed T) };

    ghost view = { λ rows. map (λ row. row.items) rows.rows.items };
}

impl<T: Drop> Rows<T> {
    /// So many empty rows.
    pub fn new(alloc: Global, count: usize) -> Result<Self, OutOfMemory>
        ensures { IfOk result (λ rows. rows ≡ empty_rows count) }
    {
        let mut rows = Vec::new(alloc);
        for _ in 0..count {
            rows.push(VecDeque::new(alloc))?;
        }
        Ok(Rows { rows })
    }

    /// The first of the row, if any.
    pub fn first(&self, number: usize) -> Option<&T>
        ensures { option_map (λ item. item.now) result ≡ slice_get (row self.now number) 0 }
    {
        self.rows.get(number)?.front()
    }

    /// The item at this index of the row, if any.
    pub fn at(&self, number: usize, index: usize) -> Option<&T>
        ensures { option_map (λ item. item.now) result ≡ slice_get (row self.now number) index }
    {
        self.rows.get(number)?.get(index)
    }

    /// How many stand in the row.
    pub fn len(&self, number: usize) -> usize
        ensures { result ≡ length (row self.now number) }
    {
        match self.rows.get(number) {
            Some(row) => row.len(),
            None => 0,
        }
    }

    /// The item becomes the last of the row. There is no row past the last number.
    pub fn enter(&mut self, number: usize, item: T) -> Result<(), OutOfMemory>
        ensures ok { OnOk result (self.new ≡ with_row self.old number (row self.old number ++ item ∷ [])) }
        ensures err { OnErr result (self.new ≡ self.old) }
    {
        if number < self.rows.len() {
            let row = &mut self.rows[number];
            row.push_back(item)?;
        }
        Ok(())
    }

    /// The item becomes the only one of the row. There is no row past the last number.
    pub fn enter_alone(&mut self, number: usize, item: T) -> Result<(), OutOfMemory>
        ensures ok { OnOk result (self.new ≡ with_row self.old number (item ∷ [])) }
        ensures err { OnErr result (self.new ≡ self.old) }
    {
        if number < self.rows.len() {
            let emptied = &mut self.rows[number];
            emptied.clear();
            emptied.push_back(item)?;
        }
        Ok(())
    }

    /// Takes the first of the row out.
    pub fn leave(&mut self, number: usize) -> Option<T>
        ensures item { result ≡ slice_get (row self.old number) 0 }
        ensures rest { self.new ≡ with_row self.old number (drop 1 (row self.old number)) }
    {
        if number >= self.rows.len() {
            return None;
        }
        let row = &mut self.rows[number];
        row.pop_front()
    }

    /// Empties the row.
    pub fn clear(&mut self, number: usize)
        ensures { self.new ≡ with_row self.old number [] }
    {
        if number < self.rows.len() {
            let row = &mut self.rows[number];
            row.clear();
        }
    }
}

//! The names of the branches by their numbers.

ghost use Rattle.std.specs.Prelude.{◌≡◌, ◌++◌, OnOk, IfOk};
ghost use Rattle.ccr_wiring.specs.SpotWords.{branch_names, branch_names_of, name_at};

use crate::{ArbiterPart, Parts};
use ccr_base::{List, Name, OutOfMemory};
use std::alloc::Global;

/// The names of the branches, which are numbered through all arbiters.
pub fn branch_names(alloc: Global, parts: &Parts) -> Result<List<Name>, OutOfMemory>
    ensures { IfOk result (λ names. names ≡ branch_names parts.now) }
{
    let mut names = List::new(alloc);
    for arbiter in parts.arbiters.as_slice() {
        add_branch_names(alloc, &mut names, arbiter)?;
    }
    Ok(names)
}

fn add_branch_names(
    alloc: Global,
    names: &mut List<Name>,
    arbiter: &ArbiterPart,
) -> Result<(), OutOfMemory>
    ensures { OnOk result (names.new ≡ names.old ++ branch_names_of arbiter.now) }
{
    for part in arbiter.branches.as_slice() {
        let name = part.name.copy(alloc)?;
        names.push(name).map_err(|refused| refused.0)?;
    }
    Ok(())
}

/// The name at the number, or no byte.
pub fn name_at(names: &[Name], number: u32) -> &[u8]
    ensures { result.now ≡ name_at names.now number }
{
    match names.get(number as usize) {
        Some(name) => name.as_slice(),
        None => &[],
    }
}

//! A wiring with the indices of its spots, so that an event looks at none that it does not touch.

ghost use Rattle.std.specs.Prelude.{◌≡◌, ◌++◌, ◌∷◌, [], IfOk, OnOk};
ghost use Rattle.std.specs.List.{slice_get};
ghost use Rattle.ccr_base.specs.declared.names.Spot.TheVariants.{Branch, Site};
ghost use Rattle.ccr_base.specs.Names.{same_spot};
ghost use Rattle.ccr_wiring.specs.Wirings.{next_site, spots};
ghost use Rattle.ccr_wiring.specs.Valid.{IsValid};
ghost use Rattle.ccr_engine.specs.Indices.{branch_indices, first_index};

use ccr_base::{OutOfMemory, Spot};
use ccr_wiring::{Parts, Wiring};
use std::alloc::Global;
use std::marker::Model;

/// The index comes in, where the spot is a branch.
fn note_branch(spot: Spot, index: usize, branches: &mut Vec<usize>) -> Result<(), OutOfMemory>
    ensures { OnOk result (branches.new.items ≡ branches.old.items ++ branch_indices index (spot ∷ [])) }
{
    if let Spot::Branch(_) = spot {
        branches.push(index)?;
    }
    Ok(())
}

/// The indices of the branches among the spots, in one pass over them.
fn indices_of_branches(alloc: Global, spots: &[Spot]) -> Result<Vec<usize>, OutOfMemory>
    ensures { IfOk result (λ branches. branches.items ≡ branch_indices 0 spots.now) }
{
    let mut branches = Vec::new(alloc);
    for index in 0..spots.len() {
        note_branch(spots[index], index, &mut branches)?;
    }
    Ok(branches)
}

/// The index of this number, if there is one.
fn index_of(indices: &[usize], number: u32) -> Option<usize>
    ensures { result ≡ slice_get indices.now number }
{
    indices.get(number as usize).copied()
}

/// A wiring, and of each branch its index among the spots. Which spots take from a port the wiring itself says.
#[derive(Drop)]
pub(crate) struct SpotIndices<'w> {
    wiring: &'w Wiring,
    branches: Vec<usize>,
}

impl<'w> Model for SpotIndices<'w> {
    ghost use Rattle.std.specs.Prelude.{◌≡◌};
    ghost use Rattle.ccr_wiring.specs.declared.parts.Parts.{Parts};
    ghost use Rattle.ccr_wiring.specs.Wirings.{spots};
    ghost use Rattle.ccr_engine.specs.Indices.{branch_indices};

    ghost Value = { Parts };

    ghost view = { λ p. p.wiring.now };

    ghost invariant = { λ p. p.branches.items ≡ branch_indices 0 (spots p.wiring.now) };
}

impl<'w> SpotIndices<'w> {
    /// The indices of the wiring's spots.
    pub(crate) fn new(alloc: Global, wiring: &'w Wiring) -> Result<Self, OutOfMemory>
        ensures { IfOk result (λ indices. indices ≡ wiring.now) }
    {
        let branches = indices_of_branches(alloc, wiring.spots())?;
        Ok(SpotIndices { wiring, branches })
    }

    /// The wiring.
    pub(crate) fn wiring(&self) -> &'w Wiring
        ensures { result.now ≡ self.now }
    {
        self.wiring
    }

    /// What the wiring says.
    pub(crate) fn parts(&self) -> &Parts
        ensures parts { result.now ≡ self.now }
        ensures valid { IsValid self.now }
    {
        self.wiring.parts()
    }

    /// The index of the branch.
    fn of_branch(&self, branch: u32) -> Option<usize>
        ensures { result ≡ first_index (same_spot (Branch branch)) (spots self.now) }
    {
        index_of(&self.branches, branch)
    }

    /// The index of the site: its branch's sites stand behind it.
    fn of_site(&self, branch: u32, site: u32) -> Option<usize>
        ensures { result ≡ first_index (same_spot (Site branch site)) (spots self.now) }
    {
        let _spots = self.wiring.spots();
        let Some(_port) = self.wiring.site_port(branch, site) else {
            return None;
        };
        match self.of_branch(branch) {
            Some(index) => Some(index + 1 + site as usize),
            None => None,
        }
    }

    /// The index of the spot.
    pub(crate) fn of_spot(&self, spot: Spot) -> Option<usize>
        ensures { result ≡ first_index (same_spot spot) (spots self.now) }
    {
        match spot {
            Spot::Branch(branch) => self.of_branch(branch),
            Spot::Site(branch, site) => self.of_site(branch, site),
        }
    }

    /// The index of the site at which a task that fired at the spot is suspended.
    pub(crate) fn next_site(&self, spot: Spot) -> Option<usize>
        ensures { result ≡ first_index (same_spot (next_site spot)) (spots self.now) }
    {
        // `parts` says that the wiring is valid.
        let _valid = self.wiring.parts();
        match spot {
            Spot::Branch(branch) => self.of_site(branch, 0),
            Spot::Site(branch, site) => match site.checked_add(1) {
                Some(next) => self.of_site(branch, next),
                None => None,
            },
        }
    }
}

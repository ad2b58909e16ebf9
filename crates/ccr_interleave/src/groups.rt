//! The group of a branch.

ghost use Rattle.std.specs.Prelude.{◌≡◌, ◌==◌, position, slice_get};
ghost use Rattle.ccr_places.specs.Interleaves.{group_among, is_concurrent as is_concurrent_group, is_teardown as is_teardown_group};

use ccr_base::{BranchNo, Group, List, Spot};

/// The group of the spot, where it is one of the branches, which have these groups.
pub(crate) fn group_at(branches: &List<BranchNo>, groups: &List<Group>, spot: Spot) -> Option<Group>
    ensures { result ≡ group_among branches.now groups.now spot }
{
    let Spot::Branch(branch) = spot else {
        return None;
    };
    match index_of(branches.as_slice(), branch) {
        Some(index) => group_of(groups.as_slice(), index),
        None => None,
    }
}

/// The group at the index.
fn group_of(groups: &[Group], index: usize) -> Option<Group>
    ensures { result ≡ slice_get groups.now index }
{
    groups.get(index).copied()
}

/// The index of the branch.
fn index_of(branches: &[BranchNo], branch: BranchNo) -> Option<usize>
    ensures { result ≡ position (λ other. other == branch) branches.now }
{
    branches.iter().position(|other| *other == branch)
}

pub(crate) fn is_concurrent(group: Option<Group>) -> bool
    ensures { result ≡ is_concurrent_group group }
{
    match group {
        Some(group) => ccr_base::is_concurrent(group),
        None => false,
    }
}

pub(crate) fn is_teardown(group: Option<Group>) -> bool
    ensures { result ≡ is_teardown_group group }
{
    match group {
        Some(group) => ccr_base::is_teardown(group),
        None => false,
    }
}

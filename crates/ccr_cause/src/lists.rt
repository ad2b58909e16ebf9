//! Joining two lists of causes, putting a cause in and taking one out.

ghost use Rattle.std.specs.Prelude.{◌≡◌, ◌<◌, length, Some, IfOk, IfSome, IfNone, OnOk, OnErr};
ghost use Rattle.std.specs.List.{slice_get};
ghost use Rattle.ccr_cause.specs.Causes.{with_cause, without_cause, union};

use ccr_base::{CauseNo, List, OutOfMemory, has_number};
use std::alloc::Global;

/// The first list, followed by the members of the second that it lacks, each once.
pub fn union(
    alloc: Global,
    first: &List<CauseNo>,
    second: &List<CauseNo>,
) -> Result<List<CauseNo>, OutOfMemory>
    ensures { IfOk result (λ joined. joined ≡ union first.now second.now) }
{
    let mut joined = first.copy(alloc)?;
    for cause in second.as_slice() {
        add(&mut joined, *cause)?;
    }
    Ok(joined)
}

/// Puts the cause last where it isn't in the list.
pub fn add(causes: &mut List<CauseNo>, cause: CauseNo) -> Result<(), OutOfMemory>
    ensures ok { OnOk result (causes.new ≡ with_cause causes.old cause) }
    ensures err { OnErr result (causes.new ≡ causes.old) }
{
    if has_number(causes.as_slice(), cause) {
        return Ok(());
    }
    match causes.push(cause) {
        Ok(()) => Ok(()),
        Err((refused, _)) => Err(refused),
    }
}

/// Takes the cause out wherever it stands.
#[tactic(auto, using(crate::proofs::Removed::steps))]
pub fn remove(causes: &mut List<CauseNo>, cause: CauseNo)
    ensures { causes.new ≡ without_cause causes.old cause }
{
    while let Some(index) = index_of(causes.as_slice(), cause) {
        causes.remove(index);
    }
}

/// Where the cause stands first.
fn index_of(causes: &[CauseNo], cause: CauseNo) -> Option<usize>
    ensures within { IfSome result (λ index. index < length causes.now) }
    ensures found { IfSome result (λ index. slice_get causes.now index ≡ Some cause) }
    ensures absent { IfNone result (without_cause causes.now cause ≡ causes.now) }
{
    for (index, other) in causes.iter().enumerate() {
        if *other == cause {
            return Some(index);
        }
    }
    None
}

//! What is visible of a run.

ghost use Rattle.std.specs.Prelude.{◌≡◌, ◌≤◌, ℕ, true, IfOk};
ghost use Rattle.ccr_base.specs.Bounds.{most_workers};
ghost use Rattle.ccr_model.specs.Legal.{IsLegal, is_covered};
ghost use Rattle.ccr_runs.specs.EntryRuns.{IsRun};
ghost use Rattle.ccr_runs.specs.Visible.{visible};

use ccr_base::OutOfMemory;
use ccr_model::History;
use ccr_runs::{Full, history_of};
use ccr_wiring::Wiring;
use std::alloc::Global;

/// The history that the entries show: bookings, claims, the meter's entries and what was answered with nothing vanish.
/// Where the entries are a run, it is legal and covered;
/// `docs/MODEL.md` has the rules.
pub fn visible(alloc: Global, wiring: &Wiring, full: &Full) -> Result<History, OutOfMemory>
    ensures exact { IfOk result (λ history. history ≡ visible full.now.entries) }
    ensures legal { IfOk result (λ history. (workers : ℕ) → workers ≤ most_workers → IsRun wiring.now workers full.now.entries → IsLegal wiring.now history) }
    ensures covered { IfOk result (λ history. (workers : ℕ) → workers ≤ most_workers → IsRun wiring.now workers full.now.entries → is_covered wiring.now history ≡ true) }
{
    // `parts` says that the wiring is valid, on which the promises stand.
    let _valid = wiring.parts();
    let history = history_of(alloc, full)?;
    Ok(history)
}

//! Whether a task was shed.

ghost use Rattle.std.specs.Prelude.{◌≡◌, List};
ghost use Rattle.ccr_wiring.specs.declared.parts.Parts.{Parts};
ghost use Rattle.ccr_model.specs.declared.history.Event.{Event};
ghost use Rattle.ccr_model.specs.Legal.{has_shed};
ghost use Rattle.ccr_report.specs.Counted.{IsCounted};

use ccr_report::Counts;

/// Whether a task was shed in each history whose counts these are.
pub fn sheds(counts: &Counts) -> bool
    ensures { (wiring : Parts) (history : List Event) → IsCounted wiring history counts.now → result ≡ has_shed history }
{
    counts.totals.shed != 0
}

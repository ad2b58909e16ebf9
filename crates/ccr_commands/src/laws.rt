//! What holds of every output of a run, and of every load.

ghost use Rattle.std.specs.Prelude.{◌≡◌, ◌<◌, ◌≤◌, ℕ, Bool, List, None, Option};
ghost use Rattle.ccr_base.specs.Bounds.{most_size};
ghost use Rattle.ccr_wiring.specs.declared.parts.Parts.{Parts};
ghost use Rattle.ccr_commands.specs.Findings.{RunIsFoundLegal};
ghost use Rattle.ccr_commands.specs.Loads.{IsLoad};
ghost use Rattle.ccr_commands.specs.Records.{IsToldAsTurns, RecordIsReadAgain};
ghost use Rattle.ccr_commands.specs.Runs.{IsRun};

use ccr_replay::{records_are_read_again, schedules_give_runs_again};
use ccr_steady::loads_are_alike;
use ccr_trace::what_is_written_is_read;

/// Of each text that a run of a valid wiring writes, with its report as lines, `verify` finds that it is legal, complete and
/// quiet, whatever number of lines the wiring's text has before it.
pub fn runs_are_found_legal()
    ensures { (wiring : Parts) (workers : ℕ) (turns : Option (List ℕ)) (shed : Bool) (text : List ℕ) (before : ℕ) → RunIsFoundLegal wiring workers turns shed text before }
{
    what_is_written_is_read();
}

/// What threads write can always be told as turns: each text of a run on threads is that of a scheduled run of as many workers, for
/// some turns, such as `record` writes down.
pub fn threaded_runs_are_scheduled()
    ensures { (json : Bool) (wiring : Parts) (workers : ℕ) (shed : Bool) (text : List ℕ) → 0 < workers → IsRun json wiring workers None shed text → IsToldAsTurns json wiring workers shed text }
{
    schedules_give_runs_again();
}

/// Loads of one size write the same bytes, whatever the numbers of their workers and whoever ran first.
pub fn loads_write_one_text()
    ensures { (size workers others : ℕ) (json : Bool) (one other : List ℕ) → size ≤ most_size → IsLoad size workers json one → IsLoad size others json other → one ≡ other }
{
    loads_are_alike();
}

/// A record that was written is read as a record of that wiring and as many workers, whose turns leave nobody a next step: so what
/// `replay` makes of it is the run that was recorded.
pub fn records_are_read_as_recorded()
    ensures { (wiring : Parts) (workers : ℕ) (bytes text : List ℕ) → RecordIsReadAgain wiring workers bytes text }
{
    records_are_read_again();
    schedules_give_runs_again();
}

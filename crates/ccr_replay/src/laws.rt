//! What holds of schedules and records. Each law is the contract of a function that does nothing.

ghost use Rattle.std.specs.Prelude.{◌≡◌, ℕ, List, Ok};
ghost use Rattle.ccr_wiring.specs.declared.parts.Parts.{Parts};
ghost use Rattle.ccr_runs.specs.declared.entries.Entry.{Entry};
ghost use Rattle.ccr_runs.specs.EntryRuns.{scheduled};
ghost use Rattle.ccr_replay.specs.declared.records.Record.{Record};
ghost use Rattle.ccr_replay.specs.Grammar.{Says};
ghost use Rattle.ccr_replay.specs.Reading.{reading_record};
ghost use Rattle.ccr_replay.specs.Records.{record_text};
ghost use Rattle.ccr_replay.specs.Schedules.{schedule, AreActors, IsOfNextSteps};
ghost use Rattle.ccr_replay.specs.Lawful.{OfAmpleRuns, OfRecords, OfScheduled};

/// The actors of a run's entries, in their order, are a schedule. Where each step of each actor is its next one, as where nobody
/// asked anything else out of memory, the run of that schedule is that run again: the same actors at the same places, with
/// the same notes and stamps. Of no other entries is it so: their schedule gives others, or names somebody who is no actor.
/// And the run of any turns is given again by those that added an entry.
pub fn schedules_give_runs_again()
    ensures next { OfAmpleRuns IsOfNextSteps }
    ensures actors { (wiring : Parts) (workers : ℕ) (entries : List Entry) → IsOfNextSteps wiring workers entries → AreActors wiring workers (schedule entries) }
    ensures again { (wiring : Parts) (workers : ℕ) (entries : List Entry) → IsOfNextSteps wiring workers entries → scheduled wiring (schedule entries) ≡ entries }
    ensures only { OfScheduled IsOfNextSteps }
    ensures turns { (wiring : Parts) (turns : List ℕ) → scheduled wiring (schedule (scheduled wiring turns)) ≡ scheduled wiring turns }
{}

/// A text is read exactly where the grammar has it, and as the record that the grammar says. So a text says at most one record,
/// and a refused text says none.
pub fn records_are_read_exactly()
    ensures said { (text : List ℕ) (said : Record) → reading_record text ≡ Ok said → Says text said }
    ensures read { (text : List ℕ) (said : Record) → Says text said → reading_record text ≡ Ok said }
{}

/// A record that was written is read as the record that it was: the wiring that its text says, as many workers, and the same turns.
pub fn records_are_read_again()
    ensures { OfRecords (λ text said. reading_record (record_text text said.workers said.turns) ≡ Ok said) }
{}

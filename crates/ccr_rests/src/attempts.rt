//! What holds of every actor that has come to rest. Each law is the contract of a function that does nothing.

ghost use Rattle.std.specs.Prelude.{ℕ, List, [], Option};
ghost use Rattle.ccr_wiring.specs.declared.parts.Parts.{Parts};
ghost use Rattle.ccr_actor.specs.Nets.{Step, AreFitting, AreNext};
ghost use Rattle.ccr_runs.specs.declared.entries.Entry.{Entry};
ghost use Rattle.ccr_runs.specs.EntryRuns.{Lacks, IsRunAfter};
ghost use Rattle.ccr_rests.specs.Lawful.{SettlesAtRest, SettlesInRun};

/// An actor that rests has settled each of its attempts, over whatever net it was driven, and wherever it found no memory. Its
/// steps are attempts one after the other, with steps between them that belong to none. Of each attempt that was given up, each
/// claim that it got was freed and its booking ended, and it never fired; of each that fired, each claim was consumed, each cut
/// task unbooked, and its task put, unless it waits.
pub fn attempts_of_actors_settle()
    ensures { (wiring : Parts) (actor : ℕ) (lack : Option ℕ) (steps : List Step) → AreNext wiring actor lack [] steps → AreFitting steps → SettlesAtRest wiring actor lack steps }
{}

/// In every run, whichever of its asks found no memory, each actor that has nothing more to ask has settled each of its
/// attempts so.
pub fn attempts_of_runs_settle()
    ensures { (wiring : Parts) (workers : ℕ) (lacks : Lacks) (entries : List Entry) (actor : ℕ) → IsRunAfter wiring workers lacks [] entries → SettlesInRun wiring lacks entries actor }
{}

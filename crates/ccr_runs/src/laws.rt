//! What the histories of places and the logs of seats tell together.

ghost use Rattle.std.specs.Prelude.{ℕ, List};
ghost use Rattle.ccr_turns.specs.declared.history.LogEntry.{LogEntry};
ghost use Rattle.ccr_runs.specs.declared.acts.Act.{Act};
ghost use Rattle.ccr_runs.specs.Stories.{Scene};
ghost use Rattle.ccr_runs.specs.Runs.{Protocol, Cast, MakeRun, TellStory};

/// Merged acts that their places gave, of seats that each have a proper log, are a run.
pub fn proper_logs_make_a_run<N, X, A, R, S>()
    ensures run { (protocol : Protocol N X A R S) (seats : ℕ) (scene : Scene X) (cast : Cast protocol) (acts : List (Act N)) → MakeRun protocol seats scene cast acts }
{}

/// A seat's log is its story in the merged acts.
pub fn logs_are_stories<N, X, A, R, S>()
    ensures story { (protocol : Protocol N X A R S) (seats : ℕ) (scene : Scene X) (acts : List (Act N)) (seat : ℕ) (logged : List (LogEntry N X)) → TellStory protocol seats scene acts seat logged }
{}

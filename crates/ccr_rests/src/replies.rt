//! What the replies of a run name. The law is the contract of a function that does nothing.

ghost use Rattle.ccr_wiring.specs.Actors.{actor_count};
ghost use Rattle.ccr_runs.specs.EntryRuns.{reply_of};
ghost use Rattle.ccr_runs.specs.Visible.{visible};
ghost use Rattle.ccr_rests.specs.Replies.{NamesKnown};
ghost use Rattle.ccr_rests.specs.Given.{RunAt, until};

/// Each reply of a run names only what the wiring has, and what the run has. A port replies with messages that bear its number and
/// were posted there, or names an actor of the run; the tasks that arbiters, sites and queues hand out have fired, and their spots,
/// domains, queues and causes are the wiring's; so are the queues of cut tasks.
pub fn replies_name_what_the_wiring_has()
    ensures { (here : RunAt) → NamesKnown here.wiring (actor_count here.wiring here.workers) (visible (until here)) here.entry.place (reply_of here.wiring here.past here.entry) }
{}

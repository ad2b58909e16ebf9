//! What every legal history says of dropped tasks. Each law is the contract of a function that does nothing.

ghost use Rattle.std.specs.Prelude.{◌≡◌, ◌≤◌, List, Some, true};
ghost use Rattle.ccr_base.specs.declared.names.TaskId.{TaskId};
ghost use Rattle.ccr_base.specs.Names.{has_task};
ghost use Rattle.ccr_model.specs.declared.history.Event.{Event};
ghost use Rattle.ccr_model.specs.declared.history.Event.TheVariants.{Put};
ghost use Rattle.ccr_model.specs.Firings.{dropped, started};
ghost use Rattle.ccr_laws.specs.Lawful.{AreOutside, OfLegal, OfValid};
ghost use Rattle.ccr_laws.specs.Occurring.{Occurs};
ghost use Rattle.ccr_laws.specs.Drops.{times_dropped, IsDroppedByPut, DropsOldest};

/// A dropped task never starts, and exactly one put drops it. A put drops by its queue's policy alone: only a `discard n` queue that
/// holds n tasks, and of these the oldest.
pub fn drops_are_by_policy_alone()
    ensures never_started { OfLegal (λ wiring history. AreOutside (dropped history) (started history)) }
    ensures some_put { (history : List Event) (task : TaskId) → has_task (dropped history) task ≡ true → IsDroppedByPut history task }
    ensures once { OfLegal (λ wiring history. (task : TaskId) → times_dropped history task ≤ 1) }
    ensures policy { OfValid (λ wiring history. (past : List Event) (task other : TaskId) → Occurs history past (Put task (Some other)) → DropsOldest wiring past task other) }
{}

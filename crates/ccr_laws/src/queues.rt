//! What every legal history says of queues. Each law is the contract of a function that does nothing.

ghost use Rattle.std.specs.Prelude.{◌≡◌, ◌++◌, ℕ};
ghost use Rattle.ccr_base.specs.declared.names.TaskId.{TaskId};
ghost use Rattle.ccr_base.specs.Names.{without};
ghost use Rattle.ccr_model.specs.Firings.{dropped};
ghost use Rattle.ccr_model.specs.Tasks.{queued, put_into};
ghost use Rattle.ccr_laws.specs.Lawful.{OfLegal};
ghost use Rattle.ccr_laws.specs.Queues.{started_from, HasStarted, IsPast, IsPutBefore};

/// What started from a queue, followed by what is queued there, is what was put there and not dropped, in the order of the puts.
pub fn tasks_start_in_the_order_of_their_puts()
    ensures { OfLegal (λ wiring history. (queue : ℕ) → started_from wiring history queue ++ queued wiring history queue ≡ without (put_into wiring history queue) (dropped history)) }
{}

/// Once a task has started, each task that was put into its queue before it has started before it or was dropped.
pub fn earlier_puts_start_earlier()
    ensures { OfLegal (λ wiring history. (queue : ℕ) (earlier task : TaskId) → IsPutBefore wiring history queue earlier task → HasStarted history task → IsPast wiring history queue earlier task) }
{}

//! What every legal history says of domains of Interleaves: one Interleave, or those that are combined. Each law is the contract of a function that does nothing.

ghost use Rattle.std.specs.Prelude.{◌≡◌, ◌++◌, ◌∷◌, ℕ, List};
ghost use Rattle.ccr_base.specs.declared.names.TaskId.{TaskId};
ghost use Rattle.ccr_wiring.specs.declared.parts.Parts.{Parts};
ghost use Rattle.ccr_model.specs.declared.history.Event.{Event};
ghost use Rattle.ccr_model.specs.declared.history.Event.TheVariants.{Admit, Start};
ghost use Rattle.ccr_model.specs.Firings.{cut, ever_admitted, put, started};
ghost use Rattle.ccr_model.specs.Sites.{root_of};
ghost use Rattle.ccr_laws.specs.Lawful.{AreOutside, FiresNoMore, HasLiveRoot, IsAtWork, IsOfDomain, IsOnlyOne, Meanwhile, OfFiringsThere, OfGrouped, OfLegal, StartsNoOther, StaysAlone, UntilOver, WorksAlone};

/// A task of a domain that is queued, runs or is suspended is a segment of a root that was admitted and isn't over.
pub fn tasks_at_work_have_admitted_roots()
    ensures { OfLegal (λ wiring history. (domain : ℕ) (task : TaskId) → IsOfDomain wiring history domain task → IsAtWork wiring history task → HasLiveRoot wiring history domain task) }
{}

/// Of one root at most one segment is queued, runs or is suspended.
pub fn roots_have_one_segment_at_work()
    ensures { OfLegal (λ wiring history. (task other : TaskId) → IsAtWork wiring history task → IsAtWork wiring history other → root_of history task ≡ root_of history other → task ≡ other) }
{}

/// From its admission until it is over, an exclusive or teardown root is the only root of its domain that was admitted and
/// isn't over.
pub fn exclusive_roots_stay_alone()
    ensures { (wiring : Parts) (domain : ℕ) (before since : List Event) (root : TaskId) → StaysAlone wiring domain (before ++ Admit root ∷ since) root }
{}

/// From its admission until an exclusive or teardown root is over, no task of another root of its domain is queued, runs or is
/// suspended. While one of its segments is queued, runs or is suspended, no other task of the domain is.
pub fn exclusive_roots_work_alone()
    ensures until_over { OfLegal (λ wiring history. (domain : ℕ) (root other : TaskId) → UntilOver wiring history domain root (WorksAlone wiring history domain root other)) }
    ensures meanwhile { OfLegal (λ wiring history. (domain : ℕ) (task other : TaskId) → Meanwhile wiring history domain task (IsOnlyOne wiring history domain task other)) }
{}

/// After a teardown branch has fired no branch of its domain fires.
pub fn no_branch_fires_after_a_teardown()
    ensures { OfGrouped (λ wiring. (domain : ℕ) (before after : List Event) → OfFiringsThere (λ spot fire. FiresNoMore wiring domain spot (before ++ fire ∷ after) after)) }
{}

/// A task that a teardown cut is neither admitted nor put, and never starts.
pub fn cut_tasks_never_start()
    ensures not_admitted { OfLegal (λ wiring history. AreOutside (cut history) (ever_admitted history)) }
    ensures not_put { OfLegal (λ wiring history. AreOutside (cut history) (put history)) }
    ensures not_started { OfLegal (λ wiring history. AreOutside (cut history) (started history)) }
{}

/// After a task of a teardown branch has started no task of another root of its domain starts.
pub fn no_other_starts_after_a_teardown_task()
    ensures { OfGrouped (λ wiring. (domain : ℕ) (before after : List Event) (task other : TaskId) (actor : ℕ) → StartsNoOther wiring domain (before ++ Start task actor ∷ after) after task other) }
{}

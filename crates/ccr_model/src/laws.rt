//! Laws over every legal history. Each is the contract of a function that does nothing.

ghost use Rattle.std.specs.Prelude.{◌≡◌, ◌≤◌, ◌+◌, ℕ, List, None, true, length};
ghost use Rattle.ccr_base.specs.Bounds.{most_actors};
ghost use Rattle.ccr_wiring.specs.declared.parts.Parts.{Parts};
ghost use Rattle.ccr_base.specs.declared.names.MsgId.{MsgId};
ghost use Rattle.ccr_model.specs.declared.history.Event.{Event};
ghost use Rattle.ccr_model.specs.Legal.{IsLegal};
ghost use Rattle.ccr_model.specs.Legal.{IsIdle, IsQuiet, has_shed};
ghost use Rattle.ccr_model.specs.Order.{first};
ghost use Rattle.ccr_model.specs.Posts.{posts_of_tasks};
ghost use Rattle.ccr_model.specs.Tasks.{count_unfinished};
ghost use Rattle.ccr_model.specs.Consequences.{keeps_exclusion};
ghost use Rattle.ccr_wiring.specs.Openness.{is_closed};
ghost use Rattle.ccr_wiring.specs.Valid.{HasPortsApart, HasQueues};
ghost use Rattle.ccr_model.specs.Laws.{IsFirstAllowed, times_posted, times_taken};

/// No two posts have one name.
pub fn posts_have_names_of_their_own()
    ensures { (wiring : Parts) (history : List Event) → IsLegal wiring history → (name : MsgId) → times_posted history name ≤ 1 }
{}

/// At most one firing names a message, and it names it once.
pub fn messages_are_taken_once()
    ensures { (wiring : Parts) → HasPortsApart wiring → (history : List Event) → IsLegal wiring history → (name : MsgId) → times_taken history name ≤ 1 }
{}

/// What one thread puts first is allowed.
pub fn first_is_allowed()
    ensures { (wiring : Parts) (closer : ℕ) (history : List Event) → length wiring.posters ≤ closer → closer ≤ most_actors → IsLegal wiring history → IsFirstAllowed wiring closer history }
{}

/// Where it puts nothing first in a closed wiring, nothing is allowed.
pub fn none_first_is_quiet()
    ensures { (wiring : Parts) (closer : ℕ) (history : List Event) → HasQueues wiring → is_closed wiring ≡ true → first wiring closer history ≡ None → IsQuiet wiring history }
{}

/// Where a task was shed, posts and running tasks with a post left use the budget up.
pub fn legal_is_covered()
    ensures { (wiring : Parts) (history : List Event) → IsLegal wiring history → has_shed history ≡ true → wiring.budget ≤ posts_of_tasks history + count_unfinished wiring history }
{}

/// The admitted roots of a domain that are not over are all concurrent, or one.
pub fn exclusive_roots_are_alone()
    ensures { (wiring : Parts) (history : List Event) → IsLegal wiring history → (domain : ℕ) → keeps_exclusion wiring history domain ≡ true }
{}

/// A closed wiring that is idle is quiet.
pub fn closed_is_quiet()
    ensures { (wiring : Parts) (history : List Event) → is_closed wiring ≡ true → IsIdle wiring history → IsQuiet wiring history }
{}

//! A run of a generated wiring never spends its budget. Each law is the contract of a function that does nothing.

ghost use Rattle.std.specs.Prelude.{◌≡◌, ◌<◌, ◌≤◌, ℕ, List, true, false};
ghost use Rattle.ccr_base.specs.Bounds.{most_size, most_task_posts};
ghost use Rattle.ccr_model.specs.declared.history.Event.{Event};
ghost use Rattle.ccr_model.specs.Legal.{IsLegal, has_shed, is_complete};
ghost use Rattle.ccr_model.specs.Posts.{posts_of_tasks};
ghost use Rattle.ccr_gen.specs.Generated.{generated};

/// Tasks of a generated wiring post fewer messages than its budget, whatever the history. So in a complete one no task was shed.
pub fn generated_wirings_never_shed()
    ensures posts { (size : ℕ) → size ≤ most_size → (history : List Event) → IsLegal (generated size) history → posts_of_tasks history < most_task_posts }
    ensures unshed { (size : ℕ) → size ≤ most_size → (history : List Event) → IsLegal (generated size) history → is_complete (generated size) history ≡ true → has_shed history ≡ false }
{}

//! When two posts, lists of tasks and drops are the same.

ghost use Rattle.std.specs.Prelude.{◌≡◌, ◌==◌};
ghost use Rattle.ccr_base.specs.Names.{same_lists, same_options, same_task};
ghost use Rattle.ccr_model.specs.Rules.{is_post};

use ccr_base::{CauseNo, Msg, PortNo, TaskId, Value};

/// Whether the message is the post, but for its name.
#[tactic(auto, using(crate::proofs::SameLists::same_items))]
pub fn is_post(message: &Msg, port: PortNo, value: &Value, causes: &[CauseNo]) -> bool
    ensures { result ≡ is_post message.now (record { port = port; value = value.now; causes = causes.now }) }
{
    message.port == port && message.value == *value && message.causes.as_slice() == causes
}

/// Whether the causes are these, in this order.
#[tactic(auto, using(crate::proofs::SameLists::same_items))]
pub fn are_same_causes(causes: &[CauseNo], others: &[CauseNo]) -> bool
    ensures { result ≡ same_lists (λ c d. c == d) causes.now others.now }
{
    causes == others
}

/// Whether the tasks are these, in this order.
#[tactic(auto, using(crate::proofs::SameLists::same_items))]
pub fn are_same_tasks(tasks: &[TaskId], others: &[TaskId]) -> bool
    ensures { result ≡ same_lists same_task tasks.now others.now }
{
    tasks == others
}

/// Whether the same task is dropped, or none.
pub fn is_same_drop(dropped: Option<TaskId>, due: Option<TaskId>) -> bool
    ensures { result ≡ same_options same_task dropped due }
{
    dropped == due
}

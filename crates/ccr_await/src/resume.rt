//! How a suspended task goes on.

ghost use Rattle.std.specs.Prelude.{◌≡◌, IfOk};
ghost use Rattle.ccr_await.specs.Resuming.{resumed};

use ccr_base::{List, OutOfMemory, Task};
use ccr_cause::union;
use std::alloc::Global;

/// The task that goes on for the suspended one, under the new task's name, with its values and causes behind.
pub fn resume(alloc: Global, suspended: &Task, task: &Task) -> Result<Task, OutOfMemory>
    ensures { IfOk result (λ next. next ≡ resumed suspended.now task.now) }
{
    let mut values = suspended.values.copy(alloc)?.into_vec();
    values.extend_from_slice(task.values.as_slice())?;
    let causes = union(alloc, &suspended.causes, &task.causes)?;
    Ok(Task {
        id: task.id,
        root: suspended.root,
        spot: task.spot,
        arbiter: suspended.arbiter,
        queue: suspended.queue,
        values: List::from_vec(values),
        causes,
    })
}

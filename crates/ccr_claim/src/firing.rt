//! The task of a firing, from the messages that its ports gave.

ghost use Rattle.std.specs.Prelude.{◌≡◌, ◌++◌, List, [], IfOk};
ghost use Rattle.ccr_base.specs.declared.messages.Msg.{Msg};
ghost use Rattle.ccr_claim.specs.Plans.{had_at, in_pattern, in_slots};
ghost use Rattle.ccr_claim.specs.Firings.{IsOf, firing_of, ready_of};

use crate::{ClaimPlan, Had};
use ccr_base::{
    CauseNo, List, Msg, MsgId, OutOfMemory, Pattern, PortNo, Slot, Task, TaskId, Value,
};
use ccr_cause::union;
use std::alloc::Global;

/// What is committed: the task, and the names of its messages.
#[derive(Drop)]
pub struct Firing {
    pub task: Task,
    pub names: List<MsgId>,
}

/// The names, the values and the causes of messages.
#[derive(Drop)]
pub struct Gathered {
    names: Vec<MsgId>,
    values: Vec<Value>,
    causes: List<CauseNo>,
}

/// What is to be committed, once no slot is left to claim.
pub fn ready(
    alloc: Global,
    left: &[Slot],
    plan: &ClaimPlan,
    task: TaskId,
    had: &[Had],
) -> Result<Option<Firing>, OutOfMemory>
    ensures { IfOk result (λ firing. firing ≡ ready_of left.now plan.now task had.now) }
{
    if left.is_empty() {
        Ok(Some(make_firing(alloc, plan, task, had)?))
    } else {
        Ok(None)
    }
}

/// The firing of all that the ports gave, in the order of the pattern.
fn make_firing(
    alloc: Global,
    plan: &ClaimPlan,
    task: TaskId,
    had: &[Had],
) -> Result<Firing, OutOfMemory>
    ensures { IfOk result (λ firing. firing ≡ firing_of plan.now task had.now) }
{
    let Gathered {
        names,
        values,
        causes,
    } = in_pattern(alloc, &plan.pattern, had)?;
    Ok(Firing {
        task: Task {
            id: task,
            root: task,
            spot: plan.spot,
            arbiter: plan.arbiter,
            queue: plan.queue,
            values: List::from_vec(values),
            causes,
        },
        names: List::from_vec(names),
    })
}

/// All that the ports gave, in the order of the pattern.
fn in_pattern(alloc: Global, pattern: &Pattern, had: &[Had]) -> Result<Gathered, OutOfMemory>
    ensures { IfOk result (λ all. IsOf (in_pattern pattern.now had.now) all) }
{
    match pattern {
        Pattern::Slots(slots) => of_slots(alloc, slots.as_slice(), had),
        Pattern::Gather { first, second, .. } => {
            let mut all = none(alloc);
            all.gather(alloc, messages_at(had, *first))?;
            all.gather(alloc, messages_at(had, *second))?;
            Ok(all)
        }
    }
}

/// What the ports of the slots gave, slot by slot.
fn of_slots(alloc: Global, slots: &[Slot], had: &[Had]) -> Result<Gathered, OutOfMemory>
    ensures { IfOk result (λ all. IsOf (in_slots slots.now had.now) all) }
{
    let mut all = none(alloc);
    for slot in slots {
        all.gather(alloc, messages_at(had, slot.port))?;
    }
    Ok(all)
}

/// Of no message.
fn none(alloc: Global) -> Gathered
    ensures { IsOf [] result }
{
    Gathered {
        names: Vec::new(alloc),
        values: Vec::new(alloc),
        causes: List::new(alloc),
    }
}

/// What the claim at the port got.
fn messages_at(had: &[Had], port: PortNo) -> &[Msg]
    ensures { result.now ≡ had_at had.now port }
{
    for one in had {
        if one.slot.port == port {
            return one.messages.as_slice();
        }
    }
    &[]
}

impl Gathered {
    /// Adds those of the messages.
    fn gather(&mut self, alloc: Global, messages: &[Msg]) -> Result<(), OutOfMemory>
        ensures { IfOk result (λ _. (before : List Msg) → IsOf before self.old → IsOf (before ++ messages.now) self.new) }
    {
        for message in messages {
            self.names.push(message.id)?;
            self.values.push(message.value)?;
            self.causes = union(alloc, &self.causes, &message.causes)?;
        }
        Ok(())
    }
}

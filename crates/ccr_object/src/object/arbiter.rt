//! A receiver or a choice answers.

ghost use Rattle.std.specs.Prelude.{◌≡◌, IfOk, OnErr, IsOk, true};
ghost use Rattle.ccr_claim.specs.Asks.{is_settling};
ghost use Rattle.ccr_object.specs.Arbiters.{answer, after};

use super::noting::committed;
use ccr_arbiter::ArbiterObject;
use ccr_base::{How, List, MsgId, OutOfMemory, Task, TaskId};
use ccr_claim::{Ask, Reply};
use ccr_places::Note;
use std::alloc::Global;

pub(super) fn act(
    alloc: Global,
    arbiter: &mut ArbiterObject,
    ask: Ask,
) -> Result<Option<(Reply, Note)>, OutOfMemory>
    ensures answer { IfOk result (λ given. given ≡ answer arbiter.old ask) }
    ensures state { IfOk result (λ given. arbiter.new ≡ after arbiter.old ask) }
    ensures err { OnErr result (arbiter.new ≡ arbiter.old) }
    ensures settles { is_settling ask ≡ true → IsOk result }
{
    match ask {
        Ask::Commit(task, messages) => commit(alloc, arbiter, task, messages),
        Ask::Over { task, root, how } => Ok(over(arbiter, task, root, how)),
        _ => Ok(None),
    }
}

fn over(arbiter: &mut ArbiterObject, task: TaskId, root: TaskId, how: How) -> Option<(Reply, Note)>
    ensures answer { result ≡ answer arbiter.old (Ask.Over task root how) }
    ensures state { arbiter.new ≡ after arbiter.old (Ask.Over task root how) }
{
    let asked = how;
    let noted = how;
    if !arbiter.may_over(task, root, asked) {
        return None;
    }
    arbiter.over(task, root, how);
    let note = Note::Over {
        task,
        root,
        how: noted,
    };
    Some((Reply::Done, note))
}

fn commit(
    alloc: Global,
    arbiter: &mut ArbiterObject,
    task: Task,
    messages: List<MsgId>,
) -> Result<Option<(Reply, Note)>, OutOfMemory>
    ensures answer { IfOk result (λ given. given ≡ answer arbiter.old (Ask.Commit task messages)) }
    ensures state { IfOk result (λ given. arbiter.new ≡ after arbiter.old (Ask.Commit task messages)) }
    ensures err { OnErr result (arbiter.new ≡ arbiter.old) }
{
    if !arbiter.may_commit(&task) {
        return Ok(None);
    }
    let id = task.id;
    let spot = task.spot;
    let commit = arbiter.commit(task)?;
    Ok(Some(committed(alloc, id, spot, messages, commit)))
}

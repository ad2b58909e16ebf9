//! A site answers.

ghost use Rattle.std.specs.Prelude.{◌≡◌, IfOk, OnErr, IsOk, true};
ghost use Rattle.ccr_claim.specs.Asks.{is_settling};
ghost use Rattle.ccr_object.specs.Sites.{answer, after};

use super::noting::committed;
use ccr_await::SiteObject;
use ccr_base::{List, MsgId, OutOfMemory, Task};
use ccr_claim::{Ask, Reply};
use ccr_places::Note;
use std::alloc::Global;

pub(super) fn act(
    alloc: Global,
    site: &mut SiteObject,
    ask: Ask,
) -> Result<Option<(Reply, Note)>, OutOfMemory>
    ensures answer { IfOk result (λ given. given ≡ answer site.old ask) }
    ensures state { IfOk result (λ given. site.new ≡ after site.old ask) }
    ensures err { OnErr result (site.new ≡ site.old) }
    ensures settles { is_settling ask ≡ true → IsOk result }
{
    match ask {
        Ask::Commit(task, messages) => commit(alloc, site, task, messages),
        Ask::Suspend(task) => {
            let id = task.id;
            match site.suspend(task) {
                Ok(()) => Ok(Some((Reply::Done, Note::Suspend(id)))),
                Err((refused, _)) => Err(refused),
            }
        }
        _ => Ok(None),
    }
}

fn commit(
    alloc: Global,
    site: &mut SiteObject,
    task: Task,
    messages: List<MsgId>,
) -> Result<Option<(Reply, Note)>, OutOfMemory>
    ensures answer { IfOk result (λ given. given ≡ answer site.old (Ask.Commit task messages)) }
    ensures state { IfOk result (λ given. site.new ≡ after site.old (Ask.Commit task messages)) }
    ensures err { OnErr result (site.new ≡ site.old) }
{
    if !site.may_commit(&task) {
        return Ok(None);
    }
    let id = task.id;
    let spot = task.spot;
    let commit = site.commit(task)?;
    Ok(Some(committed(alloc, id, spot, messages, commit)))
}

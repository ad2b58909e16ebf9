//! An Interleave answers.

ghost use Rattle.std.specs.Prelude.{◌≡◌, ◌≤◌, [], length, IfOk, OnErr, vec_capacity, IsOk, true};
ghost use Rattle.ccr_claim.specs.Asks.{is_settling};
ghost use Rattle.ccr_object.specs.Interleaves.{answer, after};
ghost use Rattle.ccr_object.specs.Commits.{commit_reply, cuts_of, noted};
ghost use Rattle.ccr_places.specs.Commits.{cut_tasks};

use ccr_base::{Commit, Cut, How, List, MsgId, OutOfMemory, Spot, Task, TaskId};
use ccr_claim::{Ask, Reply};
use ccr_interleave::InterleaveObject;
use ccr_places::Note;
use std::alloc::Global;

pub(super) fn act(
    alloc: Global,
    place: &mut InterleaveObject,
    ask: Ask,
) -> Result<Option<(Reply, Note)>, OutOfMemory>
    ensures answer { IfOk result (λ given. given ≡ answer place.old ask) }
    ensures state { IfOk result (λ given. place.new ≡ after place.old ask) }
    ensures err { OnErr result (place.new ≡ place.old) }
    ensures settles { is_settling ask ≡ true → IsOk result }
{
    match ask {
        Ask::Commit(task, messages) => commit(alloc, place, task, messages),
        Ask::Admit => {
            let task = place.admit();
            let noted = match &task {
                Some(task) => Some(task.id),
                None => None,
            };
            Ok(Some((Reply::Admitted(task), Note::Admit(noted))))
        }
        Ask::Over { task, root, how } => Ok(over(place, task, root, how)),
        _ => Ok(None),
    }
}

fn over(place: &mut InterleaveObject, task: TaskId, root: TaskId, how: How) -> Option<(Reply, Note)>
    ensures answer { result ≡ answer place.old (Ask.Over task root how) }
    ensures state { place.new ≡ after place.old (Ask.Over task root how) }
{
    let asked = how;
    let noted = how;
    if !place.may_over(task, root, asked) {
        return None;
    }
    place.over(task, root, how);
    let note = Note::Over {
        task,
        root,
        how: noted,
    };
    Some((Reply::Done, note))
}

#[tactic(auto, using(crate::proofs::Cuts::cuts_counted))]
fn commit(
    alloc: Global,
    place: &mut InterleaveObject,
    task: Task,
    messages: List<MsgId>,
) -> Result<Option<(Reply, Note)>, OutOfMemory>
    ensures answer { IfOk result (λ given. given ≡ answer place.old (Ask.Commit task messages)) }
    ensures state { IfOk result (λ given. place.new ≡ after place.old (Ask.Commit task messages)) }
    ensures err { OnErr result (place.new ≡ place.old) }
{
    if !place.may_commit(&task) {
        return Ok(None);
    }
    let id = task.id;
    let spot = task.spot;
    let names = Vec::with_capacity(alloc, place.cut_count(&task))?;
    let commit = place.commit(task)?;
    Ok(Some(committed(id, spot, messages, commit, names)))
}

/// Of a commit, with room for the names of what it cut and for no more.
fn committed(
    id: TaskId,
    spot: Spot,
    messages: List<MsgId>,
    commit: Commit,
    names: Vec<TaskId>,
) -> (Reply, Note)
    requires room { vec_capacity names ≡ length (cuts_of commit) }
    requires empty { names.items ≡ [] }
    ensures reply { result.0 ≡ commit_reply commit }
    ensures note { result.1 ≡ noted id spot messages commit }
{
    match commit {
        Commit::Fired { task, cuts } => {
            let names = names_of(cuts.as_slice(), names);
            (
                Reply::Fired { task, cuts },
                Note::Fired {
                    task: id,
                    spot,
                    messages,
                    cuts: List::from_vec(names),
                },
            )
        }
        Commit::Dead(by) => (Reply::Dead(by), Note::Dead { task: id, spot, by }),
    }
}

fn names_of(cuts: &[Cut], mut names: Vec<TaskId>) -> Vec<TaskId>
    requires room { length cuts.now ≤ vec_capacity names }
    requires empty { names.items ≡ [] }
    ensures { result.items ≡ cut_tasks cuts.now }
{
    for cut in cuts {
        names.push_reserved(cut.task);
    }
    names
}

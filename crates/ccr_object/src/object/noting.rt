//! What a commit replies and notes.

ghost use Rattle.std.specs.Prelude.{◌≡◌, []};
ghost use Rattle.ccr_object.specs.Commits.{commit_reply, cuts_of, noted};

use ccr_base::{Commit, List, MsgId, Spot, TaskId};
use ccr_claim::Reply;
use ccr_places::Note;
use std::alloc::Global;

/// Of a commit that cut nothing.
pub(super) fn committed(
    alloc: Global,
    id: TaskId,
    spot: Spot,
    messages: List<MsgId>,
    commit: Commit,
) -> (Reply, Note)
    requires { cuts_of commit ≡ [] }
    ensures reply { result.0 ≡ commit_reply commit }
    ensures note { result.1 ≡ noted id spot messages commit }
{
    match commit {
        Commit::Fired { task, cuts } => (
            Reply::Fired { task, cuts },
            Note::Fired {
                task: id,
                spot,
                messages,
                cuts: List::new(alloc),
            },
        ),
        Commit::Dead(by) => (Reply::Dead(by), Note::Dead { task: id, spot, by }),
    }
}

//! A queue answers.

ghost use Rattle.std.specs.Prelude.{◌≡◌, IfOk, OnErr, IsOk, true};
ghost use Rattle.std.specs.Option.{option_map};
ghost use Rattle.ccr_claim.specs.Asks.{is_settling};
ghost use Rattle.ccr_object.specs.Queues.{answer, after};

use ccr_base::{OutOfMemory, Task, TaskId};
use ccr_claim::{Ask, Reply};
use ccr_places::Note;
use ccr_queue::{Booked, QueueObject};

#[inline(always)]
pub(super) fn act(queue: &mut QueueObject, ask: Ask) -> Result<Option<(Reply, Note)>, OutOfMemory>
    ensures answer { IfOk result (λ given. given ≡ answer queue.old ask) }
    ensures state { IfOk result (λ given. queue.new ≡ after queue.old ask) }
    ensures err { OnErr result (queue.new ≡ queue.old) }
    ensures settles { is_settling ask ≡ true → IsOk result }
{
    match ask {
        Ask::Book(task, resumes) => book(queue, task, resumes),
        Ask::Unbook(task) => {
            if !queue.may_unbook(task) {
                return Ok(None);
            }
            queue.unbook(task);
            Ok(Some((Reply::Done, Note::Unbook(task))))
        }
        Ask::Put(task) => Ok(put(queue, task)),
        Ask::Take => {
            let taken = queue.take();
            let noted = id_of(&taken);
            Ok(Some((Reply::Taken(taken), Note::Take(noted))))
        }
        _ => Ok(None),
    }
}

#[inline(always)]
fn book(
    queue: &mut QueueObject,
    task: TaskId,
    resumes: bool,
) -> Result<Option<(Reply, Note)>, OutOfMemory>
    ensures answer { IfOk result (λ given. given ≡ answer queue.old (Ask.Book task resumes)) }
    ensures state { IfOk result (λ given. queue.new ≡ after queue.old (Ask.Book task resumes)) }
    ensures err { OnErr result (queue.new ≡ queue.old) }
{
    if !queue.may_book(task, resumes) {
        return Ok(None);
    }
    Ok(Some(match queue.book(task, resumes)? {
        Booked::Yes => (
            Reply::Booked,
            Note::Book {
                task,
                resumes,
                full: None,
            },
        ),
        Booked::Full(n) => (
            Reply::Full(n),
            Note::Book {
                task,
                resumes,
                full: Some(n),
            },
        ),
    }))
}

#[inline(always)]
fn put(queue: &mut QueueObject, task: Task) -> Option<(Reply, Note)>
    ensures answer { result ≡ answer queue.old (Ask.Put task) }
    ensures state { queue.new ≡ after queue.old (Ask.Put task) }
{
    if !queue.may_put(&task) {
        return None;
    }
    let id = task.id;
    let dropped = queue.put(task);
    let noted = id_of(&dropped);
    Some((
        Reply::Dropped(dropped),
        Note::Put {
            task: id,
            dropped: noted,
        },
    ))
}

fn id_of(task: &Option<Task>) -> Option<TaskId>
    ensures { result ≡ option_map (λ t. t.id) task.now }
{
    match task {
        Some(task) => Some(task.id),
        None => None,
    }
}

//! Asks as words.

use crate::making::{at, message, pred_of, task, task_of_site};
use ccr_base::{How, List, Slot, Spot, Task, TaskId};
use ccr_claim::Ask;
use std::alloc::Global;

/// The task of the first two numbers.
fn name(numbers: &[u32]) -> TaskId {
    TaskId {
        actor: at(numbers, 0),
        attempt: at(numbers, 1),
    }
}

/// A claim of the task for so many messages of a port: actor, attempt, port, least, most and the predicate's number.
fn claim(word: &str, numbers: &[u32]) -> Ask {
    let slot = Slot {
        port: at(numbers, 2),
        least: at(numbers, 3),
        most: at(numbers, 4),
        pred: pred_of(word, at(numbers, 5)),
    };
    Ask::Claim(name(numbers), slot)
}

fn over(numbers: &[u32]) -> Ask {
    Ask::Over {
        task: name(numbers),
        root: name(numbers),
        how: How::Done,
    }
}

/// The task at its branch, or at the first site of branch 0.
fn task_at(alloc: Global, is_at_site: bool, numbers: &[u32]) -> Task {
    let mut task = task(alloc, numbers);
    if is_at_site {
        task.spot = Spot::Site(0, 0);
    }
    task
}

/// The asks of tasks that are committed, suspended and put. Behind `_site` stands a task at a site; `resume` and `await` are of the second
/// site of branch 5.
fn ask_with_task(alloc: Global, word: &str, numbers: &[u32]) -> Option<Ask> {
    let (kind, is_at_site) = match word.strip_suffix("_site") {
        Some(kind) => (kind, true),
        None => (word, false),
    };
    Some(match kind {
        "commit" => Ask::Commit(task_at(alloc, is_at_site, numbers), List::new(alloc)),
        "suspend" => Ask::Suspend(task_at(alloc, is_at_site, numbers)),
        "put" => Ask::Put(task_at(alloc, is_at_site, numbers)),
        "resume" => {
            let task = task_of_site(alloc, Spot::Site(5, 1), numbers);
            Ask::Commit(task, List::new(alloc))
        }
        "await" => Ask::Suspend(task_of_site(alloc, Spot::Branch(5), numbers)),
        _ => return None,
    })
}

/// The ask of this word with these numbers.
pub fn ask_of(alloc: Global, word: &str, numbers: &[u32]) -> Option<Ask> {
    Some(match word {
        "post" => Ask::Post(message(alloc, at(numbers, 0), at(numbers, 1), at(numbers, 2))),
        "any" | "ge" | "lt" | "eq" => claim(word, numbers),
        "consume" => Ask::Consume(name(numbers)),
        "free" => Ask::Free(name(numbers)),
        "admit" => Ask::Admit,
        "over" => over(numbers),
        "book" => Ask::Book(name(numbers), false),
        "rebook" => Ask::Book(name(numbers), true),
        "unbook" => Ask::Unbook(name(numbers)),
        "take" => Ask::Take,
        "draw" => Ask::Draw,
        "leave" => Ask::Leave,
        "left" => Ask::Left,
        _ => return ask_with_task(alloc, word, numbers),
    })
}

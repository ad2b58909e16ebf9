//! Whether two lists of entries are the same.

ghost use Rattle.std.specs.Prelude.{◌≡◌, true, false};

use ccr_base::{By, CauseNo, How, List, Msg, MsgId, Slot, Spot, TaskId};
use ccr_places::{ClaimNote, Note};
use ccr_runs::Entry;

fn same_task(one: Option<TaskId>, other: Option<TaskId>) -> bool
    ensures yes { result ≡ true → one ≡ other }
    ensures no { result ≡ false → one ≡ other → ⊥ }
{
    one == other
}

fn same_number(one: Option<u32>, other: Option<u32>) -> bool
    ensures yes { result ≡ true → one ≡ other }
    ensures no { result ≡ false → one ≡ other → ⊥ }
{
    one == other
}

fn same_causes(one: &[CauseNo], other: &[CauseNo]) -> bool
    ensures yes { result ≡ true → one.now ≡ other.now }
    ensures no { result ≡ false → one.now ≡ other.now → ⊥ }
{
    one == other
}

fn same_messages(one: &[MsgId], other: &[MsgId]) -> bool
    ensures yes { result ≡ true → one.now ≡ other.now }
    ensures no { result ≡ false → one.now ≡ other.now → ⊥ }
{
    let mut left = one;
    let mut right = other;
    'items: while let Some((first, more)) = left.split_first() {
        let Some((second, others)) = right.split_first() else {
            return false;
        };
        if *first != *second {
            return false;
        }
        left = more;
        right = others;
    }
    right.is_empty()
}

fn same_tasks(one: &[TaskId], other: &[TaskId]) -> bool
    ensures yes { result ≡ true → one.now ≡ other.now }
    ensures no { result ≡ false → one.now ≡ other.now → ⊥ }
{
    let mut left = one;
    let mut right = other;
    'items: while let Some((first, more)) = left.split_first() {
        let Some((second, others)) = right.split_first() else {
            return false;
        };
        if *first != *second {
            return false;
        }
        left = more;
        right = others;
    }
    right.is_empty()
}

fn same_message(one: &Msg, other: &Msg) -> bool
    ensures yes { result ≡ true → one.now ≡ other.now }
    ensures no { result ≡ false → one.now ≡ other.now → ⊥ }
{
    if one.id != other.id {
        return false;
    }
    if one.port != other.port {
        return false;
    }
    if one.value != other.value {
        return false;
    }
    same_causes(one.causes.as_slice(), other.causes.as_slice())
}

fn is_post(message: &Msg, other: &Note) -> bool
    ensures yes { result ≡ true → Note.Post message.now ≡ other.now }
    ensures no { result ≡ false → Note.Post message.now ≡ other.now → ⊥ }
{
    match other {
        Note::Post(found) => same_message(message, found),
        _ => false,
    }
}

fn is_consume(task: TaskId, other: &Note) -> bool
    ensures yes { result ≡ true → Note.Consume task ≡ other.now }
    ensures no { result ≡ false → Note.Consume task ≡ other.now → ⊥ }
{
    match other {
        Note::Consume(found) => task == *found,
        _ => false,
    }
}

fn is_free(task: TaskId, other: &Note) -> bool
    ensures yes { result ≡ true → Note.Free task ≡ other.now }
    ensures no { result ≡ false → Note.Free task ≡ other.now → ⊥ }
{
    match other {
        Note::Free(found) => task == *found,
        _ => false,
    }
}

fn is_suspend(task: TaskId, other: &Note) -> bool
    ensures yes { result ≡ true → Note.Suspend task ≡ other.now }
    ensures no { result ≡ false → Note.Suspend task ≡ other.now → ⊥ }
{
    match other {
        Note::Suspend(found) => task == *found,
        _ => false,
    }
}

fn is_unbook(task: TaskId, other: &Note) -> bool
    ensures yes { result ≡ true → Note.Unbook task ≡ other.now }
    ensures no { result ≡ false → Note.Unbook task ≡ other.now → ⊥ }
{
    match other {
        Note::Unbook(found) => task == *found,
        _ => false,
    }
}

fn is_admit(task: Option<TaskId>, other: &Note) -> bool
    ensures yes { result ≡ true → Note.Admit task ≡ other.now }
    ensures no { result ≡ false → Note.Admit task ≡ other.now → ⊥ }
{
    match other {
        Note::Admit(found) => same_task(task, *found),
        _ => false,
    }
}

fn is_take(task: Option<TaskId>, other: &Note) -> bool
    ensures yes { result ≡ true → Note.Take task ≡ other.now }
    ensures no { result ≡ false → Note.Take task ≡ other.now → ⊥ }
{
    match other {
        Note::Take(found) => same_task(task, *found),
        _ => false,
    }
}

fn is_draw(number: Option<u32>, other: &Note) -> bool
    ensures yes { result ≡ true → Note.Draw number ≡ other.now }
    ensures no { result ≡ false → Note.Draw number ≡ other.now → ⊥ }
{
    match other {
        Note::Draw(found) => same_number(number, *found),
        _ => false,
    }
}

fn is_left(count: u32, other: &Note) -> bool
    ensures yes { result ≡ true → Note.Left count ≡ other.now }
    ensures no { result ≡ false → Note.Left count ≡ other.now → ⊥ }
{
    match other {
        Note::Left(found) => count == *found,
        _ => false,
    }
}

fn is_leave(other: &Note) -> bool
    ensures yes { result ≡ true → Note.Leave ≡ other.now }
    ensures no { result ≡ false → Note.Leave ≡ other.now → ⊥ }
{
    match other {
        Note::Leave => true,
        _ => false,
    }
}

fn is_claim(task: TaskId, slot: Slot, reply: ClaimNote, other: &Note) -> bool
    ensures yes { result ≡ true → Note.Claim task slot reply ≡ other.now }
    ensures no { result ≡ false → Note.Claim task slot reply ≡ other.now → ⊥ }
{
    let Note::Claim {
        task: found,
        slot: wanted,
        reply: answer,
    } = other
    else {
        return false;
    };
    if task != *found {
        return false;
    }
    if slot != *wanted {
        return false;
    }
    reply == *answer
}

fn is_fired(
    task: TaskId,
    spot: Spot,
    messages: &List<MsgId>,
    cuts: &List<TaskId>,
    other: &Note,
) -> bool
    ensures yes { result ≡ true → Note.Fired task spot messages.now cuts.now ≡ other.now }
    ensures no { result ≡ false → Note.Fired task spot messages.now cuts.now ≡ other.now → ⊥ }
{
    let Note::Fired {
        task: found,
        spot: at,
        messages: taken,
        cuts: stopped,
    } = other
    else {
        return false;
    };
    if task != *found {
        return false;
    }
    if spot != *at {
        return false;
    }
    if !same_messages(messages.as_slice(), taken.as_slice()) {
        return false;
    }
    same_tasks(cuts.as_slice(), stopped.as_slice())
}

fn is_dead(task: TaskId, spot: Spot, by: By, other: &Note) -> bool
    ensures yes { result ≡ true → Note.Dead task spot by ≡ other.now }
    ensures no { result ≡ false → Note.Dead task spot by ≡ other.now → ⊥ }
{
    let Note::Dead {
        task: found,
        spot: at,
        by: why,
    } = other
    else {
        return false;
    };
    if task != *found {
        return false;
    }
    if spot != *at {
        return false;
    }
    by == *why
}

fn is_over(task: TaskId, root: TaskId, how: How, other: &Note) -> bool
    ensures yes { result ≡ true → Note.Over task root how ≡ other.now }
    ensures no { result ≡ false → Note.Over task root how ≡ other.now → ⊥ }
{
    let Note::Over {
        task: found,
        root: first,
        how: end,
    } = other
    else {
        return false;
    };
    if task != *found {
        return false;
    }
    if root != *first {
        return false;
    }
    how == *end
}

fn is_book(task: TaskId, resumes: bool, full: Option<u32>, other: &Note) -> bool
    ensures yes { result ≡ true → Note.Book task resumes full ≡ other.now }
    ensures no { result ≡ false → Note.Book task resumes full ≡ other.now → ⊥ }
{
    let Note::Book {
        task: found,
        resumes: again,
        full: count,
    } = other
    else {
        return false;
    };
    if task != *found {
        return false;
    }
    if resumes != *again {
        return false;
    }
    same_number(full, *count)
}

fn is_put(task: TaskId, dropped: Option<TaskId>, other: &Note) -> bool
    ensures yes { result ≡ true → Note.Put task dropped ≡ other.now }
    ensures no { result ≡ false → Note.Put task dropped ≡ other.now → ⊥ }
{
    let Note::Put {
        task: found,
        dropped: out,
    } = other
    else {
        return false;
    };
    if task != *found {
        return false;
    }
    same_task(dropped, *out)
}

fn same_note(one: &Note, other: &Note) -> bool
    ensures yes { result ≡ true → one.now ≡ other.now }
    ensures no { result ≡ false → one.now ≡ other.now → ⊥ }
{
    match one {
        Note::Post(message) => is_post(message, other),
        Note::Claim { task, slot, reply } => is_claim(*task, *slot, *reply, other),
        Note::Consume(task) => is_consume(*task, other),
        Note::Free(task) => is_free(*task, other),
        Note::Fired {
            task,
            spot,
            messages,
            cuts,
        } => is_fired(*task, *spot, messages, cuts, other),
        Note::Dead { task, spot, by } => is_dead(*task, *spot, *by, other),
        Note::Admit(task) => is_admit(*task, other),
        Note::Over { task, root, how } => is_over(*task, *root, *how, other),
        Note::Suspend(task) => is_suspend(*task, other),
        Note::Book {
            task,
            resumes,
            full,
        } => is_book(*task, *resumes, *full, other),
        Note::Unbook(task) => is_unbook(*task, other),
        Note::Put { task, dropped } => is_put(*task, *dropped, other),
        Note::Take(task) => is_take(*task, other),
        Note::Draw(number) => is_draw(*number, other),
        Note::Leave => is_leave(other),
        Note::Left(count) => is_left(*count, other),
    }
}

#[tactic(auto, using(crate::proofs::EntryParts::same_entry))]
fn same_entry(one: &Entry, other: &Entry) -> bool
    ensures yes { result ≡ true → one.now ≡ other.now }
    ensures no { result ≡ false → one.now ≡ other.now → ⊥ }
{
    if one.actor != other.actor {
        return false;
    }
    if one.place != other.place {
        return false;
    }
    if one.stamp != other.stamp {
        return false;
    }
    same_note(&one.note, &other.note)
}

/// Whether the entries are the same, one by one.
pub fn are_same(one: &[Entry], other: &[Entry]) -> bool
    ensures yes { result ≡ true → one.now ≡ other.now }
    ensures no { result ≡ false → one.now ≡ other.now → ⊥ }
{
    let mut left = one;
    let mut right = other;
    'entries: while let Some((first, more)) = left.split_first() {
        let Some((second, others)) = right.split_first() else {
            return false;
        };
        if !same_entry(first, second) {
            return false;
        }
        left = more;
        right = others;
    }
    right.is_empty()
}

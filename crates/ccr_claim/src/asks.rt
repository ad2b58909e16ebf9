//! What an actor asks of a place, and what it is answered.

ghost use Rattle.std.specs.Prelude.{◌≡◌, ◌==◌};
ghost use Rattle.std.specs.List.{list_all};
ghost use Rattle.ccr_base.specs.declared.messages.Msg.{Msg as Message};
ghost use Rattle.ccr_claim.specs.declared.asks.Due.TheVariants as dues;
ghost use Rattle.ccr_claim.specs.Asks.{is_settling, due_of, are_of, fits, may_come};

use ccr_base::{By, Cut, How, List, Msg, MsgId, OutOfMemory, Place, PortNo, Slot, Task, TaskId};

/// What is asked of a place.
#[derive(Drop)]
pub enum Ask {
    Post(Msg),
    Claim(TaskId, Slot),
    Consume(TaskId),
    Free(TaskId),
    Commit(Task, List<MsgId>),
    Admit,
    Over {
        task: TaskId,
        root: TaskId,
        how: How,
    },
    Suspend(Task),
    Book(TaskId, bool),
    Unbook(TaskId),
    Put(Task),
    Take,
    Draw,
    Leave,
    Left,
}

/// An ask at a place.
#[derive(Drop)]
pub struct Asked {
    pub place: Place,
    pub ask: Ask,
}

/// What a place answers.
#[derive(Drop)]
pub enum Reply {
    Done,
    Got(List<Msg>),
    Busy(TaskId),
    Short(u32),
    Fired { task: Option<Task>, cuts: List<Cut> },
    Dead(By),
    Admitted(Option<Task>),
    Booked,
    Full(u32),
    Dropped(Option<Task>),
    Taken(Option<Task>),
    Drawn(u32),
    Spent,
    Left(u32),
}

/// Which replies an ask may have: none, where no ask is unanswered; that it is done, where it settles something or not;
/// and those of the call of its name.
#[derive(Clone, Copy, PartialEq, Eq)]
pub enum Due {
    Nothing,
    Settled,
    Put,
    Done,
    Booking,
    Claim(Slot),
    Commit,
    Admission,
    Take,
    Draw,
    Left,
}

/// Whether the ask settles what an earlier reply gave. It takes no memory at its place, and is never refused.
pub fn settles(ask: &Ask) -> bool
    ensures { result ≡ is_settling ask.now }
{
    matches!(
        ask,
        Ask::Consume(_) | Ask::Free(_) | Ask::Over { .. } | Ask::Unbook(_) | Ask::Put(_)
    )
}

/// Which replies the ask may have.
pub fn due_of(ask: &Ask) -> Due
    ensures { result ≡ due_of ask.now }
{
    match ask {
        Ask::Consume(_) | Ask::Free(_) | Ask::Unbook(_) | Ask::Over { .. } => Due::Settled,
        Ask::Put(_) => Due::Put,
        Ask::Post(_) | Ask::Suspend(_) | Ask::Leave => Due::Done,
        Ask::Book(..) => Due::Booking,
        Ask::Claim(_, slot) => Due::Claim(*slot),
        Ask::Commit(..) => Due::Commit,
        Ask::Admit => Due::Admission,
        Ask::Take => Due::Take,
        Ask::Draw => Due::Draw,
        Ask::Left => Due::Left,
    }
}

/// Whether the reply is one of these.
pub fn fits(due: Due, reply: &Reply) -> bool
    ensures { result ≡ fits due reply.now }
{
    match due {
        Due::Nothing => false,
        Due::Settled | Due::Done => matches!(reply, Reply::Done),
        Due::Put => matches!(reply, Reply::Dropped(_)),
        Due::Booking => matches!(reply, Reply::Booked | Reply::Full(_)),
        Due::Claim(slot) => fits_claim(&slot, reply),
        Due::Commit => matches!(reply, Reply::Fired { .. } | Reply::Dead(_)),
        Due::Admission => matches!(reply, Reply::Admitted(_)),
        Due::Take => matches!(reply, Reply::Taken(_)),
        Due::Draw => matches!(reply, Reply::Drawn(_) | Reply::Spent),
        Due::Left => matches!(reply, Reply::Left(_)),
    }
}

fn fits_claim(slot: &Slot, reply: &Reply) -> bool
    ensures { result ≡ fits (dues.Claim slot.now) reply.now }
{
    match reply {
        Reply::Got(messages) => are_of(slot, messages.as_slice()),
        Reply::Busy(_) => true,
        Reply::Short(n) => *n < slot.least,
        _ => false,
    }
}

/// Whether these are messages of the slot's port, as many as it takes.
fn are_of(slot: &Slot, messages: &[Msg]) -> bool
    ensures { result ≡ are_of slot.now messages.now }
{
    let count = messages.len();
    slot.least as usize <= count && count <= slot.most as usize && are_at(slot.port, messages)
}

fn are_at(port: PortNo, messages: &[Msg]) -> bool
    ensures { result ≡ list_all (λ (m : Message). m.port == port) messages.now }
{
    messages.iter().all(|m| m.port == port)
}

/// Whether the answer is one that may come: a reply that fits, or running out of memory where something is due that doesn't settle.
pub fn may_come(due: Due, answer: &Result<Reply, OutOfMemory>) -> bool
    ensures { result ≡ may_come due answer.now }
{
    match answer {
        Ok(reply) => fits(due, reply),
        Err(_) => !matches!(due, Due::Nothing | Due::Settled | Due::Put),
    }
}

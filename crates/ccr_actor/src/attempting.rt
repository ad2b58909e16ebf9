//! The attempt of an actor: its asks in hand, its next ask, and where it stands after an answer.

ghost use Rattle.std.specs.Prelude.{◌≡◌, [], None, IsTrue};
ghost use Rattle.ccr_claim.specs.declared.asks.Due.TheVariants as dues;
ghost use Rattle.ccr_claim.specs.Asks.{due_of, fits, may_come};
ghost use Rattle.ccr_claim.specs.Attempts.{attempt_ask, progress_of, IsAfter};
ghost use Rattle.ccr_claim.specs.Inside.{IsFirst};
ghost use Rattle.ccr_actor.specs.Courses.{HasEnded, IsSettlingDue, dropped_by, is_memory};
ghost use Rattle.ccr_actor.specs.Inside.{due_taken};

use ccr_base::{OutOfMemory, Task};
use ccr_claim::{Asked, Attempt, Next, Progress, Reply, Why};

/// Moves out the first ask in hand.
pub fn take_hand(attempt: &mut Attempt) -> Option<Asked>
    requires { attempt.old.due ≡ dues.Nothing }
    ensures first { IsFirst result attempt.old.hand attempt.new.hand }
    ensures kept { attempt.new ≡ record attempt.old { hand = attempt.new.hand; due = due_taken result } }
{
    if attempt.is_settled() {
        return None;
    }
    match attempt.next() {
        Next::Ask(place, ask) => Some(Asked { place, ask }),
        Next::Ended(_) => unreachable!(),
    }
}

/// Moves out what an attempt that runs asks next.
#[inline(always)]
pub fn take_ask(attempt: &mut Attempt) -> Asked
    requires quiet { attempt.old.due ≡ dues.Nothing }
    requires settled { attempt.old.hand ≡ [] }
    requires runs { attempt.old.ended ≡ None }
    ensures asked { result ≡ attempt_ask attempt.old.plan attempt.old.task attempt.old.phase }
    ensures kept { attempt.new ≡ record attempt.old { due = due_of result.ask } }
{
    match attempt.next() {
        Next::Ask(place, ask) => Asked { place, ask },
        Next::Ended(_) => unreachable!(),
    }
}

/// Where the attempt stands after this answer.
#[inline(always)]
pub fn answer(attempt: &mut Attempt, reply: Result<Reply, OutOfMemory>) -> Progress
    requires { IsTrue (may_come attempt.old.due reply) }
    ensures after { IsAfter attempt.old reply attempt.new }
    ensures quiet { attempt.new.due ≡ dues.Nothing }
    ensures progress { result ≡ progress_of attempt.new.ended }
{
    attempt.got(reply);
    attempt.progress()
}

/// Whether the attempt found no memory.
pub fn is_memory(why: Why) -> bool
    ensures { result ≡ is_memory why }
{
    matches!(why, Why::Memory)
}

/// Takes in the reply to an ask in hand of an attempt that has ended. A task that a put dropped is handed back.
pub fn settle(attempt: &mut Attempt, reply: Reply) -> Option<Task>
    requires ended { HasEnded attempt.old }
    requires settles { IsSettlingDue attempt.old.due }
    requires reply { IsTrue (fits attempt.old.due reply) }
    ensures ended { HasEnded attempt.new }
    ensures hand { attempt.new.hand ≡ attempt.old.hand }
    ensures quiet { attempt.new.due ≡ dues.Nothing }
    ensures dropped { result ≡ dropped_by reply }
{
    match reply {
        Reply::Dropped(task) => {
            attempt.got(Ok(Reply::Dropped(None)));
            task
        }
        _ => {
            attempt.got(Ok(Reply::Done));
            None
        }
    }
}

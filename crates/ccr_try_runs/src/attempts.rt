//! Attempts over scripted replies.

ghost use Rattle.std.specs.Prelude.{◌≡◌, IfOk, IsTrue};
ghost use Rattle.ccr_claim.specs.declared.asks.Due.TheVariants as dues;

use crate::replies::{put_asked, put_point, reply_of};
use ccr_base::{By, List, OutOfMemory, Pattern, Pred, Slot, Spot, TaskId};
use ccr_claim::{Ask, Attempt, ClaimPlan, Next, Outcome, Progress, Why, may_come};
use ccr_try::{put_number, put_task, put_truth, put_word};
use std::alloc::Global;

const NAME: TaskId = TaskId {
    actor: 3,
    attempt: 9,
};

fn put_why(out: &mut List<u8>, why: Why) {
    match why {
        Why::Full(count) => {
            put_word(out, b"full");
            put_number(out, u64::from(count));
        }
        Why::Busy(port, task) => {
            put_word(out, b"busy");
            put_number(out, u64::from(port));
            put_task(out, task);
        }
        Why::Short(port, count) => {
            put_word(out, b"short");
            put_number(out, u64::from(port));
            put_number(out, u64::from(count));
        }
        Why::Dead(By::Fired(task)) => {
            put_word(out, b"dead");
            put_task(out, task);
        }
        Why::Dead(By::NoneWaiting) => put_word(out, b"dead"),
        Why::Memory => put_word(out, b"memory"),
    }
}

fn put_fired(out: &mut List<u8>, waits: bool) {
    put_word(out, b"fired, waits");
    put_truth(out, waits);
}

fn put_progress(out: &mut List<u8>, progress: Progress) {
    match progress {
        Progress::Running => put_word(out, b"running"),
        Progress::Fired { waits } => put_fired(out, waits),
        Progress::GaveUp(why) => put_why(out, why),
    }
}

/// Adds how the attempt has ended.
fn put_outcome(out: &mut List<u8>, next: &Next) {
    match next {
        Next::Ended(Outcome::GaveUp(why)) => put_why(out, *why),
        Next::Ended(Outcome::Fired { waits, .. }) => put_fired(out, *waits),
        Next::Ask(..) => put_word(out, b"goes on"),
    }
}

/// Adds whether the attempt has settled all, where it stands, and how it has ended.
fn put_ended(out: &mut List<u8>, attempt: &mut Attempt)
    requires { attempt.old.due ≡ dues.Nothing }
{
    put_word(out, b": settled");
    put_truth(out, attempt.is_settled());
    put_progress(out, attempt.progress());
    put_word(out, b"=");
    put_outcome(out, &attempt.next());
}

/// Adds the ask, and the attempt that gives its booking back where it does. Answers whether something is asked.
fn put_next(out: &mut List<u8>, next: &Next) -> bool {
    let Next::Ask(place, ask) = next else {
        return false;
    };
    put_asked(out, *place, ask);
    if let Ask::Unbook(task) = ask {
        put_point(out, task.attempt);
    }
    true
}

/// Adds what the attempt asks next, and answers whether it asks.
fn asks(attempt: &mut Attempt, out: &mut List<u8>) -> bool
    requires { attempt.old.due ≡ dues.Nothing }
{
    put_next(out, &attempt.next())
}

/// Gives the attempt the reply of this word if it is one that may come, and answers whether it is.
fn gets(alloc: Global, attempt: &mut Attempt, word: &str) -> bool
    ensures { IsTrue result → attempt.new.due ≡ dues.Nothing }
{
    let reply = reply_of(alloc, word);
    let comes = may_come(attempt.due(), &reply);
    if comes {
        attempt.got(reply);
    }
    comes
}

/// What the attempt asks, reply by reply, and how it has ended behind the last.
fn follow(alloc: Global, attempt: &mut Attempt, replies: &str, out: &mut List<u8>)
    requires { attempt.old.due ≡ dues.Nothing }
{
    for word in replies.split(' ') {
        if !asks(attempt, out) {
            return;
        }
        if !gets(alloc, attempt, word) {
            put_word(out, b"no such reply");
            return;
        }
    }
    put_ended(out, attempt);
}

/// Adds a slot of so many messages of the port.
fn add_slot(slots: &mut List<Slot>, port: u32, count: u32) {
    let slot = Slot {
        port,
        least: count,
        most: count,
        pred: Pred::Any,
    };
    let _ = slots.add(slot);
}

/// Three messages of ports 4 and 2.
const GATHER: Pattern = Pattern::Gather {
    total: 3,
    first: 4,
    second: 2,
};

/// One message of port 4 and two of port 2, in this order.
fn two_slots(alloc: Global) -> Pattern {
    let mut slots = List::new(alloc);
    add_slot(&mut slots, 4, 1);
    add_slot(&mut slots, 2, 2);
    Pattern::Slots(slots)
}

/// A message of port 2.
fn one_slot(alloc: Global) -> Pattern {
    let mut slots = List::new(alloc);
    add_slot(&mut slots, 2, 1);
    Pattern::Slots(slots)
}

/// The attempt of this plan, in a box: who drops it drops one value and not each of its lists.
fn boxed_attempt(alloc: Global, plan: ClaimPlan) -> Result<Box<Attempt>, OutOfMemory>
    ensures { IfOk result (λ attempt. attempt.value.due ≡ dues.Nothing) }
{
    let attempt = Attempt::begin(alloc, plan, NAME)?;
    Ok(Box::new(alloc, attempt)?)
}

/// An attempt at branch 5 with a gather or two slots, or at its second site with one slot.
pub fn attempt(alloc: Global, pattern: &str, replies: &str, out: &mut List<u8>) {
    let (spot, pattern) = match pattern {
        "gather" => (Spot::Branch(5), GATHER),
        "slots" => (Spot::Branch(5), two_slots(alloc)),
        _ => (Spot::Site(5, 1), one_slot(alloc)),
    };
    let plan = ClaimPlan {
        spot,
        pattern,
        queue: 6,
        arbiter: 7,
    };
    if let Ok(mut attempt) = boxed_attempt(alloc, plan) {
        follow(alloc, &mut attempt, replies, out);
    }
}

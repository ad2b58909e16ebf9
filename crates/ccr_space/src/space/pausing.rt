//! Waits between the steps of a pass that asks in vain. A wait is no step: it asks nothing of a place, and the pass asks behind it what it would have
//! asked without it.

ghost use Rattle.std.specs.Prelude.{◌≡◌, ◌≤◌, true, None};
ghost use Rattle.ccr_base.specs.declared.names.TaskId.{TaskId};
ghost use Rattle.ccr_claim.specs.Asks.{is_settling};
ghost use Rattle.ccr_claim.specs.declared.asks.Reply.TheVariants as replies;
ghost use Rattle.ccr_object.specs.declared.deed.PlaceAnswer.TheVariants as answers;
ghost use Rattle.ccr_space.specs.Pauses.{most_yields};

use ccr_claim::{Ask, Reply, settles};
use ccr_object::PlaceAnswer;
use std::sync::Wait;
use std::thread::{Parker, yield_now};
use std::time::Duration;

/// So many empty rounds in a row end with yields, so many more with a nap, and those behind them with one yield: no task is soon to come then.
const WITH_YIELDS: u32 = 7;

const WITH_NAPS: u32 = 500;

/// How long a nap is, in microseconds; systems make some 50 more of it.
const NAP: u64 = 100;

/// What was asked in vain, and not waited for yet.
#[derive(Clone, Copy)]
pub enum Vain {
    Nothing,
    /// The messages of a port that another attempt has claimed.
    Claim,
    /// A task.
    Task,
}

/// What a pass waits for, and how many of its claims met another's, and how many of its rounds found no task, one after the other.
#[derive(Clone, Copy)]
pub struct Pausing {
    vain: Vain,
    lost: u32,
    empty: u32,
}

impl Pausing {
    /// Of a pass that has asked for nothing.
    pub fn new() -> Pausing
        ensures { result.vain ≡ Vain.Nothing }
    {
        Pausing {
            vain: Vain::Nothing,
            lost: 0,
            empty: 0,
        }
    }

    /// Takes note of an answer.
    #[inline(always)]
    pub fn hear(&mut self, answer: &PlaceAnswer)
        ensures claim { (rival : TaskId) → answer.now ≡ answers.Replied (replies.Busy rival) → self.new.vain ≡ Vain.Claim }
        ensures task { answer.now ≡ answers.Replied (replies.Taken None) → self.new.vain ≡ Vain.Task }
    {
        let PlaceAnswer::Replied(reply) = answer else {
            return;
        };
        match reply {
            Reply::Busy(_) => self.vain = Vain::Claim,
            Reply::Taken(None) => self.vain = Vain::Task,
            Reply::Fired { .. } | Reply::Short(_) => self.lost = 0,
            Reply::Taken(Some(_)) => {
                self.vain = Vain::Nothing;
                self.empty = 0;
            }
            _ => {}
        }
    }

    /// Waits before this ask, where there is something to wait for: after a claim that met another's once all is settled, so that nobody waits for what
    /// this pass has in hand; after an empty round before the next one.
    #[inline(always)]
    pub fn before<R: Wait>(&mut self, rt: &R, ask: &Ask)
        ensures settling { is_settling ask.now ≡ true → self.new ≡ self.old }
        ensures nothing { self.old.vain ≡ Vain.Nothing → self.new ≡ self.old }
    {
        match self.vain {
            Vain::Nothing => {}
            Vain::Claim => {
                if !settles(ask) {
                    self.let_rivals_go();
                }
            }
            Vain::Task => {
                if let Ask::Left = ask {
                    self.let_tasks_come(rt);
                }
            }
        }
    }

    /// Before the ask that follows an attempt whose claim met another's.
    fn let_rivals_go(&mut self) {
        self.vain = Vain::Nothing;
        give_way(yields_after(self.lost));
        self.lost = self.lost.saturating_add(1);
    }

    /// Before the round that follows an empty one.
    fn let_tasks_come<R: Wait>(&mut self, rt: &R) {
        self.vain = Vain::Nothing;
        if self.empty < WITH_YIELDS {
            give_way(yields_after(self.empty));
        } else if self.empty < WITH_YIELDS + WITH_NAPS {
            nap(rt);
        } else {
            yield_now();
        }
        self.empty = self.empty.saturating_add(1);
    }
}

/// How many yields a wait has, after so many in a row before it: twice as many each time, and 64 at most.
fn yields_after(waits: u32) -> u32
    ensures least { 1 ≤ result }
    ensures most { result ≤ most_yields }
{
    match waits {
        0 => 1,
        1 => 2,
        2 => 4,
        3 => 8,
        4 => 16,
        5 => 32,
        _ => 64,
    }
}

/// Lets other threads run so often.
#[inline(never)]
fn give_way(yields: u32) {
    for _ in 0..yields {
        yield_now();
    }
}

/// Sleeps for a short time.
#[inline(never)]
fn nap<R: Wait>(rt: &R) {
    Parker::new().park_timeout(rt, Duration::from_micros(NAP));
}

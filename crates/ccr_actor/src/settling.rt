//! What an actor has in hand.

ghost use Rattle.std.specs.Prelude.{◌≡◌, ◌∷◌, ◌&&◌, false, nat_lt, None, IfSome, IfNone, IsTrue, OnOk, OnErr, option_map};
ghost use Rattle.ccr_claim.specs.declared.asks.Due.TheVariants as dues;
ghost use Rattle.ccr_claim.specs.Asks.{due_of};
ghost use Rattle.ccr_claim.specs.Attempts.{over_dropped, put_ask};
ghost use Rattle.ccr_claim.specs.Inside.{IsFirst};
ghost use Rattle.ccr_actor.specs.Inside.{due_taken};
ghost use Rattle.ccr_actor.specs.Acting.{kept, settling};
ghost use Rattle.ccr_actor.specs.Actors.{dropping, most_admitted, settled};
ghost use Rattle.ccr_actor.specs.Courses.{asking_in, dropped_by, due_at, hand_of, phase_of, state_of, taken_due, IsBeside, IsIdle, IsPast, IsSettling, IsSettlingDue, IsStep, IsTold};
ghost use Rattle.ccr_actor.specs.Needs.{adds_domain, settling_needs};

use crate::attempting::{settle, take_hand};
use crate::course::{Course, MOST, Part};
use crate::work::over;
use ccr_base::{How, OutOfMemory, Place, Task};
use ccr_claim::{Ask, Asked, Attempt, Reply};

/// Moves out the first ask in the attempt's hand.
fn hand_of(attempt: &mut Option<Attempt>) -> Option<Asked>
    requires { due_at attempt.old ≡ dues.Nothing }
    ensures first { IsFirst result (hand_of attempt.old) (hand_of attempt.new) }
    ensures phase { phase_of attempt.new ≡ phase_of attempt.old }
    ensures due { due_at attempt.new ≡ due_taken result }
    ensures past { IsPast attempt.old → IsPast attempt.new }
    ensures settles { IsPast attempt.old → IfSome result (λ asked. IsSettlingDue (due_of asked.ask)) }
    ensures none { IfNone result (attempt.new ≡ attempt.old) }
{
    match attempt {
        Some(attempt) => take_hand(attempt),
        None => None,
    }
}

/// The put of the task.
fn put(task: Task) -> Asked
    ensures { result ≡ put_ask task }
{
    Asked {
        place: Place::Queue(task.queue),
        ask: Ask::Put(task),
    }
}

/// The task that a put dropped.
fn dropped_by(reply: Reply) -> Option<Task>
    ensures { result ≡ dropped_by reply }
{
    match reply {
        Reply::Dropped(task) => task,
        _ => None,
    }
}

/// Takes in the reply for the attempt, where its hand asked. A task that a put dropped is handed back.
fn told(attempt: &mut Option<Attempt>, part: Part, reply: Reply) -> Option<Task>
    requires past { IsPast attempt.old }
    requires told { IsTold part (due_at attempt.old) reply }
    ensures past { IsPast attempt.new }
    ensures hand { hand_of attempt.new ≡ hand_of attempt.old }
    ensures quiet { due_at attempt.new ≡ dues.Nothing }
    ensures dropped { result ≡ dropped_by reply }
{
    match part {
        Part::Hand => match attempt {
            Some(attempt) => settle(attempt, reply),
            None => dropped_by(reply),
        },
        _ => dropped_by(reply),
    }
}

impl Course<'_> {
    /// Moves out the first ask in hand.
    pub fn take_hand(&mut self) -> Option<(Part, Asked)>
        requires { due_at self.old.attempt ≡ dues.Nothing }
        ensures first { IsFirst (option_map (λ taken. taken.1) result) (state_of self.old).hand (state_of self.new).hand }
        ensures state { state_of self.new ≡ record (state_of self.old) { hand = (state_of self.new).hand } }
        ensures due { due_at self.new.attempt ≡ taken_due result }
        ensures settling { IsPast self.old.attempt → IfSome result (λ taken. IsSettling self.new (due_of taken.1.ask)) }
        ensures part { IfSome result (λ taken. asking_in taken.0 (due_of taken.1.ask) ≡ settling (due_of taken.1.ask)) }
        ensures none { IfNone result (IsIdle self.new × (self.new.attempt ≡ self.old.attempt)) }
        ensures work { (self.new.work ≡ self.old.work) × (self.new.line ≡ self.old.line) }
        ensures beside { IsBeside self.old self.new }
    {
        if let Some(task) = self.dropped.take() {
            return Some((Part::Over, over(&task, How::Dropped)));
        }
        if let Some(asked) = hand_of(&mut self.attempt) {
            return Some((Part::Hand, asked));
        }
        let task = self.put.take()?;
        Some((Part::Put, put(task)))
    }

    /// The task was dropped: it is to be noted over, and admissions follow at its Interleave.
    fn drop_task(&mut self, task: Task) -> Result<(), OutOfMemory>
        requires { self.old.dropped ≡ None }
        ensures ok { OnOk result (kept (state_of self.new) ≡ kept (dropping self.old.wiring.now (state_of self.old) task)) }
        ensures err { OnErr result ((state_of self.new).hand ≡ over_dropped task ∷ (state_of self.old).hand) }
        ensures long { OnErr result (self.old.short ≡ false) }
        ensures needs { OnErr result (IsTrue (nat_lt self.old.admitted most_admitted && adds_domain self.old.wiring.now task.arbiter self.old.domains.items)) }
        ensures attempt { self.new.attempt ≡ self.old.attempt }
        ensures work { self.new.work ≡ self.old.work }
        ensures beside { IsBeside self.old self.new }
    {
        let domain = task.arbiter;
        self.dropped = Some(task);
        if !self.short && self.admitted < MOST {
            self.add_domain(domain)?;
        }
        Ok(())
    }

    /// Takes in the reply to an ask of the hand.
    pub fn settle(&mut self, part: Part, reply: Reply) -> Result<(), OutOfMemory>
        requires dropped { self.old.dropped ≡ None }
        requires past { IsPast self.old.attempt }
        requires told { IsTold part (due_at self.old.attempt) reply }
        ensures step { IsStep result self.old.wiring.now self.old.number (settled self.old.wiring.now (state_of self.old) (state_of self.old).hand reply) (state_of self.new) }
        ensures long { OnErr result (self.old.short ≡ false) }
        ensures needs { OnErr result (IsTrue (settling_needs self.old.wiring.now (state_of self.old) reply)) }
        ensures past { IsPast self.new.attempt }
        ensures quiet { due_at self.new.attempt ≡ dues.Nothing }
        ensures work { self.new.work ≡ self.old.work }
        ensures beside { IsBeside self.old self.new }
    {
        match told(&mut self.attempt, part, reply) {
            Some(task) => self.drop_task(task),
            None => Ok(()),
        }
    }
}

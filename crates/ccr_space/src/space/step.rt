//! Steps of a pass.

ghost use Rattle.std.specs.Prelude.{◌≡◌, ◌≢◌, true, false, Ok};
ghost use Rattle.ccr_claim.specs.Asks.{fits};
ghost use Rattle.ccr_actor.specs.Acting.{due_in, IsAfter};
ghost use Rattle.ccr_space.specs.Spaces.{HasPlaces, IsPassOf, IsAtRest, IsHeard, IsLonger, IsMore, is_short, log, number};

use super::pausing::Pausing;
use super::{Pass, Space};
use ccr_actor::Actor;
use ccr_base::{Gate, OpenGate};
use ccr_claim::Reply;
use ccr_object::PlaceAnswer;
use std::sync::Wait;

/// What a step of a pass came to.
#[derive(Clone, Copy, PartialEq, Eq)]
pub enum Step {
    Made,
    NoMemory,
    Rest,
    Unmet,
}

impl Space<'_> {
    /// Does the next step of the pass's actor, under one lock. It waits while another pass has that lock. The pass is stopped
    /// where the actor is short of memory then, and where the condition of its ask wasn't met.
    pub fn step<R: Wait>(&self, rt: &R, pass: &mut Pass<'_>) -> Step
        requires space { HasPlaces self.now }
        requires pass { IsPassOf self.now pass.old }
        ensures pass { IsPassOf self.now pass.new }
        ensures number { number pass.new ≡ number pass.old }
        ensures rest { result ≡ Step.Rest → (pass.new ≡ pass.old) × IsAtRest pass.old }
        ensures at_rest { IsAtRest pass.old → result ≡ Step.Rest }
        ensures stepped { result ≢ Step.Rest → pass.old.stopped ≡ false }
        ensures made { result ≡ Step.Made → IsMore true pass.old pass.new }
        ensures short { result ≡ Step.Made → pass.new.stopped ≡ is_short pass.new }
        ensures unmet { result ≡ Step.Unmet → IsMore false pass.old pass.new × (pass.new.stopped ≡ true) }
        ensures memory { result ≡ Step.NoMemory → (log pass.new ≡ log pass.old) × (pass.new.stopped ≡ true) }
    {
        self.advance(rt, &OpenGate, &mut Pausing::new(), pass)
    }

    /// A step that asks the gate at its points, and waits before it where the steps before were in vain.
    fn advance<R: Wait, G: Gate>(
        &self,
        rt: &R,
        gate: &G,
        pausing: &mut Pausing,
        pass: &mut Pass<'_>,
    ) -> Step
        requires space { HasPlaces self.now }
        requires pass { IsPassOf self.now pass.old }
        ensures pass { IsPassOf self.now pass.new }
        ensures number { number pass.new ≡ number pass.old }
        ensures rest { result ≡ Step.Rest → (pass.new ≡ pass.old) × IsAtRest pass.old }
        ensures at_rest { IsAtRest pass.old → result ≡ Step.Rest }
        ensures stepped { result ≢ Step.Rest → pass.old.stopped ≡ false }
        ensures made { result ≡ Step.Made → IsMore true pass.old pass.new }
        ensures short { result ≡ Step.Made → pass.new.stopped ≡ is_short pass.new }
        ensures unmet { result ≡ Step.Unmet → IsMore false pass.old pass.new × (pass.new.stopped ≡ true) }
        ensures memory { result ≡ Step.NoMemory → (log pass.new ≡ log pass.old) × (pass.new.stopped ≡ true) }
    {
        if pass.stopped {
            return Step::Rest;
        }
        if pass.actor.at_rest() {
            return Step::Rest;
        }
        let (place, ask) = pass.actor.ask(gate);
        pausing.before(rt, &ask);
        let at = self.directory.number(place);
        match self.turns.act(rt, &mut pass.seat, at, ask) {
            Ok(answer) => {
                pausing.hear(&answer);
                let (step, stopped) = heard(gate, &mut pass.actor, answer);
                pass.stopped = stopped;
                step
            }
            Err(_) => {
                pass.stopped = true;
                Step::NoMemory
            }
        }
    }

    /// Steps until the pass is at rest, and asks the gate; between steps in vain it waits for others. It answers how many entries its log
    /// has more, or 2^64 - 1 where there are more. A step that found no memory is none.
    pub fn run<R: Wait, G: Gate>(&self, rt: &R, gate: &G, pass: &mut Pass<'_>) -> u64
        requires space { HasPlaces self.now }
        requires pass { IsPassOf self.now pass.old }
        ensures pass { IsPassOf self.now pass.new }
        ensures number { number pass.new ≡ number pass.old }
        ensures rest { IsAtRest pass.new }
        ensures count { IsLonger pass.old pass.new result }
    {
        let mut steps = 0u64;
        let mut pausing = Pausing::new();
        for _ in rt.forever() {
            match self.advance(rt, gate, &mut pausing, pass) {
                Step::Made | Step::Unmet => steps = steps.saturating_add(1),
                Step::NoMemory | Step::Rest => return steps,
            }
        }
        unreachable!()
    }
}

/// Hands the answer to the actor, and tells what the step came to, and whether the pass is stopped.
fn heard<G: Gate>(gate: &G, actor: &mut Actor<'_>, answer: PlaceAnswer) -> (Step, bool)
    requires fits { (reply : _) → answer ≡ PlaceAnswer.Replied reply → fits (due_in actor.old.asking) reply ≡ true }
    ensures made { answer ≡ PlaceAnswer.Unmet → result ≡ (Step.Unmet, true) }
    ensures replied { (reply : _) → answer ≡ PlaceAnswer.Replied reply → result ≡ (Step.Made, actor.new.state.is_short) }
    ensures going { result.1 ≡ false → IsHeard actor.old answer actor.new }
{
    match answer {
        PlaceAnswer::Replied(reply) => (Step::Made, told(gate, actor, reply)),
        PlaceAnswer::Unmet => (Step::Unmet, true),
    }
}

/// Hands the reply to the actor, and tells whether it is short.
fn told<G: Gate>(gate: &G, actor: &mut Actor<'_>, reply: Reply) -> bool
    requires fits { fits (due_in actor.old.asking) reply ≡ true }
    ensures after { IsAfter actor.old (Ok reply) actor.new }
    ensures short { result ≡ actor.new.state.is_short }
{
    actor.hear(gate, Ok(reply));
    actor.short()
}

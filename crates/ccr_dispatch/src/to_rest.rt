//! An actor brought to rest over any net.

ghost use Rattle.std.specs.Prelude.{◌≡◌, ◌≢◌, ◌<◌, ◌≤◌, ℕ, [], true, is_some};
ghost use Rattle.ccr_actor.specs.Acting.{is_at_rest, next};
ghost use Rattle.ccr_actor.specs.Following.{Follows};
ghost use Rattle.ccr_dispatch.specs.ToRest.{Adds, IsSettled};
ghost use Rattle.ccr_dispatch.specs.Ranks.{steps_left};

use ccr_actor::{Actor, Net};
use ccr_base::Gate;

/// The next step: one, or none where the net found no memory for it.
fn step<N: Net, G: Gate>(net: &mut N, actor: &mut Actor<'_>, gate: &G) -> u64
    requires follows { Follows (N.wiring net.old) actor.old.actor (N.steps net.old actor.old.actor) actor.old }
    requires asks { is_some (next actor.old) ≡ true }
    ensures follows { Follows (N.wiring net.new) actor.new.actor (N.steps net.new actor.new.actor) actor.new }
    ensures wiring { N.wiring net.new ≡ N.wiring net.old }
    ensures number { actor.new.actor ≡ actor.old.actor }
    ensures added { Adds (N.steps net.old actor.old.actor) (N.steps net.new actor.old.actor) result }
    ensures others { (other : ℕ) → other ≢ actor.old.actor → N.steps net.new other ≡ N.steps net.old other }
    ensures settled { actor.old.state.hand ≢ [] → IsSettled actor.old actor.new }
    ensures less { actor.old.state.hand ≡ [] → steps_left actor.new < steps_left actor.old }
{
    let number = actor.number();
    let (place, ask) = actor.ask(gate);
    let answer = net.act(number, place, ask);
    let steps = match &answer {
        Ok(_) => 1,
        Err(_) => 0,
    };
    actor.hear(gate, answer);
    steps
}

/// Settles what the actor has in hand.
fn settle<N: Net, G: Gate>(net: &mut N, actor: &mut Actor<'_>, gate: &G) -> u64
    requires follows { Follows (N.wiring net.old) actor.old.actor (N.steps net.old actor.old.actor) actor.old }
    ensures follows { Follows (N.wiring net.new) actor.new.actor (N.steps net.new actor.new.actor) actor.new }
    ensures wiring { N.wiring net.new ≡ N.wiring net.old }
    ensures number { actor.new.actor ≡ actor.old.actor }
    ensures added { Adds (N.steps net.old actor.old.actor) (N.steps net.new actor.old.actor) result }
    ensures others { (other : ℕ) → other ≢ actor.old.actor → N.steps net.new other ≡ N.steps net.old other }
    ensures settled { actor.new.state.hand ≡ [] }
    ensures left { steps_left actor.new ≤ steps_left actor.old }
{
    let mut steps: u64 = 0;
    'asks: while actor.owes() {
        steps = steps.saturating_add(step(net, actor, gate));
    }
    steps
}

/// Runs the actor to rest over the net, and asks the gate after each claim that got its messages, after each firing, after
/// each task taken, and before each end of a running task and each suspension. Answers how many steps it made, or 2^64 - 1
/// where there were more. An ask for which the net found no memory is no step.
pub fn drive<N: Net, G: Gate>(net: &mut N, actor: &mut Actor<'_>, gate: &G) -> u64
    requires follows { Follows (N.wiring net.old) actor.old.actor (N.steps net.old actor.old.actor) actor.old }
    ensures follows { Follows (N.wiring net.new) actor.new.actor (N.steps net.new actor.new.actor) actor.new }
    ensures rest { is_at_rest actor.new ≡ true }
    ensures wiring { N.wiring net.new ≡ N.wiring net.old }
    ensures number { actor.new.actor ≡ actor.old.actor }
    ensures count { Adds (N.steps net.old actor.old.actor) (N.steps net.new actor.old.actor) result }
    ensures others { (other : ℕ) → other ≢ actor.old.actor → N.steps net.new other ≡ N.steps net.old other }
{
    let mut steps = settle(net, actor, gate);
    'steps: while !actor.at_rest() {
        steps = steps.saturating_add(step(net, actor, gate));
        steps = steps.saturating_add(settle(net, actor, gate));
    }
    steps
}

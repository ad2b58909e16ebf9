//! Runs by a schedule of turns, on one thread.

ghost use Rattle.std.specs.Prelude.{◌≡◌, ◌<◌, ◌≤◌, [], All, length, IfOk, OnOk, Ok, true, false};
ghost use Rattle.std.specs.Option.{is_some};
ghost use Rattle.ccr_base.specs.Bounds.{most_actors, most_workers};
ghost use Rattle.ccr_wiring.specs.Actors.{actor_count};
ghost use Rattle.ccr_wiring.specs.Openness.{is_closed};
ghost use Rattle.ccr_claim.specs.Asks.{due_of, fits};
ghost use Rattle.ccr_actor.specs.Acting.{due_in, next, quiet, IsAfter};
ghost use Rattle.ccr_object.specs.Objects.{note_of};
ghost use Rattle.ccr_net.specs.Acted.{scene_after};
ghost use Rattle.ccr_runs.specs.Played.{number_at};
ghost use Rattle.ccr_runs.specs.EntryRuns.{made_by, never, scheduled, with_made, IsRunAfter};
ghost use Rattle.ccr_net.specs.Schedules.{AreStarted, IsAnswered, IsMet, IsPlayed, IsStep};

use crate::plain::PlainPlaces;
use ccr_actor::{Actor, actor_count};
use ccr_base::{ActorNo, List, OpenGate, OutOfMemory, Place};
use ccr_claim::{Ask, Reply};
use ccr_runs::{Entry, Full};
use ccr_wiring::Wiring;
use std::alloc::Global;

/// The run that these turns give. A turn makes its actor's next step, or nothing where the actor rests. Posters have the
/// lowest numbers and the workers those behind them. Running out of memory ends the call.
pub fn run_schedule(
    alloc: Global,
    wiring: &Wiring,
    workers: u32,
    turns: &[ActorNo],
) -> Result<Full, OutOfMemory>
    requires closed { is_closed wiring.now ≡ true }
    requires workers { workers ≤ most_workers }
    requires turns { All (λ turn. turn < actor_count wiring.now workers) turns.now }
    ensures scheduled { IfOk result (λ full. full.entries ≡ scheduled wiring.now turns.now) }
    ensures run { IfOk result (λ full. IsRunAfter wiring.now workers never [] full.entries) }
{
    let count = actor_count(wiring, workers);
    let mut places = PlainPlaces::start(alloc, wiring)?;
    let mut actors = all_actors(alloc, wiring, count)?;
    let mut entries = Vec::new(alloc);
    for turn in turns {
        take_turn(&mut places, &mut actors, &mut entries, workers, *turn)?;
    }
    Ok(Full {
        entries: List::from_vec(entries),
    })
}

/// The actors of so many numbers from 0 on, posters first, before their first steps.
pub fn all_actors<'w>(
    alloc: Global,
    wiring: &'w Wiring,
    count: u32,
) -> Result<Vec<Actor<'w>>, OutOfMemory>
    ensures { IfOk result (λ actors. AreStarted wiring.now count actors.items) }
{
    let mut actors = Vec::new(alloc);
    for number in 0..count {
        actors.push(Actor::start(alloc, wiring, number)?)?;
    }
    Ok(actors)
}

/// The actor's next step, or nothing where it is at rest.
fn take_turn(
    places: &mut PlainPlaces<'_>,
    actors: &mut [Actor<'_>],
    entries: &mut Vec<Entry>,
    workers: u32,
    turn: ActorNo,
) -> Result<(), OutOfMemory>
    requires workers { workers ≤ most_workers }
    requires turn { turn < length actors.old }
    requires played { IsPlayed workers never places.old actors.old entries.old.items }
    ensures played { OnOk result (IsPlayed workers never places.new actors.new entries.new.items) }
    ensures wiring { OnOk result (places.new.wiring ≡ places.old.wiring) }
    ensures made { OnOk result (entries.new.items ≡ with_made entries.old.items (made_by places.old.wiring never entries.old.items turn)) }
{
    if actors[turn as usize].at_rest() {
        return Ok(());
    }
    make_step(places, &mut actors[turn as usize], entries)
}

/// The next step of an actor that isn't at rest.
fn make_step(
    places: &mut PlainPlaces<'_>,
    actor: &mut Actor<'_>,
    entries: &mut Vec<Entry>,
) -> Result<(), OutOfMemory>
    requires seat { actor.old.actor < most_actors }
    requires quiet { actor.old.asking ≡ quiet }
    requires asks { is_some (next actor.old) ≡ true }
    requires met { IsMet places.old actor.old }
    ensures { OnOk result (IsStep places.old actor.old entries.old.items places.new actor.new entries.new.items) }
{
    let (place, ask) = actor.ask(&OpenGate);
    answer(places, actor, entries, place, ask)
}

/// Lets the place answer what the actor asked: the entry is added, and the actor takes in the reply. It is out of memory, too,
/// where the actor finds none for its next ask.
pub fn answer(
    places: &mut PlainPlaces<'_>,
    actor: &mut Actor<'_>,
    entries: &mut Vec<Entry>,
    place: Place,
    ask: Ask,
) -> Result<(), OutOfMemory>
    requires seat { actor.old.actor < most_actors }
    requires due { due_in actor.old.asking ≡ due_of ask }
    requires met { is_some (note_of (scene_after places.old.wiring places.old.acts (number_at places.old.wiring place)).0 ask) ≡ true }
    ensures { OnOk result (IsAnswered places.old actor.old entries.old.items place ask places.new actor.new entries.new.items) }
{
    places.reserve(1)?;
    entries.reserve(1)?;
    let number = actor.number();
    let (reply, entry) = places.reply(number, place, ask)?;
    entries.push_reserved(entry);
    hear(actor, reply)
}

/// Takes in the reply. Where the actor finds no memory for its next ask the run ends; one that was short goes on.
fn hear(actor: &mut Actor<'_>, reply: Reply) -> Result<(), OutOfMemory>
    requires { fits (due_in actor.old.asking) reply ≡ true }
    ensures after { OnOk result (IsAfter actor.old (Ok reply) actor.new) }
    ensures long { OnOk result (actor.old.state.is_short ≡ false → actor.new.state.is_short ≡ false) }
{
    let was_short = actor.short();
    actor.hear(&OpenGate, Ok(reply));
    if !was_short && actor.short() {
        return Err(OutOfMemory);
    }
    Ok(())
}

//! Runs by a schedule of turns in which some asks find no memory.

ghost use Rattle.std.specs.Prelude.{◌≡◌, ◌<◌, ◌≤◌, ◌+◌, ◌^◌, [], All, length, IfOk, is_some, true};
ghost use Rattle.ccr_wiring.specs.Openness.{is_closed};
ghost use Rattle.ccr_base.specs.Bounds.{most_actors, most_workers};
ghost use Rattle.ccr_base.specs.Lists.{has_number};
ghost use Rattle.ccr_wiring.specs.Actors.{actor_count};
ghost use Rattle.ccr_actor.specs.Acting.{next, quiet};
ghost use Rattle.ccr_runs.specs.EntryRuns.{scheduled, IsRun};
ghost use Rattle.ccr_net.specs.Schedules.{IsMet};
ghost use Rattle.ccr_plain.specs.Shortages.{shortened, HasPlayed, HasTurned, IsTurn};

use ccr_actor::{Actor, actor_count};
use ccr_base::{ActorNo, List, OpenGate, OutOfMemory};
use ccr_claim::settles;
use ccr_net::{PlainPlaces, all_actors, answer};
use ccr_runs::{Entry, Full};
use ccr_wiring::Wiring;
use std::alloc::Global;

/// The run of `run_schedule` in which the asks of these numbers find no memory. The asks of all actors that don't settle
/// are numbered from 0, as they are made. A refused one leaves no entry; its actor then only settles what it has in hand, one
/// ask a turn. Running out of memory in the call itself ends it.
pub fn run_short(
    alloc: Global,
    wiring: &Wiring,
    workers: u32,
    turns: &[ActorNo],
    refused: &[u64],
) -> Result<Full, OutOfMemory>
    requires closed { is_closed wiring.now ≡ true }
    requires workers { workers ≤ most_workers }
    requires turns { All (λ turn. turn < actor_count wiring.now workers) turns.now }
    ensures short { IfOk result (λ full. full.entries ≡ shortened wiring.now refused.now turns.now) }
    ensures run { IfOk result (λ full. IsRun wiring.now workers full.entries) }
    ensures same { refused.now ≡ [] → IfOk result (λ full. full.entries ≡ scheduled wiring.now turns.now) }
{
    let count = actor_count(wiring, workers);
    let mut places = PlainPlaces::start(alloc, wiring)?;
    let mut actors = all_actors(alloc, wiring, count)?;
    let mut entries = Vec::new(alloc);
    let mut asks = 0;
    for turn in turns {
        asks = take_turn(
            &mut places,
            &mut actors,
            &mut entries,
            workers,
            refused,
            asks,
            *turn,
        )?;
    }
    Ok(Full {
        entries: List::from_vec(entries),
    })
}

/// The actor's next ask, or nothing where it is at rest. Takes and answers how many asks that don't settle were made.
fn take_turn(
    places: &mut PlainPlaces<'_>,
    actors: &mut [Actor<'_>],
    entries: &mut Vec<Entry>,
    workers: u32,
    refused: &[u64],
    asks: u64,
    turn: ActorNo,
) -> Result<u64, OutOfMemory>
    requires workers { workers ≤ most_workers }
    requires turn { turn < length actors.old }
    requires asks { asks + 1 < 2 ^ 64 }
    requires played { HasPlayed workers places.old actors.old entries.old.items }
    ensures run { IfOk result (HasTurned workers refused.now turn asks places.old actors.old entries.old.items places.new actors.new entries.new.items) }
    ensures wiring { IfOk result (λ number. places.new.wiring ≡ places.old.wiring) }
    ensures few { IfOk result (λ number. number ≤ asks + 1) }
{
    if actors[turn as usize].at_rest() {
        return Ok(asks);
    }
    make_ask(places, &mut actors[turn as usize], entries, refused, asks)
}

/// The next ask of an actor that isn't at rest. Takes and answers how many asks that don't settle were made.
fn make_ask(
    places: &mut PlainPlaces<'_>,
    actor: &mut Actor<'_>,
    entries: &mut Vec<Entry>,
    refused: &[u64],
    asks: u64,
) -> Result<u64, OutOfMemory>
    requires seat { actor.old.actor < most_actors }
    requires quiet { actor.old.asking ≡ quiet }
    requires asking { is_some (next actor.old) ≡ true }
    requires met { IsMet places.old actor.old }
    requires asks { asks + 1 < 2 ^ 64 }
    ensures { IfOk result (λ number. IsTurn refused.now asks places.old actor.old entries.old.items places.new actor.new entries.new.items number) }
{
    let (place, ask) = actor.ask(&OpenGate);
    if settles(&ask) {
        answer(places, actor, entries, place, ask)?;
        return Ok(asks);
    }
    if is_refused(refused, asks) {
        actor.hear(&OpenGate, Err(OutOfMemory));
        return Ok(asks + 1);
    }
    answer(places, actor, entries, place, ask)?;
    Ok(asks + 1)
}

/// Whether the ask of this number finds no memory.
fn is_refused(refused: &[u64], number: u64) -> bool
    ensures { result ≡ has_number refused.now number }
{
    refused.iter().any(|other| *other == number)
}

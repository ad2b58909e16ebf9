//! The serial order behind a history, to its end.

ghost use Rattle.std.specs.Prelude.{◌≡◌, ◌≤◌, true, IfOk, length};
ghost use Rattle.ccr_base.specs.Bounds.{most_actors};
ghost use Rattle.ccr_wiring.specs.Openness.{is_closed};
ghost use Rattle.ccr_model.specs.Firings.{fired};
ghost use Rattle.ccr_model.specs.Legal.{IsLegal};
ghost use Rattle.ccr_model.specs.Order.{most_attempts, next_attempt};
ghost use Rattle.ccr_telling.specs.Tallies.{IsCounting};
ghost use Rattle.ccr_telling.specs.Telling.{HasTold, IsCountedToEnd, IsToldToEnd};

use crate::Tally;
use crate::telling::{Counting, Telling};
use ccr_base::{ActorNo, List, OutOfMemory};
use ccr_engine::Engine;
use ccr_model::History;
use ccr_report::Counts;
use ccr_wiring::Wiring;
use std::alloc::Global;

/// What is told of a run: the text of its history, and its counts.
#[derive(Drop)]
pub struct Told {
    pub text: List<u8>,
    pub counts: Counts,
}

/// An engine behind a history, boxed, so that who drops it drops one value; and the history's numbers.
fn engine_behind<'w>(
    alloc: Global,
    wiring: &'w Wiring,
    closer: ActorNo,
    first: &History,
) -> Result<(Box<Engine<'w>>, Tally), OutOfMemory>
    requires closed { is_closed wiring.now ≡ true }
    requires no_poster { length wiring.now.posters ≤ closer }
    requires low { closer ≤ most_actors }
    requires legal { IsLegal wiring.now first.now }
    requires attempts { next_attempt closer (fired first.now) ≤ most_attempts }
    ensures engine { IfOk result (λ both. both.0.value ≡ record { wiring = wiring.now; closer = closer; history = first.now }) }
    ensures tally { IfOk result (λ both. IsCounting wiring.now first.now both.1) }
{
    let engine = Box::new(
        alloc,
        Engine::resume(alloc, wiring, closer, first.events())?,
    )?;
    let tally = Tally::of(alloc, wiring, first.events(), engine.tables()?)?;
    Ok((engine, tally))
}

/// An engine that goes on behind this history, and the history's text and numbers. The history is given up.
fn telling_behind<'w>(
    alloc: Global,
    wiring: &'w Wiring,
    closer: ActorNo,
    first: History,
) -> Result<(Box<Engine<'w>>, Telling<'w>), OutOfMemory>
    requires closed { is_closed wiring.now ≡ true }
    requires no_poster { length wiring.now.posters ≤ closer }
    requires low { closer ≤ most_actors }
    requires legal { IsLegal wiring.now first }
    requires attempts { next_attempt closer (fired first) ≤ most_attempts }
    ensures engine { IfOk result (λ both. both.0.value ≡ record { wiring = wiring.now; closer = closer; history = first }) }
    ensures told { IfOk result (λ both. HasTold both.1 wiring.now first) }
{
    let (engine, tally) = engine_behind(alloc, wiring, closer, &first)?;
    let telling = Telling::of(alloc, wiring, &first, tally)?;
    Ok((engine, telling))
}

/// An engine that goes on behind this history, and the history's numbers. The history is given up.
fn counting_behind<'w>(
    alloc: Global,
    wiring: &'w Wiring,
    closer: ActorNo,
    first: History,
) -> Result<(Box<Engine<'w>>, Counting), OutOfMemory>
    requires closed { is_closed wiring.now ≡ true }
    requires no_poster { length wiring.now.posters ≤ closer }
    requires low { closer ≤ most_actors }
    requires legal { IsLegal wiring.now first }
    requires attempts { next_attempt closer (fired first) ≤ most_attempts }
    ensures engine { IfOk result (λ both. both.0.value ≡ record { wiring = wiring.now; closer = closer; history = first }) }
    ensures counting { IfOk result (λ both. IsCounting wiring.now first both.1.tally) }
{
    let (engine, tally) = engine_behind(alloc, wiring, closer, &first)?;
    Ok((engine, Counting { tally }))
}

/// The serial order behind a history, to its end: the text of the whole and its counts. Each event of the order becomes a line and is counted as it
/// happens, and isn't kept.
pub fn tell_to_end(
    alloc: Global,
    wiring: &Wiring,
    closer: ActorNo,
    first: History,
) -> Result<Told, OutOfMemory>
    requires closed { is_closed wiring.now ≡ true }
    requires no_poster { length wiring.now.posters ≤ closer }
    requires low { closer ≤ most_actors }
    requires legal { IsLegal wiring.now first }
    requires attempts { next_attempt closer (fired first) ≤ most_attempts }
    ensures { IfOk result (IsToldToEnd wiring.now closer first) }
{
    let (mut engine, mut telling) = telling_behind(alloc, wiring, closer, first)?;
    engine.finish(&mut telling)?;
    let tables = Box::into_inner(engine).into_ledger()?;
    let Telling { text, tally, .. } = telling;
    let counts = tally.into_counts(alloc, wiring, &tables)?;
    Ok(Told { text, counts })
}

/// The serial order behind a history, to its end: the counts of the whole.
pub fn count_to_end(
    alloc: Global,
    wiring: &Wiring,
    closer: ActorNo,
    first: History,
) -> Result<Counts, OutOfMemory>
    requires closed { is_closed wiring.now ≡ true }
    requires no_poster { length wiring.now.posters ≤ closer }
    requires low { closer ≤ most_actors }
    requires legal { IsLegal wiring.now first }
    requires attempts { next_attempt closer (fired first) ≤ most_attempts }
    ensures { IfOk result (IsCountedToEnd wiring.now closer first) }
{
    let (mut engine, mut counting) = counting_behind(alloc, wiring, closer, first)?;
    engine.finish(&mut counting)?;
    let tables = Box::into_inner(engine).into_ledger()?;
    let Counting { tally } = counting;
    let counts = tally.into_counts(alloc, wiring, &tables)?;
    Ok(counts)
}

//! What an event touches: the spots that are to be asked after it. Room that it makes touches none: those that lack it are blocked at their queue.

ghost use Rattle.std.specs.Prelude.{OnOk, false, ◌==◌};
ghost use Rattle.std.specs.Option.{option_map_or};
ghost use Rattle.ccr_base.specs.declared.names.Spot.{Spot as SomeSpot};
ghost use Rattle.ccr_wiring.specs.Takers.{takes_from};
ghost use Rattle.ccr_wiring.specs.Wirings.{spots};
ghost use Rattle.ccr_engine.specs.Numbered.{Gains, passes_at};
ghost use Rattle.ccr_engine.specs.Parts.{touches_in, yields_in};

use crate::indices::SpotIndices;
use crate::number_set::NumberSet;
use ccr_base::{OutOfMemory, PortNo, TaskId};
use ccr_ledger::Ledger;
use ccr_model::{EndHow, Event};

/// The index comes in, if there is one.
fn note_index(index: Option<usize>, touched: &mut NumberSet) -> Result<(), OutOfMemory>
    ensures { OnOk result (Gains (λ number. option_map_or (λ one. number == one) index false) touched.old touched.new) }
{
    match index {
        Some(index) => touched.enter(index),
        None => Ok(()),
    }
}

/// The spots come in that take from the port.
fn note_takers(
    indices: &SpotIndices<'_>,
    port: PortNo,
    touched: &mut NumberSet,
) -> Result<(), OutOfMemory>
    ensures { OnOk result (Gains (passes_at (takes_from indices.now port) (spots indices.now)) touched.old touched.new) }
{
    let takers = indices.wiring().spots_at(port);
    for spot in takers {
        note_index(indices.of_spot(*spot), touched)?;
    }
    Ok(())
}

/// The site comes in at which the task is suspended.
fn note_yield(
    ledger: &Ledger,
    indices: &SpotIndices<'_>,
    task: TaskId,
    touched: &mut NumberSet,
) -> Result<(), OutOfMemory>
    ensures { OnOk result (Gains (passes_at (λ (spot : SomeSpot). yields_in ledger.now spot task) (spots indices.now)) touched.old touched.new) }
{
    match ledger.card(task) {
        Some(card) => note_index(indices.next_site(card.spot), touched),
        None => Ok(()),
    }
}

/// The spots come in that the event touches.
pub(crate) fn note_touched(
    ledger: &Ledger,
    indices: &SpotIndices<'_>,
    event: &Event,
    touched: &mut NumberSet,
) -> Result<(), OutOfMemory>
    ensures { OnOk result (Gains (passes_at (touches_in indices.now ledger.now event.now) (spots indices.now)) touched.old touched.new) }
{
    match event {
        Event::Post(message) => note_takers(indices, message.port, touched),
        Event::End { task, how } => match how {
            EndHow::Yield => note_yield(ledger, indices, *task, touched),
            _ => Ok(()),
        },
        _ => Ok(()),
    }
}

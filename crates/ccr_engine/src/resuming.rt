//! The desk of a history.

ghost use Rattle.std.specs.Prelude.{◌<◌, ◌^◌, IfOk};
ghost use Rattle.ccr_model.specs.Firings.{fired};
ghost use Rattle.ccr_model.specs.Legal.{IsLegal};
ghost use Rattle.ccr_model.specs.Order.{next_attempt};
ghost use Rattle.ccr_engine.specs.Desk.{Stands};

use crate::desk::Desk;
use crate::indices::SpotIndices;
use ccr_base::{ActorNo, OutOfMemory};
use ccr_model::Event;
use std::alloc::Global;

/// The desk of the events, made by going through them once.
pub(crate) fn desk_of(
    alloc: Global,
    indices: &SpotIndices<'_>,
    closer: ActorNo,
    events: &[Event],
) -> Result<Desk, OutOfMemory>
    requires legal { IsLegal indices.now events.now }
    requires attempts { next_attempt closer (fired events.now) < 2 ^ 32 }
    ensures { IfOk result (Stands indices.now closer events.now) }
{
    // `parts` says that the wiring is valid.
    let _valid = indices.parts();
    let mut desk = Desk::new(alloc, indices.wiring())?;
    for event in events {
        desk.push(indices, closer, event)?;
    }
    Ok(desk)
}

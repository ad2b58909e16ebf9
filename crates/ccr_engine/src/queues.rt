//! The queue that an event touches: the one that is to be asked for a start after it.

ghost use Rattle.std.specs.Prelude.{OnOk};
ghost use Rattle.ccr_engine.specs.Numbered.{Gains};
ghost use Rattle.ccr_engine.specs.Parts.{touches_queue_in};

use crate::number_set::NumberSet;
use ccr_base::OutOfMemory;
use ccr_ledger::Ledger;
use ccr_model::Event;

/// The queue comes in that the event puts a task into.
pub(crate) fn note_queue(
    ledger: &Ledger,
    event: &Event,
    queues: &mut NumberSet,
) -> Result<(), OutOfMemory>
    ensures { OnOk result (Gains (touches_queue_in ledger.now event.now) queues.old queues.new) }
{
    let Event::Put { task, .. } = event else {
        return Ok(());
    };
    match ledger.card(*task) {
        Some(card) => queues.enter(card.queue as usize),
        None => Ok(()),
    }
}

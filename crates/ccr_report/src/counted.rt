//! The counts of a history.

ghost use Rattle.std.specs.Prelude.{IfOk};
ghost use Rattle.ccr_report.specs.Counted.{IsCounted};

use crate::counts::totals;
use crate::spots::spot_counts;
use crate::tables::{PortCounts, QueueCounts, port_counts, queue_counts};
use ccr_base::OutOfMemory;
use ccr_model::{History, Totals};
use ccr_wiring::Wiring;
use std::alloc::Global;

/// How often each thing happened in a history: at each port, at each spot, in each queue, in the wiring's order, and in all.
#[derive(Drop)]
pub struct Counts {
    /// How many messages were posted at each port.
    pub posted: Vec<u64>,
    /// How many messages each port holds.
    pub held: Vec<u64>,
    /// How often each spot fired.
    pub fired: Vec<u64>,
    /// How many tasks each queue was given.
    pub put: Vec<u64>,
    /// How many tasks each queue dropped.
    pub dropped: Vec<u64>,
    pub totals: Totals,
}

/// The counts of the history, legal or not. It goes through the events a fixed number of times.
pub fn counts_of(alloc: Global, wiring: &Wiring, history: &History) -> Result<Counts, OutOfMemory>
    ensures { IfOk result (IsCounted wiring.now history.now) }
{
    let parts = wiring.parts();
    let events = history.events();
    let PortCounts { posted, held } = port_counts(alloc, events, parts.ports.as_slice().len())?;
    let fired = spot_counts(alloc, events, wiring.spots())?;
    let QueueCounts { put, dropped } = queue_counts(alloc, events, parts)?;
    let totals = totals(alloc, wiring, history)?;
    Ok(Counts {
        posted,
        held,
        fired,
        put,
        dropped,
        totals,
    })
}

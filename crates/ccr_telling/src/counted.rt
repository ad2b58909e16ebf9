//! The counts of a legal history: in one pass over its events, or of a tally that was told of each of them.

ghost use Rattle.std.specs.Prelude.{◌≡◌, ◌≤◌, ◌<◌, ℕ, IfOk, length, map, slice_index};
ghost use Rattle.std.specs.Option.{option_map_or};
ghost use Rattle.ccr_base.specs.Bounds.{most_ports};
ghost use Rattle.ccr_ledger.specs.Rows.{row};
ghost use Rattle.ccr_model.specs.Counts.{totals};
ghost use Rattle.ccr_model.specs.Firings.{cut};
ghost use Rattle.ccr_model.specs.Legal.{IsLegal};
ghost use Rattle.ccr_model.specs.Posts.{taken};
ghost use Rattle.ccr_ledger.specs.Books.{number};
ghost use Rattle.ccr_ledger.specs.Kept.{Keeps};
ghost use Rattle.ccr_telling.specs.Tallies.{AreCountsBy, AreFew, AreTallies, IsCounting, index_of};
ghost use Rattle.ccr_telling.specs.Totals.{totals_by};

use crate::tally::{ALL_INDICES, Tally};
use ccr_base::{OutOfMemory, PortNo, Spot};
use ccr_ledger::Ledger;
use ccr_model::{Event, Totals};
use ccr_report::Counts;
use ccr_wiring::{Wiring, valid_wirings_are_sound};
use std::alloc::Global;

/// The numbers of the events.
fn tally_of(
    alloc: Global,
    ledger: &Ledger,
    events: &[Event],
    ports: usize,
    indices: usize,
    queues: usize,
) -> Result<Tally, OutOfMemory>
    requires taken { length (taken events.now) ≤ length events.now }
    requires cut { length (cut events.now) ≤ length events.now }
    ensures counted { IfOk result (AreTallies ports indices queues ledger.now events.now) }
    ensures few { IfOk result (AreFew (length events.now)) }
{
    let mut tally = Tally::new(alloc, ports, indices, queues)?;
    for event in events {
        tally.enter(ledger, event);
    }
    Ok(tally)
}

/// How many messages each port holds.
fn held_of(alloc: Global, ledger: &Ledger, ports: usize) -> Result<Vec<u64>, OutOfMemory>
    requires { ports ≤ most_ports }
    ensures len { IfOk result (λ counts. length counts.items ≡ ports) }
    ensures counts { IfOk result (λ counts. (k : ℕ) → k < ports → slice_index counts.items k ≡ length (row ledger.now.ports k)) }
{
    let mut counts = Vec::new(alloc);
    for port in 0..ports {
        counts.push(ledger.count_held(port as PortNo) as u64)?;
    }
    Ok(counts)
}

/// How often each spot fired, in their order.
fn fired_of(alloc: Global, tally: &Tally, spots: &[Spot]) -> Result<Vec<u64>, OutOfMemory>
    ensures { IfOk result (λ counts. counts.items ≡ map (λ spot. option_map_or (number tally.now.fired) (index_of spot) 0) spots.now) }
{
    let mut counts = Vec::new(alloc);
    for spot in spots {
        counts.push(tally.fired_at(*spot))?;
    }
    Ok(counts)
}

/// The totals. What was posted and not taken is held.
fn totals_of(tally: &Tally) -> Totals
    ensures { result ≡ totals_by tally.now }
{
    Totals {
        posted: tally.posts,
        taken: tally.taken,
        held: tally.posts.saturating_sub(tally.taken),
        fired: tally.firings,
        done: tally.done,
        failed: tally.failed,
        shed: tally.shed,
        yielded: tally.yielded,
        cut: tally.cut,
        dropped: tally.drops,
        unended: tally
            .firings
            .saturating_sub(tally.done)
            .saturating_sub(tally.failed)
            .saturating_sub(tally.shed)
            .saturating_sub(tally.yielded)
            .saturating_sub(tally.cut)
            .saturating_sub(tally.drops),
    }
}

impl Tally {
    /// The tally of a legal history, by its tables. It can be told of what comes next.
    pub fn of(
        alloc: Global,
        wiring: &Wiring,
        events: &[Event],
        ledger: &Ledger,
    ) -> Result<Self, OutOfMemory>
        requires legal { IsLegal wiring.now events.now }
        requires tables { Keeps wiring.now events.now ledger.now }
        ensures { IfOk result (IsCounting wiring.now events.now) }
    {
        let parts = wiring.parts();
        let ports = parts.ports.as_slice().len();
        let queues = parts.queues.as_slice().len();
        let tally = tally_of(alloc, ledger, events, ports, ALL_INDICES, queues)?;
        Ok(tally)
    }

    /// The counts of the legal history that was told, by its tables.
    pub fn into_counts(
        self,
        alloc: Global,
        wiring: &Wiring,
        ledger: &Ledger,
    ) -> Result<Counts, OutOfMemory>
        ensures { IfOk result (AreCountsBy wiring.now ledger.now self) }
    {
        valid_wirings_are_sound();
        let parts = wiring.parts();
        let held = held_of(alloc, ledger, parts.ports.as_slice().len())?;
        let fired = fired_of(alloc, &self, wiring.spots())?;
        let totals = totals_of(&self);
        let (posted, put, dropped) = self.into_lists();
        Ok(Counts {
            posted,
            held,
            fired,
            put,
            dropped,
            totals,
        })
    }
}

//! The totals of a history.

ghost use Rattle.std.specs.Prelude.{◌≡◌, IfOk, length, filter};
ghost use Rattle.ccr_model.specs.Counts.{totals, is_done, is_failed, is_shed, is_yield};
ghost use Rattle.ccr_model.specs.Firings.{firings};

use crate::messages::{held_ports, posted_ports};
use ccr_base::OutOfMemory;
use ccr_model::firings::{cut, dropped};
use ccr_model::posts::taken;
use ccr_model::{EndHow, Event, History, Totals};
use ccr_wiring::Wiring;
use std::alloc::Global;

/// How often each thing happened in the history (docs/FORMATS.md, "The report").
pub fn totals(alloc: Global, _wiring: &Wiring, history: &History) -> Result<Totals, OutOfMemory>
    ensures { IfOk result (λ found. found ≡ totals history.now) }
{
    totals_of(alloc, history.events())
}

pub(crate) fn totals_of(alloc: Global, events: &[Event]) -> Result<Totals, OutOfMemory>
    ensures posted { IfOk result (λ found. found.posted ≡ (totals events.now).posted) }
    ensures taken { IfOk result (λ found. found.taken ≡ (totals events.now).taken) }
    ensures held { IfOk result (λ found. found.held ≡ (totals events.now).held) }
    ensures fired { IfOk result (λ found. found.fired ≡ (totals events.now).fired) }
    ensures done { IfOk result (λ found. found.done ≡ (totals events.now).done) }
    ensures failed { IfOk result (λ found. found.failed ≡ (totals events.now).failed) }
    ensures shed { IfOk result (λ found. found.shed ≡ (totals events.now).shed) }
    ensures yielded { IfOk result (λ found. found.yielded ≡ (totals events.now).yielded) }
    ensures cut { IfOk result (λ found. found.cut ≡ (totals events.now).cut) }
    ensures dropped { IfOk result (λ found. found.dropped ≡ (totals events.now).dropped) }
    ensures unended { IfOk result (λ found. found.unended ≡ (totals events.now).unended) }
{
    let taken = taken(alloc, events)?;
    let held = held_ports(alloc, events, &taken)?;
    let fired = fired_count(events);
    let done = done_count(events);
    let failed = failed_count(events);
    let shed = shed_count(events);
    let yielded = yield_count(events);
    let cut = cut(alloc, events)?.len() as u64;
    let dropped = dropped(alloc, events)?.len() as u64;
    Ok(Totals {
        posted: posted_ports(alloc, events)?.len() as u64,
        taken: taken.len() as u64,
        held: held.len() as u64,
        fired,
        done,
        failed,
        shed,
        yielded,
        cut,
        dropped,
        unended: fired
            .saturating_sub(done)
            .saturating_sub(failed)
            .saturating_sub(shed)
            .saturating_sub(yielded)
            .saturating_sub(cut)
            .saturating_sub(dropped),
    })
}

fn fired_count(events: &[Event]) -> u64
    ensures { result ≡ length (firings events.now) }
{
    let mut count: u64 = 0;
    for event in events {
        if let Event::Fire { .. } = event {
            count += 1;
        }
    }
    count
}

fn done_count(events: &[Event]) -> u64
    ensures { result ≡ length (filter is_done events.now) }
{
    let mut count: u64 = 0;
    for event in events {
        if let Event::End {
            how: EndHow::Done,
            ..
        } = event
        {
            count += 1;
        }
    }
    count
}

fn failed_count(events: &[Event]) -> u64
    ensures { result ≡ length (filter is_failed events.now) }
{
    let mut count: u64 = 0;
    for event in events {
        if let Event::End {
            how: EndHow::Failed(_),
            ..
        } = event
        {
            count += 1;
        }
    }
    count
}

fn shed_count(events: &[Event]) -> u64
    ensures { result ≡ length (filter is_shed events.now) }
{
    let mut count: u64 = 0;
    for event in events {
        if let Event::End {
            how: EndHow::Shed,
            ..
        } = event
        {
            count += 1;
        }
    }
    count
}

fn yield_count(events: &[Event]) -> u64
    ensures { result ≡ length (filter is_yield events.now) }
{
    let mut count: u64 = 0;
    for event in events {
        if let Event::End {
            how: EndHow::Yield,
            ..
        } = event
        {
            count += 1;
        }
    }
    count
}

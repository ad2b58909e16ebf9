//! All that the order is read from.

ghost use Rattle.std.specs.Prelude.{◌≡◌, ◌<◌, ◌^◌, ℕ, IfOk, OnOk, length};
ghost use Rattle.ccr_engine.specs.Ready.{IsLeastFirst};
ghost use Rattle.ccr_base.specs.Lists.{has_number};
ghost use Rattle.ccr_engine.specs.Desk.{Follows, IsAhead, IsIdle, after_attempt, after_ready, empty_desk, first_in};

use crate::blocked::Blocked;
use crate::domains::note_domains;
use crate::indices::SpotIndices;
use crate::number_set::NumberSet;
use crate::parts::{first_admit, first_post, first_put, first_run, first_start};
use crate::queues::note_queue;
use crate::search::first_fire;
use crate::touched::note_touched;
use ccr_base::{ActorNo, OutOfMemory, TaskId};
use ccr_ledger::Ledger;
use ccr_model::Event;
use ccr_model::rules::needs_no_admission;
use ccr_wiring::Wiring;
use std::alloc::Global;
use std::marker::Model;

/// The tables, and what is kept beside them.
#[derive(Drop)]
pub(crate) struct Desk {
    ledger: Ledger,
    /// The closer's next attempt.
    attempt: u32,
    /// No poster before it has a line left.
    poster: usize,
    /// The indices of the spots that may fire: no other can, room aside, but the blocked ones.
    touched: NumberSet,
    /// The indices of the branches that lacked room when they were asked, by their queues.
    blocked: Blocked,
    /// The domains that may have a task to admit: no other has one.
    domains: NumberSet,
    /// The numbers of the firings whose tasks may be put.
    ready: NumberSet,
    /// The queues that may have a task: no other has one.
    queues: NumberSet,
}

/// The closer's next attempt after the event.
fn attempt_after(closer: ActorNo, event: &Event, attempt: u32) -> u32
    requires { after_attempt closer event.now attempt < 2 ^ 32 }
    ensures { result ≡ after_attempt closer event.now attempt }
{
    let Event::Fire { task, .. } = event else {
        return attempt;
    };
    if task.actor != closer || task.attempt < attempt {
        return attempt;
    }
    task.attempt + 1
}

/// The numbers of the tasks that may be put, after the event.
fn note_ready(
    ledger: &Ledger,
    wiring: &Wiring,
    event: &Event,
    ready: &mut NumberSet,
) -> Result<(), OutOfMemory>
    ensures members { OnOk result ((number : ℕ) → has_number ready.new number ≡ after_ready wiring.now ledger.now event.now ready.old number) }
    ensures least { OnOk result (IsLeastFirst ready.old → IsLeastFirst ready.new) }
{
    match event {
        Event::Fire { spot, .. } => {
            if needs_no_admission(wiring, *spot) {
                ready.enter(ledger.count_fired())
            } else {
                Ok(())
            }
        }
        Event::Admit(task) => match ledger.card(*task) {
            Some(card) => ready.enter(card.number),
            None => Ok(()),
        },
        Event::Put { task, .. } => {
            if let Some(card) = ledger.card(*task) {
                ready.leave(card.number);
            }
            Ok(())
        }
        _ => Ok(()),
    }
}

impl Model for Desk {
    ghost use Rattle.ccr_engine.specs.Desk.{Desk as Seen};

    ghost Value = { Seen };

    ghost view = { λ d. record { books = d.ledger; attempt = d.attempt; poster = d.poster; touched = d.touched; blocked = d.blocked; domains = d.domains; ready = d.ready; queues = d.queues } };
}

impl Desk {
    /// The desk of the empty history.
    pub(crate) fn new(alloc: Global, wiring: &Wiring) -> Result<Self, OutOfMemory>
        ensures { IfOk result (λ desk. desk ≡ empty_desk wiring.now) }
    {
        Ok(Desk {
            ledger: Ledger::new(alloc, wiring)?,
            attempt: 0,
            poster: 0,
            touched: NumberSet::new(alloc),
            blocked: Blocked::new(alloc, wiring.parts().queues.as_slice().len())?,
            domains: NumberSet::new(alloc),
            ready: NumberSet::new(alloc),
            queues: NumberSet::new(alloc),
        })
    }

    /// The tables.
    pub(crate) fn ledger(&self) -> &Ledger
        ensures { result.now ≡ self.now.books }
    {
        &self.ledger
    }

    /// The tables.
    pub(crate) fn into_ledger(self) -> Ledger
        ensures { result ≡ self.books }
    {
        let Desk { ledger, .. } = self;
        ledger
    }

    /// The event that comes first: a script's next line, a firing, an admission, a put, the next event of a running task, or a
    /// start, in this order; None where there is none.
    pub(crate) fn next_event(
        &mut self,
        alloc: Global,
        wiring: &Wiring,
        closer: ActorNo,
    ) -> Result<Option<Event>, OutOfMemory>
        requires few { length wiring.now.posters < 2 ^ 32 }
        requires queues { length wiring.now.queues < 2 ^ 32 }
        requires idle { IsIdle wiring.now closer self.old }
        ensures event { IfOk result (λ event. event ≡ first_in wiring.now closer self.old) }
        ensures ahead { OnOk result (IsAhead wiring.now closer self.old self.new) }
    {
        if let Some(event) = first_post(alloc, wiring, &self.ledger, &mut self.poster)? {
            return Ok(Some(event));
        }
        let task = TaskId {
            actor: closer,
            attempt: self.attempt,
        };
        if let Some(event) = first_fire(
            wiring,
            &mut self.ledger,
            task,
            &mut self.touched,
            &mut self.blocked,
        )? {
            return Ok(Some(event));
        }
        if let Some(event) = first_admit(wiring, &self.ledger, &mut self.domains) {
            return Ok(Some(event));
        }
        if let Some(event) = first_put(wiring, &self.ledger, &self.ready) {
            return Ok(Some(event));
        }
        if let Some(event) = first_run(alloc, wiring, &self.ledger)? {
            return Ok(Some(event));
        }
        Ok(first_start(wiring, &self.ledger, closer, &mut self.queues))
    }

    /// The tables have the event's task at hand then. The desk stays as it is.
    pub(crate) fn seek(&mut self, event: &Event)
        ensures { self.new ≡ self.old }
    {
        self.ledger.seek(event);
    }

    /// Enters the event, which is allowed after those before it.
    pub(crate) fn push(
        &mut self,
        indices: &SpotIndices<'_>,
        closer: ActorNo,
        event: &Event,
    ) -> Result<(), OutOfMemory>
        requires { after_attempt closer event.now self.old.attempt < 2 ^ 32 }
        ensures { OnOk result (Follows indices.now closer event.now self.old self.new) }
    {
        let wiring = indices.wiring();
        let attempt = attempt_after(closer, event, self.attempt);
        note_touched(&self.ledger, indices, event, &mut self.touched)?;
        note_domains(&self.ledger, wiring, event, &mut self.domains)?;
        note_ready(&self.ledger, wiring, event, &mut self.ready)?;
        note_queue(&self.ledger, event, &mut self.queues)?;
        self.ledger.push(wiring, event)?;
        self.attempt = attempt;
        Ok(())
    }
}

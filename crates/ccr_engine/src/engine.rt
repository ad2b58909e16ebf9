//! The engine, which keeps no event.

ghost use Rattle.std.specs.Prelude.{◌≡◌, ◌≤◌, [], IfOk, IfSome, IfNone, OnErr, OnOk, Some, is_some, length, true};
ghost use Rattle.ccr_base.specs.Bounds.{most_actors};
ghost use Rattle.ccr_wiring.specs.Openness.{is_closed};
ghost use Rattle.ccr_model.specs.Firings.{fired};
ghost use Rattle.ccr_model.specs.Legal.{IsAllowed, IsLegal, IsQuiet, is_complete};
ghost use Rattle.ccr_model.specs.Order.{most_attempts, next_attempt, IsFinished};
ghost use Rattle.ccr_ledger.specs.Kept.{Keeps};
ghost use Rattle.ccr_engine.specs.Desk.{empty_desk};
ghost use Rattle.ccr_engine.specs.Engine.{IsSound, next_event, next_engine};

use crate::desk::Desk;
use crate::indices::SpotIndices;
use crate::listener::Listener;
use crate::resuming::desk_of;
use ccr_base::{ActorNo, OutOfMemory};
use ccr_ledger::Ledger;
use ccr_model::{Event, GhostHistory};
use ccr_wiring::Wiring;
use std::alloc::Global;
use std::marker::Model;

/// An engine over a wiring. Contracts see what happened so far, of which nothing is kept but the tables. After a call that found no
/// memory each further one answers so too, since the tables can't be made anew.
#[derive(Drop)]
pub struct Engine<'w> {
    indices: SpotIndices<'w>,
    closer: ActorNo,
    alloc: Global,
    /// What the next event is read from.
    desk: Desk,
    /// What happened, for contracts alone: it takes no memory.
    told: GhostHistory,
    /// Whether the desk is that of what happened.
    whole: bool,
}

impl<'w> Model for Engine<'w> {
    ghost use Rattle.ccr_engine.specs.Engine.{Engine as Seen};
    ghost use Rattle.ccr_engine.specs.Desk.{IsRead};

    ghost Value = { Seen };

    ghost view = { λ e. record { wiring = e.indices; closer = e.closer; history = e.told } };

    ghost invariant = { λ e. IsRead (record { wiring = e.indices; closer = e.closer; history = e.told }) e.desk e.whole };
}

/// The wiring's indices, and an empty desk.
fn begin<'w>(alloc: Global, wiring: &'w Wiring) -> Result<(SpotIndices<'w>, Desk), OutOfMemory>
    ensures indices { IfOk result (λ both. both.0 ≡ wiring.now) }
    ensures desk { IfOk result (λ both. both.1 ≡ empty_desk wiring.now) }
{
    Ok((SpotIndices::new(alloc, wiring)?, Desk::new(alloc, wiring)?))
}

impl<'w> Engine<'w> {
    /// An engine before all events.
    pub fn start(alloc: Global, wiring: &'w Wiring, closer: ActorNo) -> Result<Self, OutOfMemory>
        requires closed { is_closed wiring.now ≡ true }
        requires no_poster { length wiring.now.posters ≤ closer }
        requires low { closer ≤ most_actors }
        ensures { IfOk result (λ engine. engine ≡ record { wiring = wiring.now; closer = closer; history = [] }) }
    {
        // `parts` says that the wiring is valid.
        wiring.parts();
        let (indices, desk) = begin(alloc, wiring)?;
        Ok(Engine {
            indices,
            closer,
            alloc,
            desk,
            told: GhostHistory::new(alloc),
            whole: true,
        })
    }

    /// An engine that goes on behind these events, which it goes through once.
    pub fn resume(
        alloc: Global,
        wiring: &'w Wiring,
        closer: ActorNo,
        events: &[Event],
    ) -> Result<Self, OutOfMemory>
        requires closed { is_closed wiring.now ≡ true }
        requires no_poster { length wiring.now.posters ≤ closer }
        requires low { closer ≤ most_actors }
        requires legal { IsLegal wiring.now events.now }
        requires attempts { next_attempt closer (fired events.now) ≤ most_attempts }
        ensures { IfOk result (λ engine. engine ≡ record { wiring = wiring.now; closer = closer; history = events.now }) }
    {
        // `parts` says that the wiring is valid.
        wiring.parts();
        Engine::behind(alloc, wiring, closer, events)
    }

    /// The same behind the events of a sound engine.
    pub fn behind(
        alloc: Global,
        wiring: &'w Wiring,
        closer: ActorNo,
        events: &[Event],
    ) -> Result<Self, OutOfMemory>
        requires { IsSound (record { wiring = wiring.now; closer = closer; history = events.now }) }
        ensures { IfOk result (λ engine. engine ≡ record { wiring = wiring.now; closer = closer; history = events.now }) }
    {
        let told = GhostHistory::of(alloc, events)?;
        let indices = SpotIndices::new(alloc, wiring)?;
        let desk = desk_of(alloc, &indices, closer, events)?;
        Ok(Engine {
            indices,
            closer,
            alloc,
            desk,
            told,
            whole: true,
        })
    }

    /// The event that comes next, if any. It hasn't happened yet.
    pub fn next(&mut self) -> Result<Option<Event>, OutOfMemory>
        ensures event { IfOk result (λ event. event ≡ next_event self.old) }
        ensures allowed { IfOk result (λ event. IfSome event (IsAllowed self.old.wiring self.old.history)) }
        ensures quiet { IfOk result (λ event. IfNone event (IsQuiet self.old.wiring self.old.history)) }
        ensures sound { OnOk result (IsSound self.old) }
        ensures kept { self.new ≡ self.old }
    {
        if !self.whole {
            return Err(OutOfMemory);
        }
        self.whole = false;
        let next = self
            .desk
            .next_event(self.alloc, self.indices.wiring(), self.closer)?;
        self.whole = true;
        Ok(next)
    }

    /// The event happens, which is the one that comes next.
    pub fn follow(&mut self, event: &Event) -> Result<(), OutOfMemory>
        requires { next_event self.old ≡ Some event.now }
        ensures history { OnOk result (self.new ≡ next_engine self.old) }
        ensures err { OnErr result (self.new ≡ self.old) }
    {
        if !self.whole {
            return Err(OutOfMemory);
        }
        // `parts` says that the wiring is valid.
        let _valid = self.indices.parts();
        self.whole = false;
        self.desk.push(&self.indices, self.closer, event)?;
        self.told.push(event)?;
        self.whole = true;
        Ok(())
    }

    /// The same of an event that nobody needs any more.
    pub fn enter(&mut self, event: Event) -> Result<(), OutOfMemory>
        requires { next_event self.old ≡ Some event }
        ensures history { OnOk result (self.new ≡ next_engine self.old) }
        ensures err { OnErr result (self.new ≡ self.old) }
    {
        self.follow(&event)
    }

    /// The tables of what happened so far.
    pub fn tables(&self) -> Result<&Ledger, OutOfMemory>
        ensures { IfOk result (λ tables. Keeps self.now.wiring self.now.history tables.now) }
    {
        if self.whole {
            Ok(self.desk.ledger())
        } else {
            Err(OutOfMemory)
        }
    }

    /// The tables have the event's task at hand then. Contracts see no change.
    fn seek(&mut self, event: &Event)
        ensures { self.new ≡ self.old }
    {
        self.desk.seek(event);
    }

    /// The event that comes next happens, and the listener hears of it: whether there was one.
    fn advance<L: Listener>(&mut self, listener: &mut L) -> Result<bool, OutOfMemory>
        ensures more { IfOk result (λ more. more ≡ is_some (next_event self.old)) }
        ensures sound { OnOk result (IsSound self.old) }
        ensures history { OnOk result (self.new ≡ next_engine self.old) }
        ensures heard { OnOk result (L.has_heard listener.old self.old.wiring self.old.history → L.has_heard listener.new self.old.wiring self.new.history) }
    {
        let Some(event) = self.next()? else {
            return Ok(false);
        };
        self.seek(&event);
        listener.hear(self.tables()?, &event)?;
        self.enter(event)?;
        Ok(true)
    }

    /// Event after event happens until none comes next, and the listener hears of each.
    pub fn finish<L: Listener>(&mut self, listener: &mut L) -> Result<(), OutOfMemory>
        ensures wiring { OnOk result (self.new.wiring ≡ self.old.wiring) }
        ensures finished { OnOk result (IsFinished self.old.wiring self.old.closer self.old.history self.new.history) }
        ensures legal { OnOk result (IsLegal self.old.wiring self.new.history) }
        ensures complete { OnOk result (is_complete self.old.wiring self.new.history ≡ true) }
        ensures quiet { OnOk result (IsQuiet self.old.wiring self.new.history) }
        ensures heard { OnOk result (L.has_heard listener.old self.old.wiring self.old.history → L.has_heard listener.new self.old.wiring self.new.history) }
    {
        'steps: while self.advance(listener)? {}
        Ok(())
    }

    /// The tables of what happened.
    pub fn into_ledger(self) -> Result<Ledger, OutOfMemory>
        ensures { IfOk result (Keeps self.entry.wiring self.entry.history) }
    {
        let Engine { desk, whole, .. } = self;
        if whole {
            Ok(desk.into_ledger())
        } else {
            Err(OutOfMemory)
        }
    }
}

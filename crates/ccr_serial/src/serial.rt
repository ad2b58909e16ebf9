//! The engine that keeps its history.

ghost use Rattle.std.specs.Prelude.{◌≡◌, ◌≤◌, [], length, IfOk, IfErr, IfSome, IfNone, OnErr, OnOk, Some, is_some, true};
ghost use Rattle.ccr_base.specs.Bounds.{most_actors};
ghost use Rattle.ccr_wiring.specs.Openness.{is_closed};
ghost use Rattle.ccr_model.specs.Firings.{fired};
ghost use Rattle.ccr_model.specs.Legal.{IsAllowed, IsLegal, IsQuiet, is_complete};
ghost use Rattle.ccr_model.specs.Order.{most_attempts, next_attempt, IsFinished};
ghost use Rattle.ccr_ledger.specs.Kept.{Keeps};
ghost use Rattle.ccr_engine.specs.Engine.{next_event, next_engine};
ghost use Rattle.ccr_serial.specs.Steps.{event_of};

use ccr_base::{ActorNo, OutOfMemory};
use ccr_engine::Engine;
use ccr_ledger::Ledger;
use ccr_model::{Event, History};
use ccr_wiring::Wiring;
use std::alloc::Global;
use std::marker::Model;

/// What a step did.
#[derive(Drop)]
pub enum Stepped {
    Did(Event),
    Quiet,
}

/// An engine over a wiring, with its history so far, which callers may stop and look at.
#[derive(Drop)]
pub struct Serial<'w> {
    alloc: Global,
    wiring: &'w Wiring,
    closer: ActorNo,
    history: History,
    /// The engine at the end of the history, or none after a call that found no memory. It is boxed, so that who drops it drops one value and
    /// not each of its tables.
    engine: Option<Box<Engine<'w>>>,
}

impl<'w> Model for Serial<'w> {
    ghost use Rattle.ccr_engine.specs.Engine.{Engine as Seen};
    ghost use Rattle.ccr_serial.specs.Made.{IsMade};

    ghost Value = { Seen };

    ghost view = { λ s. record { wiring = s.wiring.now; closer = s.closer; history = s.history } };

    ghost invariant = { λ s. IsMade (record { wiring = s.wiring.now; closer = s.closer; history = s.history }) s.engine };
}

/// An engine that goes on behind these events.
fn resumed<'w>(
    alloc: Global,
    wiring: &'w Wiring,
    closer: ActorNo,
    events: &[Event],
) -> Result<Box<Engine<'w>>, OutOfMemory>
    requires closed { is_closed wiring.now ≡ true }
    requires no_poster { length wiring.now.posters ≤ closer }
    requires low { closer ≤ most_actors }
    requires legal { IsLegal wiring.now events.now }
    requires attempts { next_attempt closer (fired events.now) ≤ most_attempts }
    ensures { IfOk result (λ engine. engine.value ≡ record { wiring = wiring.now; closer = closer; history = events.now }) }
{
    let made = Engine::resume(alloc, wiring, closer, events)?;
    let engine = Box::new(alloc, made)?;
    Ok(engine)
}

impl<'w> Serial<'w> {
    /// An engine with the empty history.
    pub fn start(alloc: Global, wiring: &'w Wiring, closer: ActorNo) -> Result<Self, OutOfMemory>
        requires closed { is_closed wiring.now ≡ true }
        requires no_poster { length wiring.now.posters ≤ closer }
        requires low { closer ≤ most_actors }
        ensures { IfOk result (λ engine. engine ≡ record { wiring = wiring.now; closer = closer; history = [] }) }
    {
        // `parts` says that the wiring is valid.
        wiring.parts();
        let made = Engine::start(alloc, wiring, closer)?;
        let engine = Box::new(alloc, made)?;
        Ok(Serial {
            alloc,
            wiring,
            closer,
            history: History::new(alloc),
            engine: Some(engine),
        })
    }

    /// An engine that goes on from a legal history, which it goes through once.
    pub fn resume(
        alloc: Global,
        wiring: &'w Wiring,
        closer: ActorNo,
        history: History,
    ) -> Result<Self, (OutOfMemory, History)>
        requires closed { is_closed wiring.now ≡ true }
        requires no_poster { length wiring.now.posters ≤ closer }
        requires low { closer ≤ most_actors }
        requires legal { IsLegal wiring.now history }
        requires attempts { next_attempt closer (fired history) ≤ most_attempts }
        ensures ok { IfOk result (λ engine. engine ≡ record { wiring = wiring.now; closer = closer; history = history }) }
        ensures returned { IfErr result (λ refused. refused.1 ≡ history) }
    {
        // `parts` says that the wiring is valid.
        wiring.parts();
        match resumed(alloc, wiring, closer, history.events()) {
            Ok(engine) => Ok(Serial {
                alloc,
                wiring,
                closer,
                history,
                engine: Some(engine),
            }),
            Err(refused) => Err((refused, history)),
        }
    }

    /// What happened so far.
    pub fn history(&self) -> &History
        ensures history { result.now ≡ self.now.history }
        ensures legal { IsLegal self.now.wiring self.now.history }
    {
        &self.history
    }

    /// Takes the engine out, or makes it anew where there is none.
    fn take_engine(&mut self) -> Result<Box<Engine<'w>>, OutOfMemory>
        ensures engine { IfOk result (λ engine. engine.value ≡ self.old) }
        ensures kept { self.new ≡ self.old }
    {
        match self.engine.take() {
            Some(engine) => Ok(engine),
            None => {
                let made = Engine::behind(
                    self.alloc,
                    self.wiring,
                    self.closer,
                    self.history.events(),
                )?;
                let engine = Box::new(self.alloc, made)?;
                Ok(engine)
            }
        }
    }

    /// The event that comes next, if any. It hasn't happened yet.
    fn next(&mut self) -> Result<Option<Event>, OutOfMemory>
        ensures event { IfOk result (λ event. event ≡ next_event self.old) }
        ensures allowed { IfOk result (λ event. IfSome event (IsAllowed self.old.wiring self.old.history)) }
        ensures quiet { IfOk result (λ event. IfNone event (IsQuiet self.old.wiring self.old.history)) }
        ensures kept { self.new ≡ self.old }
    {
        let mut engine = self.take_engine()?;
        let next = engine.next()?;
        self.engine = Some(engine);
        Ok(next)
    }

    /// The event happens, which is the one that comes next.
    fn enter(&mut self, event: Event) -> Result<(), OutOfMemory>
        requires { next_event self.old ≡ Some event }
        ensures history { OnOk result (self.new ≡ next_engine self.old) }
        ensures err { OnErr result (self.new ≡ self.old) }
    {
        let mut engine = self.take_engine()?;
        engine.follow(&event)?;
        self.history.append(event)?;
        self.engine = Some(engine);
        Ok(())
    }

    /// Appends the event that comes next, or answers that there is none.
    pub fn step(&mut self) -> Result<Stepped, OutOfMemory>
        ensures event { IfOk result (λ did. event_of did ≡ next_event self.old) }
        ensures history { OnOk result (self.new ≡ next_engine self.old) }
        ensures allowed { IfOk result (λ did. IfSome (event_of did) (IsAllowed self.old.wiring self.old.history)) }
        ensures quiet { IfOk result (λ did. IfNone (event_of did) (IsQuiet self.old.wiring self.old.history)) }
        ensures err { OnErr result (self.new ≡ self.old) }
    {
        let Some(event) = self.next()? else {
            return Ok(Stepped::Quiet);
        };
        let kept = event.copy(self.alloc)?;
        self.enter(kept)?;
        Ok(Stepped::Did(event))
    }

    /// Appends the event that comes next, and answers whether there was one.
    fn advance(&mut self) -> Result<bool, OutOfMemory>
        ensures more { IfOk result (λ more. more ≡ is_some (next_event self.old)) }
        ensures history { OnOk result (self.new ≡ next_engine self.old) }
        ensures err { OnErr result (self.new ≡ self.old) }
    {
        let Some(event) = self.next()? else {
            return Ok(false);
        };
        self.enter(event)?;
        Ok(true)
    }

    /// Steps until no event is allowed.
    pub fn finish(self) -> Result<History, OutOfMemory>
        ensures finished { IfOk result (IsFinished self.entry.wiring self.entry.closer self.entry.history) }
        ensures legal { IfOk result (IsLegal self.entry.wiring) }
        ensures complete { IfOk result (λ history. is_complete self.entry.wiring history ≡ true) }
        ensures quiet { IfOk result (IsQuiet self.entry.wiring) }
    {
        let (history, _tables) = self.finish_with_tables()?;
        Ok(history)
    }

    /// The same, and the tables of the history.
    fn finish_with_tables(mut self) -> Result<(History, Ledger), OutOfMemory>
        ensures finished { IfOk result (λ made. IsFinished self.entry.wiring self.entry.closer self.entry.history made.0) }
        ensures legal { IfOk result (λ made. IsLegal self.entry.wiring made.0) }
        ensures complete { IfOk result (λ made. is_complete self.entry.wiring made.0 ≡ true) }
        ensures quiet { IfOk result (λ made. IsQuiet self.entry.wiring made.0) }
        ensures tables { IfOk result (λ made. Keeps self.entry.wiring made.0 made.1) }
    {
        'steps: while self.advance()? {}
        let engine = self.take_engine()?;
        let tables = Box::into_inner(engine).into_ledger()?;
        Ok((self.history, tables))
    }
}

//! The judge that keeps no event.

ghost use Rattle.std.specs.Prelude.{◌≡◌, true, ◌++◌, ◌∷◌, [], IfOk, OnErr, OnOk};
ghost use Rattle.ccr_wiring.specs.Openness.{is_closed};
ghost use Rattle.ccr_wiring.specs.Valid.{IsValid};
ghost use Rattle.ccr_model.specs.Legal.{IsAllowed, IsLegal, is_complete};
ghost use Rattle.ccr_model.specs.Rules.{refusal};
ghost use Rattle.ccr_ledger.specs.Kept.{Keeps};
ghost use Rattle.ccr_checker.specs.Quiet.{MeansQuiet};

use crate::complete::is_complete_in;
use crate::laws::still_is_quiet;
use crate::left::is_still;
use crate::refusing::refusal;
use ccr_base::OutOfMemory;
use ccr_ledger::Ledger;
use ccr_model::firings::is_shed_end;
use ccr_model::{Event, GhostHistory, Rule};
use ccr_wiring::Wiring;
use std::alloc::Global;
use std::marker::Model;

/// A judge of a wiring's events, one after another. Contracts see those that it accepted, of which nothing is kept but the tables. After a
/// call that found no memory each further one answers so too, since the tables can't be made anew.
#[derive(Drop)]
pub struct Checker<'w> {
    wiring: &'w Wiring,
    /// The tables of what was accepted.
    ledger: Ledger,
    /// Whether a task was shed.
    shed: bool,
    /// What was accepted, for contracts alone: it takes no memory.
    accepted: GhostHistory,
    /// Whether the tables are those of what was accepted.
    whole: bool,
}

impl<'w> Model for Checker<'w> {
    ghost use Rattle.ccr_checker.specs.Judges.{IsChecker, Judged};

    ghost Value = { Judged };

    ghost view = { λ c. record { wiring = c.wiring.now; history = c.accepted } };

    ghost invariant = { λ c. IsChecker (record { wiring = c.wiring.now; history = c.accepted }) c.ledger c.whole c.shed };
}

impl<'w> Checker<'w> {
    /// A judge that accepted no event yet.
    pub fn new(alloc: Global, wiring: &'w Wiring) -> Result<Self, OutOfMemory>
        ensures { IfOk result (λ checker. checker ≡ record { wiring = wiring.now; history = [] }) }
    {
        // `parts` says that the wiring is valid.
        let _valid = wiring.parts();
        let ledger = Ledger::new(alloc, wiring)?;
        Ok(Checker {
            wiring,
            ledger,
            shed: false,
            accepted: GhostHistory::new(alloc),
            whole: true,
        })
    }

    /// A judge that accepted these events, which it goes through once.
    pub fn behind(alloc: Global, wiring: &'w Wiring, events: &[Event]) -> Result<Self, OutOfMemory>
        requires { IsLegal wiring.now events.now }
        ensures { IfOk result (λ checker. checker ≡ record { wiring = wiring.now; history = events.now }) }
    {
        let mut checker = Checker::new(alloc, wiring)?;
        for event in events {
            checker.accept(event)?;
        }
        Ok(checker)
    }

    /// The first rule of docs/MODEL.md that refuses the event after those that were accepted, if any. Nothing changes.
    pub fn refusal(&mut self, event: &Event) -> Result<Option<Rule>, OutOfMemory>
        ensures rule { IfOk result (λ rule. rule ≡ refusal self.old.wiring self.old.history event.now) }
        ensures kept { self.new ≡ self.old }
    {
        if !self.whole {
            return Err(OutOfMemory);
        }
        let rule = refusal(self.wiring, &mut self.ledger, event)?;
        Ok(rule)
    }

    /// Accepts the event, which no rule refuses.
    pub fn accept(&mut self, event: &Event) -> Result<(), OutOfMemory>
        requires { IsAllowed self.old.wiring self.old.history event.now }
        ensures ok { OnOk result (self.new ≡ record self.old { history = self.old.history ++ event.now ∷ [] }) }
        ensures err { OnErr result (self.new ≡ self.old) }
    {
        if !self.whole {
            return Err(OutOfMemory);
        }
        self.whole = false;
        self.ledger.push(self.wiring, event)?;
        self.accepted.push(event)?;
        self.shed = self.shed || is_shed_end(event);
        self.whole = true;
        Ok(())
    }

    /// Whether each poster has made its whole script, and the budget is spent where a task was shed.
    pub fn complete(&self) -> Result<bool, OutOfMemory>
        ensures { IfOk result (λ complete. complete ≡ is_complete self.now.wiring self.now.history) }
    {
        if self.whole {
            Ok(is_complete_in(self.wiring, &self.ledger, self.shed))
        } else {
            Err(OutOfMemory)
        }
    }

    /// Whether no event at all is allowed after those that were accepted. Nothing changes.
    pub fn quiet(&mut self) -> Result<bool, OutOfMemory>
        requires { is_closed self.old.wiring ≡ true }
        ensures quiet { IfOk result (MeansQuiet self.old.wiring self.old.history) }
        ensures kept { self.new ≡ self.old }
    {
        if !self.whole {
            return Err(OutOfMemory);
        }
        still_is_quiet();
        is_still(self.wiring, &mut self.ledger)
    }

    /// The tables of what was accepted.
    pub fn tables(&self) -> Result<&Ledger, OutOfMemory>
        ensures tables { IfOk result (λ tables. Keeps self.now.wiring self.now.history tables.now) }
        ensures valid { IsValid self.now.wiring }
        ensures legal { IsLegal self.now.wiring self.now.history }
    {
        if self.whole {
            Ok(&self.ledger)
        } else {
            Err(OutOfMemory)
        }
    }

    /// The same, where the judge isn't asked again.
    pub fn into_ledger(self) -> Result<Ledger, OutOfMemory>
        ensures { IfOk result (Keeps self.entry.wiring self.entry.history) }
    {
        let Checker { ledger, whole, .. } = self;
        if whole { Ok(ledger) } else { Err(OutOfMemory) }
    }
}

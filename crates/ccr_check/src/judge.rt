//! The judge that keeps what it accepted.

ghost use Rattle.std.specs.Prelude.{◌≡◌, ◌++◌, ◌∷◌, [], IfNone, IfOk, IfSome, OnErr, OnOk, length, option_map, true};
ghost use Rattle.ccr_wiring.specs.Openness.{is_closed};
ghost use Rattle.ccr_model.specs.Legal.{IsLegal, is_complete};
ghost use Rattle.ccr_model.specs.Rules.{number_of, refusal};
ghost use Rattle.ccr_checker.specs.Quiet.{MeansQuiet};

use ccr_base::OutOfMemory;
use ccr_checker::{Checker, is_complete};
use ccr_laws::valid_histories_are_short;
use ccr_model::{Event, History};
use ccr_wiring::Wiring;
use std::alloc::Global;
use std::marker::Model;

/// A wiring and the legal history of the events that were accepted.
#[derive(Drop)]
pub struct Judge<'w> {
    alloc: Global,
    wiring: &'w Wiring,
    /// The events that were accepted.
    history: History,
    /// The checker that accepted them all, or none after a call that found no memory. It is boxed, so that who drops it drops one value and
    /// not each of its tables.
    checker: Option<Box<Checker<'w>>>,
}

impl<'w> Model for Judge<'w> {
    ghost use Rattle.ccr_check.specs.Judge.{IsJudge};
    ghost use Rattle.ccr_checker.specs.Judges.{Judged};

    ghost Value = { Judged };

    ghost view = { λ j. record { wiring = j.wiring.now; history = j.history } };

    ghost invariant = { λ j. IsJudge (record { wiring = j.wiring.now; history = j.history }) j.checker };
}

impl<'w> Judge<'w> {
    /// A judge that accepted no event yet.
    pub fn new(alloc: Global, wiring: &'w Wiring) -> Result<Self, OutOfMemory>
        requires { is_closed wiring.now ≡ true }
        ensures { IfOk result (λ judge. judge ≡ record { wiring = wiring.now; history = [] }) }
    {
        // `parts` says that the wiring is valid.
        let _valid = wiring.parts();
        let made = Checker::new(alloc, wiring)?;
        let checker = Box::new(alloc, made)?;
        Ok(Judge {
            alloc,
            wiring,
            history: History::new(alloc),
            checker: Some(checker),
        })
    }

    /// Takes the checker out, or makes it anew where there is none.
    fn take_checker(&mut self) -> Result<Box<Checker<'w>>, OutOfMemory>
        ensures checker { IfOk result (λ checker. checker.value ≡ self.old) }
        ensures kept { self.new ≡ self.old }
    {
        match self.checker.take() {
            Some(checker) => Ok(checker),
            None => {
                let made = Checker::behind(self.alloc, self.wiring, self.history.events())?;
                let checker = Box::new(self.alloc, made)?;
                Ok(checker)
            }
        }
    }

    /// Accepts the event, or answers the number of the first rule of docs/MODEL.md that refuses it after those that were accepted.
    pub fn feed(&mut self, event: &Event) -> Result<Option<u8>, OutOfMemory>
        ensures rule { IfOk result (λ rule. rule ≡ option_map number_of (refusal self.old.wiring self.old.history event.now)) }
        ensures accepted { IfOk result (λ rule. IfNone rule (self.new ≡ record self.old { history = self.old.history ++ event.now ∷ [] })) }
        ensures refused { IfOk result (λ rule. IfSome rule (λ number. self.new ≡ self.old)) }
        ensures err { OnErr result (self.new ≡ self.old) }
    {
        let mut checker = self.take_checker()?;
        if let Some(rule) = checker.refusal(event)? {
            self.checker = Some(checker);
            return Ok(Some(rule.number()));
        }
        // A legal history is short, so no bound is tested.
        valid_histories_are_short();
        let kept = event.copy(self.alloc)?;
        checker.accept(event)?;
        self.history.append(kept)?;
        self.checker = Some(checker);
        Ok(None)
    }

    /// How many events were accepted. Each was allowed after those before it.
    pub fn len(&self) -> u32
        ensures len { result ≡ length self.now.history }
        ensures legal { IsLegal self.now.wiring self.now.history }
    {
        self.history.events().len() as u32
    }

    /// Whether each poster has made its whole script, and the budget is spent where a task was shed.
    pub fn complete(&self) -> bool
        ensures { result ≡ is_complete self.now.wiring self.now.history }
    {
        let wiring: &Wiring = self.wiring;
        if let Some(checker) = &self.checker
            && let Ok(complete) = checker.complete()
        {
            return complete;
        }
        is_complete(wiring, self.history.events())
    }

    /// Whether no event at all is allowed after those that were accepted. It goes through them once, and makes tables of its own.
    pub fn quiet(&self) -> Result<bool, OutOfMemory>
        ensures { IfOk result (MeansQuiet self.now.wiring self.now.history) }
    {
        let made = Checker::behind(self.alloc, self.wiring, self.history.events())?;
        let mut checker = Box::new(self.alloc, made)?;
        checker.quiet()
    }
}

//! What is told of a history so far.

ghost use Rattle.std.specs.Prelude.{IfOk};
ghost use Rattle.ccr_telling.specs.Tallies.{IsCounting};
ghost use Rattle.ccr_telling.specs.Telling.{HasTold};

use crate::Tally;
use ccr_base::{List, OutOfMemory};
use ccr_engine::Listener;
use ccr_ledger::Ledger;
use ccr_model::{Event, History};
use ccr_trace::{WiringNames, add_event, write_history};
use ccr_wiring::Wiring;
use std::alloc::Global;

/// The text of a history and its numbers, which go on with each event.
#[derive(Drop)]
pub struct Telling<'w> {
    names: WiringNames<'w>,
    pub text: List<u8>,
    pub tally: Tally,
}

impl<'w> Telling<'w> {
    /// What is told of a history of which these are the numbers.
    pub fn of(
        alloc: Global,
        wiring: &'w Wiring,
        history: &History,
        tally: Tally,
    ) -> Result<Self, OutOfMemory>
        requires { IsCounting wiring.now history.now tally }
        ensures { IfOk result (λ telling. HasTold telling wiring.now history.now) }
    {
        let names = WiringNames::new(alloc, wiring)?;
        let text = write_history(alloc, wiring, history)?;
        Ok(Telling { names, text, tally })
    }
}

impl<'w> Listener for Telling<'w> {
    ghost has_heard = { HasTold };

    fn hear(&mut self, tables: &Ledger, event: &Event) -> Result<(), OutOfMemory> {
        self.tally.count(tables, event);
        add_event(&mut self.text, &self.names, event)?;
        Ok(())
    }
}

/// The numbers of a history, which go on with each event.
#[derive(Drop)]
pub struct Counting {
    pub tally: Tally,
}

impl Listener for Counting {
    ghost has_heard = { λ counting wiring history. IsCounting wiring history counting.tally };

    fn hear(&mut self, tables: &Ledger, event: &Event) -> Result<(), OutOfMemory> {
        self.tally.count(tables, event);
        Ok(())
    }
}

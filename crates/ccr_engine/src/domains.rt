//! The domains that an event touches: those that are to be asked for an admission after it.

ghost use Rattle.std.specs.Prelude.{OnOk, ◌==◌};
ghost use Rattle.ccr_model.specs.Tasks.{is_branch_where};
ghost use Rattle.ccr_engine.specs.Numbered.{Gains};
ghost use Rattle.ccr_engine.specs.Parts.{is_in_domain, touches_domain_in};

use crate::number_set::NumberSet;
use ccr_base::{OutOfMemory, Spot, TaskId};
use ccr_ledger::Ledger;
use ccr_model::{EndHow, Event};
use ccr_wiring::Wiring;

/// The domain of the branch comes in.
fn note_branch(wiring: &Wiring, spot: Spot, domains: &mut NumberSet) -> Result<(), OutOfMemory>
    ensures { OnOk result (Gains (λ domain. is_branch_where wiring.now (λ s. domain == s.domain) spot) domains.old domains.new) }
{
    match spot {
        Spot::Branch(branch) => match wiring.placement(branch) {
            Some(placement) => domains.enter(placement.domain),
            None => Ok(()),
        },
        Spot::Site(_, _) => Ok(()),
    }
}

/// The domain of the task comes in, where it fired.
fn note_task(ledger: &Ledger, task: TaskId, domains: &mut NumberSet) -> Result<(), OutOfMemory>
    ensures { OnOk result (Gains (λ domain. is_in_domain ledger.now domain task) domains.old domains.new) }
{
    match ledger.card(task) {
        Some(card) => domains.enter(card.domain),
        None => Ok(()),
    }
}

/// The domains come in that the event touches.
pub(crate) fn note_domains(
    ledger: &Ledger,
    wiring: &Wiring,
    event: &Event,
    domains: &mut NumberSet,
) -> Result<(), OutOfMemory>
    ensures { OnOk result (Gains (touches_domain_in wiring.now ledger.now event.now) domains.old domains.new) }
{
    match event {
        Event::Fire { spot, .. } => note_branch(wiring, *spot, domains),
        Event::Put { dropped, .. } => match dropped {
            Some(task) => note_task(ledger, *task, domains),
            None => Ok(()),
        },
        Event::End { task, how } => match how {
            EndHow::Yield => Ok(()),
            _ => note_task(ledger, *task, domains),
        },
        _ => Ok(()),
    }
}

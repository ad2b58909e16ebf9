//! The verdict on a history.

ghost use Rattle.std.specs.Prelude.{◌≡◌, ◌<◌, ◌^◌, [], IfNone, IfOk, length, option_map, true};
ghost use Rattle.ccr_wiring.specs.Openness.{is_closed};
ghost use Rattle.ccr_model.specs.Legal.{first_refusal, numbered};
ghost use Rattle.ccr_check.specs.Verdicts.{TellsLegal, TellsComplete, TellsQuiet, refusal_told};

use crate::Verdict;
use ccr_base::OutOfMemory;
use ccr_checker::Checker;
use ccr_model::{Event, History, Rule};
use ccr_wiring::Wiring;
use std::alloc::Global;

/// Accepts the events up to the first that isn't allowed after those before it, and answers its index and its rule.
fn first_refusal(
    checker: &mut Checker<'_>,
    events: &[Event],
) -> Result<Option<(u32, Rule)>, OutOfMemory>
    requires few { length events.now < 2 ^ 32 }
    requires none { checker.old.history ≡ [] }
    ensures refusal { IfOk result (λ refusal. refusal ≡ first_refusal checker.old.wiring [] 0 events.now) }
    ensures accepted { IfOk result (λ refusal. IfNone refusal (checker.new ≡ record checker.old { history = events.now })) }
{
    for (at, event) in events.iter().enumerate() {
        if let Some(rule) = checker.refusal(event)? {
            return Ok(Some((at as u32, rule)));
        }
        checker.accept(event)?;
    }
    Ok(None)
}

/// Legal where each event is allowed after those before it, else the first that isn't. No event is kept.
pub fn verdict(alloc: Global, wiring: &Wiring, history: &History) -> Result<Verdict, OutOfMemory>
    requires closed { is_closed wiring.now ≡ true }
    requires few { length history.now < 2 ^ 32 }
    ensures refusal { IfOk result (λ verdict. refusal_told verdict ≡ option_map numbered (first_refusal wiring.now [] 0 history.now)) }
    ensures legal { IfOk result (TellsLegal wiring.now history.now) }
    ensures complete { IfOk result (TellsComplete wiring.now history.now) }
    ensures quiet { IfOk result (TellsQuiet wiring.now history.now) }
{
    let made = Checker::new(alloc, wiring)?;
    let mut checker = Box::new(alloc, made)?;
    if let Some((at, rule)) = first_refusal(&mut checker, history.events())? {
        return Ok(Verdict::Illegal {
            at,
            rule: rule.number(),
        });
    }
    let complete = checker.complete()?;
    let quiet = checker.quiet()?;
    Ok(Verdict::Legal { complete, quiet })
}

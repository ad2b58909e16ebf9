//! A history is read from its text and judged event by event.

ghost use Rattle.std.specs.Prelude.{◌≡◌, ◌≤◌, [], length, IfNone, IfOk, option_map, true};
ghost use Rattle.ccr_wiring.specs.Openness.{is_closed};
ghost use Rattle.ccr_base.specs.Bounds.{most_bytes};
ghost use Rattle.ccr_model.specs.Legal.{first_refusal, numbered};
ghost use Rattle.ccr_examples.specs.Judged.{Tells, IsFound};

use ccr_base::OutOfMemory;
use ccr_check::Judge;
use ccr_model::{Event, History};
use ccr_trace::{HistoryRefused, read_history};
use ccr_wiring::Wiring;
use std::alloc::Global;

/// What is found of a history.
#[derive(Clone, Copy, Debug)]
pub enum HistoryFound {
    /// The event of this index, from 0, isn't allowed after those before it, by the rule of this number.
    Illegal { at: u32, rule: u8 },
    /// Each event is allowed; whether the scripts are posted to their ends, and whether nothing more may happen.
    Legal { complete: bool, quiet: bool },
}

/// Feeds the events up to the first that isn't allowed after those before it, and answers its index and the number of its rule.
fn first_refused(judge: &mut Judge<'_>, events: &[Event]) -> Result<Option<(u32, u8)>, OutOfMemory>
    requires { judge.old.history ≡ [] }
    ensures first { IfOk result (λ refused. refused ≡ option_map numbered (first_refusal judge.old.wiring [] 0 events.now)) }
    ensures all { IfOk result (λ refused. IfNone refused (judge.new ≡ record judge.old { history = events.now })) }
{
    for event in events {
        if let Some(rule) = judge.feed(event)? {
            return Ok(Some((judge.len(), rule)));
        }
    }
    Ok(None)
}

/// What is found of a history of the wiring.
pub fn judge(alloc: Global, wiring: &Wiring, history: &History) -> Result<HistoryFound, OutOfMemory>
    requires { is_closed wiring.now ≡ true }
    ensures { IfOk result (Tells wiring.now history.now) }
{
    let mut judge = Judge::new(alloc, wiring)?;
    if let Some((at, rule)) = first_refused(&mut judge, history.events())? {
        return Ok(HistoryFound::Illegal { at, rule });
    }
    Ok(HistoryFound::Legal {
        complete: judge.complete(),
        quiet: judge.quiet()?,
    })
}

/// What is found of the history that this text says, or the line that offends.
pub fn judge_text(
    alloc: Global,
    wiring: &Wiring,
    text: &[u8],
) -> Result<HistoryFound, HistoryRefused>
    requires closed { is_closed wiring.now ≡ true }
    requires length { length text.now ≤ most_bytes }
    ensures { IfOk result (IsFound wiring.now text.now) }
{
    let read = read_history(alloc, wiring, text)?;
    Ok(judge(alloc, wiring, &read.history)?)
}

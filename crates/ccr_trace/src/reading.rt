//! The history that a text says.

ghost use Rattle.std.specs.Prelude.{◌≡◌, ◌≤◌, ◌+◌, length, IfOk};
ghost use Rattle.ccr_base.specs.Bounds.{most_bytes};
ghost use Rattle.ccr_trace.specs.Known.{AreKnown, HaveMessages};
ghost use Rattle.ccr_trace.specs.Answers.{IsReading};
ghost use Rattle.ccr_trace.specs.Reading.{reading};

use crate::event_reader::EventReader;
use crate::refused::HistoryRefused;
use ccr_model::History;
use ccr_wiring::Wiring;
use std::alloc::Global;

/// A history that was read. `rest` is the byte where the line `report 1` begins, `lines` how many lines stand before it.
#[derive(Drop)]
pub struct ReadHistory {
    pub history: History,
    pub rest: usize,
    pub lines: u32,
}

/// The events of the text, kept.
fn read_text(alloc: Global, wiring: &Wiring, text: &[u8]) -> Result<ReadHistory, HistoryRefused>
    requires { length text.now ≤ most_bytes }
    ensures { IsReading result (reading wiring.now text.now) }
{
    let mut reader = EventReader::new(alloc, wiring, text)?;
    let mut history = History::new(alloc);
    'events: while let Some(event) = reader.next()? {
        history.append(event)?;
    }
    Ok(ReadHistory {
        history,
        rest: reader.rest(),
        lines: reader.lines(),
    })
}

/// The history that a text says up to its line `report 1`, or its first offending line and the code (docs/FORMATS.md).
/// One pass, line by line.
pub fn read_history(
    alloc: Global,
    wiring: &Wiring,
    text: &[u8],
) -> Result<ReadHistory, HistoryRefused>
    requires { length text.now ≤ most_bytes }
    ensures reading { IsReading result (reading wiring.now text.now) }
    ensures rest { IfOk result (λ read. read.rest ≤ length text.now) }
    ensures known { IfOk result (λ read. AreKnown wiring.now read.history) }
    ensures messages { IfOk result (λ read. HaveMessages read.history) }
    ensures lines { IfOk result (λ read. read.lines ≡ length read.history + 1) }
{
    read_text(alloc, wiring, text)
}

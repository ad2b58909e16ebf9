//! What is found of an output that stands behind its wiring.

ghost use Rattle.std.specs.Prelude.{◌≡◌, ◌≤◌, ◌+◌, List as Listed, Ok, IfOk, length, true};
ghost use Rattle.ccr_wiring.specs.Openness.{is_closed};
ghost use Rattle.ccr_base.specs.Bounds.{most_bytes};
ghost use Rattle.ccr_model.specs.declared.history.Event.{Event as SomeEvent};
ghost use Rattle.ccr_report.specs.Counted.{HasRows, IsCounted};
ghost use Rattle.ccr_trace.specs.declared.reading.ReadHistory.{ReadHistory as SomeHistory};
ghost use Rattle.ccr_telling.specs.declared.judging.Judgement.TheVariants.{Legal};
ghost use Rattle.ccr_telling.specs.Judging.{IsJudged};
ghost use Rattle.ccr_commands.specs.Findings.{due_text, difference, reading_output, IsFound};

use crate::comparing::first_difference;
use crate::findings::Finding;
use crate::sheds::sheds;
use ccr_base::{List, OutOfMemory};
use ccr_report::{Counts, counted_text};
use ccr_telling::{Judgement, LegalText, judge_text};
use ccr_text::put_bytes;
use ccr_trace::{HistoryCode, HistoryRefused};
use ccr_wiring::Wiring;
use std::alloc::Global;

/// What is due behind the events of each history whose counts these are: the report and the last line.
fn due_text(alloc: Global, wiring: &Wiring, counts: &Counts) -> Result<List<u8>, OutOfMemory>
    requires { HasRows wiring.now counts.now }
    ensures { IfOk result (λ text. (history : Listed SomeEvent) → IsCounted wiring.now history counts.now → text ≡ due_text wiring.now history) }
{
    let mut text = counted_text(alloc, wiring, counts)?;
    let last: &[u8] = if sheds(counts) {
        b"done 6\n"
    } else {
        b"done 0\n"
    };
    put_bytes(&mut text, last)?;
    Ok(text)
}

/// The line at which the output, behind its events, first differs from what is due.
fn difference(
    alloc: Global,
    wiring: &Wiring,
    before: u32,
    output: &[u8],
    found: &LegalText,
) -> Result<Option<u32>, OutOfMemory>
    requires legal { IsJudged wiring.now output.now (Legal found.now) }
    requires before { before ≤ most_bytes }
    requires length { length output.now ≤ most_bytes }
    requires lines { found.now.lines ≤ most_bytes + 2 }
    requires rest { found.now.rest ≤ length output.now }
    ensures { IfOk result (λ line. (read : SomeHistory) → reading_output wiring.now before output.now ≡ Ok read → line ≡ difference wiring.now before output.now read) }
{
    let due = due_text(alloc, wiring, &found.counts)?;
    Ok(first_difference(
        before + found.lines + 1,
        &output[found.rest..],
        due.as_slice(),
    ))
}

/// What is found of an output that begins with the text of a history.
fn finding_of_text(
    alloc: Global,
    wiring: &Wiring,
    before: u32,
    output: &[u8],
    judgement: &Judgement,
) -> Result<Finding, OutOfMemory>
    requires judged { IsJudged wiring.now output.now judgement.now }
    requires before { before ≤ most_bytes }
    requires length { length output.now ≤ most_bytes }
    ensures { IfOk result (IsFound wiring.now before output.now) }
{
    match judgement {
        Judgement::Illegal { at, rule } => Ok(Finding::Illegal {
            line: before + 2 + *at,
            rule: *rule,
        }),
        Judgement::Legal(found) => {
            match difference(alloc, wiring, before, output, found)? {
                Some(line) => Ok(Finding::Misreported { line }),
                None => Ok(Finding::Legal {
                    complete: found.complete,
                    quiet: found.quiet,
                }),
            }
        }
    }
}

/// What is found of an output behind so many lines.
pub fn finding_of(
    alloc: Global,
    wiring: &Wiring,
    before: u32,
    output: &[u8],
) -> Result<Finding, OutOfMemory>
    requires closed { is_closed wiring.now ≡ true }
    requires before { before ≤ most_bytes }
    requires length { length output.now ≤ most_bytes }
    ensures { IfOk result (IsFound wiring.now before output.now) }
{
    if output.is_empty() {
        return Ok(Finding::Malformed {
            line: before.max(1),
            code: HistoryCode::Unfinished.number(),
        });
    }
    match judge_text(alloc, wiring, output) {
        Ok(judgement) => finding_of_text(alloc, wiring, before, output, &judgement),
        Err(HistoryRefused::At { line, code }) => Ok(Finding::Malformed {
            line: before + line,
            code,
        }),
        Err(HistoryRefused::Memory) => Err(OutOfMemory),
    }
}

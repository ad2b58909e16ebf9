//! An input that is a wiring with an output behind it.

ghost use Rattle.std.specs.Prelude.{◌≡◌, ◌≤◌, Bool, IfOk, length, true};
ghost use Rattle.ccr_wiring.specs.Openness.{is_closed};
ghost use Rattle.ccr_base.specs.Bounds.{most_bytes};
ghost use Rattle.ccr_commands.specs.Findings.{VerifyGives, status_of};
ghost use Rattle.ccr_commands.specs.Answers.{AnswersText, PartsGive};
ghost use Rattle.ccr_words.specs.declared.requests.Command.TheVariants.{Verify};

use crate::findings::{Finding, finding_text};
use crate::judging::finding_of;
use crate::outputs::{Output, refused};
use crate::status::Status;
use ccr_base::OutOfMemory;
use ccr_replay::read_part;
use ccr_text::find_line;
use ccr_wiring::Wiring;
use std::alloc::Global;

/// With what the program ends where this is found.
fn status_of(finding: Finding) -> Status
    ensures { result ≡ status_of finding }
{
    match finding {
        Finding::Legal { .. } => Status::Done,
        Finding::Malformed { .. } | Finding::Illegal { .. } | Finding::Misreported { .. } => {
            Status::Illegal
        }
    }
}

/// What is found of an output behind so many lines.
fn judge_output(
    alloc: Global,
    wiring: &Wiring,
    before: u32,
    output: &[u8],
) -> Result<Output, OutOfMemory>
    requires closed { is_closed wiring.now ≡ true }
    requires before { before ≤ most_bytes }
    requires length { length output.now ≤ most_bytes }
    ensures { IfOk result (λ due. VerifyGives wiring.now before output.now due.status due.text) }
{
    let finding = finding_of(alloc, wiring, before, output)?;
    Ok(Output {
        status: status_of(finding),
        text: finding_text(alloc, finding)?,
    })
}

/// What is written of a wiring's part of an input, and the output behind so many lines.
fn judge_parts(
    alloc: Global,
    part: &[u8],
    before: u32,
    output: &[u8],
) -> Result<Output, OutOfMemory>
    requires before { before ≤ most_bytes }
    requires length { length output.now ≤ most_bytes }
    ensures { IfOk result (λ due. PartsGive part.now before output.now due.status due.text) }
{
    match read_part(alloc, part) {
        Ok(wiring) => judge_output(alloc, &wiring, before, output),
        Err(why) => refused(alloc, why),
    }
}

/// What `verify` writes. The wiring is what stands before the first line whose first word is `history`.
#[tactic(auto, using(crate::proofs::GivenIsDue::parts_are_due))]
pub fn verify(alloc: Global, text: &[u8]) -> Result<Output, OutOfMemory>
    requires { length text.now ≤ most_bytes }
    ensures { (json : Bool) → IfOk result (λ due. AnswersText Verify json text.now due.status due.text) }
{
    let (index, before) = find_line(text, b"history");
    judge_parts(alloc, &text[..index], before, &text[index..])
}

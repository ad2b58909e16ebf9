//! Whether the counts of a wiring depend on who acts when.

ghost use Rattle.std.specs.Prelude.{◌≡◌, ◌≤◌, ◌++◌, ◌∷◌, IfOk, OnOk, codes, length};
ghost use Rattle.ccr_base.specs.Bounds.{most_wiring_bytes};
ghost use Rattle.ccr_text.specs.Spelling.{line_text};
ghost use Rattle.ccr_report.specs.Report.{total_words};
ghost use Rattle.ccr_commands.specs.Answers.{AnswersText};
ghost use Rattle.ccr_commands.specs.Steady.{agreed_text, SteadyGives};
ghost use Rattle.ccr_words.specs.declared.requests.Command.TheVariants.{Steady};

use crate::outputs::{Output, refused};
use crate::status::Status;
use ccr_base::{List, OutOfMemory};
use ccr_model::Totals;
use ccr_report::put_total;
use ccr_steady::{Agreed, agreed};
use ccr_text::{put_bytes, put_number};
use ccr_wiretext::read_wiring;
use ccr_wiring::Wiring;
use std::alloc::Global;

/// The totals of all runs.
fn put_counts(alloc: Global, out: &mut List<u8>, totals: &Totals) -> Result<(), OutOfMemory>
    ensures { OnOk result (out.new ≡ out.old ++ (codes "steady" ++ 10 ∷ line_text (total_words totals.now))) }
{
    put_bytes(out, b"steady\n")?;
    put_total(alloc, out, totals)?;
    Ok(())
}

/// The rule by which a wiring is unsteady, that its runs spend the budget, or the totals of its runs.
fn put_agreed(alloc: Global, out: &mut List<u8>, found: &Agreed) -> Result<(), OutOfMemory>
    ensures { OnOk result (out.new ≡ out.old ++ agreed_text found.now) }
{
    match found {
        Agreed::Unsteady(rule) => {
            put_bytes(out, b"unsteady ")?;
            put_number(out, u64::from(*rule))?;
            put_bytes(out, b"\n")
        }
        Agreed::Spent => put_bytes(out, b"spent\n"),
        Agreed::Counts { fired: _, totals } => put_counts(alloc, out, totals),
    }
}

fn steady(alloc: Global, wiring: &Wiring) -> Result<Output, OutOfMemory>
    ensures { IfOk result (λ due. SteadyGives wiring.now due.status due.text) }
{
    let found = agreed(alloc, wiring)?;
    let mut text = List::new(alloc);
    put_agreed(alloc, &mut text, &found)?;
    put_bytes(&mut text, b"done 0\n")?;
    Ok(Output {
        status: Status::Done,
        text,
    })
}

/// What `steady` writes.
pub fn answer_steady(alloc: Global, text: &[u8]) -> Result<Output, OutOfMemory>
    requires { length text.now ≤ most_wiring_bytes }
    ensures { (json : _) → IfOk result (λ due. AnswersText Steady json text.now due.status due.text) }
{
    match read_wiring(alloc, text) {
        Ok(wiring) => steady(alloc, &wiring),
        Err(why) => refused(alloc, why),
    }
}

//! The text of the steps of a run.

ghost use Rattle.std.specs.Prelude.{◌≡◌, ◌++◌, IfOk, OnOk, map};
ghost use Rattle.ccr_text.specs.Spelling.{line_text, text_of};
ghost use Rattle.ccr_trace.specs.Words.{branch_names};
ghost use Rattle.ccr_replay.specs.Steps.{step_words, steps_text};

use crate::words::{put_note, put_place, put_stamp};
use ccr_base::{List, Name, OutOfMemory};
use ccr_runs::{Entry, Full};
use ccr_text::put_bytes;
use ccr_trace::put_number_word;
use ccr_wiring::{Parts, Wiring, branch_names};
use std::alloc::Global;

/// How many bytes the line of a step has, about.
const LINE: usize = 32;

/// Adds the line of an entry.
fn put_step(
    out: &mut List<u8>,
    parts: &Parts,
    branches: &[Name],
    entry: &Entry,
) -> Result<(), OutOfMemory>
    requires { branches.now ≡ branch_names parts.now }
    ensures { OnOk result (out.new ≡ out.old ++ line_text (step_words parts.now entry.now)) }
{
    put_bytes(out, b"step")?;
    put_stamp(out, entry.stamp)?;
    put_number_word(out, u64::from(entry.actor))?;
    put_place(out, parts, branches, entry.place)?;
    put_note(out, &entry.note)?;
    put_bytes(out, b"\n")
}

fn put_steps(
    out: &mut List<u8>,
    parts: &Parts,
    branches: &[Name],
    entries: &[Entry],
) -> Result<(), OutOfMemory>
    requires { branches.now ≡ branch_names parts.now }
    ensures { OnOk result (out.new ≡ out.old ++ text_of (map (step_words parts.now) entries.now)) }
{
    for entry in entries {
        put_step(out, parts, branches, entry)?;
    }
    Ok(())
}

/// The steps of a run: a line `step STAMP ACTOR PLACE NOTE` for each entry, in order, and the last line `done 0`. Of a firing
/// the line names the task, and neither messages nor cuts.
pub fn steps_text(alloc: Global, wiring: &Wiring, full: &Full) -> Result<List<u8>, OutOfMemory>
    ensures { IfOk result (λ text. text ≡ steps_text wiring.now full.now.entries) }
{
    let parts = wiring.parts();
    let branches = branch_names(alloc, parts)?;
    let entries = full.entries.as_slice();
    let mut out = List::from_vec(Vec::with_capacity(alloc, entries.len().saturating_mul(LINE))?);
    put_steps(&mut out, parts, branches.as_slice(), entries)?;
    put_bytes(&mut out, b"done 0\n")?;
    Ok(out)
}

//! The lines of a report.

ghost use Rattle.std.specs.Prelude.{◌≡◌, ◌++◌, ◌∷◌, [], List as Listed, IfOk, OnOk, OnErr, length, codes, decimal};
ghost use Rattle.ccr_wiring.specs.Wirings.{spots as spots_of};
ghost use Rattle.ccr_model.specs.declared.history.Event.{Event as SomeEvent};
ghost use Rattle.ccr_text.specs.Spelling.{line_text, text_of};
ghost use Rattle.ccr_wiring.specs.SpotWords.{branch_names};
ghost use Rattle.ccr_report.specs.Counted.{HasRows, IsCounted};
ghost use Rattle.ccr_report.specs.Report.{amount_text, end_amounts, message_amounts, other_amounts, total_words, report_text};
ghost use Rattle.ccr_report.specs.Rows.{port_fields, port_rows, spot_rows, queue_rows, counted_text};

use crate::counted::{Counts, counts_of};
use ccr_base::{List, Name, OutOfMemory, Spot};
use ccr_model::{History, Totals};
use ccr_text::{put_bytes, put_line, put_number};
use ccr_wiring::{Parts, Wiring, branch_names, spot_text};
use std::alloc::Global;

/// The report on the history (docs/FORMATS.md, "The report"): a line for each port, each spot and each queue, and the totals.
pub fn report_text(
    alloc: Global,
    wiring: &Wiring,
    history: &History,
) -> Result<List<u8>, OutOfMemory>
    ensures { IfOk result (λ text. text ≡ report_text wiring.now history.now) }
{
    let counts = counts_of(alloc, wiring, history)?;
    counted_text(alloc, wiring, &counts)
}

/// The same from counts: the report on each history whose counts these are.
pub fn counted_text(
    alloc: Global,
    wiring: &Wiring,
    counts: &Counts,
) -> Result<List<u8>, OutOfMemory>
    requires { HasRows wiring.now counts.now }
    ensures { IfOk result (λ text. (history : Listed SomeEvent) → IsCounted wiring.now history counts.now → text ≡ report_text wiring.now history) }
{
    let branches = branch_names(alloc, wiring.parts())?;
    let text = text_of(alloc, wiring.parts(), &branches, wiring.spots(), counts)?;
    Ok(text)
}

fn text_of(
    alloc: Global,
    parts: &Parts,
    branches: &List<Name>,
    spots: &[Spot],
    counts: &Counts,
) -> Result<List<u8>, OutOfMemory>
    requires rows { HasRows parts.now counts.now }
    requires branches { branches.now ≡ branch_names parts.now }
    requires spots { spots.now ≡ spots_of parts.now }
    ensures { IfOk result (λ text. text ≡ counted_text parts.now counts.now) }
{
    let mut out = List::new(alloc);
    put_line(&mut out, &[b"report", b"1"])?;
    put_ports(alloc, &mut out, parts, &counts.posted, &counts.held)?;
    put_spots(alloc, &mut out, branches, spots, &counts.fired)?;
    put_queues(alloc, &mut out, parts, &counts.put, &counts.dropped)?;
    put_total(alloc, &mut out, &counts.totals)?;
    Ok(out)
}

fn put_ports(
    alloc: Global,
    out: &mut List<u8>,
    parts: &Parts,
    posted: &[u64],
    held: &[u64],
) -> Result<(), OutOfMemory>
    requires posted_len { length posted.now ≡ length parts.now.ports }
    requires held_len { length held.now ≡ length parts.now.ports }
    ensures { OnOk result (out.new ≡ out.old ++ text_of (port_rows posted.now held.now 0 parts.now.ports)) }
{
    let ports = parts.ports.as_slice();
    for (port, name) in ports.iter().enumerate() {
        let posted = posted[port];
        let held = held[port];
        put_port(
            alloc,
            out,
            name.as_slice(),
            posted,
            posted.saturating_sub(held),
            held,
        )?;
    }
    Ok(())
}

fn put_port(
    alloc: Global,
    out: &mut List<u8>,
    name: &[u8],
    posted: u64,
    taken: u64,
    held: u64,
) -> Result<(), OutOfMemory>
    ensures { OnOk result (out.new ≡ out.old ++ line_text (port_fields name.now posted taken held)) }
{
    let taken = taken.to_string(alloc)?;
    let posted = posted.to_string(alloc)?;
    let held = held.to_string(alloc)?;
    put_line(
        out,
        &[
            b"port",
            name,
            b"posted",
            posted.as_bytes(),
            b"taken",
            taken.as_bytes(),
            b"held",
            held.as_bytes(),
        ],
    )
}

fn put_spots(
    alloc: Global,
    out: &mut List<u8>,
    branches: &List<Name>,
    spots: &[Spot],
    counts: &[u64],
) -> Result<(), OutOfMemory>
    requires { length counts.now ≡ length spots.now }
    ensures { OnOk result (out.new ≡ out.old ++ text_of (spot_rows branches.now counts.now 0 spots.now)) }
{
    for (index, spot) in spots.iter().enumerate() {
        let word = spot_text(alloc, branches.as_slice(), *spot)?;
        let fired = counts[index].to_string(alloc)?;
        put_line(
            out,
            &[b"branch", word.as_slice(), b"fired", fired.as_bytes()],
        )?;
    }
    Ok(())
}

fn put_queues(
    alloc: Global,
    out: &mut List<u8>,
    parts: &Parts,
    put: &[u64],
    dropped: &[u64],
) -> Result<(), OutOfMemory>
    requires put_len { length put.now ≡ length parts.now.queues }
    requires dropped_len { length dropped.now ≡ length parts.now.queues }
    ensures { OnOk result (out.new ≡ out.old ++ text_of (queue_rows put.now dropped.now 0 parts.now.queues)) }
{
    let queues = parts.queues.as_slice();
    for (queue, part) in queues.iter().enumerate() {
        put_queue(alloc, out, part.name.as_slice(), put[queue], dropped[queue])?;
    }
    Ok(())
}

fn put_queue(
    alloc: Global,
    out: &mut List<u8>,
    name: &[u8],
    put: u64,
    dropped: u64,
) -> Result<(), OutOfMemory>
    ensures { OnOk result (out.new ≡ out.old ++ line_text (codes "queue" ∷ name.now ∷ codes "put" ∷ decimal put ∷ codes "dropped" ∷ decimal dropped ∷ [])) }
{
    let put = put.to_string(alloc)?;
    let dropped = dropped.to_string(alloc)?;
    put_line(
        out,
        &[
            b"queue",
            name,
            b"put",
            put.as_bytes(),
            b"dropped",
            dropped.as_bytes(),
        ],
    )
}

/// Adds the line of the totals. Without memory the text stays as it was.
pub fn put_total(alloc: Global, out: &mut List<u8>, totals: &Totals) -> Result<(), OutOfMemory>
    ensures ok { OnOk result (out.new ≡ out.old ++ line_text (total_words totals.now)) }
    ensures err { OnErr result (out.new ≡ out.old) }
{
    let line = total_line(alloc, totals)?;
    put_bytes(out, line.as_slice())
}

fn total_line(alloc: Global, totals: &Totals) -> Result<List<u8>, OutOfMemory>
    ensures { IfOk result (λ line. line ≡ line_text (total_words totals.now)) }
{
    let mut line = List::new(alloc);
    put_bytes(&mut line, b"total")?;
    put_message_amounts(&mut line, totals)?;
    put_end_amounts(&mut line, totals)?;
    put_other_amounts(&mut line, totals)?;
    put_bytes(&mut line, b"\n")?;
    Ok(line)
}

fn put_message_amounts(line: &mut List<u8>, totals: &Totals) -> Result<(), OutOfMemory>
    ensures { OnOk result (line.new ≡ line.old ++ message_amounts totals.now) }
{
    put_amount(line, b"posted", totals.posted)?;
    put_amount(line, b"taken", totals.taken)?;
    put_amount(line, b"held", totals.held)?;
    put_amount(line, b"fired", totals.fired)
}

fn put_end_amounts(line: &mut List<u8>, totals: &Totals) -> Result<(), OutOfMemory>
    ensures { OnOk result (line.new ≡ line.old ++ end_amounts totals.now) }
{
    put_amount(line, b"done", totals.done)?;
    put_amount(line, b"failed", totals.failed)?;
    put_amount(line, b"shed", totals.shed)?;
    put_amount(line, b"yield", totals.yielded)
}

fn put_other_amounts(line: &mut List<u8>, totals: &Totals) -> Result<(), OutOfMemory>
    ensures { OnOk result (line.new ≡ line.old ++ other_amounts totals.now) }
{
    put_amount(line, b"cut", totals.cut)?;
    put_amount(line, b"dropped", totals.dropped)?;
    put_amount(line, b"left", totals.unended)
}

/// Adds a word and a number, each behind a space.
fn put_amount(line: &mut List<u8>, word: &[u8], number: u64) -> Result<(), OutOfMemory>
    ensures { OnOk result (line.new ≡ line.old ++ amount_text word.now number) }
{
    put_bytes(line, b" ")?;
    put_bytes(line, word)?;
    put_bytes(line, b" ")?;
    put_number(line, number)
}

//! A report as JSON.

ghost use Rattle.std.specs.Prelude.{◌≡◌, true, List as Listed, IfOk, length, map};
ghost use Rattle.std.specs.List.{list_all};
ghost use Rattle.serde_json.specs.Data.{string};
ghost use Rattle.serde_json.specs.View.{view};
ghost use Rattle.ccr_wiring.specs.declared.parts.QueuePart.{QueuePart as Queue};
ghost use Rattle.ccr_wiring.specs.SpotWords.{spot_word};
ghost use Rattle.ccr_model.specs.declared.history.Event.{Event as SomeEvent};
ghost use Rattle.ccr_report.specs.Counted.{HasRows, IsCounted};
ghost use Rattle.ccr_json.specs.Lines.{is_plain};
ghost use Rattle.ccr_json.specs.Names.{HasPlainNames};
ghost use Rattle.ccr_json.specs.Objects.{port_object, queue_object, report_object, spot_object};
ghost use Rattle.ccr_json.specs.Report.{report_json};
ghost use Rattle.ccr_json.specs.Rows.{branch_rows, port_rows, queue_rows, counted_value};

use crate::laws::names_are_plain;
use crate::lines::line_of;
use crate::text::{list, text_value};
use crate::totals::totals_value;
use ccr_base::{List, Name, OutOfMemory, Spot};
use ccr_model::History;
use ccr_report::{Counts, counts_of};
use ccr_wiring::{Parts, Wiring, branch_names, spot_text};
use serde_json::{Value, json};
use std::alloc::{AllocError, Global};

/// A value for each port.
fn port_values(
    alloc: Global,
    ports: &[Name],
    posted: &[u64],
    held: &[u64],
) -> Result<Vec<Value>, OutOfMemory>
    requires plain { list_all is_plain ports.now ≡ true }
    requires posted { length posted.now ≡ length ports.now }
    requires held { length held.now ≡ length ports.now }
    ensures { IfOk result (λ values. map view values.items ≡ port_rows posted.now held.now 0 ports.now) }
{
    let mut values = Vec::new(alloc);
    for (port, name) in ports.iter().enumerate() {
        let name = text_value(alloc, name.as_slice())?;
        let posted = posted[port];
        let held = held[port];
        let value = port_value(alloc, name, posted, posted.saturating_sub(held), held)?;
        values.push(value)?;
    }
    Ok(values)
}

fn port_value(
    alloc: Global,
    name: Value,
    posted: u64,
    taken: u64,
    held: u64,
) -> Result<Value, AllocError>
    ensures { IfOk result (λ value. view value ≡ port_object held (view name) posted taken) }
{
    json!(in alloc; {"held": held, "name": name, "posted": posted, "taken": taken})
}

/// A value for each queue.
fn queue_values(
    alloc: Global,
    parts: &Parts,
    put: &[u64],
    dropped: &[u64],
) -> Result<Vec<Value>, OutOfMemory>
    requires plain { list_all (λ (part : Queue). is_plain part.name) parts.now.queues ≡ true }
    requires put { length put.now ≡ length parts.now.queues }
    requires dropped { length dropped.now ≡ length parts.now.queues }
    ensures { IfOk result (λ values. map view values.items ≡ queue_rows put.now dropped.now 0 parts.now.queues) }
{
    let queues = parts.queues.as_slice();
    let mut values = Vec::new(alloc);
    for (queue, part) in queues.iter().enumerate() {
        let name = text_value(alloc, part.name.as_slice())?;
        let value = queue_value(alloc, name, put[queue], dropped[queue])?;
        values.push(value)?;
    }
    Ok(values)
}

fn queue_value(alloc: Global, name: Value, put: u64, dropped: u64) -> Result<Value, AllocError>
    ensures { IfOk result (λ value. view value ≡ queue_object dropped (view name) put) }
{
    json!(in alloc; {"dropped": dropped, "name": name, "put": put})
}

/// A value for each spot.
fn branch_values(
    alloc: Global,
    branches: &List<Name>,
    spots: &[Spot],
    fired: &[u64],
) -> Result<Vec<Value>, OutOfMemory>
    requires plain { list_all is_plain branches.now ≡ true }
    requires fired { length fired.now ≡ length spots.now }
    ensures { IfOk result (λ values. map view values.items ≡ branch_rows branches.now fired.now 0 spots.now) }
{
    let mut values = Vec::new(alloc);
    for (index, spot) in spots.iter().enumerate() {
        let name = spot_name(alloc, branches.as_slice(), *spot)?;
        let value = spot_value(alloc, name, fired[index])?;
        values.push(value)?;
    }
    Ok(values)
}

fn spot_name(alloc: Global, branches: &[Name], spot: Spot) -> Result<Value, OutOfMemory>
    requires { list_all is_plain branches.now ≡ true }
    ensures { IfOk result (λ value. view value ≡ string (spot_word branches.now spot)) }
{
    let word = spot_text(alloc, branches, spot)?;
    text_value(alloc, word.as_slice())
}

fn spot_value(alloc: Global, name: Value, fired: u64) -> Result<Value, AllocError>
    ensures { IfOk result (λ value. view value ≡ spot_object fired (view name)) }
{
    json!(in alloc; {"fired": fired, "name": name})
}

fn report_of(
    alloc: Global,
    branches: Vec<Value>,
    ports: Vec<Value>,
    queues: Vec<Value>,
    total: Value,
) -> Result<Value, AllocError>
    ensures { IfOk result (λ value. view value ≡ report_object (map view branches.items) (map view ports.items) (map view queues.items) (view total)) }
{
    let branches = list(branches);
    let ports = list(ports);
    let queues = list(queues);
    json!(in alloc; {"branches": branches, "ports": ports, "queues": queues, "total": total})
}

fn report_value(alloc: Global, wiring: &Wiring, counts: &Counts) -> Result<Value, OutOfMemory>
    requires plain { HasPlainNames wiring.now }
    requires rows { HasRows wiring.now counts.now }
    ensures { IfOk result (λ value. view value ≡ counted_value wiring.now counts.now) }
{
    let parts = wiring.parts();
    let names = branch_names(alloc, parts)?;
    let branches = branch_values(alloc, &names, wiring.spots(), &counts.fired)?;
    let ports = port_values(alloc, parts.ports.as_slice(), &counts.posted, &counts.held)?;
    let queues = queue_values(alloc, parts, &counts.put, &counts.dropped)?;
    let total = totals_value(alloc, &counts.totals)?;
    Ok(report_of(alloc, branches, ports, queues, total)?)
}

/// The report on the history as one line of JSON.
pub fn report_json(
    alloc: Global,
    wiring: &Wiring,
    history: &History,
) -> Result<List<u8>, OutOfMemory>
    ensures { IfOk result (λ text. text ≡ report_json wiring.now history.now) }
{
    let counts = counts_of(alloc, wiring, history)?;
    counted_json(alloc, wiring, &counts)
}

/// The same from counts: the report on each history whose counts these are.
pub fn counted_json(
    alloc: Global,
    wiring: &Wiring,
    counts: &Counts,
) -> Result<List<u8>, OutOfMemory>
    requires { HasRows wiring.now counts.now }
    ensures { IfOk result (λ text. (history : Listed SomeEvent) → IsCounted wiring.now history counts.now → text ≡ report_json wiring.now history) }
{
    names_are_plain();
    // `parts` says that the wiring is valid.
    let _parts = wiring.parts();
    let value = report_value(alloc, wiring, counts)?;
    line_of(alloc, &value)
}

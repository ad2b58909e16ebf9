//! What posts and firings do with the ports.

ghost use Rattle.std.specs.Prelude.{◌≡◌, ◌++◌, IfOk, OnErr, OnOk};
ghost use Rattle.ccr_ledger.specs.Rows.{empty_rows, row};
ghost use Rattle.ccr_ledger.specs.Posting.{posted_to};
ghost use Rattle.ccr_ledger.specs.Taken.{shared};
ghost use Rattle.ccr_ledger.specs.Taking.{AreLeftOf, take_gather, take_oldest, take_pattern, take_site, take_slot, take_slots};

use crate::HeldMessages;
use ccr_base::{Msg, MsgId, OutOfMemory, Pattern, PortNo, Slot};
use std::alloc::Global;

/// So many empty ports.
pub(crate) fn empty_ports(alloc: Global, count: usize) -> Result<Vec<HeldMessages>, OutOfMemory>
    ensures { IfOk result (λ ports. ports.items ≡ empty_rows count) }
{
    let mut ports = Vec::new(alloc);
    for _ in 0..count {
        ports.push(HeldMessages::new(alloc))?;
    }
    Ok(ports)
}

/// The message comes to its port.
pub(crate) fn post_to(ports: &mut Vec<HeldMessages>, message: Msg) -> Result<(), OutOfMemory>
    ensures ok { OnOk result (ports.new.items ≡ posted_to message ports.old.items) }
    ensures err { OnErr result (ports.new.items ≡ ports.old.items) }
{
    let number = message.port as usize;
    if number < ports.len() {
        let port = &mut ports[number];
        port.post(message)?;
    }
    Ok(())
}

/// Takes what the slot takes out of its port.
#[tactic(auto, using(crate::proofs::Lefts::left_all, crate::proofs::Lefts::left_set))]
fn take_slot(
    ports: &mut Vec<HeldMessages>,
    slot: Slot,
    taken: &mut Vec<Msg>,
) -> Result<(), OutOfMemory>
    ensures ports { OnOk result (ports.new.items ≡ (take_slot slot ports.old.items).ports) }
    ensures taken { OnOk result (taken.new.items ≡ taken.old.items ++ (take_slot slot ports.old.items).messages) }
    ensures left { AreLeftOf ports.old.items ports.new.items }
{
    let number = slot.port as usize;
    if number < ports.len() {
        let port = &mut ports[number];
        port.take_some(slot.pred, slot.most as usize, taken)?;
    }
    Ok(())
}

/// Takes what the slots take, slot by slot.
#[tactic(auto, using(crate::proofs::Lefts::left_all, crate::proofs::Lefts::left_after))]
fn take_slots(
    alloc: Global,
    ports: &mut Vec<HeldMessages>,
    slots: &[Slot],
) -> Result<Vec<Msg>, OutOfMemory>
    ensures ports { OnOk result (ports.new.items ≡ (take_slots slots.now ports.old.items).ports) }
    ensures taken { IfOk result (λ taken. taken.items ≡ (take_slots slots.now ports.old.items).messages) }
    ensures left { AreLeftOf ports.old.items ports.new.items }
{
    let mut taken = Vec::new(alloc);
    for slot in slots {
        take_slot(ports, *slot, &mut taken)?;
    }
    Ok(taken)
}

/// Takes so many of the oldest messages of the port.
#[tactic(auto, using(crate::proofs::Lefts::left_all, crate::proofs::Lefts::left_set))]
fn take_oldest(
    ports: &mut Vec<HeldMessages>,
    port: PortNo,
    count: usize,
    taken: &mut Vec<Msg>,
) -> Result<(), OutOfMemory>
    ensures ports { OnOk result (ports.new.items ≡ (take_oldest port count ports.old.items).ports) }
    ensures taken { OnOk result (taken.new.items ≡ taken.old.items ++ (take_oldest port count ports.old.items).messages) }
    ensures left { AreLeftOf ports.old.items ports.new.items }
{
    let number = port as usize;
    if number < ports.len() {
        let port = &mut ports[number];
        port.take_oldest(count, taken)?;
    }
    Ok(())
}

/// How many of the names, from the first on, are those of the port's oldest messages.
fn shared_with(
    ports: &mut Vec<HeldMessages>,
    port: PortNo,
    names: &[MsgId],
) -> Result<usize, OutOfMemory>
    ensures shared { IfOk result (λ count. count ≡ shared (row ports.old.items port) names.now) }
    ensures kept { ports.new.items ≡ ports.old.items }
{
    let number = port as usize;
    if number < ports.len() {
        let port = &mut ports[number];
        port.shared(names)
    } else {
        Ok(0)
    }
}

/// Takes what the gather takes by the names.
#[tactic(auto, using(crate::proofs::Lefts::left_all, crate::proofs::Lefts::left_after))]
fn take_gather(
    alloc: Global,
    ports: &mut Vec<HeldMessages>,
    first: PortNo,
    second: PortNo,
    names: &[MsgId],
) -> Result<Vec<Msg>, OutOfMemory>
    ensures ports { OnOk result (ports.new.items ≡ (take_gather first second names.now ports.old.items).ports) }
    ensures taken { IfOk result (λ taken. taken.items ≡ (take_gather first second names.now ports.old.items).messages) }
    ensures left { AreLeftOf ports.old.items ports.new.items }
{
    let of_first = shared_with(ports, first, names)?;
    let of_second = names.len().saturating_sub(of_first);
    let mut taken = Vec::new(alloc);
    take_oldest(ports, first, of_first, &mut taken)?;
    take_oldest(ports, second, of_second, &mut taken)?;
    Ok(taken)
}

/// Takes what the pattern takes, where a firing takes the messages of these names.
pub(crate) fn take_pattern(
    alloc: Global,
    ports: &mut Vec<HeldMessages>,
    pattern: &Pattern,
    names: &[MsgId],
) -> Result<Vec<Msg>, OutOfMemory>
    ensures ports { OnOk result (ports.new.items ≡ (take_pattern pattern.now names.now ports.old.items).ports) }
    ensures taken { IfOk result (λ taken. taken.items ≡ (take_pattern pattern.now names.now ports.old.items).messages) }
    ensures left { AreLeftOf ports.old.items ports.new.items }
{
    match pattern {
        Pattern::Slots(slots) => take_slots(alloc, ports, slots.as_slice()),
        Pattern::Gather { first, second, .. } => take_gather(alloc, ports, *first, *second, names),
    }
}

/// Takes the oldest message of the port that a site awaits.
#[tactic(auto, using(crate::proofs::Lefts::left_all))]
pub(crate) fn take_site(
    alloc: Global,
    ports: &mut Vec<HeldMessages>,
    port: Option<PortNo>,
) -> Result<Vec<Msg>, OutOfMemory>
    ensures ports { OnOk result (ports.new.items ≡ (take_site port ports.old.items).ports) }
    ensures taken { IfOk result (λ taken. taken.items ≡ (take_site port ports.old.items).messages) }
    ensures left { AreLeftOf ports.old.items ports.new.items }
{
    let mut taken = Vec::new(alloc);
    if let Some(port) = port {
        take_oldest(ports, port, 1, &mut taken)?;
    }
    Ok(taken)
}

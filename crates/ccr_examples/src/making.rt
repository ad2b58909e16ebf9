//! A wiring is made without a text.

ghost use Rattle.std.specs.Prelude.{IfOk, IfNone};
ghost use Rattle.ccr_wiring.specs.Valid.{IsValid};

use ccr_base::{Group, Handler, List, OutOfMemory, Pattern, Policy, Pred, Slot, name_of};
use ccr_wiring::{ArbiterPart, BranchPart, HandlerPart, Kind, Parts, QueuePart, Unfit, Wiring};
use std::alloc::Global;

/// A branch `r` that takes so many messages of port `a` at a time, for the handler `h` by the queue `q`.
fn branch(alloc: Global, count: u32) -> Result<BranchPart, OutOfMemory> {
    let mut slots = List::new(alloc);
    slots.add(Slot {
        port: 0,
        least: count,
        most: count,
        pred: Pred::Any,
    })?;
    Ok(BranchPart {
        name: name_of(alloc, b"r")?,
        group: Group::Always,
        queue: 0,
        handler: 0,
        pattern: Pattern::Slots(slots),
    })
}

/// Adds a receiver of that branch.
fn add_receiver(
    alloc: Global,
    arbiters: &mut List<ArbiterPart>,
    count: u32,
) -> Result<(), OutOfMemory> {
    let mut branches = List::new(alloc);
    branches.add(branch(alloc, count)?)?;
    arbiters.add(ArbiterPart {
        name: name_of(alloc, b"r")?,
        kind: Kind::Receive,
        branches,
    })
}

fn add_queue(alloc: Global, queues: &mut List<QueuePart>) -> Result<(), OutOfMemory> {
    queues.add(QueuePart {
        name: name_of(alloc, b"q")?,
        policy: Policy::Unbounded,
    })
}

fn add_handler(alloc: Global, handlers: &mut List<HandlerPart>) -> Result<(), OutOfMemory> {
    handlers.add(HandlerPart {
        name: name_of(alloc, b"h")?,
        handler: Handler {
            actions: List::new(alloc),
        },
    })
}

/// Version 1 and a budget of 100, and nothing else.
fn no_parts(alloc: Global) -> Parts {
    Parts {
        version: 1,
        budget: 100,
        queues: List::new(alloc),
        ports: List::new(alloc),
        sets: List::new(alloc),
        causes: List::new(alloc),
        handlers: List::new(alloc),
        arbiters: List::new(alloc),
        domains: List::new(alloc),
        posters: List::new(alloc),
        open_posters: List::new(alloc),
        open_handlers: List::new(alloc),
    }
}

/// Adds a port, a queue, a handler, and a receiver of them.
fn add_parts(alloc: Global, parts: &mut Parts, count: u32) -> Result<(), OutOfMemory> {
    parts.ports.add(name_of(alloc, b"a")?)?;
    add_queue(alloc, &mut parts.queues)?;
    add_handler(alloc, &mut parts.handlers)?;
    add_receiver(alloc, &mut parts.arbiters, count)
}

/// The parts of a wiring of one receiver.
pub fn one_receiver(alloc: Global, count: u32) -> Result<Parts, OutOfMemory> {
    let mut parts = no_parts(alloc);
    match add_parts(alloc, &mut parts, count) {
        Ok(()) => Ok(parts),
        Err(refused) => Err(refused),
    }
}

/// The code by which these parts are no wiring; none where they are one.
pub fn code_of(alloc: Global, parts: Parts) -> Result<Option<u8>, OutOfMemory>
    ensures valid { IfOk result (λ code. IfNone code (IsValid parts)) }
{
    match Wiring::check(alloc, parts) {
        Ok(_) => Ok(None),
        Err(Unfit::Code(code)) => Ok(Some(code)),
        Err(Unfit::Memory) => Err(OutOfMemory),
    }
}

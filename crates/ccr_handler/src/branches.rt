//! The plays of a wiring's branches.

ghost use Rattle.std.specs.Prelude.{◌≡◌, IfOk, map};
ghost use Rattle.ccr_wiring.specs.declared.parts.CausePart.{CausePart};
ghost use Rattle.ccr_wiring.specs.Wirings.{exception_port};
ghost use Rattle.ccr_handler.specs.Playing.{actions_from, branch_play, idle_play, play};

use crate::segments::{Play, PlayEnd, plays};
use ccr_base::{BranchNo, CauseNo, Handler, List, OutOfMemory, PortNo, Value};
use ccr_wiring::Wiring;
use std::alloc::Global;

/// The exception ports of the causes, by their numbers.
fn exception_ports(alloc: Global, wiring: &Wiring) -> Result<Vec<PortNo>, OutOfMemory>
    ensures { IfOk result (λ ports. ports.items ≡ map (λ (part : CausePart). part.port) wiring.now.causes) }
{
    let mut ports = Vec::new(alloc);
    for cause in wiring.parts().causes.as_slice() {
        ports.push(cause.port)?;
    }
    Ok(ports)
}

/// The play of no actions.
pub fn idle_play(alloc: Global, causes: &List<CauseNo>) -> Result<Play, OutOfMemory>
    ensures { IfOk result (λ found. found ≡ idle_play causes.now) }
{
    Ok(Play {
        posts: List::new(alloc),
        end: PlayEnd::Done,
        causes: causes.copy(alloc)?,
    })
}

/// The play of this segment of the handler.
fn handler_play(
    alloc: Global,
    wiring: &Wiring,
    handler: &Handler,
    segment: u32,
    values: &[Value],
    causes: &List<CauseNo>,
) -> Result<Play, OutOfMemory>
    ensures { IfOk result (λ found. found ≡ play (exception_port wiring.now) values.now segment causes.now (actions_from segment handler.now.actions)) }
{
    let ports = exception_ports(alloc, wiring)?;
    plays(alloc, handler, &ports, segment, values, causes)
}

/// The play of the segment of this number, from 0, of the branch's handler, over the values of its task and the causes at its start; of no actions
/// where the wiring has no such branch.
pub fn branch_play(
    alloc: Global,
    wiring: &Wiring,
    branch: BranchNo,
    segment: u32,
    values: &[Value],
    causes: &List<CauseNo>,
) -> Result<Play, OutOfMemory>
    ensures { IfOk result (λ found. found ≡ branch_play wiring.now branch segment values.now causes.now) }
{
    match wiring.handler_of(branch) {
        Some(handler) => handler_play(alloc, wiring, handler, segment, values, causes),
        None => idle_play(alloc, causes),
    }
}

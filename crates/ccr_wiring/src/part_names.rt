//! The names of the parts by their numbers.

ghost use Rattle.std.specs.Prelude.{◌≡◌};
ghost use Rattle.ccr_wiring.specs.PartNames.{port_name, queue_name, cause_name, handler_name, arbiter_name};

use crate::Parts;
use crate::spot_names::name_at;
use ccr_base::{ArbiterNo, CauseNo, HandlerNo, PortNo, QueueNo};

/// The name of the port, or no byte. The others are likewise.
pub fn port_name(parts: &Parts, port: PortNo) -> &[u8]
    ensures { result.now ≡ port_name parts.now port }
{
    name_at(parts.ports.as_slice(), port)
}

pub fn queue_name(parts: &Parts, queue: QueueNo) -> &[u8]
    ensures { result.now ≡ queue_name parts.now queue }
{
    match parts.queues.as_slice().get(queue as usize) {
        Some(part) => part.name.as_slice(),
        None => &[],
    }
}

pub fn cause_name(parts: &Parts, cause: CauseNo) -> &[u8]
    ensures { result.now ≡ cause_name parts.now cause }
{
    match parts.causes.as_slice().get(cause as usize) {
        Some(part) => part.name.as_slice(),
        None => &[],
    }
}

pub fn handler_name(parts: &Parts, handler: HandlerNo) -> &[u8]
    ensures { result.now ≡ handler_name parts.now handler }
{
    match parts.handlers.as_slice().get(handler as usize) {
        Some(part) => part.name.as_slice(),
        None => &[],
    }
}

pub fn arbiter_name(parts: &Parts, arbiter: ArbiterNo) -> &[u8]
    ensures { result.now ≡ arbiter_name parts.now arbiter }
{
    match parts.arbiters.as_slice().get(arbiter as usize) {
        Some(part) => part.name.as_slice(),
        None => &[],
    }
}

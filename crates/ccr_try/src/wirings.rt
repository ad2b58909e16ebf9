//! The parts of a wiring of one receiver, and what a test may put in their place.

ghost use Rattle.std.specs.Prelude.{◌≡◌, IfOk};
ghost use Rattle.ccr_try.specs.Samples.{one_queue, one_handler, one_receive, one_cause, one_post, one_receiver};

use crate::only;
use ccr_base::{
    Action, Group, Handler, List, OutOfMemory, Pattern, Policy, PortNo, Pred, Sent, Slot, Value,
    name_of,
};
use ccr_wiring::{
    ArbiterPart, BranchPart, CausePart, HandlerPart, Kind, Parts, PosterPart, QueuePart, ScriptPost,
};
use std::alloc::Global;

/// A queue `q` of this policy.
pub fn one_queue(alloc: Global, policy: Policy) -> Result<List<QueuePart>, OutOfMemory>
    ensures { IfOk result (λ queues. queues ≡ one_queue policy) }
{
    let queue = QueuePart {
        name: name_of(alloc, b"q")?,
        policy,
    };
    only(alloc, queue)
}

/// A handler `h` of these actions.
pub fn one_handler(alloc: Global, actions: List<Action>) -> Result<List<HandlerPart>, OutOfMemory>
    ensures { IfOk result (λ handlers. handlers ≡ one_handler actions) }
{
    let handler = HandlerPart {
        name: name_of(alloc, b"h")?,
        handler: Handler { actions },
    };
    only(alloc, handler)
}

/// A receive `x` that takes one message of port 0, each time that one is held.
fn one_receive(alloc: Global) -> Result<List<ArbiterPart>, OutOfMemory>
    ensures { IfOk result (λ arbiters. arbiters ≡ one_receive) }
{
    let slot = Slot {
        port: 0,
        least: 1,
        most: 1,
        pred: Pred::Any,
    };
    let branch = BranchPart {
        name: name_of(alloc, b"x")?,
        group: Group::Always,
        queue: 0,
        handler: 0,
        pattern: Pattern::Slots(only(alloc, slot)?),
    };
    let receive = ArbiterPart {
        name: name_of(alloc, b"x")?,
        kind: Kind::Receive,
        branches: only(alloc, branch)?,
    };
    only(alloc, receive)
}

/// A cause `k` with this port.
pub fn one_cause(alloc: Global, port: PortNo) -> Result<List<CausePart>, OutOfMemory>
    ensures { IfOk result (λ causes. causes ≡ one_cause port) }
{
    let cause = CausePart {
        name: name_of(alloc, b"k")?,
        port,
    };
    only(alloc, cause)
}

/// A poster `p` that posts 7 to port 0, without causes.
pub fn one_post(alloc: Global) -> Result<List<PosterPart>, OutOfMemory>
    ensures { IfOk result (λ posters. posters ≡ one_post) }
{
    let sent = Sent {
        port: 0,
        value: Value::one(7),
        causes: List::new(alloc),
    };
    let poster = PosterPart {
        name: name_of(alloc, b"p")?,
        posts: only(alloc, ScriptPost::of(alloc, sent)?)?,
    };
    only(alloc, poster)
}

/// Version 1, a budget of 5, a port `a`, a queue `q` without a bound, a handler `h` without actions, and a receive `x` of them.
pub fn one_receiver(alloc: Global) -> Result<Parts, OutOfMemory>
    ensures { IfOk result (λ parts. parts ≡ one_receiver) }
{
    Ok(Parts {
        version: 1,
        budget: 5,
        queues: one_queue(alloc, Policy::Unbounded)?,
        ports: only(alloc, name_of(alloc, b"a")?)?,
        sets: List::new(alloc),
        causes: List::new(alloc),
        handlers: one_handler(alloc, List::new(alloc))?,
        arbiters: one_receive(alloc)?,
        domains: List::new(alloc),
        posters: List::new(alloc),
        open_posters: List::new(alloc),
        open_handlers: List::new(alloc),
    })
}

//! The parts of a generated wiring.

ghost use Rattle.std.specs.Prelude.{◌≡◌, [], ◌∷◌, IfOk};
ghost use Rattle.ccr_gen.specs.Generated.{any_of, queues, ports, handler, handlers, branch, arbiter, pair, batch, keep, generated};

use crate::scripts::posters;
use ccr_base::{
    Action, Expr, Group, Handler, List, Name, OutOfMemory, Pattern, Policy, PortNo, Pred, Slot,
    name_of,
};
use ccr_wiring::{ArbiterPart, BranchPart, HandlerPart, Kind, MAX_BUDGET, Parts, QueuePart};
use std::alloc::Global;

/// So many messages of the port, of any value.
fn any_of(port: PortNo, count: u32) -> Slot
    ensures { result ≡ any_of port count }
{
    Slot {
        port,
        least: count,
        most: count,
        pred: Pred::Any,
    }
}

fn queues(alloc: Global) -> Result<List<QueuePart>, OutOfMemory>
    ensures { IfOk result (λ parts. parts ≡ queues) }
{
    let first = QueuePart {
        name: name_of(alloc, b"q")?,
        policy: Policy::Unbounded,
    };
    let second = QueuePart {
        name: name_of(alloc, b"t")?,
        policy: Policy::Throttle(8),
    };
    Ok(List::from_vec(vec![in alloc; first, second]?))
}

fn ports(alloc: Global) -> Result<List<Name>, OutOfMemory>
    ensures { IfOk result (λ names. names ≡ ports) }
{
    let a = name_of(alloc, b"a")?;
    let b = name_of(alloc, b"b")?;
    let c = name_of(alloc, b"c")?;
    let up = name_of(alloc, b"up")?;
    let out = name_of(alloc, b"out")?;
    Ok(List::from_vec(vec![in alloc; a, b, c, up, out]?))
}

/// A handler of one action.
fn handler(alloc: Global, bytes: &[u8], action: Action) -> Result<HandlerPart, OutOfMemory>
    ensures { IfOk result (λ part. part ≡ handler bytes.now action) }
{
    Ok(HandlerPart {
        name: name_of(alloc, bytes)?,
        handler: Handler {
            actions: List::from_vec(vec![in alloc; action]?),
        },
    })
}

fn handlers(alloc: Global) -> Result<List<HandlerPart>, OutOfMemory>
    ensures { IfOk result (λ parts. parts ≡ handlers) }
{
    let first = handler(alloc, b"hj", Action::Post(3, Expr::Sum))?;
    let second = handler(alloc, b"ho", Action::Post(4, Expr::Arg(0)))?;
    Ok(List::from_vec(vec![in alloc; first, second]?))
}

/// An arbiter of one branch.
fn arbiter(
    alloc: Global,
    bytes: &[u8],
    kind: Kind,
    branch: BranchPart,
) -> Result<ArbiterPart, OutOfMemory>
    ensures { IfOk result (λ part. part ≡ arbiter bytes.now kind branch) }
{
    Ok(ArbiterPart {
        name: name_of(alloc, bytes)?,
        kind,
        branches: List::from_vec(vec![in alloc; branch]?),
    })
}

fn pair(alloc: Global) -> Result<ArbiterPart, OutOfMemory>
    ensures { IfOk result (λ part. part ≡ pair) }
{
    let branch = BranchPart {
        name: name_of(alloc, b"pair")?,
        group: Group::Always,
        queue: 0,
        handler: 0,
        pattern: Pattern::Slots(List::from_vec(vec![in alloc; any_of(0, 1), any_of(1, 1)]?)),
    };
    arbiter(alloc, b"pair", Kind::Receive, branch)
}

fn batch(alloc: Global) -> Result<ArbiterPart, OutOfMemory>
    ensures { IfOk result (λ part. part ≡ batch) }
{
    let branch = BranchPart {
        name: name_of(alloc, b"batch")?,
        group: Group::Always,
        queue: 1,
        handler: 0,
        pattern: Pattern::Slots(List::from_vec(vec![in alloc; any_of(2, 4)]?)),
    };
    arbiter(alloc, b"batch", Kind::Receive, branch)
}

fn keep(alloc: Global) -> Result<ArbiterPart, OutOfMemory>
    ensures { IfOk result (λ part. part ≡ keep) }
{
    let branch = BranchPart {
        name: name_of(alloc, b"upd")?,
        group: Group::Exclusive,
        queue: 0,
        handler: 1,
        pattern: Pattern::Slots(List::from_vec(vec![in alloc; any_of(3, 1)]?)),
    };
    arbiter(alloc, b"keep", Kind::Interleave, branch)
}

fn arbiters(alloc: Global) -> Result<List<ArbiterPart>, OutOfMemory>
    ensures { IfOk result (λ parts. parts ≡ pair ∷ batch ∷ keep ∷ []) }
{
    let first = pair(alloc)?;
    let second = batch(alloc)?;
    let third = keep(alloc)?;
    Ok(List::from_vec(vec![in alloc; first, second, third]?))
}

/// The parts of so many posts.
pub fn parts(alloc: Global, size: u32) -> Result<Parts, OutOfMemory>
    ensures { IfOk result (λ parts. parts ≡ generated size) }
{
    Ok(Parts {
        version: 1,
        budget: MAX_BUDGET,
        queues: queues(alloc)?,
        ports: ports(alloc)?,
        sets: List::new(alloc),
        causes: List::new(alloc),
        handlers: handlers(alloc)?,
        arbiters: arbiters(alloc)?,
        domains: List::new(alloc),
        posters: posters(alloc, size)?,
        open_posters: List::new(alloc),
        open_handlers: List::new(alloc),
    })
}

//! The wiring that a service stands for.

ghost use Rattle.std.specs.Prelude.{◌≡◌, ◌+◌, ◌<◌, ◌≤◌, ◌^◌, ◌++◌, true, IfOk, OnOk, length, map, codes};
ghost use Rattle.std.specs.List.{list_any};
ghost use Rattle.ccr_base.specs.Bounds.{most_ops};
ghost use Rattle.ccr_service.specs.declared.parts.ClientPart.{ClientPart};
ghost use Rattle.ccr_service.specs.Expansion.{op_ports, ports, causes_from, one_action, handlers_from, handlers, is_bounded, takes_one, op_branches, branches_from, interleave, request, posters_from, expansion};
ghost use Rattle.ccr_service.specs.Services.{IsService, are_asked};

use crate::{AskPart, ClientPart, OpPart, Service, ServiceParts};
use ccr_base::{
    Action, CauseNo, Expr, Group, Handler, HandlerNo, List, Name, OutOfMemory, Pattern, PortNo,
    Pred, Sent, Slot, Value, name_of,
};
use ccr_wiring::{
    ArbiterPart, BranchPart, CausePart, HandlerPart, Kind, MAX_BUDGET, Parts, PosterPart,
    QueuePart, ScriptPost, Unfit, Wiring,
};
use std::alloc::Global;

fn name_with(alloc: Global, name: &Name, suffix: &[u8]) -> Result<Name, OutOfMemory>
    ensures { IfOk result (λ whole. whole ≡ name.now ++ suffix.now) }
{
    let mut bytes = Vec::from_slice(alloc, name.as_slice())?;
    bytes.extend_from_slice(suffix)?;
    Ok(List::from_vec(bytes))
}

fn add_op_ports(alloc: Global, names: &mut Vec<Name>, ops: &[OpPart]) -> Result<(), OutOfMemory>
    ensures { OnOk result (names.new.items ≡ names.old.items ++ op_ports ops.now) }
{
    for op in ops {
        names.push(name_with(alloc, &op.name, b"-rq")?)?;
        names.push(name_with(alloc, &op.name, b"-rs")?)?;
    }
    Ok(())
}

fn add_fault_ports(
    alloc: Global,
    names: &mut Vec<Name>,
    clients: &[ClientPart],
) -> Result<(), OutOfMemory>
    ensures { OnOk result (names.new.items ≡ names.old.items ++ map (λ (client : ClientPart). client.name ++ codes "-f") clients.now) }
{
    for client in clients {
        names.push(name_with(alloc, &client.name, b"-f")?)?;
    }
    Ok(())
}

fn ports(alloc: Global, service: &ServiceParts) -> Result<List<Name>, OutOfMemory>
    ensures { IfOk result (λ names. names ≡ ports service.now) }
{
    let mut names = Vec::new(alloc);
    add_op_ports(alloc, &mut names, service.ops.as_slice())?;
    add_fault_ports(alloc, &mut names, service.clients.as_slice())?;
    Ok(List::from_vec(names))
}

/// The causes of the clients, of which the first has this exception port.
fn causes(
    alloc: Global,
    first: PortNo,
    clients: &[ClientPart],
) -> Result<List<CausePart>, OutOfMemory>
    requires { first + length clients.now < 2 ^ 32 }
    ensures { IfOk result (λ parts. parts ≡ causes_from first clients.now) }
{
    let mut parts = Vec::new(alloc);
    for (number, client) in clients.iter().enumerate() {
        let cause = CausePart {
            name: name_with(alloc, &client.name, b"-c")?,
            port: first + number as PortNo,
        };
        parts.push(cause)?;
    }
    Ok(List::from_vec(parts))
}

fn one_action(alloc: Global, name: Name, action: Action) -> Result<HandlerPart, OutOfMemory>
    ensures { IfOk result (λ part. part ≡ one_action name action) }
{
    Ok(HandlerPart {
        name,
        handler: Handler {
            actions: List::from_vec(vec![in alloc; action]?),
        },
    })
}

fn add_handlers(
    alloc: Global,
    parts: &mut Vec<HandlerPart>,
    ops: &[OpPart],
) -> Result<(), OutOfMemory>
    requires { length ops.now ≤ most_ops }
    ensures { OnOk result (parts.new.items ≡ parts.old.items ++ handlers_from 0 ops.now) }
{
    for (number, op) in ops.iter().enumerate() {
        let number = number as HandlerNo;
        let action = Action::Post(number + number + 1, op.expr);
        parts.push(one_action(alloc, name_with(alloc, &op.name, b"-h")?, action)?)?;
    }
    Ok(())
}

fn has_bounded(ops: &[OpPart]) -> bool
    ensures { result ≡ list_any is_bounded ops.now }
{
    ops.iter().any(|op| op.below.is_some())
}

fn handlers(alloc: Global, ops: &[OpPart]) -> Result<List<HandlerPart>, OutOfMemory>
    requires { length ops.now ≤ most_ops }
    ensures { IfOk result (λ parts. parts ≡ handlers ops.now) }
{
    let mut parts = Vec::new(alloc);
    add_handlers(alloc, &mut parts, ops)?;
    if has_bounded(ops) {
        parts.push(one_action(alloc, name_of(alloc, b"svc-e")?, Action::Fail(Expr::Arg(0)))?)?;
    }
    Ok(List::from_vec(parts))
}

/// A branch that takes one message of the port.
fn takes_one(
    alloc: Global,
    name: Name,
    group: Group,
    handler: HandlerNo,
    port: PortNo,
    pred: Pred,
) -> Result<BranchPart, OutOfMemory>
    ensures { IfOk result (λ part. part ≡ takes_one name group handler port pred) }
{
    let slot = Slot {
        port,
        least: 1,
        most: 1,
        pred,
    };
    Ok(BranchPart {
        name,
        group,
        queue: 0,
        handler,
        pattern: Pattern::Slots(List::from_vec(vec![in alloc; slot]?)),
    })
}

/// The branches of the operation of this number; what isn't below its bound goes to the handler of faults.
fn add_op_branches(
    alloc: Global,
    parts: &mut Vec<BranchPart>,
    faults: HandlerNo,
    number: HandlerNo,
    op: &OpPart,
) -> Result<(), OutOfMemory>
    requires { number < most_ops }
    ensures { OnOk result (parts.new.items ≡ parts.old.items ++ op_branches faults number op.now op.now.below) }
{
    let port = number + number;
    let own = op.name.copy(alloc)?;
    match op.below {
        None => {
            parts.push(takes_one(alloc, own, op.group, number, port, Pred::Any)?)?;
        }
        Some(bound) => {
            parts.push(takes_one(alloc, own, op.group, number, port, Pred::Lt(bound))?)?;
            let other = name_with(alloc, &op.name, b"-x")?;
            parts.push(takes_one(alloc, other, op.group, faults, port, Pred::Ge(bound))?)?;
        }
    }
    Ok(())
}

fn branches(
    alloc: Global,
    faults: HandlerNo,
    ops: &[OpPart],
) -> Result<List<BranchPart>, OutOfMemory>
    requires { length ops.now ≤ most_ops }
    ensures { IfOk result (λ parts. parts ≡ branches_from faults 0 ops.now) }
{
    let mut parts = Vec::new(alloc);
    for (number, op) in ops.iter().enumerate() {
        add_op_branches(alloc, &mut parts, faults, number as HandlerNo, op)?;
    }
    Ok(List::from_vec(parts))
}

fn interleave(alloc: Global, ops: &[OpPart]) -> Result<ArbiterPart, OutOfMemory>
    requires { length ops.now ≤ most_ops }
    ensures { IfOk result (λ part. part ≡ interleave ops.now) }
{
    Ok(ArbiterPart {
        name: name_of(alloc, b"svc-i")?,
        kind: Kind::Interleave,
        branches: branches(alloc, ops.len() as HandlerNo, ops)?,
    })
}

/// The post of a request of this client.
fn request(alloc: Global, client: CauseNo, ask: AskPart) -> Result<Sent, OutOfMemory>
    requires { ask.op < most_ops }
    ensures { IfOk result (λ sent. sent ≡ request client ask) }
{
    Ok(Sent {
        port: ask.op + ask.op,
        value: Value::one(ask.value),
        causes: List::from_vec(vec![in alloc; client]?),
    })
}

fn script(
    alloc: Global,
    client: CauseNo,
    ops: u32,
    asks: &[AskPart],
) -> Result<List<ScriptPost>, OutOfMemory>
    requires few { ops ≤ most_ops }
    requires asked { are_asked ops asks.now ≡ true }
    ensures { IfOk result (λ posts. posts ≡ map (request client) asks.now) }
{
    let mut posts = Vec::new(alloc);
    for ask in asks {
        posts.push(ScriptPost::of(alloc, request(alloc, client, *ask)?)?)?;
    }
    Ok(List::from_vec(posts))
}

fn posters(alloc: Global, service: &ServiceParts) -> Result<List<PosterPart>, OutOfMemory>
    requires { IsService service.now }
    ensures { IfOk result (λ parts. parts ≡ posters_from 0 service.now.clients) }
{
    let ops = service.ops.len() as u32;
    let mut parts = Vec::new(alloc);
    for (number, client) in service.clients.as_slice().iter().enumerate() {
        let poster = PosterPart {
            name: client.name.copy(alloc)?,
            posts: script(alloc, number as CauseNo, ops, client.asks.as_slice())?,
        };
        parts.push(poster)?;
    }
    Ok(List::from_vec(parts))
}

fn parts(alloc: Global, service: &ServiceParts) -> Result<Parts, OutOfMemory>
    requires { IsService service.now }
    ensures { IfOk result (λ parts. parts ≡ expansion service.now) }
{
    let ops = service.ops.as_slice();
    let count = ops.len() as PortNo;
    let queue = QueuePart {
        name: name_of(alloc, b"svc-q")?,
        policy: service.policy,
    };
    Ok(Parts {
        version: 1,
        budget: MAX_BUDGET,
        queues: List::from_vec(vec![in alloc; queue]?),
        ports: ports(alloc, service)?,
        sets: List::new(alloc),
        causes: causes(alloc, count + count, service.clients.as_slice())?,
        handlers: handlers(alloc, ops)?,
        arbiters: List::from_vec(vec![in alloc; interleave(alloc, ops)?]?),
        domains: List::new(alloc),
        posters: posters(alloc, service)?,
        open_posters: List::new(alloc),
        open_handlers: List::new(alloc),
    })
}

/// The wiring of the service: an Interleave with a branch for what each operation does and one for its faults, a poster for each
/// client, and one queue with the service's policy.
pub fn expand(alloc: Global, service: &Service) -> Result<Wiring, OutOfMemory>
    ensures { IfOk result (λ wiring. wiring ≡ expansion service.now) }
{
    match Wiring::check(alloc, parts(alloc, service.parts())?) {
        Ok(wiring) => Ok(wiring),
        Err(Unfit::Memory) => Err(OutOfMemory),
        Err(Unfit::Code(_)) => unreachable!(),
    }
}

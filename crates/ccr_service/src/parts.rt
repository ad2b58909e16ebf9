//! The parts of a service, as plain data. An operation's number is its index, from 0.

use ccr_base::{Expr, Group, List, Name, Policy};

/// An operation. A request whose value isn't below the bound ends as a fault.
#[derive(Drop)]
pub struct OpPart {
    pub name: Name,
    pub group: Group,
    pub expr: Expr,
    pub below: Option<u64>,
}

/// A request that a client makes.
#[derive(Clone, Copy, PartialEq, Eq)]
pub struct AskPart {
    pub op: u32,
    pub value: u64,
}

#[derive(Drop)]
pub struct ClientPart {
    pub name: Name,
    pub asks: List<AskPart>,
}

/// Everything that a service text says.
#[derive(Drop)]
pub struct ServiceParts {
    pub policy: Policy,
    pub ops: List<OpPart>,
    pub clients: List<ClientPart>,
}

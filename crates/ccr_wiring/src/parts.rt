//! The parts of a wiring, as plain data. A number that names a part is its index among its kind, from 0.

use crate::script_posts::ScriptPost;
use ccr_base::{
    ArbiterNo, Group, Handler, HandlerNo, List, Name, Pattern, Policy, PortNo, QueueNo,
};

#[derive(Clone, Copy, PartialEq, Eq)]
pub enum Kind {
    Receive,
    Choice,
    Interleave,
}

#[derive(Drop)]
pub struct QueuePart {
    pub name: Name,
    pub policy: Policy,
}

/// A port set: 1 to 8 ports.
#[derive(Drop)]
pub struct SetPart {
    pub name: Name,
    pub ports: List<PortNo>,
}

/// A cause, and the port that its exceptions go to.
#[derive(Drop)]
pub struct CausePart {
    pub name: Name,
    pub port: PortNo,
}

#[derive(Drop)]
pub struct HandlerPart {
    pub name: Name,
    pub handler: Handler,
}

/// A branch. Branches are numbered through all arbiters.
#[derive(Drop)]
pub struct BranchPart {
    pub name: Name,
    pub group: Group,
    pub queue: QueueNo,
    pub handler: HandlerNo,
    pub pattern: Pattern,
}

/// A receive has one branch of its own name.
#[derive(Drop)]
pub struct ArbiterPart {
    pub name: Name,
    pub kind: Kind,
    pub branches: List<BranchPart>,
}

/// Interleaves that share one protection: 2 to 8 of them, each in one domain at most.
#[derive(Drop)]
pub struct DomainPart {
    pub members: List<ArbiterNo>,
}

#[derive(Drop)]
pub struct PosterPart {
    pub name: Name,
    pub posts: List<ScriptPost>,
}

/// A poster or a handler that somebody outside plays, by its number, and the ports to which it may post.
#[derive(Drop)]
pub struct OpenPart {
    pub part: u32,
    pub ports: List<PortNo>,
}

/// Everything that a wiring text says.
#[derive(Drop)]
pub struct Parts {
    /// 1, or 2: then values may have several numbers.
    pub version: u32,
    pub budget: u32,
    pub queues: List<QueuePart>,
    pub ports: List<Name>,
    pub sets: List<SetPart>,
    pub causes: List<CausePart>,
    pub handlers: List<HandlerPart>,
    pub arbiters: List<ArbiterPart>,
    pub domains: List<DomainPart>,
    pub posters: List<PosterPart>,
    /// The posters whose posts come from outside; none in a wiring that `ccr` reads.
    pub open_posters: List<OpenPart>,
    /// The handlers whose tasks are played outside; none in a wiring that `ccr` reads.
    pub open_handlers: List<OpenPart>,
}

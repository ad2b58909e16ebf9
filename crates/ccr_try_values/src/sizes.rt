//! Parts of given sizes.

use crate::making::{add, add_post, name};
use ccr_base::{Action, Expr, Group, Handler, List, Pattern, Policy, Pred, Sent, Slot, Value};
use ccr_wiring::{
    ArbiterPart, BranchPart, CausePart, HandlerPart, Kind, Parts, PosterPart, QueuePart, SetPart,
};
use std::alloc::Global;

/// How many of each kind the parts have, and the numbers in them.
#[derive(Clone, Copy)]
pub struct Sizes {
    pub budget: u32,
    pub queues: u32,
    pub policy: u32,
    pub ports: u32,
    pub sets: u32,
    pub set_ports: u32,
    pub causes: u32,
    pub handlers: u32,
    pub actions: u32,
    pub arg: u32,
    pub receives: u32,
    pub slots: u32,
    pub count: u32,
    /// The branches of one choice behind the receives.
    pub branches: u32,
    pub posters: u32,
    /// The posts of each poster.
    pub posts: u32,
}

/// Every limit is reached.
pub const FULL: Sizes = Sizes {
    budget: 10_000,
    queues: 16,
    policy: 1_000,
    ports: 256,
    sets: 64,
    set_ports: 8,
    causes: 32,
    handlers: 256,
    actions: 16,
    arg: 65_535,
    receives: 255,
    slots: 8,
    count: 1_000,
    branches: 1,
    posters: 16,
    posts: 625,
};

/// Small parts, with one port more than a pattern may have.
pub const SMALL: Sizes = Sizes {
    budget: 0,
    queues: 1,
    policy: 1,
    ports: 9,
    sets: 0,
    set_ports: 0,
    causes: 1,
    handlers: 1,
    actions: 0,
    arg: 0,
    receives: 1,
    slots: 1,
    count: 1,
    branches: 1,
    posters: 0,
    posts: 0,
};

fn numbers(alloc: Global, count: u32) -> List<u32> {
    let mut numbers = List::new(alloc);
    for number in 0..count {
        add(&mut numbers, number);
    }
    numbers
}

/// Slots at ports that follow one another, from eight times the branch's number on.
pub fn pattern(alloc: Global, branch: u32, sizes: &Sizes) -> Pattern {
    let mut slots = List::new(alloc);
    for index in 0..sizes.slots {
        let port = branch.wrapping_mul(8).wrapping_add(index) % 256;
        let slot = Slot {
            port,
            least: sizes.count,
            most: sizes.count,
            pred: Pred::Any,
        };
        add(&mut slots, slot);
    }
    Pattern::Slots(slots)
}

pub fn branch(alloc: Global, kind: &[u8], number: u32, group: Group, sizes: &Sizes) -> BranchPart {
    BranchPart {
        name: name(alloc, kind, number),
        group,
        queue: 0,
        handler: 0,
        pattern: pattern(alloc, number, sizes),
    }
}

fn receives(alloc: Global, sizes: &Sizes) -> List<ArbiterPart> {
    let mut arbiters = List::new(alloc);
    for number in 0..sizes.receives {
        let mut branches = List::new(alloc);
        add(
            &mut branches,
            branch(alloc, b"r", number, Group::Always, sizes),
        );
        let arbiter = ArbiterPart {
            name: name(alloc, b"r", number),
            kind: Kind::Receive,
            branches,
        };
        add(&mut arbiters, arbiter);
    }
    arbiters
}

fn choice(alloc: Global, sizes: &Sizes) -> ArbiterPart {
    let mut branches = List::new(alloc);
    for number in 0..sizes.branches {
        add(
            &mut branches,
            branch(alloc, b"b", number, Group::Choice, sizes),
        );
    }
    ArbiterPart {
        name: name(alloc, b"c", 0),
        kind: Kind::Choice,
        branches,
    }
}

fn handlers(alloc: Global, sizes: &Sizes) -> List<HandlerPart> {
    let mut handlers = List::new(alloc);
    for number in 0..sizes.handlers {
        let mut actions = List::new(alloc);
        for _ in 0..sizes.actions {
            add(&mut actions, Action::Post(0, Expr::Arg(sizes.arg)));
        }
        let part = HandlerPart {
            name: name(alloc, b"h", number),
            handler: Handler { actions },
        };
        add(&mut handlers, part);
    }
    handlers
}

fn posters(alloc: Global, sizes: &Sizes) -> List<PosterPart> {
    let mut posters = List::new(alloc);
    for number in 0..sizes.posters {
        let mut posts = List::new(alloc);
        for _ in 0..sizes.posts {
            let post = Sent {
                port: 0,
                value: Value::one(0),
                causes: List::new(alloc),
            };
            add_post(alloc, &mut posts, post);
        }
        let part = PosterPart {
            name: name(alloc, b"w", number),
            posts,
        };
        add(&mut posters, part);
    }
    posters
}

fn queues(alloc: Global, sizes: &Sizes) -> List<QueuePart> {
    let mut queues = List::new(alloc);
    for number in 0..sizes.queues {
        let part = QueuePart {
            name: name(alloc, b"q", number),
            policy: Policy::Throttle(sizes.policy),
        };
        add(&mut queues, part);
    }
    queues
}

fn sets(alloc: Global, sizes: &Sizes) -> List<SetPart> {
    let mut sets = List::new(alloc);
    for number in 0..sizes.sets {
        let part = SetPart {
            name: name(alloc, b"s", number),
            ports: numbers(alloc, sizes.set_ports),
        };
        add(&mut sets, part);
    }
    sets
}

fn causes(alloc: Global, sizes: &Sizes) -> List<CausePart> {
    let mut causes = List::new(alloc);
    for number in 0..sizes.causes {
        let part = CausePart {
            name: name(alloc, b"u", number),
            port: 0,
        };
        add(&mut causes, part);
    }
    causes
}

pub fn parts(alloc: Global, sizes: &Sizes) -> Parts {
    let mut ports = List::new(alloc);
    for number in 0..sizes.ports {
        add(&mut ports, name(alloc, b"p", number));
    }
    let mut arbiters = receives(alloc, sizes);
    add(&mut arbiters, choice(alloc, sizes));
    Parts {
        version: 1,
        budget: sizes.budget,
        queues: queues(alloc, sizes),
        ports,
        sets: sets(alloc, sizes),
        causes: causes(alloc, sizes),
        handlers: handlers(alloc, sizes),
        arbiters,
        domains: List::new(alloc),
        posters: posters(alloc, sizes),
        open_posters: List::new(alloc),
        open_handlers: List::new(alloc),
    }
}

/// Sets the field of this name.
pub fn set(sizes: &mut Sizes, field: &str, number: u32) {
    let size = match field {
        "budget" => &mut sizes.budget,
        "queues" => &mut sizes.queues,
        "policy" => &mut sizes.policy,
        "ports" => &mut sizes.ports,
        "sets" => &mut sizes.sets,
        "set_ports" => &mut sizes.set_ports,
        "causes" => &mut sizes.causes,
        "handlers" => &mut sizes.handlers,
        "actions" => &mut sizes.actions,
        "arg" => &mut sizes.arg,
        "receives" => &mut sizes.receives,
        "slots" => &mut sizes.slots,
        "count" => &mut sizes.count,
        "branches" => &mut sizes.branches,
        "posters" => &mut sizes.posters,
        "posts" => &mut sizes.posts,
        _ => return,
    };
    *size = number;
}

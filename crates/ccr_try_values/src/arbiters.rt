//! One more arbiter, and many branches at one port.

use crate::making::{add, name, put_code};
use crate::sizes::{SMALL, Sizes, branch, parts, pattern};
use ccr_base::{Group, List, Pattern};
use ccr_try::first_number;
use ccr_wiring::{ArbiterPart, BranchPart, Kind};
use std::alloc::Global;

fn kind_of(word: &str) -> Kind {
    match word {
        "receive" => Kind::Receive,
        "choice" => Kind::Choice,
        _ => Kind::Interleave,
    }
}

fn group_of(word: &str) -> Group {
    match word {
        "once" => Group::Once,
        "always" => Group::Always,
        "choice" => Group::Choice,
        "exclusive" => Group::Exclusive,
        "concurrent" => Group::Concurrent,
        _ => Group::Teardown,
    }
}

fn gather_of(text: &str) -> Pattern {
    let (total, rest) = first_number(text);
    let (first, rest) = first_number(rest);
    let (second, _) = first_number(rest);
    Pattern::Gather {
        total,
        first,
        second,
    }
}

/// Adds an arbiter `x9` of one branch to small parts.
fn put_arbiter(alloc: Global, kind: Kind, branch: BranchPart, out: &mut List<u8>) {
    let mut parts = parts(alloc, &SMALL);
    let mut branches = List::new(alloc);
    add(&mut branches, branch);
    let arbiter = ArbiterPart {
        name: name(alloc, b"x", 9),
        kind,
        branches,
    };
    add(&mut parts.arbiters, arbiter);
    put_code(alloc, parts, out);
}

/// For `KIND GROUP NAME TOTAL FIRST SECOND` the code of small parts with one more arbiter, of one branch with a gather.
pub fn with_arbiter(alloc: Global, input: &str, out: &mut List<u8>) {
    let (kind, rest) = input.split_once(' ').unwrap_or((input, ""));
    let (group, rest) = rest.split_once(' ').unwrap_or((rest, ""));
    let (word, rest) = rest.split_once(' ').unwrap_or((rest, ""));
    let branch = BranchPart {
        name: name(alloc, word.as_bytes(), 9),
        group: group_of(group),
        queue: 0,
        handler: 0,
        pattern: gather_of(rest),
    };
    put_arbiter(alloc, kind_of(kind), branch, out);
}

/// So many branches, each with a slot at port 0.
fn branches(alloc: Global, count: u32) -> List<BranchPart> {
    let mut branches = List::new(alloc);
    for number in 0..count {
        let mut part = branch(alloc, b"b", number, Group::Choice, &SMALL);
        part.pattern = pattern(alloc, 0, &SMALL);
        add(&mut branches, part);
    }
    branches
}

/// The code of parts with one choice of so many branches at one port.
pub fn branches_at_one_port(alloc: Global, input: &str, out: &mut List<u8>) {
    let (count, _) = first_number(input);
    let sizes = Sizes {
        receives: 0,
        ..SMALL
    };
    let mut parts = parts(alloc, &sizes);
    let mut arbiters = List::new(alloc);
    let choice = ArbiterPart {
        name: name(alloc, b"c", 0),
        kind: Kind::Choice,
        branches: branches(alloc, count),
    };
    add(&mut arbiters, choice);
    parts.arbiters = arbiters;
    put_code(alloc, parts, out);
}

//! Combined Interleaves.

use crate::making::{add, name, put_code};
use crate::sizes::{SMALL, parts, pattern};
use ccr_base::{Group, List};
use ccr_try::{first_number, numbers_of, put_number, put_word};
use ccr_wiring::{ArbiterPart, BranchPart, DomainPart, Kind, Parts, Wiring};
use std::alloc::Global;

/// An Interleave of one branch.
fn interleave(alloc: Global, number: u32) -> ArbiterPart {
    let mut branches = List::new(alloc);
    let branch = BranchPart {
        name: name(alloc, b"g", number),
        group: Group::Concurrent,
        queue: 0,
        handler: 0,
        pattern: pattern(alloc, 0, &SMALL),
    };
    add(&mut branches, branch);
    ArbiterPart {
        name: name(alloc, b"i", number),
        kind: Kind::Interleave,
        branches,
    }
}

/// A receive of number 0, a choice of number 1, nine Interleaves of the numbers 2 to 10, and these domains.
fn combined(alloc: Global, domains: &str) -> Parts {
    let mut parts = parts(alloc, &SMALL);
    for number in 2..11 {
        add(&mut parts.arbiters, interleave(alloc, number));
    }
    for members in domains.split(" : ") {
        let members = numbers_of(alloc, members);
        add(&mut parts.domains, DomainPart { members });
    }
    parts
}

/// For `MEMBER .. : MEMBER ..` the code of the parts with these domains.
pub fn code_of_domains(alloc: Global, input: &str, out: &mut List<u8>) {
    put_code(alloc, combined(alloc, input), out);
}

fn put_domain(wiring: &Wiring, arbiter: u32, out: &mut List<u8>) {
    if (arbiter as usize) < wiring.parts().arbiters.as_slice().len() {
        put_number(out, u64::from(wiring.domain(arbiter)));
    }
}

/// The domain of the arbiter where 2, 3 and 4 are combined.
pub fn domain(alloc: Global, input: &str, out: &mut List<u8>) {
    let (arbiter, _) = first_number(input);
    if let Ok(wiring) = Wiring::check(alloc, combined(alloc, "4 2 3")) {
        put_domain(&wiring, arbiter, out);
    }
}

/// The domain of the branch where 2, 3 and 4 are combined, if there is such a branch.
pub fn domain_of_branch(alloc: Global, input: &str, out: &mut List<u8>) {
    let (branch, _) = first_number(input);
    if let Ok(wiring) = Wiring::check(alloc, combined(alloc, "4 2 3")) {
        match wiring.placement(branch) {
            Some(placement) => put_number(out, placement.domain as u64),
            None => put_word(out, b"none"),
        }
    }
}

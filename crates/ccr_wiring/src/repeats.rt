//! Ports that stand twice in a pattern, a set or an open part, causes that stand twice in a post, Interleaves that stand twice in the domains,
//! parts that stand twice among the open ones.

ghost use Rattle.std.specs.Prelude.{◌≡◌, ◌++◌, IfOk, OnOk};
ghost use Rattle.std.specs.List.{list_any};
ghost use Rattle.ccr_base.specs.Lists.{has_number, are_apart};
ghost use Rattle.ccr_wiring.specs.Repeats.{are_slots_apart, slot_ports, names_ports_once, branch_repeats, arbiter_repeats, set_repeats, post_repeats, poster_repeats, has_repeating_set, has_repeating_arbiter, has_repeating_poster, members_in_all, has_repeating_domain, open_numbers, open_repeats, open_parts_repeat, has_repeating_open, has_repeat};

use crate::script_posts::ScriptPost;
use crate::{ArbiterPart, BranchPart, DomainPart, OpenPart, Parts, PosterPart, SetPart};
use ccr_base::{ArbiterNo, OutOfMemory, Pattern, PortNo, Slot, has_number};
use std::alloc::Global;

/// Whether no number stands twice.
pub fn are_apart(numbers: &[u32]) -> bool
    ensures { result ≡ are_apart numbers.now }
{
    for (index, number) in numbers.iter().enumerate() {
        if has_number(&numbers[index + 1..], *number) {
            return false;
        }
    }
    true
}

/// Whether one of the slots names the port.
pub fn has_slot_at(slots: &[Slot], port: PortNo) -> bool
    ensures { result ≡ has_number (slot_ports slots.now) port }
{
    for slot in slots {
        if slot.port == port {
            return true;
        }
    }
    false
}

fn are_slots_apart(slots: &[Slot]) -> bool
    ensures { result ≡ are_slots_apart slots.now }
{
    for (index, slot) in slots.iter().enumerate() {
        if has_slot_at(&slots[index + 1..], slot.port) {
            return false;
        }
    }
    true
}

fn names_ports_once(pattern: &Pattern) -> bool
    ensures { result ≡ names_ports_once pattern.now }
{
    match pattern {
        Pattern::Slots(slots) => are_slots_apart(slots.as_slice()),
        Pattern::Gather { first, second, .. } => *first != *second,
    }
}

fn branch_repeats(branch: &BranchPart) -> bool
    ensures { result ≡ branch_repeats branch.now }
{
    !names_ports_once(&branch.pattern)
}

fn arbiter_repeats(arbiter: &ArbiterPart) -> bool
    ensures { result ≡ arbiter_repeats arbiter.now }
{
    arbiter
        .branches
        .as_slice()
        .iter()
        .any(|branch| branch_repeats(branch))
}

fn set_repeats(set: &SetPart) -> bool
    ensures { result ≡ set_repeats set.now }
{
    !are_apart(set.ports.as_slice())
}

fn post_repeats(post: &ScriptPost) -> bool
    ensures { result ≡ post_repeats post.now }
{
    !are_apart(post.causes())
}

fn poster_repeats(poster: &PosterPart) -> bool
    ensures { result ≡ poster_repeats poster.now }
{
    poster
        .posts
        .as_slice()
        .iter()
        .any(|post| post_repeats(post))
}

fn has_repeating_set(parts: &Parts) -> bool
    ensures { result ≡ has_repeating_set parts.now }
{
    parts.sets.as_slice().iter().any(|set| set_repeats(set))
}

fn has_repeating_arbiter(parts: &Parts) -> bool
    ensures { result ≡ has_repeating_arbiter parts.now }
{
    parts
        .arbiters
        .as_slice()
        .iter()
        .any(|arbiter| arbiter_repeats(arbiter))
}

fn has_repeating_poster(parts: &Parts) -> bool
    ensures { result ≡ has_repeating_poster parts.now }
{
    parts
        .posters
        .as_slice()
        .iter()
        .any(|poster| poster_repeats(poster))
}

fn add_members(members: &mut Vec<ArbiterNo>, more: &[ArbiterNo]) -> Result<(), OutOfMemory>
    ensures { OnOk result (members.new.items ≡ members.old.items ++ more.now) }
{
    members.extend_from_slice(more)?;
    Ok(())
}

fn members_in_all(alloc: Global, domains: &[DomainPart]) -> Result<Vec<ArbiterNo>, OutOfMemory>
    ensures { IfOk result (λ members. members.items ≡ members_in_all domains.now) }
{
    let mut members = Vec::new(alloc);
    for domain in domains {
        add_members(&mut members, domain.members.as_slice())?;
    }
    Ok(members)
}

fn has_repeating_domain(alloc: Global, parts: &Parts) -> Result<bool, OutOfMemory>
    ensures { IfOk result (λ repeats. repeats ≡ has_repeating_domain parts.now) }
{
    let members = members_in_all(alloc, parts.domains.as_slice())?;
    Ok(!are_apart(&members))
}

fn has_open(listed: &[OpenPart], number: u32) -> bool
    ensures { result ≡ has_number (open_numbers listed.now) number }
{
    for part in listed {
        if part.part == number {
            return true;
        }
    }
    false
}

fn are_open_apart(listed: &[OpenPart]) -> bool
    ensures { result ≡ are_apart (open_numbers listed.now) }
{
    for (index, part) in listed.iter().enumerate() {
        if has_open(&listed[index + 1..], part.part) {
            return false;
        }
    }
    true
}

fn open_repeats(part: &OpenPart) -> bool
    ensures { result ≡ open_repeats part.now }
{
    !are_apart(part.ports.as_slice())
}

fn has_port_repeated(listed: &[OpenPart]) -> bool
    ensures { result ≡ list_any open_repeats listed.now }
{
    listed.iter().any(|part| open_repeats(part))
}

fn open_parts_repeat(listed: &[OpenPart]) -> bool
    ensures { result ≡ open_parts_repeat listed.now }
{
    !are_open_apart(listed) || has_port_repeated(listed)
}

fn has_repeating_open(parts: &Parts) -> bool
    ensures { result ≡ has_repeating_open parts.now }
{
    open_parts_repeat(parts.open_posters.as_slice())
        || open_parts_repeat(parts.open_handlers.as_slice())
}

pub(crate) fn has_repeat(alloc: Global, parts: &Parts) -> Result<bool, OutOfMemory>
    ensures { IfOk result (λ repeats. repeats ≡ has_repeat parts.now) }
{
    Ok(
        has_repeating_set(parts)
            || has_repeating_arbiter(parts)
            || has_repeating_poster(parts)
            || has_repeating_domain(alloc, parts)?
            || has_repeating_open(parts),
    )
}

//! The places of a wiring, and what stands at each of them at the start.

ghost use Rattle.std.specs.Prelude.{◌≡◌, ◌≤◌, ◌++◌, [], length, IfOk, OnOk};
ghost use Rattle.ccr_base.specs.Bounds.{most_places};
ghost use Rattle.ccr_wiring.specs.Wirings.{kind_of, policy_of};
ghost use Rattle.ccr_places.specs.Interleaves.{start};
ghost use Rattle.ccr_object.specs.Starts.{port_places, queue_places, arbiter_places, site_places, places_of, member_at, members, branches_of, groups_of, first_branch, fires_once, fresh_arbiter, start_at};

use crate::object::Object;
use ccr_arbiter::ArbiterObject;
use ccr_await::SiteObject;
use ccr_base::{ArbiterNo, BranchNo, Group, List, OutOfMemory, Place, Spot};
use ccr_interleave::InterleaveObject;
use ccr_port::PortObject;
use ccr_queue::{Meter, QueueObject};
use ccr_wiring::{Kind, Wiring};
use std::alloc::Global;

/// All places: ports, arbiters, sites, queues, each by their numbers, and the meter. Locks can keep as many.
pub fn places_of(alloc: Global, wiring: &Wiring) -> Result<List<Place>, OutOfMemory>
    ensures places { IfOk result (λ places. places ≡ places_of wiring.now) }
    ensures count { IfOk result (λ places. (1 ≤ length places) × (length places ≤ most_places)) }
{
    // `parts` says that the wiring is valid.
    let _valid = wiring.parts();
    let places = all_places(alloc, wiring)?;
    Ok(places)
}

fn all_places(alloc: Global, wiring: &Wiring) -> Result<List<Place>, OutOfMemory>
    ensures { IfOk result (λ places. places ≡ places_of wiring.now) }
{
    let parts = wiring.parts();
    let mut places = Vec::new(alloc);
    add_ports(&mut places, parts.ports.as_slice().len() as u32)?;
    add_arbiters(&mut places, wiring, parts.arbiters.as_slice().len() as u32)?;
    add_sites(&mut places, wiring.spots())?;
    add_queues(&mut places, parts.queues.as_slice().len() as u32)?;
    places.push(Place::Meter)?;
    Ok(List::from_vec(places))
}

fn add_ports(places: &mut Vec<Place>, count: u32) -> Result<(), OutOfMemory>
    ensures { OnOk result (places.new.items ≡ places.old.items ++ port_places count) }
{
    for number in 0..count {
        places.push(Place::Port(number))?;
    }
    Ok(())
}

fn add_queues(places: &mut Vec<Place>, count: u32) -> Result<(), OutOfMemory>
    ensures { OnOk result (places.new.items ≡ places.old.items ++ queue_places count) }
{
    for number in 0..count {
        places.push(Place::Queue(number))?;
    }
    Ok(())
}

/// One for each domain, under its number.
fn add_arbiters(places: &mut Vec<Place>, wiring: &Wiring, count: u32) -> Result<(), OutOfMemory>
    requires { count ≤ length wiring.now.arbiters }
    ensures { OnOk result (places.new.items ≡ places.old.items ++ arbiter_places wiring.now.domains count) }
{
    for number in 0..count {
        if wiring.domain(number) == number {
            places.push(Place::Arbiter(number))?;
        }
    }
    Ok(())
}

fn add_sites(places: &mut Vec<Place>, spots: &[Spot]) -> Result<(), OutOfMemory>
    ensures { OnOk result (places.new.items ≡ places.old.items ++ site_places spots.now) }
{
    for spot in spots {
        if let Spot::Site(branch, site) = *spot {
            places.push(Place::Site(branch, site))?;
        }
    }
    Ok(())
}

/// What stands at the place before all notes.
pub(crate) fn object_at(alloc: Global, wiring: &Wiring, place: Place) -> Result<Object, OutOfMemory>
    ensures object { IfOk result (λ object. object ≡ start_at wiring.now place) }
{
    Ok(match place {
        Place::Port(number) => Object::Port(PortObject::new(alloc, number)),
        Place::Arbiter(number) => arbiter_at(alloc, wiring, number)?,
        Place::Site(branch, site) => Object::Site(SiteObject::new(alloc, branch, site)),
        Place::Queue(number) => {
            let policy = wiring.policy_of(number);
            Object::Queue(QueueObject::new(alloc, number, policy))
        }
        Place::Meter => Object::Meter(Meter::new(wiring.parts().budget)),
    })
}

/// The arbiter of this number with the branches of its domain.
fn arbiter_at(alloc: Global, wiring: &Wiring, number: ArbiterNo) -> Result<Object, OutOfMemory>
    ensures { IfOk result (λ object. object ≡ fresh_arbiter (kind_of wiring.now number) (members wiring.now number)) }
{
    let listed = members(alloc, wiring, number)?;
    match wiring.kind_of(number) {
        Kind::Receive => {
            let receiver = ArbiterObject::receiver(alloc, first_of(&listed), is_once(&listed));
            Ok(Object::Arbiter(receiver))
        }
        Kind::Choice => {
            let count = count_of(wiring, number, &listed);
            let choice = ArbiterObject::choice(alloc, first_of(&listed), count);
            Ok(Object::Arbiter(choice))
        }
        Kind::Interleave => Ok(Object::Interleave(interleave_of(alloc, &listed)?)),
    }
}

/// The branches of the domain, rising, each with its group.
fn members(
    alloc: Global,
    wiring: &Wiring,
    domain: ArbiterNo,
) -> Result<Vec<(BranchNo, Group)>, OutOfMemory>
    ensures { IfOk result (λ listed. listed.items ≡ members wiring.now domain) }
{
    let mut listed = Vec::new(alloc);
    for spot in wiring.spots() {
        if let Some(member) = member_at(wiring, domain, *spot) {
            listed.push(member)?;
        }
    }
    Ok(listed)
}

fn member_at(wiring: &Wiring, domain: ArbiterNo, spot: Spot) -> Option<(BranchNo, Group)>
    ensures { result ≡ member_at wiring.now domain spot }
{
    let Spot::Branch(branch) = spot else {
        return None;
    };
    let placement = wiring.placement(branch)?;
    if placement.domain == domain as usize {
        Some((branch, placement.branch.group))
    } else {
        None
    }
}

/// How many branches the domain has, which are these.
fn count_of(wiring: &Wiring, domain: ArbiterNo, listed: &[(BranchNo, Group)]) -> u32
    requires { listed.now ≡ members wiring.now domain }
    ensures { result ≡ length listed.now }
{
    // `parts` says that the wiring is valid.
    let _valid = wiring.parts();
    listed.len() as u32
}

fn first_of(listed: &[(BranchNo, Group)]) -> BranchNo
    ensures { result ≡ first_branch listed.now }
{
    match listed.first() {
        Some(member) => member.0,
        None => 0,
    }
}

fn is_once(listed: &[(BranchNo, Group)]) -> bool
    ensures { result ≡ fires_once listed.now }
{
    match listed.first() {
        Some(member) => matches!(member.1, Group::Once),
        None => false,
    }
}

fn branches_of(alloc: Global, listed: &[(BranchNo, Group)]) -> Result<List<BranchNo>, OutOfMemory>
    ensures { IfOk result (λ branches. branches ≡ branches_of listed.now) }
{
    let branches: Vec<BranchNo> = listed.iter().map(|member| member.0).collect(alloc)?;
    Ok(List::from_vec(branches))
}

fn groups_of(alloc: Global, listed: &[(BranchNo, Group)]) -> Result<List<Group>, OutOfMemory>
    ensures { IfOk result (λ groups. groups ≡ groups_of listed.now) }
{
    let mut groups = Vec::new(alloc);
    for member in listed {
        groups.push(member.1)?;
    }
    Ok(List::from_vec(groups))
}

fn interleave_of(
    alloc: Global,
    listed: &[(BranchNo, Group)],
) -> Result<InterleaveObject, OutOfMemory>
    ensures { IfOk result (λ place. place ≡ record { state = start (branches_of listed.now) (groups_of listed.now); tasks = [] }) }
{
    let branches = branches_of(alloc, listed)?;
    let groups = groups_of(alloc, listed)?;
    Ok(InterleaveObject::new(alloc, branches, groups))
}

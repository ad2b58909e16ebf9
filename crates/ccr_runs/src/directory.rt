//! Places by their numbers, and the numbers by place.

ghost use Rattle.std.specs.Prelude.{◌≡◌, ◌<◌, ◌≤◌, length, slice_get, unwrap_or, IfOk};
ghost use Rattle.ccr_base.specs.Bounds.{most_places};
ghost use Rattle.ccr_object.specs.Starts.{places_of};
ghost use Rattle.ccr_runs.specs.Directories.{place_in, AreNumbers, AreRows};
ghost use Rattle.ccr_runs.specs.Played.{position_of};
ghost use Rattle.ccr_runs.specs.EntryRuns.{same_place};

use ccr_base::{BranchNo, List, OutOfMemory, Place};
use ccr_object::places_of;
use ccr_wiring::Wiring;
use std::alloc::Global;
use std::marker::Model;

/// What numbers of a kind name.
#[derive(Clone, Copy)]
enum Sort {
    Ports,
    Arbiters,
    SitesOf(BranchNo),
    Queues,
}

/// The places of a wiring and their numbers, each found in a time that doesn't grow with the wiring. Contracts see the
/// places in their order.
#[derive(Drop)]
pub struct Directory {
    places: List<Place>,
    ports: List<u32>,
    /// By the number of the domain.
    arbiters: List<u32>,
    /// By the branch, then by the site.
    sites: List<List<u32>>,
    queues: List<u32>,
    meter: u32,
}

impl Model for Directory {
    ghost use Rattle.std.specs.Prelude.{List as Listed};
    ghost use Rattle.ccr_base.specs.declared.names.Place.{Place};
    ghost use Rattle.ccr_runs.specs.Directories.{IsIndexed};

    ghost Value = { Listed Place };

    ghost view = { λ directory. directory.places };

    ghost invariant = { λ directory. IsIndexed directory.places directory.ports directory.arbiters directory.sites directory.queues directory.meter };
}

impl Directory {
    /// The places of the wiring.
    pub fn of(alloc: Global, wiring: &Wiring) -> Result<Directory, OutOfMemory>
        ensures places { IfOk result (λ directory. directory ≡ places_of wiring.now) }
        ensures count { IfOk result (λ directory. (1 ≤ length directory) × (length directory ≤ most_places)) }
    {
        let places = places_of(alloc, wiring)?;
        directory_of(alloc, places)
    }

    #[tactic(auto, using(crate::proofs::Directories::position_below))]
    /// The number of the place; where there is no such place, that of the last.
    pub fn number(&self, place: Place) -> u32
        ensures number { result ≡ position_of place self.now }
        ensures below { result < length self.now }
    {
        let places = self.places.as_slice();
        match place {
            Place::Port(port) => looked_up(self.ports.as_slice(), places, Sort::Ports, port),
            Place::Arbiter(arbiter) => {
                looked_up(self.arbiters.as_slice(), places, Sort::Arbiters, arbiter)
            }
            Place::Site(branch, site) => site_number(self.sites.as_slice(), places, branch, site),
            Place::Queue(queue) => looked_up(self.queues.as_slice(), places, Sort::Queues, queue),
            Place::Meter => self.meter,
        }
    }

    /// The place of this number; the meter where it is none.
    pub fn place(&self, number: u32) -> Place
        ensures { result ≡ unwrap_or (slice_get self.now number) Place.Meter }
    {
        place_at(self.places.as_slice(), number)
    }
}

/// The place of this number; the meter where it is none.
pub(crate) fn place_at(places: &[Place], number: u32) -> Place
    ensures { result ≡ unwrap_or (slice_get places.now number) Place.Meter }
{
    match places.get(number as usize) {
        Some(place) => *place,
        None => Place::Meter,
    }
}

fn directory_of(alloc: Global, places: List<Place>) -> Result<Directory, OutOfMemory>
    requires some { 1 ≤ length places }
    requires few { length places ≤ most_places }
    ensures { IfOk result (λ directory. directory ≡ places) }
{
    let all = places.as_slice();
    let ports = numbers_of(alloc, all, Sort::Ports)?;
    let arbiters = numbers_of(alloc, all, Sort::Arbiters)?;
    let sites = rows_of(alloc, all)?;
    let queues = numbers_of(alloc, all, Sort::Queues)?;
    let meter = position(all, Place::Meter);
    Ok(Directory {
        places,
        ports,
        arbiters,
        sites,
        queues,
        meter,
    })
}

/// The place of this number and kind.
fn place_in(sort: Sort, number: u32) -> Place
    ensures { result ≡ place_in sort number }
{
    match sort {
        Sort::Ports => Place::Port(number),
        Sort::Arbiters => Place::Arbiter(number),
        Sort::SitesOf(branch) => Place::Site(branch, number),
        Sort::Queues => Place::Queue(number),
    }
}

fn same_place(first: Place, second: Place) -> bool
    ensures { result ≡ same_place first second }
{
    match (first, second) {
        (Place::Port(p), Place::Port(q)) => p == q,
        (Place::Arbiter(p), Place::Arbiter(q)) => p == q,
        (Place::Site(b, k), Place::Site(c, l)) => b == c && k == l,
        (Place::Queue(p), Place::Queue(q)) => p == q,
        (Place::Meter, Place::Meter) => true,
        _ => false,
    }
}

/// Where the place stands in the list, found by going along it.
#[tactic(auto, using(crate::proofs::Directories::position_on))]
fn position(places: &[Place], place: Place) -> u32
    requires { length places.now ≤ most_places }
    ensures { result ≡ position_of place places.now }
{
    let mut number = 0;
    while number + 1 < places.len() && !same_place(places[number], place) {
        number += 1;
    }
    number as u32
}

/// The number that is kept, or where none is that which is found.
fn looked_up(numbers: &[u32], places: &[Place], sort: Sort, number: u32) -> u32
    requires few { length places.now ≤ most_places }
    requires numbers { AreNumbers places.now sort numbers.now }
    ensures { result ≡ position_of (place_in sort number) places.now }
{
    let at = number as usize;
    if at < numbers.len() {
        numbers[at]
    } else {
        position(places, place_in(sort, number))
    }
}

fn site_number(rows: &[List<u32>], places: &[Place], branch: BranchNo, site: u32) -> u32
    requires few { length places.now ≤ most_places }
    requires rows { AreRows places.now rows.now }
    ensures { result ≡ position_of (Place.Site branch site) places.now }
{
    match rows.get(branch as usize) {
        Some(row) => looked_up(row.as_slice(), places, Sort::SitesOf(branch), site),
        None => position(places, Place::Site(branch, site)),
    }
}

/// The place's number, where it is of this kind.
fn number_in(sort: Sort, place: Place) -> Option<u32> {
    match (sort, place) {
        (Sort::Ports, Place::Port(number)) => Some(number),
        (Sort::Arbiters, Place::Arbiter(number)) => Some(number),
        (Sort::SitesOf(branch), Place::Site(of, number)) if of == branch => Some(number),
        (Sort::Queues, Place::Queue(number)) => Some(number),
        _ => None,
    }
}

/// One more than the greatest of the numbers.
fn past(count: u32, number: Option<u32>) -> u32 {
    match number {
        Some(number) if number >= count => number.saturating_add(1),
        _ => count,
    }
}

/// How far the numbers of this kind go.
fn count_in(sort: Sort, places: &[Place]) -> u32 {
    let mut count = 0;
    for place in places {
        count = past(count, number_in(sort, *place));
    }
    count
}

/// How far the numbers of branches with sites go.
fn count_of_branches(places: &[Place]) -> u32 {
    let mut count = 0;
    for place in places {
        if let Place::Site(branch, _) = *place {
            count = past(count, Some(branch));
        }
    }
    count
}

/// The numbers of the places of this kind.
fn numbers_of(alloc: Global, places: &[Place], sort: Sort) -> Result<List<u32>, OutOfMemory>
    requires { length places.now ≤ most_places }
    ensures { IfOk result (λ numbers. AreNumbers places.now sort numbers) }
{
    let mut numbers = Vec::new(alloc);
    for number in 0..count_in(sort, places) {
        numbers.push(position(places, place_in(sort, number)))?;
    }
    Ok(List::from_vec(numbers))
}

/// The numbers of the sites, branch by branch.
fn rows_of(alloc: Global, places: &[Place]) -> Result<List<List<u32>>, OutOfMemory>
    requires { length places.now ≤ most_places }
    ensures { IfOk result (λ rows. AreRows places.now rows) }
{
    let mut rows = Vec::new(alloc);
    for branch in 0..count_of_branches(places) {
        rows.push(numbers_of(alloc, places, Sort::SitesOf(branch))?)?;
    }
    Ok(List::from_vec(rows))
}

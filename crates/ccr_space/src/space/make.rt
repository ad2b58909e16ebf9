//! Making the space and its passes.

ghost use Rattle.std.specs.Prelude.{◌≡◌, ◌≤◌, [], map, All, IfOk};
ghost use Rattle.std.specs.List.{range_with_len};
ghost use Rattle.ccr_base.specs.Bounds.{most_workers};
ghost use Rattle.ccr_wiring.specs.Actors.{actor_count};
ghost use Rattle.ccr_turns.specs.Locks.{IsSeatOf, keep_of, number_of, log_of};
ghost use Rattle.ccr_space.specs.Spaces.{HasPlaces, IsPassOf, IsSpace, log, number, pass_count, wiring_of};

use super::{Pass, PassOf, Space, SpaceOf};
use ccr_actor::{Actor, actor_count};
use ccr_base::{List, OutOfMemory};
use ccr_object::{PlaceObject, place_objects};
use ccr_runs::Directory;
use ccr_turns::{Keep, Seat, Turns};
use ccr_wiring::Wiring;
use std::alloc::Global;

impl<'w> Space<'w> {
    /// The places of the wiring under their locks, which keep every entry, and one pass for each poster and worker, in the order of the
    /// actors.
    pub fn make(
        alloc: Global,
        wiring: &'w Wiring,
        workers: u32,
    ) -> Result<(Space<'w>, List<Pass<'w>>), OutOfMemory>
        requires workers { workers ≤ most_workers }
        requires actors { 1 ≤ actor_count wiring.now workers }
        ensures space { IfOk result (λ made. IsSpace made.0) }
        ensures wiring { IfOk result (λ made. wiring_of made.0 ≡ wiring.now) }
        ensures count { IfOk result (λ made. pass_count made.0 ≡ actor_count wiring.now workers) }
        ensures passes { IfOk result (λ made. All (λ pass. IsPassOf made.0 pass) made.1) }
        ensures numbers { IfOk result (λ made. map number made.1 ≡ range_with_len 0 (actor_count wiring.now workers)) }
        ensures logs { IfOk result (λ made. All (λ pass. log pass ≡ []) made.1) }
    {
        Space::make_with(alloc, wiring, workers, Keep::Every)
    }

    /// The same, with locks that keep so much of their histories in memory.
    pub fn make_with(
        alloc: Global,
        wiring: &'w Wiring,
        workers: u32,
        keep: Keep,
    ) -> Result<(Space<'w>, List<Pass<'w>>), OutOfMemory>
        requires workers { workers ≤ most_workers }
        requires actors { 1 ≤ actor_count wiring.now workers }
        ensures space { IfOk result (λ made. HasPlaces made.0) }
        ensures keep { IfOk result (λ made. keep_of made.0.turns ≡ keep) }
        ensures wiring { IfOk result (λ made. wiring_of made.0 ≡ wiring.now) }
        ensures count { IfOk result (λ made. pass_count made.0 ≡ actor_count wiring.now workers) }
        ensures passes { IfOk result (λ made. All (λ pass. IsPassOf made.0 pass) made.1) }
        ensures numbers { IfOk result (λ made. map number made.1 ≡ range_with_len 0 (actor_count wiring.now workers)) }
        ensures logs { IfOk result (λ made. All (λ pass. log pass ≡ []) made.1) }
    {
        let directory = Directory::of(alloc, wiring)?;
        let objects = place_objects(alloc, wiring)?;
        let (turns, seats) = Turns::make(alloc, objects, actor_count(wiring, workers), keep)?;
        let space = SpaceOf {
            turns,
            directory,
            wiring,
        };
        let passes = space.deal(alloc, seats.into_vec())?;
        Ok((space, List::from_vec(passes)))
    }

    /// A pass for each seat, with the actor of its number.
    fn deal(
        &self,
        alloc: Global,
        seats: Vec<Seat<PlaceObject>>,
    ) -> Result<Vec<Pass<'w>>, OutOfMemory>
        requires seats { All (λ seat. IsSeatOf self.now.turns seat) seats.items }
        requires logs { All (λ seat. log_of seat ≡ []) seats.items }
        ensures passes { IfOk result (λ passes. All (λ pass. IsPassOf self.now pass) passes.items) }
        ensures numbers { IfOk result (λ passes. map number passes.items ≡ map number_of seats.items) }
        ensures logs { IfOk result (λ passes. All (λ pass. log pass ≡ []) passes.items) }
    {
        let mut passes = Vec::new(alloc);
        for seat in seats {
            passes.push(self.pass_of(alloc, seat)?)?;
        }
        Ok(passes)
    }

    /// The pass of this seat, before its first step.
    fn pass_of(&self, alloc: Global, seat: Seat<PlaceObject>) -> Result<Pass<'w>, OutOfMemory>
        requires seat { IsSeatOf self.now.turns seat }
        requires log { log_of seat ≡ [] }
        ensures pass { IfOk result (λ pass. IsPassOf self.now pass) }
        ensures number { IfOk result (λ pass. number pass ≡ number_of seat) }
        ensures log { IfOk result (λ pass. log pass ≡ []) }
    {
        let actor = Actor::start(alloc, self.wiring, seat.number())?;
        Ok(PassOf {
            actor,
            seat,
            stopped: false,
        })
    }
}

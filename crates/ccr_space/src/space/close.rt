//! Closing the space.

ghost use Rattle.std.specs.Prelude.{◌≡◌, ◌≤◌, ℕ, ◌<◌, ◌++◌, ◌∷◌, [], if◌then◌else◌, length, map, All, IfOk, OnOk, vec_capacity};
ghost use Rattle.ccr_turns.specs.Locks.{IsSeatOf};
ghost use Rattle.ccr_runs.specs.Visible.{visible as shown};
ghost use Rattle.ccr_space.specs.Spaces.{HasPlaces, HasSeat, IsPassOf, IsSpace, pass_count, is_stopped_in, stopped_of};
ghost use Rattle.ccr_space.specs.Closes.{IsClosed, IsKeptOf};

use super::{Pass, PassOf, Space, SpaceOf};
use ccr_base::{ActorNo, List, OutOfMemory};
use ccr_model::History;
use ccr_object::{Deed, PlaceObject};
use ccr_runs::{Full, full_of, history_of, merge};
use ccr_turns::{Held, Seat};
use std::alloc::Global;

/// What a lock kept: its object, and of its history the entries that have a place in memory.
pub type PlaceAndHistory = (PlaceObject, List<Held<Deed>>);

/// The entries of all places, the history that they show, and the actors whose passes are stopped.
#[derive(Drop)]
pub struct Closed {
    pub full: Full,
    pub history: History,
    pub short: List<ActorNo>,
}

impl<'w> Space<'w> {
    /// Closes the locks. All passes have to be handed in, in any order. Refused only where memory runs out; then the run is
    /// given up.
    pub fn close(self, alloc: Global, passes: List<Pass<'w>>) -> Result<Closed, OutOfMemory>
        requires space { IsSpace self }
        requires passes { All (λ pass. IsPassOf self pass) passes }
        requires all { length passes ≡ pass_count self }
        ensures run { IfOk result (λ closed. IsClosed self.entry passes.entry closed.full.entries) }
        ensures history { IfOk result (λ closed. closed.history ≡ shown closed.full.entries) }
        ensures short { IfOk result (λ closed. closed.short ≡ stopped_of passes.entry (pass_count self.entry)) }
    {
        let wiring = self.wiring;
        let passes = passes.into_vec();
        let short = short_of(alloc, passes.as_slice(), passes.len() as u32)?;
        let seats = Vec::with_capacity(alloc, passes.len())?;
        let seats = seats_of(passes, seats);
        let kept = self.unlock(alloc, List::from_vec(seats))?;
        let acts = merge(alloc, kept)?;
        let full = full_of(alloc, wiring, acts)?;
        let history = history_of(alloc, &full)?;
        Ok(Closed {
            full,
            history,
            short,
        })
    }

    /// What each lock kept, once all seats are handed in.
    pub(super) fn unlock(
        self,
        alloc: Global,
        seats: List<Seat<PlaceObject>>,
    ) -> Result<List<PlaceAndHistory>, OutOfMemory>
        requires space { HasPlaces self }
        requires seats { All (λ seat. IsSeatOf self.turns seat) seats }
        requires all { length seats ≡ pass_count self }
        ensures locks { IfOk result (λ kept. IsKeptOf self.entry seats kept) }
        ensures numbers { IfOk result (λ _. (actor : ℕ) → actor < pass_count self.entry → HasSeat seats actor) }
    {
        let SpaceOf {
            turns,
            directory: _,
            wiring: _,
        } = self;
        match turns.close(alloc, seats) {
            Ok(kept) => Ok(kept),
            Err(_) => Err(OutOfMemory),
        }
    }
}

/// The seats of the passes, in the room that was taken for them.
pub(super) fn seats_of(
    passes: Vec<Pass<'_>>,
    mut seats: Vec<Seat<PlaceObject>>,
) -> Vec<Seat<PlaceObject>>
    requires seats { (seats.items ≡ []) × (length passes.items ≤ vec_capacity seats) }
    ensures seats { result.items ≡ map (λ pass. pass.seat) passes.entry.items }
{
    for pass in passes {
        let PassOf {
            actor: _,
            seat,
            stopped: _,
        } = pass;
        seats.push_reserved(seat);
    }
    seats
}

/// Of so many actors, those whose passes are stopped.
pub(super) fn short_of(
    alloc: Global,
    passes: &[Pass<'_>],
    count: u32,
) -> Result<List<ActorNo>, OutOfMemory>
    ensures { IfOk result (λ short. short ≡ stopped_of passes.now count) }
{
    let mut short = Vec::new(alloc);
    for number in 0..count {
        add_if(&mut short, is_stopped_in(passes, number), number)?;
    }
    Ok(List::from_vec(short))
}

/// Adds the actor where it is stopped.
fn add_if(short: &mut Vec<ActorNo>, stopped: bool, actor: ActorNo) -> Result<(), OutOfMemory>
    ensures { OnOk result (short.new.items ≡ short.old.items ++ (if stopped then actor ∷ [] else [])) }
{
    if stopped {
        short.push(actor)?;
    }
    Ok(())
}

fn is_stopped_in(passes: &[Pass<'_>], number: ActorNo) -> bool
    ensures { result ≡ is_stopped_in passes.now number }
{
    passes
        .iter()
        .any(|pass| pass.stopped && pass.seat.number() == number)
}

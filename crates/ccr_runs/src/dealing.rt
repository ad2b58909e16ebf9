//! The histories of places, dealt out by their stamps.

ghost use Rattle.std.specs.Prelude.{◌≡◌, ◌<◌, ◌^◌, ◌++◌, All, drop, length, map, slice_get, IfOk, OnOk};
ghost use Rattle.ccr_turns.specs.Histories.{history_stamps};
ghost use Rattle.ccr_turns.specs.Lists.{Rises};
ghost use Rattle.ccr_runs.specs.Deals.{key, place_of};
ghost use Rattle.ccr_runs.specs.Merges.{tag, tagged};
ghost use Rattle.ccr_runs.specs.Orders.{merged};

use crate::acts::Act;
use crate::merging::count_of;
use crate::ordering::{StampedItem, in_order};
use ccr_base::{List, OutOfMemory};
use ccr_turns::Held;
use std::alloc::Global;
use std::collections::VecDeque;
use std::marker::Model;

/// The acts of closed locks that are left, by their stamps, and where stamps are equal by their places. Each is moved out once, so no list of all of
/// them is made. Contracts see them in that order.
#[derive(Drop)]
pub struct Deal<N> {
    /// The place of each.
    order: VecDeque<u32>,
    /// What is left of each place's history.
    histories: Vec<VecDeque<Held<N>>>,
}

impl<N> Model for Deal<N> {
    ghost use Rattle.std.specs.Prelude.{List, map};
    ghost use Rattle.ccr_runs.specs.declared.acts.Act.{Act as ActOf};
    ghost use Rattle.ccr_runs.specs.Deals.{dealt, HasEach};

    ghost Value = { List (ActOf N) };

    ghost view = { λ deal. dealt deal.order.items (map (λ history. history.items) deal.histories.items) };

    ghost invariant = { λ deal. HasEach deal.order.items (map (λ history. history.items) deal.histories.items) };
}

// Adds the stamps of the history, each with the place.
fn add_keys<N>(
    keys: &mut Vec<StampedItem<u32>>,
    place: u32,
    history: &[Held<N>],
) -> Result<(), OutOfMemory>
    ensures { OnOk result (keys.new.items ≡ keys.old.items ++ map key (map (tag place) history.now)) }
{
    for held in history {
        keys.push(StampedItem {
            stamp: held.stamp,
            item: place,
        })?;
    }
    Ok(())
}

// The stamps of all acts, each with its place.
fn keys_of<O: Drop, N: Drop>(
    alloc: Global,
    kept: &[(O, List<Held<N>>)],
) -> Result<Vec<StampedItem<u32>>, OutOfMemory>
    requires few { length kept.now < 2 ^ 32 }
    ensures { IfOk result (λ keys. keys.items ≡ map key (tagged 0 kept.now)) }
{
    let mut keys = Vec::with_capacity(alloc, count_of(kept))?;
    let mut place = 0;
    for left in kept {
        add_keys(&mut keys, place, left.1.as_slice())?;
        place += 1;
    }
    Ok(keys)
}

// The places of stamps.
fn places_of(alloc: Global, keys: Vec<StampedItem<u32>>) -> Result<Vec<u32>, OutOfMemory>
    ensures { IfOk result (λ places. places.items ≡ map (λ one. one.item) keys.items) }
{
    let mut places = Vec::with_capacity(alloc, keys.len())?;
    for one in keys {
        places.push(one.item)?;
    }
    Ok(places)
}

// The places of all acts, in order.
fn order_of<O: Drop, N: Drop>(
    alloc: Global,
    kept: &[(O, List<Held<N>>)],
) -> Result<Vec<u32>, OutOfMemory>
    requires few { length kept.now < 2 ^ 32 }
    ensures { IfOk result (λ order. order.items ≡ map place_of (merged kept.now)) }
{
    let keys = in_order(keys_of(alloc, kept)?)?;
    let places = places_of(alloc, keys)?;
    Ok(places)
}

// The histories alone.
fn histories_of<O: Drop, N: Drop>(
    alloc: Global,
    kept: Vec<(O, List<Held<N>>)>,
) -> Result<Vec<VecDeque<Held<N>>>, OutOfMemory>
    ensures { IfOk result (λ histories. map (λ history. history.items) histories.items ≡ map (λ left. left.1) kept.items) }
{
    let mut histories = Vec::with_capacity(alloc, kept.len())?;
    for (_, history) in kept {
        histories.push(VecDeque::from_vec(history.into_vec()))?;
    }
    Ok(histories)
}

impl<N: Drop> Deal<N> {
    /// All acts of these histories.
    pub fn of<O: Drop>(
        alloc: Global,
        kept: List<(O, List<Held<N>>)>,
    ) -> Result<Deal<N>, OutOfMemory>
        requires few { length kept < 2 ^ 32 }
        requires rising { All (λ left. Rises 0 (history_stamps left.1)) kept }
        ensures { IfOk result (λ deal. deal ≡ merged kept) }
    {
        let order = order_of(alloc, kept.as_slice())?;
        let histories = histories_of(alloc, kept.into_vec())?;
        Ok(Deal {
            order: VecDeque::from_vec(order),
            histories,
        })
    }

    /// Moves out the first.
    pub fn next(&mut self) -> Option<Act<N>>
        ensures first { result ≡ slice_get self.old 0 }
        ensures rest { self.new ≡ drop 1 self.old }
    {
        let place = self.order.pop_front()?;
        let history = &mut self.histories[place as usize];
        let Some(Held { seat, stamp, note }) = history.pop_front() else {
            unreachable!()
        };
        Some(Act {
            place,
            seat,
            stamp,
            note,
        })
    }
}

//! Making the locks and their seats.

ghost use Rattle.std.specs.Prelude.{◌≡◌, ◌≤◌, ◌+◌, [], length, map, replicate, All, IfOk, vec_capacity};
ghost use Rattle.std.specs.List.{AllZip, range_with_len};
ghost use Rattle.ccr_base.specs.Bounds.{most_actors, most_places};
ghost use Rattle.ccr_turns.specs.Logs.{fresh};
ghost use Rattle.ccr_turns.specs.Views.{view};
ghost use Rattle.ccr_turns.specs.Seated.{IsLaid};
ghost use Rattle.ccr_turns.specs.Locks.{starts, seat_count, place_count, keep_of, IsSeatOf, number_of, log_of};

use super::{Seat, Token, Turns};
use crate::history::Cell;
use crate::kept::{Keep, Kept};
use crate::rule::{CellSlot, Plan};
use crate::trace::Trace;
use atomic_table::{Refused, Table};
use ccr_base::{List, OutOfMemory};
use std::alloc::{AllocError, Global};
use std::snapshot::Snapshot;

// As many zeros.
fn zeros(alloc: Global, count: usize) -> Result<Vec<u64>, AllocError>
    ensures { IfOk result (λ v. v.items ≡ replicate count 0) }
{
    let mut words = Vec::with_capacity(alloc, count)?;
    for _ in 0..count {
        words.push_reserved(0);
    }
    Ok(words)
}

// Each object with an empty history.
fn cells<O: Kept>(
    alloc: Global,
    objects: Vec<O>,
    keep: Keep,
) -> Result<Vec<CellSlot<O>>, AllocError>
    ensures { IfOk result (λ v. AllZip (IsLaid keep) objects.items v.items) }
{
    let mut slots = Vec::with_capacity(alloc, objects.len())?;
    for object in objects {
        slots.push_reserved(Some(Cell {
            keep,
            object,
            seen: Vec::new(alloc),
            last: 0,
            count: 0,
            history: Trace::none(),
        }));
    }
    Ok(slots)
}

impl<O: Kept> Turns<O> {
    /// Locks for these objects, in the order of their places, which keep so much of their histories, and the seats of all who
    /// may ask, numbered from 0.
    pub fn make(
        alloc: Global,
        objects: List<O>,
        seats: u32,
        keep: Keep,
    ) -> Result<(Turns<O>, List<Seat<O>>), OutOfMemory>
        requires seats { (1 ≤ seats) × (seats ≤ most_actors + 1) }
        requires places { (1 ≤ length objects) × (length objects ≤ most_places) }

        ensures objects { IfOk result (λ made. starts made.0 ≡ objects) }
        ensures places { IfOk result (λ made. place_count made.0 ≡ length objects) }
        ensures count { IfOk result (λ made. seat_count made.0 ≡ seats) }
        ensures keep { IfOk result (λ made. keep_of made.0 ≡ keep) }

        ensures seats { IfOk result (λ made. All (λ seat. IsSeatOf made.0 seat) made.1) }
        ensures numbers { IfOk result (λ made. map number_of made.1 ≡ range_with_len 0 seats) }
        ensures logs { IfOk result (λ made. All (λ seat. log_of seat ≡ []) made.1) }
    {
        let plan = Plan {
            objects: Snapshot::of(&objects),
            seats,
            keep,
        };
        let objects = objects.into_vec();
        let words = zeros(alloc, objects.len())?;
        let dealt = Vec::with_capacity(alloc, seats as usize)?;
        let slots = cells(alloc, objects, keep)?;
        let (table, token) = match Table::new(alloc, words.as_slice(), slots, &plan) {
            Ok(made) => made,
            Err(Refused { slots: _ }) => return Err(OutOfMemory),
        };
        let turns = Turns { table };
        let dealt = turns.deal(token, seats, dealt);
        Ok((turns, List::from_vec(dealt)))
    }

    // The seats with the numbers from 0 on, in the room that was taken for them.
    fn deal(&self, mut token: Token<O>, seats: u32, mut dealt: Vec<Seat<O>>) -> Vec<Seat<O>>
        requires tied { token.table_id ≡ self.now.table.shared.table_id }
        requires logs { token.me ≡ (view (fresh 0 seats) None, []) }
        requires room { (dealt.items ≡ []) × (seats ≤ vec_capacity dealt) }
        ensures seats { All (λ seat. IsSeatOf self.now seat) result.items }
        ensures numbers { map number_of result.items ≡ range_with_len 0 seats }
        ensures logs { All (λ seat. log_of seat ≡ []) result.items }
    {
        for number in 0..seats {
            dealt.push_reserved(self.seat(&mut token, number));
        }
        dealt
    }
}

//! Closing the locks.

ghost use Rattle.std.specs.Prelude.{◌≡◌, ℕ, ◌<◌, ◌≤◌, ◌==◌, length, map, All, IfOk, IfErr, vec_capacity, []};
ghost use Rattle.std.specs.List.{AllZip, count_by};
ghost use Rattle.std.specs.Mem.Slots.{slots_items, slots_len, IsFull};
ghost use Rattle.ccr_turns.specs.Histories.{keeps};
ghost use Rattle.ccr_turns.specs.Rule.{Settled};
ghost use Rattle.ccr_turns.specs.Seated.{HasCells, Lifted};
ghost use Rattle.ccr_turns.specs.Locks.{starts, seat_count, place_count, keep_of, IsSeatOf, number_of, full_log, IsLeft, Agrees, HasWhole};

use super::{Seat, Turns};
use crate::history::{Cell, Held};
use crate::kept::{Keep, Kept};
use crate::rule::CellSlot;
use atomic_table::Closed;
use ccr_base::List;
use std::alloc::Global;

/// An object, and the entries that are kept of the history of its lock.
type ObjectAndHistory<O> = (O, List<Held<<O as Kept>::Note>>);

// Lifts out what each slot has, in the room that was taken for it.
fn lift<O: Kept>(
    mut closed: Closed<CellSlot<O>, Global>,
    mut kept: Vec<ObjectAndHistory<O>>,
) -> Vec<ObjectAndHistory<O>>
    requires full { IsFull closed.slots }
    requires cells { HasCells (slots_items closed.slots) }
    requires room { (kept.items ≡ []) × (slots_len closed.slots ≤ vec_capacity kept) }
    ensures { Lifted (slots_items closed.slots) result.items }
{
    for place in 0..closed.slot_count() {
        let slot = closed.take(place);
        let Some(
            Cell {
                keep: _,
                object,
                seen,
                last: _,
                count: _,
                history: _,
            },
        ) = slot
        else {
            unreachable!()
        };
        kept.push_reserved((object, List::from_vec(seen)));
    }
    closed.free();
    kept
}

impl<O: Kept> Turns<O> {
    /// Each object with the kept entries of the history of its lock, in the order of the places. All seats have to be handed in, in any
    /// order. Refused only where memory runs out: then the locks and the seats come back as they were.
    pub fn close(
        self,
        alloc: Global,
        seats: List<Seat<O>>,
    ) -> Result<List<ObjectAndHistory<O>>, (Turns<O>, List<Seat<O>>)>
        requires seats { All (λ seat. IsSeatOf self seat) seats }
        requires all { length seats ≡ seat_count self }

        ensures whole { IfOk result (λ kept. HasWhole O.value O.after O.may (keeps (keep_of self) O.seen) (seat_count self) (starts self) (map full_log seats) kept) }

        ensures objects { IfOk result (λ kept. keep_of self ≡ Keep.Every → AllZip (IsLeft O.value O.after O.may (seat_count self)) (starts self) kept) }
        ensures logs { IfOk result (λ kept. keep_of self ≡ Keep.Every → All (λ seat. Agrees O.value O.after (starts self) kept (full_log seat)) seats) }

        ensures numbers { IfOk result (λ _. (number : ℕ) → number < seat_count self → count_by (λ seat. number_of seat == number) seats ≡ 1) }

        ensures err { IfErr result (λ back. (back.0 ≡ self) × (back.1 ≡ seats)) }
    {
        let Ok(kept) = Vec::with_capacity(alloc, self.table.slot_count()) else {
            return Err((self, seats));
        };
        let closed = self.settle(seats.into_vec());
        Ok(List::from_vec(lift::<O>(closed, kept)))
    }

    // The closed table, once all logs are one seat's.
    fn settle(self, mut seats: Vec<Seat<O>>) -> Closed<CellSlot<O>, Global>
        requires seats { All (λ seat. IsSeatOf self seat) seats.items }
        requires all { length seats.items ≡ seat_count self }
        ensures full { IsFull result.slots × (slots_len result.slots ≡ place_count self) }
        ensures settled { Settled O.value O.after O.may (keeps (keep_of self) O.seen) (starts self) (seat_count self) (slots_items result.slots) (map full_log seats.items) }
    {
        let last = seats.pop().unwrap();
        let token = self.gather(seats, last);
        let Turns { table } = self;
        table.close_with(token)
    }
}

//! A turn at a place: take the lock, let the object act, keep the entry.

ghost use Rattle.std.specs.Prelude.{◌≡◌, ◌<◌, IfOk, OnErr};
ghost use Rattle.ccr_turns.specs.Locks.{place_count, IsSeatOf, number_of, log_of, Acts};

use super::cell::play;
use super::{Seat, Turns};
use crate::kept::Kept;
use ccr_base::OutOfMemory;
use std::sync::Wait;

impl<O: Kept> Turns<O> {
    /// Lets the object at the place answer the ask, under the lock of that place alone, and keeps the entry. It waits
    /// while another seat has the lock. Refused where memory runs out, or where the object refuses: then neither the
    /// object nor its history changed.
    pub fn act<R: Wait>(
        &self,
        rt: &R,
        seat: &mut Seat<O>,
        place: u32,
        ask: O::Ask,
    ) -> Result<O::Reply, OutOfMemory>
        requires seat { IsSeatOf self.now seat.old }
        requires place { place < place_count self.now }
        ensures seat { IsSeatOf self.now seat.new × (number_of seat.new ≡ number_of seat.old) }

        ensures ok { IfOk result (λ reply. Acts O.may place ask reply (log_of seat.old) (log_of seat.new)) }
        ensures err { OnErr result (log_of seat.new ≡ log_of seat.old) }
    {
        let at = place as usize;
        let mut cell = self.win(rt, &mut seat.token, at);
        match play(&mut cell, seat.number, seat.last, ask) {
            Ok((reply, stamp)) => {
                self.enter(&mut seat.token, at, cell);
                seat.last = stamp;
                Ok(reply)
            }
            Err(refused) => {
                self.leave(&mut seat.token, at, cell);
                Err(refused)
            }
        }
    }
}

//! Seats, and how they are made.

ghost use Rattle.std.specs.Prelude.{◌≡◌, ◌∷◌, [], List as Listed, None};
ghost use Rattle.ccr_turns.specs.Logs.{log};
ghost use Rattle.ccr_turns.specs.Views.{view, split_left};
ghost use Rattle.ccr_turns.specs.Locks.{IsSeatOf, number_of, log_of};

use super::{Seat, Token, Turns};
use crate::kept::Kept;
use crate::rule::SplitSeat;

impl<O: Kept> Turns<O> {
    // A new seat with this number, which gets the first log of the token.
    pub(super) fn seat(&self, token: &mut Token<O>, number: u32) -> Seat<O>
        requires tied { token.old.table_id ≡ self.now.table.shared.table_id }
        requires first { (logs : Listed _) × (token.old.me ≡ (view (log number [] ∷ logs) None, [])) }
        ensures old { (token.new.table_id ≡ token.old.table_id) × (token.new.me ≡ (split_left token.old.me.0, [])) }
        ensures new { IsSeatOf self.now result × (number_of result ≡ number) × (log_of result ≡ []) }
    {
        let token = self.table.shared.split_seat::<SplitSeat>(token);
        Seat {
            number,
            last: 0,
            token,
        }
    }
}

impl<O: Kept> Seat<O> {
    /// The number that the seat's entries bear.
    pub fn number(&self) -> u32
        ensures { result ≡ number_of self.now }
    {
        self.number
    }
}

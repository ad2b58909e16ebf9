//! Joining seats, at the close.

ghost use Rattle.std.specs.Prelude.{◌≡◌, ◌++◌, ◌∷◌, [], All, None, map};
ghost use Rattle.ccr_turns.specs.Views.{joined};
ghost use Rattle.ccr_turns.specs.Locks.{IsSeatOf, full_log};

use super::{Seat, Token, Turns};
use crate::kept::Kept;
use crate::rule::Both;

impl<O: Kept> Turns<O> {
    // Takes over the logs of a seat, which ends.
    fn take_over(&self, token: &mut Token<O>, other: Token<O>)
        requires mine { (token.old.table_id ≡ self.now.table.shared.table_id) × (token.old.me.0.hold ≡ None) }
        requires other { (other.table_id ≡ self.now.table.shared.table_id) × (other.me.0.hold ≡ None) × (other.me.1 ≡ []) }
        ensures { (token.new.table_id ≡ token.old.table_id) × (token.new.me ≡ (joined token.old.me.0 other.me.0, token.old.me.1)) }
    {
        self.table.shared.join_seat::<Both>(token, other);
    }

    // One token with the logs of all seats, in their order.
    pub(super) fn gather(&self, mut seats: Vec<Seat<O>>, last: Seat<O>) -> Token<O>
        requires last { IsSeatOf self.now last }
        requires seats { All (λ s. IsSeatOf self.now s) seats.items }
        ensures tied { result.table_id ≡ self.now.table.shared.table_id }
        ensures idle { (result.me.0.hold ≡ None) × (result.me.1 ≡ []) }
        ensures logs { result.me.0.logs ≡ map full_log (seats.items ++ last ∷ []) }
    {
        let Seat {
            number: _,
            last: _,
            mut token,
        } = last;
        while let Some(seat) = seats.pop() {
            let Seat {
                number: _,
                last: _,
                token: other,
            } = seat;
            self.take_over(&mut token, other);
        }
        token
    }
}

//! Letting a lock go.

ghost use Rattle.std.specs.Prelude.{◌≡◌, ◌<◌};
ghost use Rattle.ccr_turns.specs.Histories.{past, IsSifted};
ghost use Rattle.ccr_turns.specs.Seated.{HasTurn, Idle, HasNewEntry, Entered};

use super::cell::entry_count;
use super::win::{AWAITED, FREE};
use super::{Token, Turns};
use crate::history::Cell;
use crate::kept::Kept;
use crate::rule::{Enter, Leave};

impl<O: Kept> Turns<O> {
    // Lays back what was lifted out, as it was, and lets the lock go.
    pub(super) fn leave(&self, token: &mut Token<O>, place: usize, cell: Cell<O, O::Note>)
        requires tied { (token.old.table_id ≡ self.now.table.shared.table_id) × (place < self.now.table.shared.table_id.slots) }
        requires holding { HasTurn place token.old.me (past cell) (O.value cell.object) cell.keep }
        requires sifted { IsSifted O.seen cell }
        ensures { (token.new.table_id ≡ token.old.table_id) × (token.new.me ≡ Idle token.old.me) }
    {
        let shared = &self.table.shared;
        let out = shared.exchange(token, place, Some(cell));
        let None = out else { unreachable!() };
        let found = shared.swap::<Leave<O>>(token, place, FREE);
        self.wake(place, found);
    }

    // Lays back what was lifted out, with one entry more, and lets the lock go.
    pub(super) fn enter(&self, token: &mut Token<O>, place: usize, cell: Cell<O, O::Note>)
        requires tied { (token.old.table_id ≡ self.now.table.shared.table_id) × (place < self.now.table.shared.table_id.slots) }
        requires entry { HasNewEntry O.value O.after O.may O.seen place token.old.me cell }
        ensures tied { token.new.table_id ≡ token.old.table_id }
        ensures entered { Entered place token.old.me cell token.new.me }
    {
        let shared = &self.table.shared;
        let _count = entry_count(&cell);
        let out = shared.exchange(token, place, Some(cell));
        let None = out else { unreachable!() };
        let found = shared.swap::<Enter<O>>(token, place, FREE);
        self.wake(place, found);
    }

    // Wakes one that sleeps for the place's lock, if somebody may.
    fn wake(&self, place: usize, found: u64)
        requires { place < self.now.table.shared.table_id.slots }
    {
        if found == AWAITED {
            self.table.shared.wake_one(place);
        }
    }
}

//! Taking a lock, and waiting for one that is held.

ghost use Rattle.std.specs.Prelude.{◌≡◌, ◌<◌, MatchBool};
ghost use Rattle.ccr_turns.specs.Seated.{Ready, Won, Took};

use super::{Token, Turns};
use crate::history::Cell;
use crate::kept::Kept;
use crate::rule::Win;
use std::hint::spin_loop;
use std::sync::Wait;

/// The word of a place whose lock nobody has.
pub(crate) const FREE: u64 = 0;

/// The word of a place whose lock somebody has. Nobody sleeps for it.
const HELD: u64 = 1;

/// The word of a place whose lock somebody has, where others may sleep.
pub(crate) const AWAITED: u64 = 2;

// How often a thread looks at a held lock before it sleeps.
const LOOKS: u32 = 100;

impl<O: Kept> Turns<O> {
    // Takes the place's lock and lifts out what it keeps.
    pub(super) fn win<R: Wait>(
        &self,
        rt: &R,
        token: &mut Token<O>,
        place: usize,
    ) -> Cell<O, O::Note>
        requires { (token.old.table_id ≡ self.now.table.shared.table_id) × (place < self.now.table.shared.table_id.slots) × Ready token.old.me }
        ensures tied { token.new.table_id ≡ token.old.table_id }
        ensures took { Took O.value O.seen self.now.table.shared.table_id.slots place token.old.me result token.new.me }
    {
        self.lock(rt, token, place);
        self.table.shared.exchange(token, place, None).unwrap()
    }

    // Takes the place's lock. A free one costs one exchange.
    fn lock<R: Wait>(&self, rt: &R, token: &mut Token<O>, place: usize)
        requires { (token.old.table_id ≡ self.now.table.shared.table_id) × (place < self.now.table.shared.table_id.slots) × Ready token.old.me }
        ensures tied { token.new.table_id ≡ token.old.table_id }
        ensures won { Won O.value O.seen self.now.table.shared.table_id.slots place token.old.me token.new.me }
    {
        if self.try_lock(token, place) {
            return;
        }
        if self.look(token, place) {
            return;
        }
        self.sleep(rt, token, place);
    }

    // Takes the lock if it is free.
    fn try_lock(&self, token: &mut Token<O>, place: usize) -> bool
        requires { (token.old.table_id ≡ self.now.table.shared.table_id) × (place < self.now.table.shared.table_id.slots) × Ready token.old.me }
        ensures tied { token.new.table_id ≡ token.old.table_id }
        ensures won { MatchBool result (Won O.value O.seen self.now.table.shared.table_id.slots place token.old.me token.new.me) (token.new.me ≡ token.old.me) }
    {
        let found = self
            .table
            .shared
            .compare_exchange::<Win<O>>(token, place, FREE, HELD);
        found == FREE
    }

    // Looks at a held lock for a short while. It tells whether it took the lock.
    fn look(&self, token: &mut Token<O>, place: usize) -> bool
        requires { (token.old.table_id ≡ self.now.table.shared.table_id) × (place < self.now.table.shared.table_id.slots) × Ready token.old.me }
        ensures tied { token.new.table_id ≡ token.old.table_id }
        ensures won { MatchBool result (Won O.value O.seen self.now.table.shared.table_id.slots place token.old.me token.new.me) (token.new.me ≡ token.old.me) }
    {
        for _ in 0..LOOKS {
            if self.table.shared.peek(place) != FREE {
                spin_loop();
                continue;
            }
            if self.try_lock(token, place) {
                return true;
            }
        }
        false
    }

    // Sleeps until it took the lock. Whoever lets go a lock that is awaited wakes one that sleeps.
    fn sleep<R: Wait>(&self, rt: &R, token: &mut Token<O>, place: usize)
        requires { (token.old.table_id ≡ self.now.table.shared.table_id) × (place < self.now.table.shared.table_id.slots) × Ready token.old.me }
        ensures tied { token.new.table_id ≡ token.old.table_id }
        ensures won { Won O.value O.seen self.now.table.shared.table_id.slots place token.old.me token.new.me }
    {
        let shared = &self.table.shared;
        for _ in rt.forever() {
            if shared.swap::<Win<O>>(token, place, AWAITED) == FREE {
                return;
            }
            shared.park(rt, place, AWAITED as u32);
        }
        unreachable!()
    }
}

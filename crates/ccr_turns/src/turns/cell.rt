//! One act on what a lock keeps, which is out of the table meanwhile.

ghost use Rattle.std.specs.Prelude.{◌≡◌, ◌+◌, ◌++◌, ◌∷◌, [], ◌<◌, ◌≤◌, max, vec_len, vec_capacity, IfOk, OnErr};
ghost use Rattle.ccr_turns.specs.Lists.{last_of};
ghost use Rattle.ccr_turns.specs.Histories.{history_stamps, keeps, sifted, stamp_limit, past, IsSifted};
ghost use Rattle.ccr_turns.specs.Seated.{Acted};

use crate::history::{Cell, Held};
use crate::kept::{Keep, Kept};
use ccr_base::OutOfMemory;

// Whether the note is kept.
fn is_kept<O: Kept>(keep: Keep, note: &O::Note) -> bool
    ensures { result ≡ keeps keep O.seen note.now }
{
    match keep {
        Keep::Every => true,
        Keep::Seen => O::is_seen(note),
    }
}

// Appends the entry if it is to be kept, in the room that was taken for it.
fn add<O: Kept>(keep: Keep, seen: &mut Vec<Held<O::Note>>, entry: Held<O::Note>)
    requires { vec_len seen.old + 1 ≤ vec_capacity seen.old }
    ensures { seen.new.items ≡ seen.old.items ++ sifted (keeps keep O.seen) (entry ∷ []) }
{
    if is_kept::<O>(keep, &entry.note) {
        seen.push_reserved(entry);
    }
}

// How many entries there were.
pub(crate) fn entry_count<O, N>(cell: &Cell<O, N>) -> u64
    ensures { result ≡ cell.now.count }
{
    cell.count
}

// Reserves the entry's room first, so that what the object did is always written down. At `Err` nothing changed.
pub(crate) fn play<O: Kept>(
    cell: &mut Cell<O, O::Note>,
    number: u32,
    last: u128,
    ask: O::Ask,
) -> Result<(O::Reply, u128), OutOfMemory>
    requires seat { last < stamp_limit }
    requires place { last_of 0 (history_stamps (past cell.old)) < stamp_limit }
    requires sifted { IsSifted O.seen cell.old }
    ensures acted { IfOk result (λ r. (r.1 ≡ max (last_of 0 (history_stamps (past cell.old))) last + 1) × Acted O.value O.after O.may number r.1 ask r.0 cell.old cell.new) }
    ensures history { OnErr result (past cell.new ≡ past cell.old) }
    ensures object { OnErr result (O.value cell.new.object ≡ O.value cell.old.object) }
    ensures keep { cell.new.keep ≡ cell.old.keep }
    ensures sifted { IsSifted O.seen cell.new }
{
    let stamp = cell.last.max(last) + 1;
    if cell.count == u64::MAX {
        return Err(OutOfMemory);
    }
    cell.seen.reserve(1)?;
    let (reply, note) = cell.object.act(ask)?;
    let entry = Held {
        seat: number,
        stamp,
        note,
    };
    let history = cell.history.more(&entry);
    cell.history = history;
    add::<O>(cell.keep, &mut cell.seen, entry);
    cell.last = stamp;
    cell.count += 1;
    Ok((reply, stamp))
}

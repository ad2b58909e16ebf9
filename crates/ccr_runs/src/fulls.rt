//! The entries of what the objects of the places did.

ghost use Rattle.std.specs.Prelude.{◌≡◌, IfOk};
ghost use Rattle.ccr_object.specs.Starts.{places_of as all_places};
ghost use Rattle.ccr_runs.specs.Played.{entries_of, entry_at, entry_of};

use crate::directory::place_at;
use crate::{Act, Entry, Full};
use ccr_base::{List, OutOfMemory, Place};
use ccr_object::{Deed, places_of};
use ccr_wiring::Wiring;
use std::alloc::Global;

/// One entry for each act that was met, in their order. The notes are moved.
pub fn full_of(alloc: Global, wiring: &Wiring, acts: List<Act<Deed>>) -> Result<Full, OutOfMemory>
    ensures { IfOk result (λ full. full.entries ≡ entries_of wiring.now acts) }
{
    let places = places_of(alloc, wiring)?;
    let mut entries = Vec::with_capacity(alloc, acts.len())?;
    for act in acts.into_vec() {
        if let Some(entry) = entry_of(wiring, places.as_slice(), act) {
            entries.push(entry)?;
        }
    }
    Ok(Full {
        entries: List::from_vec(entries),
    })
}

/// The entry of an act; none where the condition of its ask wasn't met.
fn entry_of(_wiring: &Wiring, places: &[Place], act: Act<Deed>) -> Option<Entry>
    requires { places.now ≡ all_places _wiring.now }
    ensures { result ≡ entry_of _wiring.now act }
{
    let place = place_at(places, act.place);
    entry_at(place, act)
}

/// The entry of an act at this place; none where the condition of its ask wasn't met.
pub fn entry_at(place: Place, act: Act<Deed>) -> Option<Entry>
    ensures { result ≡ entry_at place act }
{
    let Act {
        place: _,
        seat,
        stamp,
        note: deed,
    } = act;
    let Deed { note, ask: _ } = deed;
    let note = note?;
    Some(Entry {
        actor: seat,
        place,
        stamp,
        note,
    })
}

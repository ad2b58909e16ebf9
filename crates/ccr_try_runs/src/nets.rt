//! Actors over the net of one thread, brought to rest one after the other.

ghost use Rattle.std.specs.Prelude.{◌≡◌, ◌≢◌, [], ℕ};
ghost use Rattle.ccr_runs.specs.Played.{steps_in};

use crate::courses::boxed_actor;
use ccr_base::{ActorNo, List, OpenGate, OutOfMemory};
use ccr_dispatch::drive;
use ccr_places::Note;
use ccr_plain::PlainNet;
use ccr_runs::Full;
use ccr_try::{put_spot, put_truth, put_word};
use ccr_wiring::{Wiring, is_closed};
use std::alloc::Global;

/// Brings the actor of this number from its first step to rest, and answers how many steps it made; none where memory runs out.
fn rest_one(alloc: Global, wiring: &Wiring, net: &mut PlainNet<'_>, number: ActorNo) -> u64
    requires wiring { net.old.wiring ≡ wiring.now }
    requires first { steps_in net.old.wiring net.old.acts number ≡ [] }
    ensures wiring { net.new.wiring ≡ net.old.wiring }
    ensures others { (other : ℕ) → other ≢ number → steps_in net.new.wiring net.new.acts other ≡ steps_in net.old.wiring net.old.acts other }
{
    match boxed_actor(alloc, wiring, number) {
        Ok(mut actor) => drive(net, &mut actor, &OpenGate),
        Err(_) => 0,
    }
}

fn put_note(out: &mut List<u8>, note: &Note) {
    match note {
        Note::Suspend(_) => put_word(out, b"suspended"),
        Note::Fired { spot, .. } => {
            put_word(out, b"fired");
            put_spot(out, *spot);
        }
        _ => {}
    }
}

/// Adds whether each step is an entry, and the firings and suspensions.
fn put_full(out: &mut List<u8>, full: &Full, steps: u64) {
    put_truth(out, full.entries.len() as u64 == steps);
    for entry in full.entries.as_slice() {
        put_note(out, &entry.note);
    }
}

/// The run of the first actor to its rest, and then of the second, and how many steps they made.
fn rested(alloc: Global, wiring: &Wiring) -> Result<(Full, u64), OutOfMemory> {
    if !is_closed(wiring.parts()) {
        return Err(OutOfMemory);
    }
    let mut net = PlainNet::start(alloc, wiring)?;
    let posted = rest_one(alloc, wiring, &mut net, 0);
    let worked = rest_one(alloc, wiring, &mut net, 1);
    Ok((net.full(), posted.saturating_add(worked)))
}

/// Brings the first actor to rest, and then the second.
pub fn rest(alloc: Global, wiring: &Wiring, out: &mut List<u8>) {
    if let Ok(run) = rested(alloc, wiring) {
        put_full(out, &run.0, run.1);
    }
}

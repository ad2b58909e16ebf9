//! The net of all places on one thread.

ghost use Rattle.std.specs.Prelude.{◌≡◌, ◌≢◌, ◌<◌, ◌≤◌, ◌+◌, ◌*◌, ◌^◌, [], ◌∷◌, ◌++◌, ℕ, true, false, length, IfOk, OnOk, OnErr, IsOk, IsErr};
ghost use Rattle.ccr_wiring.specs.Openness.{is_closed};
ghost use Rattle.ccr_actor.specs.Nets.{IsProper};
ghost use Rattle.ccr_actor.specs.Nets.{replies_of as replied_in};
ghost use Rattle.ccr_claim.specs.Asks.{due_of, fits, is_settling};
ghost use Rattle.ccr_claim.specs.Wired.{IsReplyOf};
ghost use Rattle.ccr_plain.specs.Owed.{cost, gain, most};
ghost use Rattle.ccr_runs.specs.Played.{steps_in};
ghost use Rattle.ccr_plain.specs.Served.{seats, HasStepMore};
ghost use Rattle.ccr_runs.specs.EntryRuns.{entry_for, replies_of, with_made, IsRun};
ghost use Rattle.std.specs.Prelude.{vec_capacity, vec_len};
ghost use Rattle.ccr_base.specs.Bounds.{most_workers};

use ccr_actor::{Net, actor_count};
use ccr_base::{ActorNo, List, MAX_WORKERS, OutOfMemory, Place};
use ccr_claim::{Ask, Reply, settles};
use ccr_net::PlainPlaces;
use ccr_runs::{Entry, Full};
use ccr_wiring::Wiring;
use std::alloc::Global;
use std::marker::Model;

/// One object for each place of a wiring, and the entries of what they were asked, in order. It serves the posters and 16
/// workers behind them; to any other actor it has no memory to give. An ask that doesn't settle finds none where there is no
/// room for its entry and for those that may have to settle its reply: so what settles is never refused.
#[derive(Drop)]
pub struct PlainNet<'w> {
    places: PlainPlaces<'w>,
    entries: Vec<Entry>,
    /// So many more entries may come that settle what was replied. There is room for them.
    owed: usize,
    seats: u32,
}

impl<'w> Model for PlainNet<'w> {
    ghost use Rattle.std.specs.Prelude.{◌-◌, vec_capacity, vec_len};
    ghost use Rattle.ccr_plain.specs.Served.{Served, IsRoomy};

    ghost Value = { Served };

    ghost view = { λ net. record { wiring = net.places.wiring; acts = net.places.acts; entries = net.entries.items } };

    ghost invariant = { λ net. IsRoomy net.places net.entries.items (vec_capacity net.entries - vec_len net.entries) net.owed net.seats };
}

impl<'w> PlainNet<'w> {
    /// The net before all asks.
    pub fn start(alloc: Global, wiring: &'w Wiring) -> Result<PlainNet<'w>, OutOfMemory>
        requires { is_closed wiring.now ≡ true }
        ensures wiring { IfOk result (λ net. net.wiring ≡ wiring.now) }
        ensures entries { IfOk result (λ net. net.entries ≡ []) }
        ensures steps { IfOk result (λ net. (actor : ℕ) → steps_in net.wiring net.acts actor ≡ []) }
    {
        let seats = actor_count(wiring, MAX_WORKERS);
        let places = PlainPlaces::start(alloc, wiring)?;
        Ok(PlainNet {
            places,
            entries: Vec::new(alloc),
            owed: 0,
            seats,
        })
    }

    /// The entries so far.
    pub fn entries(&self) -> &[Entry]
        ensures entries { result.now ≡ self.now.entries }
        ensures run { IsRun self.now.wiring most_workers self.now.entries }
        ensures replies { (actor : ℕ) → replied_in (steps_in self.now.wiring self.now.acts actor) ≡ replies_of self.now.wiring self.now.entries actor }
    {
        &self.entries
    }

    /// All entries, in order. It takes no memory.
    pub fn full(self) -> Full
        ensures entries { result.entries ≡ self.entry.entries }
        ensures run { IsRun self.entry.wiring most_workers result.entries }
    {
        let PlainNet { entries, .. } = self;
        Full {
            entries: List::from_vec(entries),
        }
    }
}

impl Net for PlainNet<'_> {
    ghost wiring = { λ net. net.wiring };

    ghost steps = { λ net actor. steps_in net.wiring net.acts actor };

    /// The reply of the place's object. Its entry is the one that a run has for the ask behind those before.
    fn act(&mut self, actor: ActorNo, place: Place, ask: Ask) -> Result<Reply, OutOfMemory>
        requires { IsProper self.old.wiring actor (steps_in self.old.wiring self.old.acts actor) (record { place = place; ask = ask }) }
        ensures wiring { self.new.wiring ≡ self.old.wiring }
        ensures reply { IfOk result (λ reply. fits (due_of ask) reply ≡ true) }
        ensures known { IfOk result (λ reply. IsReplyOf self.old.wiring reply) }
        ensures added { IfOk result (HasStepMore self.old self.new actor (record { place = place; ask = ask })) }
        ensures refused { OnErr result (steps_in self.new.wiring self.new.acts actor ≡ steps_in self.old.wiring self.old.acts actor) }
        ensures others { (other : ℕ) → other ≢ actor → steps_in self.new.wiring self.new.acts other ≡ steps_in self.old.wiring self.old.acts other }
        ensures settles { is_settling ask ≡ true → IsOk result }
        ensures made { OnOk result (self.new.entries ≡ with_made self.old.entries (entry_for self.old.wiring self.old.entries actor (record { place = place; ask = ask }))) }
        ensures heard { IfOk result (λ reply. replies_of self.new.wiring self.new.entries actor ≡ replies_of self.old.wiring self.old.entries actor ++ reply ∷ []) }
        ensures kept { OnErr result (self.new.entries ≡ self.old.entries) }
        ensures unseated { is_settling ask ≡ false → seats self.old.wiring ≤ actor → IsErr result }
    {
        make_room(
            &mut self.places,
            &mut self.entries,
            self.owed,
            actor < self.seats,
            &ask,
        )?;
        let paid = cost(&ask);
        let (reply, entry) = self.places.reply(actor, place, ask)?;
        self.entries.push_reserved(entry);
        self.owed = self.owed - paid + gain(&reply);
        Ok(reply)
    }
}

/// Room for the entry of the ask, for those that are owed, and for those that its reply adds to them; a seated actor's alone.
/// An ask that settles has its room.
fn make_room(
    places: &mut PlainPlaces<'_>,
    entries: &mut Vec<Entry>,
    owed: usize,
    is_seated: bool,
    ask: &Ask,
) -> Result<(), OutOfMemory>
    ensures wiring { places.new.wiring ≡ places.old.wiring }
    ensures acts { places.new.acts ≡ places.old.acts }
    ensures items { entries.new.items ≡ entries.old.items }
    ensures places_kept { places.old.room ≤ places.new.room }
    ensures len { vec_len entries.new ≡ vec_len entries.old }
    ensures entries_kept { vec_capacity entries.old ≤ vec_capacity entries.new }
    ensures seated { OnOk result (is_settling ask.now ≡ false → is_seated ≡ true) }
    ensures places_room { OnOk result (is_settling ask.now ≡ false → owed + (1 + most (length places.old.acts) ask.now) ≤ places.new.room) }
    ensures entries_room { OnOk result (is_settling ask.now ≡ false → vec_len entries.old + (owed + (1 + most (length places.old.acts) ask.now)) ≤ vec_capacity entries.new) }
    ensures settles { is_settling ask.now ≡ true → IsOk result }
{
    if settles(ask) {
        return Ok(());
    }
    if !is_seated {
        return Err(OutOfMemory);
    }
    let count = sum(owed, sum(1, most(places.count(), ask)?)?)?;
    places.reserve(count)?;
    entries.reserve(count)?;
    Ok(())
}

fn sum(first: usize, second: usize) -> Result<usize, OutOfMemory>
    ensures { IfOk result (λ count. count ≡ first + second) }
{
    first.checked_add(second).ok_or(OutOfMemory)
}

/// The most that a reply to the ask adds to what is owed, where so many tasks may be cut.
fn most(count: usize, ask: &Ask) -> Result<usize, OutOfMemory>
    ensures { IfOk result (λ added. added ≡ most count ask.now) }
{
    match ask {
        Ask::Commit(..) => sum(2, sum(count, count)?),
        _ => Ok(2),
    }
}

/// What the ask takes from what is owed.
fn cost(ask: &Ask) -> usize
    ensures { result ≡ cost ask.now }
{
    match ask {
        Ask::Put(_) | Ask::Unbook(_) | Ask::Commit(..) => 2,
        Ask::Consume(_) | Ask::Free(_) | Ask::Over { .. } | Ask::Suspend(_) => 1,
        _ => 0,
    }
}

/// What the reply adds to it.
fn gain(reply: &Reply) -> usize
    requires { gain reply.now < 2 ^ 64 }
    ensures { result ≡ gain reply.now }
{
    match reply {
        Reply::Fired {
            task: Some(_),
            cuts,
        } => 2 + 2 * cuts.len(),
        Reply::Fired { task: None, cuts } => 2 * cuts.len(),
        Reply::Dead(_) | Reply::Booked | Reply::Admitted(Some(_)) => 2,
        Reply::Got(_) | Reply::Taken(Some(_)) | Reply::Dropped(Some(_)) => 1,
        _ => 0,
    }
}

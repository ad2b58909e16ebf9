//! The objects of all places on one thread, and what they did.

ghost use Rattle.std.specs.Prelude.{◌≡◌, ◌≢◌, ◌<◌, ◌≤◌, ◌+◌, ℕ, suc, max, true, [], ◌∷◌, ◌++◌, length, slice_index, IfOk, OnOk, OnErr, IsOk, Some, is_some};
ghost use Rattle.ccr_base.specs.Bounds.{most_actors};
ghost use Rattle.ccr_claim.specs.Asks.{due_of, fits, is_settling};
ghost use Rattle.ccr_object.specs.declared.deed.PlaceAnswer.TheVariants.{Replied};
ghost use Rattle.ccr_object.specs.Objects.{after_at, is_due, note_of, reply_of};
ghost use Rattle.ccr_net.specs.Acted.{act_after, deed_at, placed_in, scene_after, IsFitting};
ghost use Rattle.ccr_runs.specs.Played.{entry_of, number_at};
ghost use Rattle.ccr_turns.specs.Histories.{stamp_limit};

use ccr_base::{ActorNo, OutOfMemory, Place};
use ccr_claim::{Ask, Reply};
use ccr_object::{Deed, PlaceAnswer, PlaceObject, place_objects};
use ccr_runs::{Act, Directory, Entry, entry_at};
use ccr_wiring::{MAX_ACTOR, Wiring};
use std::alloc::Global;
use std::marker::Model;
use std::snapshot::Snapshot;

/// The objects of all places of a wiring, on one thread and without locks. Contracts see the acts so far, which take no
/// memory, and for how many more there is room.
#[derive(Drop)]
pub struct PlainPlaces<'w> {
    wiring: &'w Wiring,
    directory: Directory,
    objects: Vec<PlaceObject>,
    place_stamps: Vec<u128>,
    actor_stamps: Vec<u128>,
    acts: Vec<Snapshot<Act<Deed>>>,
}

impl<'w> Model for PlainPlaces<'w> {
    ghost use Rattle.std.specs.Prelude.{◌-◌, vec_capacity, vec_len};
    ghost use Rattle.ccr_net.specs.Acted.{IsLeft, PlainState, seen_acts};

    ghost Value = { PlainState };

    ghost view = { λ places. record { wiring = places.wiring.now; acts = seen_acts places.acts.items; room = vec_capacity places.acts - vec_len places.acts } };

    ghost invariant = { λ places. IsLeft places.wiring.now places.directory places.objects.items places.place_stamps.items places.actor_stamps.items (seen_acts places.acts.items) };
}

impl<'w> PlainPlaces<'w> {
    /// The places before all acts.
    pub fn start(alloc: Global, wiring: &'w Wiring) -> Result<PlainPlaces<'w>, OutOfMemory>
        ensures wiring { IfOk result (λ places. places.wiring ≡ wiring.now) }
        ensures acts { IfOk result (λ places. places.acts ≡ []) }
    {
        let directory = Directory::of(alloc, wiring)?;
        let objects = place_objects(alloc, wiring)?.into_vec();
        let place_stamps = zeros(alloc, objects.len())?;
        // the posters and the workers are numbered below the closer
        let actor_stamps = zeros(alloc, MAX_ACTOR as usize)?;
        Ok(PlainPlaces {
            wiring,
            directory,
            objects,
            place_stamps,
            actor_stamps,
            acts: Vec::new(alloc),
        })
    }

    /// How many acts there were.
    pub fn count(&self) -> usize
        ensures { result ≡ length self.now.acts }
    {
        self.acts.len()
    }

    /// Makes room for so many acts.
    pub fn reserve(&mut self, count: usize) -> Result<(), OutOfMemory>
        ensures room { OnOk result (count ≤ self.new.room) }
        ensures wiring { self.new.wiring ≡ self.old.wiring }
        ensures acts { self.new.acts ≡ self.old.acts }
        ensures kept { self.old.room ≤ self.new.room }
    {
        self.acts.reserve(count)?;
        Ok(())
    }

    /// Lets the object of the place answer the actor's ask. The act bears the answer's note.
    pub fn act(
        &mut self,
        actor: ActorNo,
        place: Place,
        ask: Ask,
    ) -> Result<(PlaceAnswer, Act<Deed>), OutOfMemory>
        requires seat { actor < most_actors }
        requires room { 1 ≤ self.old.room }
        ensures answer { IfOk result (λ given. given.0 ≡ reply_of (scene_after self.old.wiring self.old.acts (number_at self.old.wiring place)).0 ask) }
        ensures fits { IfOk result (λ given. IsFitting ask given.0) }
        ensures act { IfOk result (λ given. given.1 ≡ act_after self.old.wiring self.old.acts actor place ask) }
        ensures acts { OnOk result (self.new.acts ≡ self.old.acts ++ act_after self.old.wiring self.old.acts actor place ask ∷ []) }
        ensures room { OnOk result (self.new.room + 1 ≡ self.old.room) }
        ensures refused { OnErr result (self.new ≡ self.old) }
        ensures wiring { self.new.wiring ≡ self.old.wiring }
        ensures settles { is_settling ask ≡ true → IsOk result }
    {
        let number = self.directory.number(place);
        let stamp = next_stamp(&self.place_stamps, &self.actor_stamps, number, actor);
        let (answer, deed) = answer_at(&mut self.objects, number, ask)?;
        self.place_stamps[number as usize] = stamp;
        self.actor_stamps[actor as usize] = stamp;
        let act = Act {
            place: number,
            seat: actor,
            stamp,
            note: deed,
        };
        self.acts.push_reserved(Snapshot::of(&act));
        Ok((answer, act))
    }

    /// The entry of an act; none where the condition of its ask wasn't met.
    pub fn entry(&self, act: Act<Deed>) -> Option<Entry>
        ensures { result ≡ entry_of self.now.wiring act }
    {
        let place = self.directory.place(act.place);
        entry_at(place, act)
    }

    /// The reply to an ask whose condition is met, and the entry of its act.
    pub fn reply(
        &mut self,
        actor: ActorNo,
        place: Place,
        ask: Ask,
    ) -> Result<(Reply, Entry), OutOfMemory>
        requires seat { actor < most_actors }
        requires room { 1 ≤ self.old.room }
        requires met { is_some (note_of (scene_after self.old.wiring self.old.acts (number_at self.old.wiring place)).0 ask) ≡ true }
        ensures reply { IfOk result (λ given. reply_of (scene_after self.old.wiring self.old.acts (number_at self.old.wiring place)).0 ask ≡ Replied given.0) }
        ensures fits { IfOk result (λ given. fits (due_of ask) given.0 ≡ true) }
        ensures entry { IfOk result (λ given. entry_of self.old.wiring (act_after self.old.wiring self.old.acts actor place ask) ≡ Some given.1) }
        ensures acts { OnOk result (self.new.acts ≡ self.old.acts ++ act_after self.old.wiring self.old.acts actor place ask ∷ []) }
        ensures room { OnOk result (self.new.room + 1 ≡ self.old.room) }
        ensures refused { OnErr result (self.new ≡ self.old) }
        ensures wiring { self.new.wiring ≡ self.old.wiring }
        ensures settles { is_settling ask ≡ true → IsOk result }
    {
        let (answer, act) = self.act(actor, place, ask)?;
        let Some(entry) = self.entry(act) else {
            unreachable!();
        };
        let PlaceAnswer::Replied(reply) = answer else {
            unreachable!();
        };
        Ok((reply, entry))
    }
}

fn zeros(alloc: Global, count: usize) -> Result<Vec<u128>, OutOfMemory>
    ensures count { IfOk result (λ stamps. length stamps.items ≡ count) }
    ensures zeros { IfOk result (λ stamps. (k : ℕ) → slice_index stamps.items k ≡ 0) }
{
    let mut stamps = Vec::new(alloc);
    for _ in 0..count {
        stamps.push(0)?;
    }
    Ok(stamps)
}

/// One more than the last of the place and the last of the actor.
fn next_stamp(places: &[u128], actors: &[u128], number: u32, actor: ActorNo) -> u128
    requires place { number < length places.now }
    requires actor { actor < length actors.now }
    requires place_few { slice_index places.now number < stamp_limit }
    requires actor_few { slice_index actors.now actor < stamp_limit }
    ensures { result ≡ suc (max (slice_index places.now number) (slice_index actors.now actor)) }
{
    places[number as usize].max(actors[actor as usize]) + 1
}

/// The answer of the object of this number. The others stay as they were, and all do where memory runs out.
fn answer_at(
    objects: &mut [PlaceObject],
    number: u32,
    ask: Ask,
) -> Result<(PlaceAnswer, Deed), OutOfMemory>
    requires { number < length objects.old }
    ensures reply { IfOk result (λ given. given.0 ≡ reply_of (placed_in objects.old number) ask) }
    ensures fits { IfOk result (λ given. is_due ask given.0 ≡ true) }
    ensures deed { IfOk result (λ given. given.1 ≡ deed_at (placed_in objects.old number) ask) }
    ensures after { OnOk result (placed_in objects.new number ≡ after_at (placed_in objects.old number) ask) }
    ensures refused { OnErr result (placed_in objects.new number ≡ placed_in objects.old number) }
    ensures others { (k : ℕ) → k ≢ number → placed_in objects.new k ≡ placed_in objects.old k }
    ensures settles { is_settling ask ≡ true → IsOk result }
{
    let object = &mut objects[number as usize];
    object.answer(ask)
}

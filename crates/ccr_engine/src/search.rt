//! The search for the firing that comes first, among the touched spots and the blocked branches whose queues have room.

ghost use Rattle.std.specs.Prelude.{◌≡◌, ◌+◌, true, not, length, IfOk, IfSome, IfNone, OnOk};
ghost use Rattle.std.specs.List.{slice_get};
ghost use Rattle.std.specs.Option.{option_map, option_and_then};
ghost use Rattle.ccr_wiring.specs.Wirings.{spots};
ghost use Rattle.ccr_ledger.specs.Asked.{room};
ghost use Rattle.ccr_engine.specs.Numbered.{passes_at};
ghost use Rattle.ccr_engine.specs.Blocked.{AreBlocked, Blocks, IsFullBefore, is_before, is_blocked, branch_queue};
ghost use Rattle.ccr_engine.specs.Candidates.{AreCandidates, IsFirstOpen, IsLeftInVain, IsNoneBefore, index_of};
ghost use Rattle.ccr_engine.specs.Parts.{could_fire_in, fire_in, first_fire_in};

use crate::blocked::Blocked;
use crate::number_set::NumberSet;
use crate::parts::{choose_at, fire_at};
use ccr_base::{OutOfMemory, QueueNo, Spot, TaskId};
use ccr_ledger::Ledger;
use ccr_model::Event;
use ccr_wiring::Wiring;

/// A blocked branch: its queue and its index.
#[derive(Clone, Copy)]
pub(crate) struct Found {
    queue: usize,
    index: usize,
}

/// The queue of a branch; a site has none.
fn branch_queue(wiring: &Wiring, spot: Spot) -> Option<QueueNo>
    ensures { result ≡ branch_queue wiring.now spot }
{
    match spot {
        Spot::Branch(branch) => match wiring.placement(branch) {
            Some(placement) => Some(placement.branch.queue),
            None => None,
        },
        Spot::Site(_, _) => None,
    }
}

/// Whether the index is before the limit; each is where there is none.
fn is_before(limit: Option<usize>, index: usize) -> bool
    ensures { result ≡ is_before limit index }
{
    match limit {
        Some(limit) => index < limit,
        None => true,
    }
}

/// Its index, if there is one.
fn index_of(found: Option<Found>) -> Option<usize>
    ensures { result ≡ index_of found }
{
    match found {
        Some(found) => Some(found.index),
        None => None,
    }
}

/// Whether the spot at the index has room.
fn has_room(wiring: &Wiring, ledger: &Ledger, index: usize) -> bool
    ensures { result ≡ passes_at (room wiring.now ledger.now) (spots wiring.now) index }
{
    match wiring.spots().get(index) {
        Some(spot) => ledger.room(wiring, *spot),
        None => false,
    }
}

/// The queue's first branch, where it has room and is before the one that was found so far.
fn nearer(
    wiring: &Wiring,
    ledger: &Ledger,
    blocked: &Blocked,
    queue: usize,
    found: Option<Found>,
) -> Option<Found>
    requires blocked { AreBlocked wiring.now blocked.now }
    requires so_far { IsFirstOpen wiring.now ledger.now blocked.now queue found }
    ensures { IsFirstOpen wiring.now ledger.now blocked.now (queue + 1) result }
{
    let Some(index) = blocked.first(queue) else {
        return found;
    };
    if is_before(index_of(found), index) && has_room(wiring, ledger, index) {
        Some(Found { queue, index })
    } else {
        found
    }
}

/// The first blocked branch that has room, if any: one look at each queue.
#[inline(always)]
fn first_open(wiring: &Wiring, ledger: &Ledger, blocked: &Blocked) -> Option<Found>
    requires { AreBlocked wiring.now blocked.now }
    ensures { IsFirstOpen wiring.now ledger.now blocked.now (length blocked.now) result }
{
    let mut found = None;
    for queue in 0..blocked.count() {
        found = nearer(wiring, ledger, blocked, queue, found);
    }
    found
}

/// Whether the spot at the index lacks room. It is blocked from then on, where it does.
fn lacks_room(
    wiring: &Wiring,
    ledger: &Ledger,
    spot: Spot,
    index: usize,
    blocked: &mut Blocked,
) -> Result<bool, OutOfMemory>
    requires at { slice_get (spots wiring.now) index ≡ Some spot }
    requires blocked { AreBlocked wiring.now blocked.old }
    ensures lacks { IfOk result (λ lacks. lacks ≡ not (room wiring.now ledger.now spot)) }
    ensures entered { IfOk result (λ lacks. lacks ≡ true → is_blocked blocked.new index ≡ true) }
    ensures blocks { OnOk result (Blocks wiring.now ledger.now blocked.old blocked.new) }
{
    if ledger.room(wiring, spot) {
        return Ok(false);
    }
    // `parts` says that the wiring is valid.
    let _valid = wiring.parts();
    if let Some(queue) = branch_queue(wiring, spot) {
        blocked.enter(queue as usize, index)?;
    }
    Ok(true)
}

/// The firing of the task at the spot of this index, where it can fire. A live branch that lacks room is blocked from then on.
fn ask(
    wiring: &Wiring,
    ledger: &mut Ledger,
    task: TaskId,
    index: usize,
    blocked: &mut Blocked,
) -> Result<Option<Event>, OutOfMemory>
    requires blocked { AreBlocked wiring.now blocked.old }
    ensures event { IfOk result (λ event. event ≡ option_and_then (fire_in wiring.now task ledger.old) (slice_get (spots wiring.now) index)) }
    ensures vain { IfOk result (λ event. IfNone event (passes_at (could_fire_in wiring.now ledger.old) (spots wiring.now) index ≡ true → is_blocked blocked.new index ≡ true)) }
    ensures kept { OnOk result (ledger.new ≡ ledger.old) }
    ensures blocks { OnOk result (Blocks wiring.now ledger.old blocked.old blocked.new) }
{
    let Some(spot) = wiring.spots().get(index) else {
        return Ok(None);
    };
    if !ledger.lives(wiring, *spot) {
        return Ok(None);
    }
    if lacks_room(wiring, ledger, *spot, index, blocked)? {
        return Ok(None);
    }
    choose_at(wiring, ledger, task, *spot)
}

/// The firing at the first touched spot before the limit that can fire. Those that are asked in vain are touched no longer.
#[inline(always)]
fn first_touched(
    wiring: &Wiring,
    ledger: &mut Ledger,
    task: TaskId,
    touched: &mut NumberSet,
    blocked: &mut Blocked,
    limit: Option<usize>,
) -> Result<Option<Event>, OutOfMemory>
    requires candidates { AreCandidates wiring.now ledger.old touched.old blocked.old }
    requires full { IsFullBefore wiring.now ledger.old blocked.old limit }
    ensures event { IfOk result (λ event. IfSome event (λ one. first_fire_in wiring.now task ledger.old (spots wiring.now) ≡ Some one)) }
    ensures none { IfOk result (λ event. IfNone event (IsNoneBefore wiring.now task ledger.old limit)) }
    ensures kept { OnOk result (ledger.new ≡ ledger.old) }
    ensures candidates { OnOk result (AreCandidates wiring.now ledger.old touched.new blocked.new) }
{
    'asking: while let Some(index) = touched.first() {
        if !is_before(limit, index) {
            return Ok(None);
        }
        if let Some(event) = ask(wiring, ledger, task, index, blocked)? {
            return Ok(Some(event));
        }
        touched.leave_first();
    }
    Ok(None)
}

/// The firing of the task at the spot of this index, where there is one and it can fire.
fn fire_by_index(
    wiring: &Wiring,
    ledger: &mut Ledger,
    task: TaskId,
    index: usize,
) -> Result<Option<Event>, OutOfMemory>
    ensures event { IfOk result (λ event. event ≡ option_and_then (fire_in wiring.now task ledger.old) (slice_get (spots wiring.now) index)) }
    ensures kept { OnOk result (ledger.new ≡ ledger.old) }
{
    match wiring.spots().get(index) {
        Some(spot) => fire_at(wiring, ledger, task, *spot),
        None => Ok(None),
    }
}

/// The first blocked branch that can fire, by its index, and its firing. Those that are asked in vain are blocked no longer.
fn first_blocked(
    wiring: &Wiring,
    ledger: &mut Ledger,
    task: TaskId,
    blocked: &mut Blocked,
) -> Result<Option<(usize, Event)>, OutOfMemory>
    requires { AreBlocked wiring.now blocked.old }
    ensures event { IfOk result (λ found. IfSome found (λ one. option_and_then (fire_in wiring.now task ledger.old) (slice_get (spots wiring.now) one.0) ≡ Some one.1)) }
    ensures full { IfOk result (λ found. IsFullBefore wiring.now ledger.old blocked.new (option_map (λ one. one.0) found)) }
    ensures kept { OnOk result (ledger.new ≡ ledger.old) }
    ensures blocked { OnOk result (AreBlocked wiring.now blocked.new) }
    ensures left { OnOk result (IsLeftInVain wiring.now ledger.old blocked.old blocked.new) }
{
    'asking: while let Some(found) = first_open(wiring, ledger, blocked) {
        if let Some(event) = fire_by_index(wiring, ledger, task, found.index)? {
            return Ok(Some((found.index, event)));
        }
        blocked.leave_first(found.queue);
    }
    Ok(None)
}

/// The firing at the first blocked branch that can fire, or at a touched spot before it.
#[inline(never)]
fn first_of_both(
    wiring: &Wiring,
    ledger: &mut Ledger,
    task: TaskId,
    touched: &mut NumberSet,
    blocked: &mut Blocked,
) -> Result<Option<Event>, OutOfMemory>
    requires { AreCandidates wiring.now ledger.old touched.old blocked.old }
    ensures event { IfOk result (λ event. event ≡ first_fire_in wiring.now task ledger.old (spots wiring.now)) }
    ensures kept { OnOk result (ledger.new ≡ ledger.old) }
    ensures candidates { OnOk result (AreCandidates wiring.now ledger.old touched.new blocked.new) }
{
    let Some((index, event)) = first_blocked(wiring, ledger, task, blocked)? else {
        return first_touched(wiring, ledger, task, touched, blocked, None);
    };
    match first_touched(wiring, ledger, task, touched, blocked, Some(index))? {
        Some(earlier) => Ok(Some(earlier)),
        None => Ok(Some(event)),
    }
}

/// The firing of the task at the first spot that can fire. It is a touched one, or a blocked one whose queue has room: where the
/// touched ones before the first such branch have no firing, that branch is asked, and then those behind it.
#[inline(always)]
pub(crate) fn first_fire(
    wiring: &Wiring,
    ledger: &mut Ledger,
    task: TaskId,
    touched: &mut NumberSet,
    blocked: &mut Blocked,
) -> Result<Option<Event>, OutOfMemory>
    requires { AreCandidates wiring.now ledger.old touched.old blocked.old }
    ensures event { IfOk result (λ event. event ≡ first_fire_in wiring.now task ledger.old (spots wiring.now)) }
    ensures kept { OnOk result (ledger.new ≡ ledger.old) }
    ensures candidates { OnOk result (AreCandidates wiring.now ledger.old touched.new blocked.new) }
{
    let Some(found) = first_open(wiring, ledger, blocked) else {
        return first_touched(wiring, ledger, task, touched, blocked, None);
    };
    if let Some(event) = first_touched(wiring, ledger, task, touched, blocked, Some(found.index))? {
        return Ok(Some(event));
    }
    first_of_both(wiring, ledger, task, touched, blocked)
}

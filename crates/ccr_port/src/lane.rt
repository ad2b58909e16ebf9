//! The keys of the messages that satisfy one predicate.

ghost use Rattle.std.specs.Prelude.{◌≡◌, ◌<◌, ◌≤◌, ◌+◌, ℕ, Some, Option, [], IsTrue, OnOk, length};
ghost use Rattle.std.specs.Bool.{Decides};
ghost use Rattle.std.specs.List.{slice_get};
ghost use Rattle.ccr_port.specs.Chains.{has_key, behind_of, before_of, mended};
ghost use Rattle.ccr_port.specs.Lanes.{appended, can_enter, can_leave, entered, is_below, left, unlinked};

use crate::links::Link;
use ccr_base::{OutOfMemory, Pred, Value};
use std::alloc::Global;
use std::marker::Model;

/// Keys of messages that satisfy a predicate, in the order of their posts. The links stand under the keys.
#[derive(Drop)]
pub(crate) struct KeyLane {
    pred: Pred,
    first: Option<usize>,
    last: Option<usize>,
    count: u32,
    links: Vec<Link>,
}

impl Model for KeyLane {
    ghost use Rattle.std.specs.Prelude.{length};
    ghost use Rattle.ccr_port.specs.Lanes.{KeyLaneState, lane_keys, IsLinkedLane};

    ghost Value = { KeyLaneState };

    ghost view = { λ lane. record {
      pred = lane.pred;
      keys = lane_keys lane.links.items lane.first lane.count;
      room = length lane.links.items;
    } };

    ghost invariant = { λ lane. IsLinkedLane lane.links.items lane.first lane.last lane.count };
}

impl KeyLane {
    /// No key.
    pub fn new(alloc: Global, pred: Pred) -> KeyLane
        ensures { result ≡ record { pred = pred; keys = []; room = 0 } }
    {
        KeyLane {
            pred,
            first: None,
            last: None,
            count: 0,
            links: Vec::new(alloc),
        }
    }

    /// Whether the lane is of this predicate.
    pub fn is_of(&self, pred: Pred) -> bool
        ensures { Decides result (self.now.pred ≡ pred) }
    {
        self.pred == pred
    }

    /// How many keys.
    pub fn len(&self) -> u32
        ensures { result ≡ length self.now.keys }
    {
        self.count
    }

    /// The key of the oldest message.
    pub fn first(&self) -> Option<usize>
        ensures { result ≡ slice_get self.now.keys 0 }
    {
        self.first
    }

    /// The key behind this one.
    pub fn behind(&self, key: usize) -> Option<usize>
        requires { IsTrue (has_key key self.now.keys) }
        ensures { (index : ℕ) → slice_get self.now.keys index ≡ Some key → result ≡ slice_get self.now.keys (index + 1) }
    {
        self.links[key].behind
    }

    /// Room for the key, and for those below it.
    pub fn make_room(&mut self, key: usize) -> Result<(), OutOfMemory>
        ensures pred { self.new.pred ≡ self.old.pred }
        ensures keys { self.new.keys ≡ self.old.keys }
        ensures room { OnOk result (key < self.new.room) }
        ensures grown { self.old.room ≤ self.new.room }
    {
        extend(&mut self.links, key)
    }

    /// Puts the key last.
    pub fn append(&mut self, key: usize)
        requires { IsTrue (can_enter key self.old) }
        ensures { self.new ≡ appended key self.old }
    {
        let before = self.last;
        self.links[key] = Link {
            before,
            behind: None,
        };
        set_behind(&mut self.links, &mut self.first, before, Some(key));
        self.last = Some(key);
        self.count += 1;
    }

    /// Takes the key out; its neighbours are linked to each other.
    pub fn unlink(&mut self, key: usize)
        requires { IsTrue (has_key key self.old.keys) }
        ensures { self.new ≡ unlinked key self.old }
    {
        let Link { before, behind } = self.links[key];
        set_behind(&mut self.links, &mut self.first, before, behind);
        set_before(&mut self.links, &mut self.last, behind, before);
        self.count -= 1;
    }

    /// Puts the key last, where the value satisfies the predicate.
    pub fn enter(&mut self, key: usize, value: Value)
        requires { IsTrue (can_enter key self.old) }
        ensures { self.new ≡ entered key value self.old }
    {
        if self.pred.holds(&value) {
            self.append(key);
        }
    }

    /// Takes the key out, where the value satisfies the predicate.
    pub fn leave(&mut self, key: usize, value: Value)
        requires { IsTrue (can_leave key value self.old) }
        ensures { self.new ≡ left key value self.old }
    {
        if self.pred.holds(&value) {
            self.unlink(key);
        }
    }
}

/// Links for the keys up to this one.
fn extend(links: &mut Vec<Link>, key: usize) -> Result<(), OutOfMemory>
    ensures behind { (first other : Option ℕ) → behind_of (slice_get links.new.items) first other ≡ behind_of (slice_get links.old.items) first other }
    ensures before { (last other : Option ℕ) → before_of (slice_get links.new.items) last other ≡ before_of (slice_get links.old.items) last other }
    ensures room { OnOk result (key < length links.new.items) }
    ensures grown { length links.old.items ≤ length links.new.items }
{
    while links.len() <= key {
        links.push(Link {
            before: None,
            behind: None,
        })?;
    }
    Ok(())
}

/// The key stands behind the point, from now on.
fn set_behind(
    links: &mut Vec<Link>,
    first: &mut Option<usize>,
    point: Option<usize>,
    key: Option<usize>,
)
    requires { IsTrue (is_below (length links.old.items) point) }
    ensures behind { (other : Option ℕ) → behind_of (slice_get links.new.items) first.new other ≡ mended (behind_of (slice_get links.old.items) first.old) point key other }
    ensures before { (last other : Option ℕ) → before_of (slice_get links.new.items) last other ≡ before_of (slice_get links.old.items) last other }
    ensures room { length links.new.items ≡ length links.old.items }
{
    let Some(at) = point else {
        *first = key;
        return;
    };
    let link = &mut links[at];
    link.behind = key;
}

/// The key stands before the point, from now on.
fn set_before(
    links: &mut Vec<Link>,
    last: &mut Option<usize>,
    point: Option<usize>,
    key: Option<usize>,
)
    requires { IsTrue (is_below (length links.old.items) point) }
    ensures before { (other : Option ℕ) → before_of (slice_get links.new.items) last.new other ≡ mended (before_of (slice_get links.old.items) last.old) point key other }
    ensures behind { (first other : Option ℕ) → behind_of (slice_get links.new.items) first other ≡ behind_of (slice_get links.old.items) first other }
    ensures room { length links.new.items ≡ length links.old.items }
{
    let Some(at) = point else {
        *last = key;
        return;
    };
    let link = &mut links[at];
    link.before = key;
}

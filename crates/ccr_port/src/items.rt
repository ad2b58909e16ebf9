//! The messages of a port in a slab, each with the keys of its neighbours.

ghost use Rattle.std.specs.Prelude.{◌≡◌, ◌<◌, ◌+◌, ◌^◌, ◌++◌, ◌∷◌, ℕ, Option, [], Some, false, IsTrue, IfOk, IfErr, OnErr, length};
ghost use Rattle.std.specs.List.{slice_get};
ghost use Rattle.ccr_base.specs.Lists.{are_apart};
ghost use Rattle.ccr_port.specs.Chains.{has_key, behind_of, before_of, mended};
ghost use Rattle.ccr_port.specs.Entries.{keys_of, message_under, without_entry, link_at, message_at, is_kept};

use crate::links::Link;
use ccr_base::{Msg, OutOfMemory};
use slab::Slab;
use std::alloc::{AllocFailed, Global};
use std::marker::Model;

/// A message with the keys of the messages before and behind it.
#[derive(Drop)]
pub(crate) struct LinkedMessage {
    pub message: Msg,
    pub link: Link,
}

/// Messages, oldest first. Each has a key, which another message gets only once this one is taken.
#[derive(Drop)]
pub(crate) struct Items {
    entries: Slab<LinkedMessage>,
    first: Option<usize>,
    last: Option<usize>,
    count: u32,
}

impl Model for Items {
    ghost use Rattle.std.specs.Prelude.{List, ℕ};
    ghost use Rattle.ccr_base.specs.declared.messages.Msg.{Msg};
    ghost use Rattle.ccr_port.specs.Entries.{entries_at, linked_keys, AreLinked};

    ghost Value = { List (ℕ × Msg) };

    ghost view = { λ items. entries_at items.entries (linked_keys items.entries items.first items.count) };

    ghost invariant = { λ items. AreLinked items.entries items.first items.last items.count };
}

impl Items {
    /// No message.
    pub fn new(alloc: Global) -> Items
        ensures { result ≡ [] }
    {
        Items {
            entries: Slab::new(alloc),
            first: None,
            last: None,
            count: 0,
        }
    }

    /// How many messages.
    pub fn len(&self) -> u32
        ensures len { result ≡ length self.now }
        ensures apart { IsTrue (are_apart (keys_of self.now)) }
    {
        self.count
    }

    /// The key of the oldest message.
    pub fn first(&self) -> Option<usize>
        ensures { result ≡ slice_get (keys_of self.now) 0 }
    {
        self.first
    }

    /// The key behind this one.
    pub fn behind(&self, key: usize) -> Option<usize>
        requires { IsTrue (has_key key (keys_of self.now)) }
        ensures { (index : ℕ) → slice_get (keys_of self.now) index ≡ Some key → result ≡ slice_get (keys_of self.now) (index + 1) }
    {
        self.entries[key].link.behind
    }

    /// The message under the key.
    pub fn message(&self, key: usize) -> &Msg
        requires { IsTrue (has_key key (keys_of self.now)) }
        ensures { message_under key self.now ≡ Some result.now }
    {
        let entry = &self.entries[key];
        &entry.message
    }

    /// Puts the message last, and answers its key; or hands it back.
    pub fn append(&mut self, message: Msg) -> Result<usize, (OutOfMemory, Msg)>
        requires { length self.old + 1 < 2 ^ 32 }
        ensures ok { IfOk result (λ key. self.new ≡ self.old ++ (key, message) ∷ []) }
        ensures fresh { IfOk result (λ key. has_key key (keys_of self.old) ≡ false) }
        ensures err { OnErr result (self.new ≡ self.old) }
        ensures returned { IfErr result (λ refused. refused.1 ≡ message) }
    {
        let before = self.last;
        let entry = LinkedMessage {
            message,
            link: Link {
                before,
                behind: None,
            },
        };
        match self.entries.insert(entry) {
            Ok(key) => {
                set_behind(&mut self.entries, &mut self.first, before, Some(key));
                self.last = Some(key);
                self.count += 1;
                Ok(key)
            }
            Err(AllocFailed { value }) => {
                let LinkedMessage { message, link: _ } = value;
                Err((OutOfMemory, message))
            }
        }
    }

    /// Takes the message out; its neighbours are linked to each other. It takes no memory.
    pub fn take(&mut self, key: usize) -> Msg
        requires { IsTrue (has_key key (keys_of self.old)) }
        ensures message { message_under key self.old ≡ Some result }
        ensures rest { self.new ≡ without_entry key self.old }
    {
        let Link { before, behind } = self.entries[key].link;
        set_behind(&mut self.entries, &mut self.first, before, behind);
        set_before(&mut self.entries, &mut self.last, behind, before);
        self.count -= 1;
        let LinkedMessage { message, link: _ } = self.entries.remove(key);
        message
    }
}

/// The key stands behind the point, from now on.
fn set_behind(
    entries: &mut Slab<LinkedMessage>,
    first: &mut Option<usize>,
    point: Option<usize>,
    key: Option<usize>,
)
    requires { IsTrue (is_kept entries.old point) }
    ensures behind { (other : Option ℕ) → behind_of (link_at entries.new) first.new other ≡ mended (behind_of (link_at entries.old) first.old) point key other }
    ensures before { (last other : Option ℕ) → before_of (link_at entries.new) last other ≡ before_of (link_at entries.old) last other }
    ensures messages { (other : ℕ) → message_at entries.new other ≡ message_at entries.old other }
{
    let Some(at) = point else {
        *first = key;
        return;
    };
    let entry = &mut entries[at];
    entry.link.behind = key;
}

/// The key stands before the point, from now on.
fn set_before(
    entries: &mut Slab<LinkedMessage>,
    last: &mut Option<usize>,
    point: Option<usize>,
    key: Option<usize>,
)
    requires { IsTrue (is_kept entries.old point) }
    ensures before { (other : Option ℕ) → before_of (link_at entries.new) last.new other ≡ mended (before_of (link_at entries.old) last.old) point key other }
    ensures behind { (first other : Option ℕ) → behind_of (link_at entries.new) first other ≡ behind_of (link_at entries.old) first other }
    ensures messages { (other : ℕ) → message_at entries.new other ≡ message_at entries.old other }
{
    let Some(at) = point else {
        *last = key;
        return;
    };
    let entry = &mut entries[at];
    entry.link.before = key;
}

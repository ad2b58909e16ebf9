//! The object of a port.

ghost use Rattle.std.specs.Prelude.{◌≡◌, true, IsTrue, IfOk, IfErr, OnOk, OnErr, length, slice_get, option_copied};
ghost use Rattle.ccr_places.specs.Ports.{start, claimant, may_post as can_post, may_claim as can_claim, may_consume as can_consume, may_free as can_free, claim_note, after_post, after_claim, after_consume, after_free, after, IsGiven};
ghost use Rattle.ccr_places.specs.declared.notes.Note.TheVariants.{Post, Claim, Consume, Free};
ghost use Rattle.ccr_port.specs.Replies.{claim_reply, fits_slot, reply_note};

use crate::claims::{Claimed, MarkedClaim, copies_of, first_keys, item_at, take_marked};
use crate::items::Items;
use crate::lane::KeyLane;
use crate::lanes::{enter_all, lane_for, make_room};
use ccr_base::{Msg, OutOfMemory, PortNo, Slot, TaskId};
use ccr_places::StandingClaim;
use std::alloc::Global;
use std::marker::Model;

/// The messages of a port, oldest first, a lane for each predicate that a claim has named, and the claim that stands.
#[derive(Drop)]
pub struct PortObject {
    alloc: Global,
    number: PortNo,
    items: Items,
    lanes: Vec<KeyLane>,
    claim: Option<MarkedClaim>,
}

impl Model for PortObject {
    ghost use Rattle.ccr_places.specs.Ports.{PortState};
    ghost use Rattle.ccr_port.specs.Entries.{messages_of};
    ghost use Rattle.ccr_port.specs.Marks.{IsPort, standing_claim};

    ghost Value = { PortState };

    ghost view = { λ port. record {
      number = port.number;
      items = messages_of port.items;
      claim = standing_claim port.claim;
    } };

    ghost invariant = { λ port. IsPort port.number port.items port.lanes.items port.claim };
}

impl PortObject {
    /// An empty and free port.
    pub fn new(alloc: Global, number: PortNo) -> Self
        ensures { result ≡ start number }
    {
        PortObject {
            alloc,
            number,
            items: Items::new(alloc),
            lanes: Vec::new(alloc),
            claim: None,
        }
    }

    /// Whether the message is of this port, and the port holds fewer than 2^32 - 1.
    pub fn may_post(&self, message: &Msg) -> bool
        ensures { result ≡ can_post self.now message.now }
    {
        message.port == self.number && self.items.len() < u32::MAX
    }

    /// Puts the message last, and its key into the lanes whose predicate it satisfies; or hands it back. All memory is
    /// taken first.
    pub fn post(&mut self, message: Msg) -> Result<(), (OutOfMemory, Msg)>
        requires { IsTrue (can_post self.old message) }
        ensures state { OnOk result (self.new ≡ after_post self.old message) }
        ensures given { OnOk result (IsGiven self.old (Post message)) }
        ensures step { OnOk result (self.new ≡ after self.old (Post message)) }
        ensures err { OnErr result (self.new ≡ self.old) }
        ensures returned { IfErr result (λ refused. refused.1 ≡ message) }
    {
        let value = message.value;
        let key = self.items.append(message)?;
        if make_room(&mut self.lanes, key).is_err() {
            return Err((OutOfMemory, self.items.take(key)));
        }
        enter_all(&mut self.lanes, key, value);
        Ok(())
    }

    /// Whether the slot is of this port and in order, and the task has no claim here.
    pub fn may_claim(&self, task: TaskId, slot: &Slot) -> bool
        ensures { result ≡ can_claim self.now task slot.now }
    {
        slot.port == self.number && slot.least <= slot.most && !self.is_claimed_by(task)
    }

    /// Marks the selection of the slot for the task, where no claim stands and there is a selection. The first claim of a
    /// predicate makes its lane. All memory is taken first. What it answers fits the slot: messages of its port, as many as
    /// it takes, or fewer than it takes.
    pub fn claim(&mut self, task: TaskId, slot: &Slot) -> Result<Claimed, OutOfMemory>
        requires { IsTrue (can_claim self.old task slot.now) }
        ensures reply { IfOk result (λ reply. reply ≡ claim_reply self.old slot.now) }
        ensures fits { IfOk result (λ reply. fits_slot slot.now reply ≡ true) }
        ensures note { IfOk result (λ reply. reply_note reply ≡ claim_note self.old slot.now) }
        ensures state { IfOk result (λ reply. self.new ≡ after_claim self.old task slot.now (claim_note self.old slot.now)) }
        ensures given { IfOk result (λ reply. IsGiven self.old (Claim task slot.now (reply_note reply))) }
        ensures step { IfOk result (λ reply. self.new ≡ after self.old (Claim task slot.now (reply_note reply))) }
        ensures err { OnErr result (self.new ≡ self.old) }
    {
        if let Some(mark) = &self.claim {
            return Ok(Claimed::Busy(mark.standing.task));
        }
        let number = lane_for(self.alloc, &self.items, &mut self.lanes, slot.pred)?;
        let lane = &self.lanes[number];
        let fitting = lane.len();
        if fitting < slot.least {
            return Ok(Claimed::Short(fitting));
        }
        let count = fitting.min(slot.most);
        let keys = first_keys(self.alloc, lane, count)?;
        let copies = copies_of(self.alloc, &self.items, keys.as_slice())?;
        self.claim = Some(MarkedClaim {
            standing: StandingClaim {
                task,
                pred: slot.pred,
                count,
            },
            keys,
        });
        Ok(Claimed::Got(copies))
    }

    /// Whether the claim that stands is the task's.
    pub fn may_consume(&self, task: TaskId) -> bool
        ensures { result ≡ can_consume self.now task }
    {
        self.is_claimed_by(task)
    }

    /// Takes the marked messages out and ends the claim. It takes no memory.
    pub fn consume(&mut self, task: TaskId)
        requires { IsTrue (can_consume self.old task) }
        ensures state { self.new ≡ after_consume self.old }
        ensures given { IsGiven self.old (Consume task) }
        ensures step { self.new ≡ after self.old (Consume task) }
    {
        prove!(self.is_claimed_by(task));
        if let Some(mark) = self.claim.take() {
            take_marked(&mut self.items, &mut self.lanes, mark.keys.as_slice());
        }
    }

    /// Whether the claim that stands is the task's.
    pub fn may_free(&self, task: TaskId) -> bool
        ensures { result ≡ can_free self.now task }
    {
        self.is_claimed_by(task)
    }

    /// Ends the claim; the messages stay as they are. It takes no memory.
    pub fn free(&mut self, task: TaskId)
        requires { IsTrue (can_free self.old task) }
        ensures state { self.new ≡ after_free self.old }
        ensures given { IsGiven self.old (Free task) }
        ensures step { self.new ≡ after self.old (Free task) }
    {
        prove!(self.is_claimed_by(task));
        self.claim = None;
    }

    /// The message at the index, from 0 for the oldest; none past the last.
    pub fn item(&self, index: u32) -> Option<&Msg>
        ensures { option_copied result ≡ slice_get self.now.items index }
    {
        item_at(&self.items, index)
    }

    /// How many messages the port holds.
    pub fn len(&self) -> u32
        ensures { result ≡ length self.now.items }
    {
        self.items.len()
    }

    /// The task whose claim stands.
    pub fn claimed_by(&self) -> Option<TaskId>
        ensures { result ≡ claimant self.now }
    {
        self.claim.as_ref().map(|mark| mark.standing.task)
    }

    fn is_claimed_by(&self, task: TaskId) -> bool
        ensures { result ≡ can_consume self.now task }
    {
        match &self.claim {
            Some(mark) => task == mark.standing.task,
            None => false,
        }
    }
}

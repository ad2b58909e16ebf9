//! Where an actor is in its course: what it has in hand, its admissions, its drive, and its work.

ghost use Rattle.std.specs.Prelude.{◌≡◌, ◌<◌, ◌==◌, ◌&&◌, drop, not, IsTrue, OnOk, OnErr, None, Some, length};
ghost use Rattle.ccr_actor.specs.Actors.{add_domain, after_admit, most_admitted};
ghost use Rattle.ccr_actor.specs.Courses.{state_of, hand_of, IsBeside, IsIdle};
ghost use Rattle.ccr_actor.specs.Needs.{adds_domain};

use crate::driven::Driven;
use crate::work::Work;
use ccr_base::{ActorNo, ArbiterNo, CauseNo, List, OutOfMemory, Task};
use ccr_claim::{Attempt, Reply};
use ccr_wiring::Wiring;
use std::alloc::Global;
use std::collections::VecDeque;

/// How many attempts an actor makes.
pub const ATTEMPTS: u64 = 4_294_967_296;

/// How many firings one drive has, how many admissions one run of them, and how many tasks one worker.
pub const MOST: u32 = 32_768;

/// How many empty rounds a worker makes.
pub const EMPTY_ROUNDS: u32 = 10_000;

/// The course of an actor.
#[derive(Drop)]
pub struct Course<'w> {
    pub alloc: Global,
    pub wiring: &'w Wiring,
    pub number: ActorNo,
    /// The attempt that runs, or the one whose asks are in hand, or an earlier one.
    pub attempt: Option<Attempt>,
    /// An admitted task that is to be put.
    pub put: Option<Task>,
    /// A dropped task that is to be noted over first.
    pub dropped: Option<Task>,
    /// The Interleaves of the run of admissions.
    pub domains: VecDeque<ArbiterNo>,
    pub admitted: u32,
    /// The spots that are driven.
    pub spots: Driven<'w>,
    pub fired: u32,
    pub work: Work<'w>,
    /// How many attempts have ended.
    pub count: u64,
    pub taken: u32,
    /// How many rounds were empty.
    pub empty: u32,
    pub short: bool,
    /// The causes of the post of the script's next line.
    pub line: Option<List<CauseNo>>,
}

/// Which part of an actor an ask comes from: the note of a dropped task, the attempt's hand, an admitted task, the
/// admissions, the attempt that runs, the work.
#[derive(Clone, Copy, PartialEq, Eq)]
pub enum Part {
    Over,
    Hand,
    Put,
    Admit,
    Drive,
    Work,
}

impl Course<'_> {
    /// Whether the attempt has asks in hand.
    pub fn has_hand(&self) -> bool
        ensures { result ≡ not (length (hand_of self.now.attempt) == 0) }
    {
        match &self.attempt {
            Some(attempt) => !attempt.is_settled(),
            None => false,
        }
    }

    /// Adds the domain, where it is one of Interleaves and isn't in the run of admissions.
    pub fn add_domain(&mut self, domain: ArbiterNo) -> Result<(), OutOfMemory>
        ensures ok { OnOk result (state_of self.new ≡ record (state_of self.old) { domains = add_domain self.old.wiring.now domain self.old.domains.items }) }
        ensures err { OnErr result (state_of self.new ≡ state_of self.old) }
        ensures needs { OnErr result (IsTrue (adds_domain self.old.wiring.now domain self.old.domains.items)) }
        ensures attempt { self.new.attempt ≡ self.old.attempt }
        ensures work { self.new.work ≡ self.old.work }
        ensures beside { IsBeside self.old self.new }
    {
        if self.wiring.is_interleave_number(domain) && !self.domains.contains(&domain) {
            self.domains.push_back(domain)?;
        }
        Ok(())
    }

    /// Puts what the first Interleave admitted, or strikes it off.
    pub fn admitted(&mut self, reply: Reply)
        requires idle { IsIdle self.old }
        requires few { self.old.admitted < most_admitted }
        requires first { 0 < length self.old.domains.items }
        ensures state { state_of self.new ≡ after_admit (state_of self.old) (drop 1 self.old.domains.items) reply }
        ensures attempt { self.new.attempt ≡ self.old.attempt }
        ensures work { self.new.work ≡ self.old.work }
        ensures beside { IsBeside self.old self.new }
    {
        if let Reply::Admitted(Some(task)) = reply {
            self.put = Some(task);
            self.admitted += 1;
            if self.admitted >= MOST {
                self.domains.clear();
            }
        } else {
            self.domains.pop_front();
        }
    }
}

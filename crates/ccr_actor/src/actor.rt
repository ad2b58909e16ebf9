//! An actor: a poster or a worker.

ghost use Rattle.std.specs.Prelude.{◌≡◌, ◌<◌, ◌≤◌, ◌==◌, true, false, not, IfOk, IsOk, IsTrue, OnErr, length};
ghost use Rattle.std.specs.Option.{option_map};
ghost use Rattle.ccr_wiring.specs.Valid.{IsValid};
ghost use Rattle.ccr_claim.specs.Asks.{may_come};
ghost use Rattle.ccr_actor.specs.Acting.{due_in, is_at_rest, next, pair_of, quiet, sent, started, IsAfter};
ghost use Rattle.ccr_actor.specs.Courses.{seen, IsCounted, IsSound};
ghost use Rattle.ccr_actor.specs.Inside.{work_of};
ghost use Rattle.ccr_actor.specs.Within.{IsWithin};
ghost use Rattle.ccr_actor.specs.Needs.{needs_memory, next_needs, takes_unnumbered};
ghost use Rattle.ccr_actor.specs.Actors.{start, work_of as work_at};

use crate::course::{Course, Part};
use crate::driven::Driven;
use crate::work::Work;
use ccr_base::{ActorNo, OutOfMemory, Place};
use ccr_claim::{Ask, Due, Lines, Reply, due_of};
use ccr_wiring::Wiring;
use std::alloc::Global;
use std::collections::VecDeque;
use std::marker::Model;

/// A poster or a worker. Contracts see what of its state counts, and which ask is unanswered.
#[derive(Drop)]
pub struct Actor<'w> {
    course: Course<'w>,
    /// The part whose ask is unanswered, and which replies that ask may have.
    unanswered: Option<(Part, Due)>,
}

impl<'w> Model for Actor<'w> {
    ghost use Rattle.ccr_actor.specs.Acting.{Acting};
    ghost use Rattle.ccr_actor.specs.Courses.{seen, IsSound};

    ghost Value = { Acting };

    ghost view = { λ a. seen a.course a.unanswered };

    ghost invariant = { λ a. IsSound a.course a.unanswered };
}

impl<'w> Actor<'w> {
    /// The poster of this number, before its first step. Takes the memory for its first ask.
    pub fn poster(
        alloc: Global,
        wiring: &'w Wiring,
        number: ActorNo,
    ) -> Result<Actor<'w>, OutOfMemory>
        requires { number < length wiring.now.posters }
        ensures started { IfOk result (λ actor. actor ≡ started wiring.now number) }
        ensures needs { OnErr result (IsTrue (next_needs (start wiring.now number))) }
    {
        begin(alloc, wiring, number)
    }

    /// The worker of this number, before its first step. Its first ask takes no memory.
    pub fn worker(
        alloc: Global,
        wiring: &'w Wiring,
        number: ActorNo,
    ) -> Result<Actor<'w>, OutOfMemory>
        requires { length wiring.now.posters ≤ number }
        ensures started { IfOk result (λ actor. actor ≡ started wiring.now number) }
        ensures ok { IsOk result }
    {
        begin(alloc, wiring, number)
    }

    /// The poster of this number, or the worker where there is no such poster, before its first step.
    pub fn start(
        alloc: Global,
        wiring: &'w Wiring,
        number: ActorNo,
    ) -> Result<Actor<'w>, OutOfMemory>
        ensures started { IfOk result (λ actor. actor ≡ started wiring.now number) }
    {
        begin(alloc, wiring, number)
    }

    /// Moves out the next ask and its place; none where the actor is at rest. Takes no memory.
    #[inline(always)]
    pub fn next(&mut self) -> Option<(Place, Ask)>
        requires { self.old.asking ≡ quiet }
        ensures asked { result ≡ option_map pair_of (next self.old) }
        ensures sent { self.new ≡ sent self.old }
        ensures valid { IsValid self.old.wiring }
        ensures within { self.old.state.is_short ≡ false → IsWithin self.old.state }
    {
        let Some((part, asked)) = self.course.ask() else {
            return None;
        };
        self.unanswered = Some((part, due_of(&asked.ask)));
        Some((asked.place, asked.ask))
    }

    /// Takes in the answer to the ask that was made last, and makes the next one ready. Where there is no memory for that,
    /// the actor is short.
    #[inline(always)]
    pub fn got(&mut self, reply: Result<Reply, OutOfMemory>)
        requires { IsTrue (may_come (due_in self.old.asking) reply) }
        ensures after { IsAfter self.old reply self.new }
        ensures needs { IfOk reply (λ r. self.old.state.is_short ≡ false → self.new.state.is_short ≡ true → IsTrue (needs_memory self.old r)) }
        ensures unnumbered { IfOk reply (λ r. IsTrue (takes_unnumbered self.old r) → self.new.state.is_short ≡ true) }
        ensures quiet { self.new.asking ≡ quiet }
        ensures within { self.new.state.is_short ≡ false → IsWithin self.new.state }
    {
        let Some((part, _)) = self.unanswered else {
            unreachable!();
        };
        self.unanswered = None;
        let made = self.course.answer(part, reply);
        self.course.finish(made);
    }

    /// Which replies the unanswered ask may have; none where there is none.
    pub fn due(&self) -> Due
        ensures { result ≡ due_in self.now.asking }
    {
        match self.unanswered {
            Some((_, due)) => due,
            None => Due::Nothing,
        }
    }

    /// Whether no ask is unanswered and none is left to be made.
    pub fn at_rest(&self) -> bool
        ensures { result ≡ is_at_rest self.now }
    {
        self.unanswered.is_none() && self.course.is_done()
    }

    /// Whether it has in hand what it must settle, which comes first.
    pub fn owes(&self) -> bool
        ensures { result ≡ not (length self.now.state.hand == 0) }
    {
        self.course.has_anything()
    }

    /// Whether it found no memory, and so only settles what it has in hand.
    pub fn short(&self) -> bool
        ensures { result ≡ self.now.state.is_short }
    {
        self.course.short
    }

    /// The number by which the wiring knows it.
    pub fn number(&self) -> ActorNo
        ensures { result ≡ self.now.actor }
    {
        self.course.number
    }
}

/// What the actor of this number does first: a poster's script, or a round.
fn first_work(wiring: &Wiring, number: ActorNo) -> Work<'_>
    ensures work { work_of result ≡ work_at wiring.now number }
    ensures counted { IsCounted result 0 0 }
    ensures valid { IsValid wiring.now }
{
    match wiring.parts().posters.as_slice().get(number as usize) {
        Some(poster) => Work::Lines(Lines::of(poster.posts.as_slice())),
        None => Work::Round,
    }
}

/// The actor of this number, before its first step.
fn begin(alloc: Global, wiring: &Wiring, number: ActorNo) -> Result<Actor<'_>, OutOfMemory>
    ensures started { IfOk result (λ actor. actor ≡ started wiring.now number) }
    ensures needs { OnErr result (IsTrue (next_needs (start wiring.now number))) }
{
    let mut course = Course {
        alloc,
        wiring,
        number,
        attempt: None,
        put: None,
        dropped: None,
        domains: VecDeque::new(alloc),
        admitted: 0,
        spots: Driven::none(),
        fired: 0,
        work: first_work(wiring, number),
        count: 0,
        taken: 0,
        empty: 0,
        short: false,
        line: None,
    };
    course.prepare()?;
    Ok(Actor {
        course,
        unanswered: None,
    })
}

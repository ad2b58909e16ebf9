//! Checked wirings.

ghost use Rattle.std.specs.Prelude.{◌≡◌, ◌<◌, [], OnOk, IfOk, IfErr, length};
ghost use Rattle.std.specs.Option.{option_map, option_map_or};
ghost use Rattle.ccr_wiring.specs.Actors.{is_behind_posters};
ghost use Rattle.ccr_wiring.specs.Answers.{IsCause};
ghost use Rattle.ccr_wiring.specs.Openness.{open_poster, open_handler};
ghost use Rattle.ccr_wiring.specs.Placements.{placement_seen};
ghost use Rattle.ccr_wiring.specs.Wirings.{actions_at, actions_of, is_interleave_number, kind_of, placement, policy_of, site_port, spots as spots_of};
ghost use Rattle.ccr_wiring.specs.Takers.{branches_of, spots_at};
ghost use Rattle.ccr_wiring.specs.Valid.{IsValid};
ghost use Rattle.ccr_wiring.specs.Domains.{domain_of};

use crate::codes::code_of;
use crate::domains::domain_of;
use crate::openness::open_ports_in;
use crate::placements::{Position, all_positions, placement_of};
use crate::references::no_interleave;
use crate::spots::{actions_of, all_spots};
use crate::takers::{Takers, all_takers, list_of, site_port};
use crate::{Kind, Parts, PlacementOf, Unfit};
use ccr_base::{
    Action, ActorNo, ArbiterNo, BranchNo, Handler, HandlerNo, OutOfMemory, Policy, PortNo, QueueNo,
    Spot,
};
use std::alloc::Global;
use std::marker::Model;

/// A wiring in which no code of refusal stands. Contracts see its parts.
#[derive(Drop)]
pub struct Wiring {
    /// Boxed, so that whoever owns a wiring drops one value and not each of its lists.
    known: Box<LookUps>,
}

/// The parts, and what is looked up in them.
#[derive(Drop)]
struct LookUps {
    parts: Parts,
    spots: Vec<Spot>,
    /// Where the branch of each number stands.
    positions: Vec<Position>,
    takers: Takers,
}

impl Model for Wiring {
    ghost use Rattle.ccr_wiring.specs.declared.parts.Parts.{Parts};
    ghost use Rattle.ccr_wiring.specs.LookUps.{AreKnown};

    ghost Value = { Parts };

    ghost view = { λ wiring. wiring.known.value.parts };

    ghost invariant = { λ w. AreKnown w.known.value.parts w.known.value.spots.items w.known.value.positions.items w.known.value.takers.ports.items w.known.value.takers.queues.items };
}

impl Wiring {
    /// The wiring with these parts, where no code of refusal stands in them; else the least code that does.
    /// The codes are those of the wiring text: 2, 3, 5, 6, 7, 8, 10, 11, 12 and 14 can stand in parts.
    pub fn check(alloc: Global, parts: Parts) -> Result<Self, Unfit>
        ensures parts { IfOk result (λ wiring. wiring ≡ parts) }
        ensures valid { OnOk result (IsValid parts) }
        ensures cause { IfErr result (λ unfit. IsCause parts unfit) }
    {
        match code_of(alloc, &parts)? {
            Some(code) => Err(Unfit::Code(code)),
            None => Ok(Wiring::of_valid(alloc, parts)?),
        }
    }

    /// The wiring with these parts, in which no code of refusal stands.
    fn of_valid(alloc: Global, parts: Parts) -> Result<Self, OutOfMemory>
        requires { IsValid parts }
        ensures { IfOk result (λ wiring. wiring ≡ parts) }
    {
        let spots = all_spots(alloc, &parts)?;
        let positions = all_positions(alloc, &parts)?;
        let takers = all_takers(alloc, &parts, &positions, &spots)?;
        let known = Box::new(
            alloc,
            LookUps {
                parts,
                spots,
                positions,
                takers,
            },
        )?;
        Ok(Wiring { known })
    }

    /// What the wiring says.
    pub fn parts(&self) -> &Parts
        ensures parts { result.now ≡ self.now }
        ensures valid { IsValid self.now }
    {
        &self.known.parts
    }

    /// Whether the actor is no poster: posters come before all others.
    pub fn is_behind_posters(&self, actor: ActorNo) -> bool
        ensures { result ≡ is_behind_posters self.now actor }
    {
        self.parts().posters.as_slice().len() <= actor as usize
    }

    /// The arbiter's kind; a number that names no arbiter counts as an Interleave.
    pub fn kind_of(&self, arbiter: ArbiterNo) -> Kind
        ensures { result ≡ kind_of self.now arbiter }
    {
        match self.parts().arbiters.as_slice().get(arbiter as usize) {
            Some(part) => part.kind,
            None => Kind::Interleave,
        }
    }

    /// Whether the domain of this number is of Interleaves.
    pub fn is_interleave_number(&self, arbiter: ArbiterNo) -> bool
        ensures { result ≡ is_interleave_number self.now arbiter }
    {
        !no_interleave(self.parts(), arbiter)
    }

    /// The number of the arbiter's domain: the least of the Interleaves that are combined with it; its own where none is.
    pub fn domain(&self, arbiter: ArbiterNo) -> ArbiterNo
        requires arbiter { arbiter < length self.now.arbiters }
        ensures domain { result ≡ domain_of self.now.domains arbiter }
    {
        domain_of(self.known.parts.domains.as_slice(), arbiter)
    }

    /// The spots in order: each branch of the wiring, followed by its sites.
    pub fn spots(&self) -> &[Spot]
        ensures spots { result.now ≡ spots_of self.now }
        ensures valid { IsValid self.now }
    {
        &self.known.spots
    }

    /// The branch of this number, found in a time that doesn't grow with the wiring.
    pub fn placement(&self, branch: BranchNo) -> Option<PlacementOf<'_>>
        ensures placement { option_map placement_seen result ≡ placement self.now branch }
    {
        placement_of(&self.known.parts, &self.known.positions, branch)
    }

    /// The queue's policy; a number that names no queue counts as an unbounded one.
    pub fn policy_of(&self, queue: QueueNo) -> Policy
        ensures { result ≡ policy_of self.now queue }
    {
        match self.parts().queues.as_slice().get(queue as usize) {
            Some(part) => part.policy,
            None => Policy::Unbounded,
        }
    }

    /// The handler's actions; none where the number names no handler.
    pub fn actions_of(&self, handler: HandlerNo) -> &[Action]
        ensures { result.now ≡ actions_of self.now handler }
    {
        actions_of(self.parts(), handler)
    }

    /// The handler of the branch.
    pub fn handler_of(&self, branch: BranchNo) -> Option<&Handler>
        ensures { option_map_or (λ handler. handler.now.actions) result [] ≡ actions_at self.now branch }
    {
        let placement = self.placement(branch)?;
        let part = self
            .parts()
            .handlers
            .as_slice()
            .get(placement.branch.handler as usize)?;
        Some(&part.handler)
    }

    /// The ports to which somebody outside may post under the poster's name; none where it posts its script.
    pub fn open_poster(&self, poster: ActorNo) -> Option<&[PortNo]>
        ensures { option_map (λ ports. ports.now) result ≡ open_poster self.now poster }
    {
        open_ports_in(self.parts().open_posters.as_slice(), poster)
    }

    /// The ports to which a task of the handler may post from outside; none where it plays its actions.
    pub fn open_handler(&self, handler: HandlerNo) -> Option<&[PortNo]>
        ensures { option_map (λ ports. ports.now) result ≡ open_handler self.now handler }
    {
        open_ports_in(self.parts().open_handlers.as_slice(), handler)
    }

    /// The port that is awaited at this site of the branch.
    pub fn site_port(&self, branch: BranchNo, site: u32) -> Option<PortNo>
        ensures { result ≡ site_port self.now branch site }
    {
        site_port(&self.known.parts, &self.known.positions, branch, site)
    }

    /// The spots that take from the port, in order; none where the wiring has no such port. At most 16 do.
    pub fn spots_at(&self, port: PortNo) -> &[Spot]
        ensures spots { result.now ≡ spots_at self.now port }
    {
        list_of(&self.known.takers.ports, port)
    }

    /// The branches of the queue, in order; none where the wiring has no such queue.
    pub fn branches_of(&self, queue: QueueNo) -> &[Spot]
        ensures branches { result.now ≡ branches_of self.now queue }
    {
        list_of(&self.known.takers.queues, queue)
    }
}

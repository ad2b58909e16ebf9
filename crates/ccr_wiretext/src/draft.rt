//! What the lines so far declare.

ghost use Rattle.std.specs.Prelude.{◌≡◌, ◌<◌, None, OnOk, length, [], ◌∷◌, ◌++◌};
ghost use Rattle.ccr_base.specs.Bounds.{most_arbiters, most_causes, most_handlers, most_ports, most_queues, most_sets};
ghost use Rattle.ccr_text.specs.Names.{meaning_of};
ghost use Rattle.ccr_wiretext.specs.Drafts.{nothing, with_budget, with_queue, with_port, with_set, with_cause, with_receive, with_handler, with_arbiter, with_poster, with_domain, with_action, with_branch, with_post, end_handler, end_arbiter, end_poster};

use crate::named::Named;
use crate::spotted::Spotted;
use ccr_base::{Action, Handler, List, OutOfMemory, Sent, name_of};
use ccr_text::Names;
use ccr_wiring::{
    ArbiterPart, BranchPart, CausePart, DomainPart, HandlerPart, Kind, MAX_BUDGET, Parts,
    PosterPart, QueuePart, ScriptPost, SetPart,
};
use std::alloc::Global;
use std::marker::Model;

/// The block in which the next line stands, with what stands in it so far.
#[derive(Drop)]
pub enum Block {
    Outside,
    Handler(HandlerPart),
    Arbiter(ArbiterPart),
    Poster(PosterPart),
}

/// The parts so far, whether a line gave the budget, the declared names, the ports that the spots so far name, and the
/// open block.
#[derive(Drop)]
pub struct Draft {
    pub alloc: Global,
    pub parts: Parts,
    pub budgeted: bool,
    pub names: Names<Named>,
    pub spotted: Spotted,
    pub block: Block,
}

impl Model for Draft {
    ghost use Rattle.ccr_wiretext.specs.Drafts.{Declared};

    ghost Value = { Declared };

    ghost view = { λ draft. record { parts = draft.parts; budgeted = draft.budgeted; names = draft.names; spotted = draft.spotted; block = draft.block } };
}

fn push<T: Drop>(list: &mut List<T>, item: T) -> Result<(), OutOfMemory>
    ensures { OnOk result (list.new ≡ list.old ++ item ∷ []) }
{
    list.push(item).map_err(|(refused, _)| refused)
}

/// Adds a copy of the action.
fn push_action(list: &mut List<Action>, action: &Action) -> Result<(), OutOfMemory>
    ensures { OnOk result (list.new ≡ list.old ++ action.now ∷ []) }
{
    match *action {
        Action::Post(port, value) => push(list, Action::Post(port, value)),
        Action::Fail(value) => push(list, Action::Fail(value)),
        other => push(list, other),
    }
}

impl Draft {
    /// Nothing, in a text of this version.
    pub fn new(alloc: Global, version: u32) -> Self
        ensures { result ≡ nothing version }
    {
        Draft {
            alloc,
            parts: Parts {
                version,
                budget: MAX_BUDGET,
                queues: List::new(alloc),
                ports: List::new(alloc),
                sets: List::new(alloc),
                causes: List::new(alloc),
                handlers: List::new(alloc),
                arbiters: List::new(alloc),
                domains: List::new(alloc),
                posters: List::new(alloc),
                open_posters: List::new(alloc),
                open_handlers: List::new(alloc),
            },
            budgeted: false,
            names: Names::new(alloc),
            spotted: Spotted::new(alloc),
            block: Block::Outside,
        }
    }

    pub fn set_budget(&mut self, budget: u32)
        ensures { self.new ≡ with_budget self.old budget }
    {
        self.parts.budget = budget;
        self.budgeted = true;
    }

    pub fn add_queue(&mut self, part: QueuePart) -> Result<(), OutOfMemory>
        requires new { meaning_of self.old.names part.name ≡ None }
        requires room { length self.old.parts.queues < most_queues }
        ensures { OnOk result (self.new ≡ with_queue self.old part) }
    {
        let number = self.parts.queues.as_slice().len() as u32;
        self.names.add(part.name.as_slice(), Named::Queue(number))?;
        push(&mut self.parts.queues, part)
    }

    pub fn add_port(&mut self, name: &[u8]) -> Result<(), OutOfMemory>
        requires new { meaning_of self.old.names name.now ≡ None }
        requires room { length self.old.parts.ports < most_ports }
        ensures { OnOk result (self.new ≡ with_port self.old name.now) }
    {
        let number = self.parts.ports.as_slice().len() as u32;
        self.names.add(name, Named::Port(number))?;
        let name = name_of(self.alloc, name)?;
        push(&mut self.parts.ports, name)
    }

    pub fn add_set(&mut self, part: SetPart) -> Result<(), OutOfMemory>
        requires new { meaning_of self.old.names part.name ≡ None }
        requires room { length self.old.parts.sets < most_sets }
        ensures { OnOk result (self.new ≡ with_set self.old part) }
    {
        let number = self.parts.sets.as_slice().len() as u32;
        self.names.add(part.name.as_slice(), Named::Set(number))?;
        push(&mut self.parts.sets, part)
    }

    pub fn add_cause(&mut self, part: CausePart) -> Result<(), OutOfMemory>
        requires new { meaning_of self.old.names part.name ≡ None }
        requires room { length self.old.parts.causes < most_causes }
        ensures { OnOk result (self.new ≡ with_cause self.old part) }
    {
        let number = self.parts.causes.as_slice().len() as u32;
        self.names.add(part.name.as_slice(), Named::Cause(number))?;
        push(&mut self.parts.causes, part)
    }

    /// A receive, which is an arbiter and its one branch.
    pub fn add_receive(&mut self, branch: BranchPart) -> Result<(), OutOfMemory>
        requires { meaning_of self.old.names branch.name ≡ None }
        ensures { OnOk result (self.new ≡ with_receive self.old branch) }
    {
        let spotted = self.spotted_by(&branch)?;
        self.spotted.add_all(&spotted)?;
        self.names.add(branch.name.as_slice(), Named::Branch)?;
        let name = name_of(self.alloc, branch.name.as_slice())?;
        let mut branches = List::new(self.alloc);
        push(&mut branches, branch)?;
        let arbiter = ArbiterPart {
            name,
            kind: Kind::Receive,
            branches,
        };
        push(&mut self.parts.arbiters, arbiter)
    }

    pub fn begin_handler(&mut self, name: &[u8]) -> Result<(), OutOfMemory>
        requires new { meaning_of self.old.names name.now ≡ None }
        requires room { length self.old.parts.handlers < most_handlers }
        ensures { OnOk result (self.new ≡ with_handler self.old name.now) }
    {
        let number = self.parts.handlers.as_slice().len() as u32;
        self.names.add(name, Named::Handler(number))?;
        let name = name_of(self.alloc, name)?;
        let actions = List::new(self.alloc);
        self.block = Block::Handler(HandlerPart {
            name,
            handler: Handler { actions },
        });
        Ok(())
    }

    pub fn begin_arbiter(&mut self, kind: Kind, name: &[u8]) -> Result<(), OutOfMemory>
        requires new { meaning_of self.old.names name.now ≡ None }
        requires room { length self.old.parts.arbiters < most_arbiters }
        ensures { OnOk result (self.new ≡ with_arbiter self.old kind name.now) }
    {
        let number = self.parts.arbiters.as_slice().len() as u32;
        self.names.add(name, Named::Arbiter(number))?;
        let name = name_of(self.alloc, name)?;
        let branches = List::new(self.alloc);
        self.block = Block::Arbiter(ArbiterPart {
            name,
            kind,
            branches,
        });
        Ok(())
    }

    pub fn begin_poster(&mut self, name: &[u8]) -> Result<(), OutOfMemory>
        requires { meaning_of self.old.names name.now ≡ None }
        ensures { OnOk result (self.new ≡ with_poster self.old name.now) }
    {
        self.names.add(name, Named::Poster)?;
        let name = name_of(self.alloc, name)?;
        let posts = List::new(self.alloc);
        self.block = Block::Poster(PosterPart { name, posts });
        Ok(())
    }

    pub fn add_domain(&mut self, part: DomainPart) -> Result<(), OutOfMemory>
        ensures { OnOk result (self.new ≡ with_domain self.old part) }
    {
        push(&mut self.parts.domains, part)
    }

    /// An action more in the open handler.
    pub fn add_action(&mut self, mut part: HandlerPart, action: &Action) -> Result<(), OutOfMemory>
        ensures { OnOk result (self.new ≡ with_action self.old part action.now) }
    {
        push_action(&mut part.handler.actions, action)?;
        self.block = Block::Handler(part);
        Ok(())
    }

    /// A branch more in the open choice or Interleave.
    pub fn add_branch(
        &mut self,
        mut part: ArbiterPart,
        branch: BranchPart,
    ) -> Result<(), OutOfMemory>
        requires { meaning_of self.old.names branch.name ≡ None }
        ensures { OnOk result (self.new ≡ with_branch self.old part branch) }
    {
        let spotted = self.spotted_by(&branch)?;
        self.spotted.add_all(&spotted)?;
        self.names.add(branch.name.as_slice(), Named::Branch)?;
        push(&mut part.branches, branch)?;
        self.block = Block::Arbiter(part);
        Ok(())
    }

    /// A post more in the open poster.
    pub fn add_post(&mut self, mut part: PosterPart, post: Sent) -> Result<(), OutOfMemory>
        ensures { OnOk result (self.new ≡ with_post self.old part post) }
    {
        push(&mut part.posts, ScriptPost::of(self.alloc, post)?)?;
        self.block = Block::Poster(part);
        Ok(())
    }

    pub fn end_handler(&mut self, part: HandlerPart) -> Result<(), OutOfMemory>
        ensures { OnOk result (self.new ≡ end_handler self.old part) }
    {
        self.block = Block::Outside;
        push(&mut self.parts.handlers, part)
    }

    pub fn end_arbiter(&mut self, part: ArbiterPart) -> Result<(), OutOfMemory>
        ensures { OnOk result (self.new ≡ end_arbiter self.old part) }
    {
        self.block = Block::Outside;
        push(&mut self.parts.arbiters, part)
    }

    pub fn end_poster(&mut self, part: PosterPart) -> Result<(), OutOfMemory>
        ensures { OnOk result (self.new ≡ end_poster self.old part) }
    {
        self.block = Block::Outside;
        push(&mut self.parts.posters, part)
    }
}

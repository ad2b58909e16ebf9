//! Which first words may stand in which block, and what a line declares.

ghost use Rattle.std.specs.Prelude.{◌≡◌, ◌∷◌, [], true, false, List as Listed, ℕ, Some, Ok, IfOk, IfSome};
ghost use Rattle.ccr_text.specs.Words.{number_of};
ghost use Rattle.ccr_text.specs.Answers.{GivesState};
ghost use Rattle.ccr_wiretext.specs.declared.keyword.Keyword.TheVariants.{Post};
ghost use Rattle.ccr_wiretext.specs.Scanning.{MayPost};
ghost use Rattle.ccr_wiretext.specs.Blocks.{outside_line, handler_line, group_of, arbiter_line, poster_line, line_in};

use crate::draft::{Block, Draft};
use crate::forms::arbiter_end_form;
use crate::keyword::Keyword;
use ccr_base::{Action, Group, List, OutOfMemory, PortNo, Sent, Value};
use ccr_text::{Code, Cursor, Stop};
use ccr_wiring::{
    ArbiterPart, HandlerPart, Kind, MAX_ARBITERS, MAX_HANDLERS, MAX_PORTS, MAX_POSTERS, PosterPart,
};
use std::mem;

/// The group of a branch that begins with the word, by the kind of its arbiter.
fn group_of(kind: Kind, first: Keyword) -> Option<Group>
    ensures { result ≡ group_of kind first }
{
    match (kind, first) {
        (Kind::Choice, Keyword::Branch) => Some(Group::Choice),
        (Kind::Interleave, Keyword::Teardown) => Some(Group::Teardown),
        (Kind::Interleave, Keyword::Exclusive) => Some(Group::Exclusive),
        (Kind::Interleave, Keyword::Concurrent) => Some(Group::Concurrent),
        _ => None,
    }
}

impl Draft {
    #[tactic(auto, unfolding(crate::specs::Blocks::outside_line))]
    fn port_line(&mut self, words: Cursor<'_>) -> Result<(), Stop<Code>>
        ensures { GivesState self.new result (outside_line self.old Keyword.Port words.entry) }
    {
        let count = self.parts.ports.as_slice().len();
        let name = self.name_form(MAX_PORTS, count, words)?;
        self.add_port(name)?;
        Ok(())
    }

    #[tactic(auto, unfolding(crate::specs::Blocks::outside_line))]
    fn open_handler(&mut self, words: Cursor<'_>) -> Result<(), Stop<Code>>
        ensures { GivesState self.new result (outside_line self.old Keyword.Handler words.entry) }
    {
        let count = self.parts.handlers.as_slice().len();
        let name = self.name_form(MAX_HANDLERS, count, words)?;
        self.begin_handler(name)?;
        Ok(())
    }

    #[tactic(auto, unfolding(crate::specs::Blocks::outside_line))]
    fn open_choice(&mut self, words: Cursor<'_>) -> Result<(), Stop<Code>>
        ensures { GivesState self.new result (outside_line self.old Keyword.Choice words.entry) }
    {
        let count = self.parts.arbiters.as_slice().len();
        let name = self.name_form(MAX_ARBITERS, count, words)?;
        self.begin_arbiter(Kind::Choice, name)?;
        Ok(())
    }

    #[tactic(auto, unfolding(crate::specs::Blocks::outside_line))]
    fn open_interleave(&mut self, words: Cursor<'_>) -> Result<(), Stop<Code>>
        ensures { GivesState self.new result (outside_line self.old Keyword.Interleave words.entry) }
    {
        let count = self.parts.arbiters.as_slice().len();
        let name = self.name_form(MAX_ARBITERS, count, words)?;
        self.begin_arbiter(Kind::Interleave, name)?;
        Ok(())
    }

    #[tactic(auto, unfolding(crate::specs::Blocks::outside_line))]
    fn open_poster(&mut self, words: Cursor<'_>) -> Result<(), Stop<Code>>
        ensures { GivesState self.new result (outside_line self.old Keyword.Poster words.entry) }
    {
        let count = self.parts.posters.as_slice().len();
        let name = self.name_form(MAX_POSTERS, count, words)?;
        self.begin_poster(name)?;
        Ok(())
    }

    #[tactic(auto, unfolding(crate::specs::Blocks::outside_line))]
    fn outside_line(&mut self, first: Keyword, words: Cursor<'_>) -> Result<(), Stop<Code>>
        ensures { GivesState self.new result (outside_line self.old first words.entry) }
    {
        match first {
            Keyword::Budget => {
                let budget = self.budget_form(words)?;
                self.set_budget(budget);
            }
            Keyword::Queue => {
                let part = self.queue_form(words)?;
                self.add_queue(part)?;
            }
            Keyword::Port => self.port_line(words)?,
            Keyword::Portset => {
                let part = self.set_form(words)?;
                self.add_set(part)?;
            }
            Keyword::Cause => {
                let part = self.cause_form(words)?;
                self.add_cause(part)?;
            }
            Keyword::Handler => self.open_handler(words)?,
            Keyword::Receive => {
                let branch = self.receive_form(words)?;
                self.add_receive(branch)?;
            }
            Keyword::Choice => self.open_choice(words)?,
            Keyword::Interleave => self.open_interleave(words)?,
            Keyword::Combine => {
                let part = self.combine_form(words)?;
                self.add_domain(part)?;
            }
            Keyword::Poster => self.open_poster(words)?,
            _ => return Err(Stop::Refused(Code::Keyword)),
        }
        Ok(())
    }

    #[tactic(auto, unfolding(crate::specs::Blocks::handler_line, crate::specs::Forms::end_form))]
    fn handler_line(
        &mut self,
        part: HandlerPart,
        first: Keyword,
        words: Cursor<'_>,
    ) -> Result<(), Stop<Code>>
        ensures { GivesState self.new result (handler_line self.old part first words.entry) }
    {
        match first {
            Keyword::Post => {
                let action = self.post_form(&part, words)?;
                self.add_action(part, &action)?;
            }
            Keyword::Fail => {
                let value = self.fail_form(&part, words)?;
                self.add_action(part, &Action::Fail(value))?;
            }
            Keyword::Add => {
                let cause = self.caused_form(&part, words)?;
                self.add_action(part, &Action::Add(cause))?;
            }
            Keyword::Remove => {
                let cause = self.caused_form(&part, words)?;
                self.add_action(part, &Action::Remove(cause))?;
            }
            Keyword::Await => {
                let action = self.await_form(&part, words)?;
                self.add_action(part, &action)?;
            }
            Keyword::End => {
                words.no_more()?;
                self.end_handler(part)?;
            }
            _ => return Err(Stop::Refused(Code::Keyword)),
        }
        Ok(())
    }

    #[tactic(auto, unfolding(crate::specs::Blocks::arbiter_line))]
    fn arbiter_line(
        &mut self,
        part: ArbiterPart,
        first: Keyword,
        words: Cursor<'_>,
    ) -> Result<(), Stop<Code>>
        ensures { GivesState self.new result (arbiter_line self.old part first words.entry) }
    {
        if let Keyword::End = first {
            arbiter_end_form(&part, words)?;
            self.end_arbiter(part)?;
            return Ok(());
        }
        let Some(group) = group_of(part.kind, first) else {
            return Err(Stop::Refused(Code::Keyword));
        };
        let branch = self.branch_form(&part, group, words)?;
        self.add_branch(part, branch)?;
        Ok(())
    }

    #[tactic(auto, unfolding(crate::specs::Blocks::poster_line, crate::specs::Forms::end_form))]
    fn poster_line(
        &mut self,
        part: PosterPart,
        first: Keyword,
        words: Cursor<'_>,
    ) -> Result<(), Stop<Code>>
        ensures { GivesState self.new result (poster_line self.old part first words.entry) }
    {
        match first {
            Keyword::Post => {
                let post = self.script_form(&part, words)?;
                self.add_post(part, post)?;
            }
            Keyword::End => {
                words.no_more()?;
                self.end_poster(part)?;
            }
            _ => return Err(Stop::Refused(Code::Keyword)),
        }
        Ok(())
    }

    /// The port of a post more in the open poster, where one may stand.
    fn post_port(&self, name: &[u8]) -> Option<PortNo>
        ensures { IfSome result (MayPost self.now name.now) }
    {
        let Block::Poster(part) = &self.block else {
            return None;
        };
        if !self.has_post_room(part) {
            return None;
        }
        self.port(name)
    }

    /// Takes in the post of this number at the port of this name. Where it may not stand nothing is done, and the reader of words says why.
    pub fn plain_post(&mut self, name: &[u8], number: u64) -> Result<bool, OutOfMemory>
        ensures taken { IfOk result (λ taken. taken ≡ true → (digits : Listed ℕ) → number_of digits ≡ Some number → line_in self.old.block self.old Post (name.now ∷ digits ∷ []) ≡ Ok self.new) }
        ensures left { IfOk result (λ taken. taken ≡ false → self.new ≡ self.old) }
    {
        let Some(port) = self.post_port(name) else {
            return Ok(false);
        };
        let post = Sent {
            port,
            value: Value::one(number),
            causes: List::new(self.alloc),
        };
        match mem::replace(&mut self.block, Block::Outside) {
            Block::Poster(part) => self.add_post(part, post)?,
            _ => unreachable!(),
        }
        Ok(true)
    }

    /// Takes in a line with these words.
    #[tactic(auto, unfolding(crate::specs::Blocks::line_in))]
    pub fn line(&mut self, first: Keyword, words: Cursor<'_>) -> Result<(), Stop<Code>>
        ensures { GivesState self.new result (line_in self.old.block self.old first words.entry) }
    {
        match mem::replace(&mut self.block, Block::Outside) {
            Block::Outside => self.outside_line(first, words),
            Block::Handler(part) => self.handler_line(part, first, words),
            Block::Arbiter(part) => self.arbiter_line(part, first, words),
            Block::Poster(part) => self.poster_line(part, first, words),
        }
    }
}

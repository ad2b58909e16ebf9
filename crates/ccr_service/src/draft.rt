//! What the lines so far declare.

ghost use Rattle.std.specs.Prelude.{◌≡◌, ◌<◌, None, OnOk, IfOk, length};
ghost use Rattle.ccr_base.specs.Bounds.{most_asks, most_ops};
ghost use Rattle.ccr_text.specs.Answers.{Gives, GivesBy, GivesState};
ghost use Rattle.ccr_text.specs.Names.{meaning_of};
ghost use Rattle.ccr_service.specs.Drafts.{nothing, with_policy, with_op, with_client, with_ask, end_client, policy_form, op_form, client_form, ask_form, outside_line, client_line, line_in};

use crate::fields::{bound, expr, group, new_name, op_name};
use crate::names::OpOrClient;
use crate::{AskPart, ClientPart, OpPart, ServiceParts};
use ccr_base::{List, OutOfMemory, Policy, name_of};
use ccr_text::{Code, Cursor, Names, Stop, is_text};
use ccr_wiring::MAX_POLICY;
use std::alloc::Global;
use std::marker::Model;
use std::mem;

/// The most operations, clients, and requests in all.
const MAX_OPS: usize = 32;

const MAX_CLIENTS: usize = 16;

const MAX_ASKS: u32 = 10000;

/// The parts so far, whether a line gave the policy, the declared names, how many requests there are, and the client whose block
/// is open.
#[derive(Drop)]
pub struct ServiceDraft {
    pub alloc: Global,
    pub parts: ServiceParts,
    pub policied: bool,
    pub names: Names<OpOrClient>,
    pub asks: u32,
    pub block: Option<ClientPart>,
}

impl Model for ServiceDraft {
    ghost use Rattle.ccr_service.specs.Drafts.{Drafted};

    ghost Value = { Drafted };

    ghost view = { λ draft. record { parts = draft.parts; policied = draft.policied; names = draft.names; asks = draft.asks; block = draft.block } };
}

impl ServiceDraft {
    pub fn new(alloc: Global) -> Self
        ensures { result ≡ nothing }
    {
        ServiceDraft {
            alloc,
            parts: ServiceParts {
                policy: Policy::Unbounded,
                ops: List::new(alloc),
                clients: List::new(alloc),
            },
            policied: false,
            names: Names::new(alloc),
            asks: 0,
            block: None,
        }
    }

    fn set_policy(&mut self, policy: Policy)
        ensures { self.new ≡ with_policy self.old policy }
    {
        self.parts.policy = policy;
        self.policied = true;
    }

    fn add_op(&mut self, part: OpPart) -> Result<(), OutOfMemory>
        requires new { meaning_of self.old.names part.name ≡ None }
        requires room { length self.old.parts.ops < most_ops }
        ensures { OnOk result (self.new ≡ with_op self.old part) }
    {
        let number = self.parts.ops.len() as u32;
        self.names
            .add(part.name.as_slice(), OpOrClient::Op(number))?;
        self.parts.ops.add(part)
    }

    fn begin_client(&mut self, name: &[u8]) -> Result<(), OutOfMemory>
        requires { meaning_of self.old.names name.now ≡ None }
        ensures { OnOk result (self.new ≡ with_client self.old name.now) }
    {
        self.names.add(name, OpOrClient::Client)?;
        let name = name_of(self.alloc, name)?;
        let asks = List::new(self.alloc);
        self.block = Some(ClientPart { name, asks });
        Ok(())
    }

    /// A request more in the open block.
    fn add_ask(&mut self, mut part: ClientPart, ask: AskPart) -> Result<(), OutOfMemory>
        requires { self.old.asks < most_asks }
        ensures { OnOk result (self.new ≡ with_ask self.old part ask) }
    {
        part.asks.add(ask)?;
        self.asks += 1;
        self.block = Some(part);
        Ok(())
    }

    fn end_client(&mut self, part: ClientPart) -> Result<(), OutOfMemory>
        ensures { OnOk result (self.new ≡ end_client self.old part) }
    {
        self.parts.clients.add(part)
    }

    /// policy POLICY.
    #[tactic(auto, unfolding(crate::specs::Drafts::policy_form))]
    fn policy_form(&self, mut words: Cursor<'_>) -> Result<Policy, Stop<Code>>
        ensures { Gives result (policy_form self.now words.entry) }
    {
        if self.policied {
            return Err(Stop::Refused(Code::Second));
        }
        let policy = words.policy(MAX_POLICY)?;
        words.no_more()?;
        Ok(policy)
    }

    /// op NAME GROUP EXPR, and below N where it has a bound.
    #[tactic(auto, unfolding(crate::specs::Drafts::op_form))]
    fn op_form(&self, mut words: Cursor<'_>) -> Result<OpPart, Stop<Code>>
        ensures form { Gives result (op_form self.now words.entry) }
        ensures new { IfOk result (λ part. meaning_of self.now.names part.name ≡ None) }
        ensures room { OnOk result (length self.now.parts.ops < most_ops) }
    {
        if self.parts.ops.len() >= MAX_OPS {
            return Err(Stop::Refused(Code::Limit));
        }
        let name = new_name(&mut words, &self.names)?;
        let group = group(&mut words)?;
        let expr = expr(&mut words)?;
        let below = bound(&mut words)?;
        words.no_more()?;
        Ok(OpPart {
            name: name_of(self.alloc, name)?,
            group,
            expr,
            below,
        })
    }

    /// client NAME.
    #[tactic(auto, unfolding(crate::specs::Drafts::client_form))]
    fn client_form<'a>(&self, mut words: Cursor<'a>) -> Result<&'a [u8], Stop<Code>>
        ensures form { GivesBy (λ name. name.now) result (client_form self.now words.entry) }
        ensures new { IfOk result (λ name. meaning_of self.now.names name.now ≡ None) }
    {
        if self.parts.clients.len() >= MAX_CLIENTS {
            return Err(Stop::Refused(Code::Limit));
        }
        let name = new_name(&mut words, &self.names)?;
        words.no_more()?;
        Ok(name)
    }

    /// ask OP N.
    #[tactic(auto, unfolding(crate::specs::Drafts::ask_form))]
    fn ask_form(&self, mut words: Cursor<'_>) -> Result<AskPart, Stop<Code>>
        ensures form { Gives result (ask_form self.now words.entry) }
        ensures room { OnOk result (self.now.asks < most_asks) }
    {
        if self.asks >= MAX_ASKS {
            return Err(Stop::Refused(Code::Limit));
        }
        let op = op_name(&mut words, &self.names)?;
        let value = words.number()?;
        words.no_more()?;
        Ok(AskPart { op, value })
    }

    #[tactic(auto, unfolding(crate::specs::Drafts::outside_line))]
    fn outside_line(&mut self, first: &[u8], words: Cursor<'_>) -> Result<(), Stop<Code>>
        ensures { GivesState self.new result (outside_line self.old first.now words.entry) }
    {
        if is_text(first, "policy") {
            let policy = self.policy_form(words)?;
            self.set_policy(policy);
        } else if is_text(first, "op") {
            let part = self.op_form(words)?;
            self.add_op(part)?;
        } else if is_text(first, "client") {
            let name = self.client_form(words)?;
            self.begin_client(name)?;
        } else {
            return Err(Stop::Refused(Code::Keyword));
        }
        Ok(())
    }

    #[tactic(auto, unfolding(crate::specs::Drafts::client_line))]
    fn client_line(
        &mut self,
        part: ClientPart,
        first: &[u8],
        words: Cursor<'_>,
    ) -> Result<(), Stop<Code>>
        ensures { GivesState self.new result (client_line self.old part first.now words.entry) }
    {
        if is_text(first, "ask") {
            let ask = self.ask_form(words)?;
            self.add_ask(part, ask)?;
        } else if is_text(first, "end") {
            words.no_more()?;
            self.end_client(part)?;
        } else {
            return Err(Stop::Refused(Code::Keyword));
        }
        Ok(())
    }

    /// Takes in a line with these words.
    #[tactic(auto, unfolding(crate::specs::Drafts::line_in))]
    pub fn line(&mut self, first: &[u8], words: Cursor<'_>) -> Result<(), Stop<Code>>
        ensures { GivesState self.new result (line_in self.old.block self.old first.now words.entry) }
    {
        match mem::replace(&mut self.block, None) {
            None => self.outside_line(first, words),
            Some(part) => self.client_line(part, first, words),
        }
    }
}

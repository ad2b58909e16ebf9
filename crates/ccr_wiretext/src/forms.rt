//! The forms of a line: what stands behind its first word.

ghost use Rattle.std.specs.Prelude.{◌≡◌, ◌<◌, ◌+◌, ◌++◌, None, IfOk, OnOk, length, nat_lt, sum, map};
ghost use Rattle.std.specs.List.{list_any};
ghost use Rattle.ccr_base.specs.Bounds.{most_branches, most_causes, most_queues, most_script_posts, most_sets, most_spots};
ghost use Rattle.ccr_text.specs.Names.{meaning_of};
ghost use Rattle.ccr_text.specs.Answers.{Gives, GivesBy};
ghost use Rattle.ccr_wiring.specs.Spots.{times};
ghost use Rattle.ccr_wiretext.specs.Drafts.{script_count};
ghost use Rattle.ccr_wiretext.specs.Forms.{budget_form, queue_form, name_form, set_form, cause_form, combine_form, crowds, branch_tail, receive_room, receive_form, branch_form, post_form, fail_form, caused_form, await_form, script_form, arbiter_end_form};

use crate::draft::Draft;
use crate::spotted::Spotted;
use crate::{fields, patterns};
use ccr_base::{Action, CauseNo, Expr, Group, OutOfMemory, PortNo, Sent, name_of};
use ccr_text::{Code, Cursor, Stop};
use ccr_wiring::{
    ArbiterPart, BranchPart, CausePart, DomainPart, HandlerPart, MAX_ACTIONS, MAX_ARBITERS,
    MAX_BRANCHES, MAX_BUDGET, MAX_CAUSES, MAX_DOMAINS, MAX_POLICY, MAX_QUEUES, MAX_SCRIPT_POSTS,
    MAX_SETS, MAX_SPOTS, PosterPart, QueuePart, SetPart,
};

/// Whether there is room for a branch behind those of the arbiters and those of an open block.
fn has_branch_room(arbiters: &[ArbiterPart], begun: usize) -> bool
    ensures { result ≡ nat_lt (sum (map (λ arbiter. length arbiter.branches) arbiters.now) + begun) most_branches }
{
    let mut left: usize = MAX_BRANCHES;
    for arbiter in arbiters {
        let count = arbiter.branches.as_slice().len();
        if count >= left {
            return false;
        }
        left -= count;
    }
    begun < left
}

/// Whether there is room for a branch behind those of the arbiters.
fn has_receive_room(arbiters: &[ArbiterPart]) -> bool
    ensures { result ≡ nat_lt (sum (map (λ arbiter. length arbiter.branches) arbiters.now)) most_branches }
{
    has_branch_room(arbiters, 0)
}

/// Whether there is room for a post behind those of the posters and those of an open block.
fn has_post_room(posters: &[PosterPart], begun: usize) -> bool
    ensures { result ≡ nat_lt (sum (map (λ poster. length poster.posts) posters.now) + begun) most_script_posts }
{
    let mut left: usize = MAX_SCRIPT_POSTS;
    for poster in posters {
        let count = poster.posts.as_slice().len();
        if count >= left {
            return false;
        }
        left -= count;
    }
    begun < left
}

fn times(port: PortNo, ports: &[PortNo]) -> usize
    ensures { result ≡ times port ports.now }
{
    ports.iter().filter(|other| **other == port).count()
}

/// Whether a port stands more than 16 times in the two lists together.
fn is_crowded(port: PortNo, before: &Spotted, new: &[PortNo]) -> bool
    ensures { result ≡ nat_lt most_spots (times port (before.now ++ new.now)) }
{
    let count = before.times(port);
    let most = MAX_SPOTS as usize;
    count > most || times(port, new) > most - count
}

/// Whether one of the new ports stands more than 16 times in the two lists together.
fn is_one_crowded(before: &Spotted, new: &[PortNo]) -> bool
    ensures { result ≡ list_any (λ port. nat_lt most_spots (times port (before.now ++ new.now))) new.now }
{
    new.iter().any(|port| is_crowded(*port, before, new))
}

impl Draft {
    /// budget N.
    #[tactic(auto, unfolding(crate::specs::Forms::budget_form))]
    pub fn budget_form(&self, mut words: Cursor<'_>) -> Result<u32, Stop<Code>>
        ensures { Gives result (budget_form self.now words.entry) }
    {
        if self.budgeted {
            return Err(Stop::Refused(Code::Second));
        }
        let budget = words.number_within(0, MAX_BUDGET)?;
        words.no_more()?;
        Ok(budget)
    }

    /// queue NAME POLICY.
    #[tactic(auto, unfolding(crate::specs::Forms::queue_form, crate::specs::Fields::new_name))]
    pub fn queue_form(&self, mut words: Cursor<'_>) -> Result<QueuePart, Stop<Code>>
        ensures form { Gives result (queue_form self.now words.entry) }
        ensures new { IfOk result (λ part. meaning_of self.now.names part.name ≡ None) }
        ensures room { OnOk result (length self.now.parts.queues < most_queues) }
    {
        if self.parts.queues.as_slice().len() >= MAX_QUEUES {
            return Err(Stop::Refused(Code::Limit));
        }
        let name = fields::new_name(&mut words, &self.names)?;
        let policy = words.policy(MAX_POLICY)?;
        words.no_more()?;
        let name = name_of(self.alloc, name)?;
        Ok(QueuePart { name, policy })
    }

    /// A line that is a name alone, where `count` such names stand and at most `limit` may.
    #[tactic(auto, unfolding(crate::specs::Forms::name_form, crate::specs::Fields::new_name))]
    pub fn name_form<'a>(
        &self,
        limit: usize,
        count: usize,
        mut words: Cursor<'a>,
    ) -> Result<&'a [u8], Stop<Code>>
        ensures form { GivesBy (λ name. name.now) result (name_form limit count self.now words.entry) }
        ensures new { IfOk result (λ name. meaning_of self.now.names name.now ≡ None) }
        ensures room { OnOk result (count < limit) }
    {
        if count >= limit {
            return Err(Stop::Refused(Code::Limit));
        }
        let name = fields::new_name(&mut words, &self.names)?;
        words.no_more()?;
        Ok(name)
    }

    /// portset NAME PORT ..
    #[tactic(auto, unfolding(crate::specs::Forms::set_form, crate::specs::Fields::new_name))]
    pub fn set_form(&self, mut words: Cursor<'_>) -> Result<SetPart, Stop<Code>>
        ensures form { Gives result (set_form self.now words.entry) }
        ensures new { IfOk result (λ part. meaning_of self.now.names part.name ≡ None) }
        ensures room { OnOk result (length self.now.parts.sets < most_sets) }
    {
        if self.parts.sets.as_slice().len() >= MAX_SETS {
            return Err(Stop::Refused(Code::Limit));
        }
        let name = fields::new_name(&mut words, &self.names)?;
        let ports = patterns::members(&mut words, self.alloc, self)?;
        let name = name_of(self.alloc, name)?;
        Ok(SetPart { name, ports })
    }

    /// cause NAME PORT.
    #[tactic(auto, unfolding(crate::specs::Forms::cause_form, crate::specs::Fields::new_name))]
    pub fn cause_form(&self, mut words: Cursor<'_>) -> Result<CausePart, Stop<Code>>
        ensures form { Gives result (cause_form self.now words.entry) }
        ensures new { IfOk result (λ part. meaning_of self.now.names part.name ≡ None) }
        ensures room { OnOk result (length self.now.parts.causes < most_causes) }
    {
        if self.parts.causes.as_slice().len() >= MAX_CAUSES {
            return Err(Stop::Refused(Code::Limit));
        }
        let name = fields::new_name(&mut words, &self.names)?;
        let port = fields::port(&mut words, self)?;
        words.no_more()?;
        let name = name_of(self.alloc, name)?;
        Ok(CausePart { name, port })
    }

    /// Whether with this branch more than 16 spots name a port.
    #[tactic(auto, unfolding(crate::specs::Forms::crowds))]
    fn crowds(&self, branch: &BranchPart) -> Result<bool, OutOfMemory>
        ensures { IfOk result (λ one. one ≡ crowds self.now branch.now) }
    {
        let spotted = self.spotted_by(branch)?;
        Ok(is_one_crowded(&self.spotted, &spotted))
    }

    /// QUEUE HANDLER PATTERN, behind the name and group of a branch.
    #[tactic(auto, unfolding(crate::specs::Forms::branch_tail))]
    fn branch_tail(
        &self,
        name: &[u8],
        group: Group,
        mut words: Cursor<'_>,
    ) -> Result<BranchPart, Stop<Code>>
        ensures form { Gives result (branch_tail self.now name.now group words.entry) }
        ensures name { IfOk result (λ branch. branch.name ≡ name.now) }
    {
        let queue = fields::queue(&mut words, &self.names)?;
        let handler = fields::handler(&mut words, &self.names)?;
        let pattern = patterns::pattern(&mut words, self.alloc, self)?;
        let branch = BranchPart {
            name: name_of(self.alloc, name)?,
            group,
            queue,
            handler,
            pattern,
        };
        if self.crowds(&branch)? {
            return Err(Stop::Refused(Code::Crowded));
        }
        Ok(branch)
    }

    /// combine INTERLEAVE INTERLEAVE ..
    #[tactic(auto, unfolding(crate::specs::Forms::combine_form))]
    pub fn combine_form(&self, mut words: Cursor<'_>) -> Result<DomainPart, Stop<Code>>
        ensures { Gives result (combine_form self.now words.entry) }
    {
        if self.parts.domains.as_slice().len() >= MAX_DOMAINS {
            return Err(Stop::Refused(Code::Limit));
        }
        let members = patterns::combined(&mut words, self.alloc, self)?;
        Ok(DomainPart { members })
    }

    /// A receive counts as an arbiter and as a branch.
    #[tactic(auto, unfolding(crate::specs::Forms::receive_room))]
    fn receive_room(&self) -> Result<(), Stop<Code>>
        ensures { Gives result (receive_room self.now) }
    {
        if self.parts.arbiters.as_slice().len() >= MAX_ARBITERS {
            return Err(Stop::Refused(Code::Limit));
        }
        if !has_receive_room(self.parts.arbiters.as_slice()) {
            return Err(Stop::Refused(Code::Limit));
        }
        Ok(())
    }

    /// receive NAME GROUP QUEUE HANDLER PATTERN.
    #[tactic(auto, unfolding(crate::specs::Forms::receive_form, crate::specs::Fields::new_name))]
    pub fn receive_form(&self, mut words: Cursor<'_>) -> Result<BranchPart, Stop<Code>>
        ensures form { Gives result (receive_form self.now words.entry) }
        ensures new { IfOk result (λ branch. meaning_of self.now.names branch.name ≡ None) }
    {
        self.receive_room()?;
        let name = fields::new_name(&mut words, &self.names)?;
        let group = fields::group(&mut words)?;
        self.branch_tail(name, group, words)
    }

    /// NAME QUEUE HANDLER PATTERN, behind the word that gives the group.
    #[tactic(auto, unfolding(crate::specs::Forms::branch_form, crate::specs::Fields::new_name))]
    pub fn branch_form(
        &self,
        part: &ArbiterPart,
        group: Group,
        mut words: Cursor<'_>,
    ) -> Result<BranchPart, Stop<Code>>
        ensures form { Gives result (branch_form self.now part.now group words.entry) }
        ensures new { IfOk result (λ branch. meaning_of self.now.names branch.name ≡ None) }
    {
        let begun = part.branches.as_slice().len();
        if !has_branch_room(self.parts.arbiters.as_slice(), begun) {
            return Err(Stop::Refused(Code::Limit));
        }
        let name = fields::new_name(&mut words, &self.names)?;
        self.branch_tail(name, group, words)
    }

    /// post PORT EXPR, in a handler.
    #[tactic(auto, unfolding(crate::specs::Forms::post_form))]
    pub fn post_form(&self, part: &HandlerPart, mut words: Cursor<'_>) -> Result<Action, Stop<Code>>
        ensures { Gives result (post_form self.now part.now words.entry) }
    {
        if part.handler.actions.as_slice().len() >= MAX_ACTIONS {
            return Err(Stop::Refused(Code::Limit));
        }
        let port = fields::port(&mut words, self)?;
        let value = fields::expr(&mut words, self.alloc, self.parts.version)?;
        words.no_more()?;
        Ok(Action::Post(port, value))
    }

    /// fail EXPR.
    #[tactic(auto, unfolding(crate::specs::Forms::fail_form))]
    pub fn fail_form(&self, part: &HandlerPart, mut words: Cursor<'_>) -> Result<Expr, Stop<Code>>
        ensures { Gives result (fail_form self.now part.now words.entry) }
    {
        if part.handler.actions.as_slice().len() >= MAX_ACTIONS {
            return Err(Stop::Refused(Code::Limit));
        }
        let value = fields::expr(&mut words, self.alloc, self.parts.version)?;
        words.no_more()?;
        Ok(value)
    }

    /// add CAUSE and remove CAUSE.
    #[tactic(auto, unfolding(crate::specs::Forms::caused_form))]
    pub fn caused_form(
        &self,
        part: &HandlerPart,
        mut words: Cursor<'_>,
    ) -> Result<CauseNo, Stop<Code>>
        ensures { Gives result (caused_form self.now part.now words.entry) }
    {
        if part.handler.actions.as_slice().len() >= MAX_ACTIONS {
            return Err(Stop::Refused(Code::Limit));
        }
        let cause = fields::cause(&mut words, &self.names)?;
        words.no_more()?;
        Ok(cause)
    }

    /// await PORT.
    #[tactic(auto, unfolding(crate::specs::Forms::await_form))]
    pub fn await_form(
        &self,
        part: &HandlerPart,
        mut words: Cursor<'_>,
    ) -> Result<Action, Stop<Code>>
        ensures { Gives result (await_form self.now part.now words.entry) }
    {
        if part.handler.actions.as_slice().len() >= MAX_ACTIONS {
            return Err(Stop::Refused(Code::Limit));
        }
        let port = fields::port(&mut words, self)?;
        words.no_more()?;
        Ok(Action::Await(port))
    }

    /// Whether there is room for a post more in the open poster.
    pub fn has_post_room(&self, part: &PosterPart) -> bool
        ensures { result ≡ nat_lt (script_count self.now.parts + length part.now.posts) most_script_posts }
    {
        let begun = part.posts.as_slice().len();
        has_post_room(self.parts.posters.as_slice(), begun)
    }

    /// post PORT VALUE CAUSE .., in a poster.
    #[tactic(auto, unfolding(crate::specs::Forms::script_form))]
    pub fn script_form(&self, part: &PosterPart, mut words: Cursor<'_>) -> Result<Sent, Stop<Code>>
        ensures { Gives result (script_form self.now part.now words.entry) }
    {
        if !self.has_post_room(part) {
            return Err(Stop::Refused(Code::Limit));
        }
        let port = fields::port(&mut words, self)?;
        let value = fields::value(&mut words, self.alloc, self.parts.version)?;
        let causes = patterns::causes(&mut words, self.alloc, &self.names)?;
        Ok(Sent {
            port,
            value,
            causes,
        })
    }
}

/// end of a choice or Interleave.
#[tactic(auto, unfolding(crate::specs::Forms::arbiter_end_form))]
pub fn arbiter_end_form(part: &ArbiterPart, words: Cursor<'_>) -> Result<(), Stop<Code>>
    ensures { Gives result (arbiter_end_form part.now words.entry) }
{
    if part.branches.as_slice().is_empty() {
        return Err(Stop::Refused(Code::Empty));
    }
    words.no_more()
}

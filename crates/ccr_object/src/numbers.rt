//! The numbers of a wiring, and the asks and replies that name no others.

ghost use Rattle.std.specs.Prelude.{◌≡◌, ◌↔◌, true, ◌++◌, length, map, nat_lt, IfOk, OnOk};
ghost use Rattle.std.specs.List.{list_all};
ghost use Rattle.ccr_base.specs.declared.tasks.Cut.{Cut as CutOf};
ghost use Rattle.ccr_wiring.specs.Wirings.{actions_of, awaited};
ghost use Rattle.ccr_object.specs.Numbers.{numbers_of, domain_tests, site_count, site_counts, has_domain, has_spot, has_each, has_causes, knows_message, knows_task, has_handed, is_known, names_known};
ghost use Rattle.ccr_claim.specs.declared.asks.Ask.{Ask};
ghost use Rattle.ccr_claim.specs.declared.asks.Reply.{Reply as Replied};
ghost use Rattle.ccr_claim.specs.Wired.{IsKnown, IsReplyOf};

use ccr_base::{Action, ArbiterNo, Cut, Msg, OutOfMemory, Spot, Task};
use ccr_claim::{Ask, Reply};
use ccr_wiring::{BranchPart, Wiring, are_apart};
use std::alloc::Global;
use std::marker::Model;

/// How many ports, queues and causes there are, of each arbiter whether its number is that of its domain, and of each
/// branch how many sites it has. All places share it, so it is made once.
#[derive(Drop)]
pub struct Numbers {
    ports: usize,
    queues: usize,
    causes: usize,
    domains: Vec<bool>,
    sites: Vec<usize>,
}

impl Model for Numbers {
    ghost use Rattle.ccr_object.specs.Numbers.{Numbers as NumbersOf};

    ghost Value = { NumbersOf };

    ghost view = { λ numbers. record { ports = numbers.ports; queues = numbers.queues; causes = numbers.causes; domains = numbers.domains.items; sites = numbers.sites.items } };
}

impl Numbers {
    /// Those of the wiring.
    pub fn of(alloc: Global, wiring: &Wiring) -> Result<Numbers, OutOfMemory>
        ensures numbers { IfOk result (λ numbers. numbers ≡ numbers_of wiring.now) }
        ensures exact { (ask : Ask) → (is_known (numbers_of wiring.now) ask ≡ true) ↔ IsKnown wiring.now ask }
        ensures replies { (reply : Replied) → (names_known (numbers_of wiring.now) reply ≡ true) ↔ IsReplyOf wiring.now reply }
    {
        let parts = wiring.parts();
        let domains = domain_tests(alloc, wiring)?;
        let sites = site_counts(alloc, wiring)?;
        Ok(Numbers {
            ports: parts.ports.as_slice().len(),
            queues: parts.queues.as_slice().len(),
            causes: parts.causes.as_slice().len(),
            domains,
            sites,
        })
    }

    /// Whether all numbers in the ask are among these, and no cause stands twice in its message or task.
    pub fn knows(&self, ask: &Ask) -> bool
        ensures { result ≡ is_known self.now ask.now }
    {
        match ask {
            Ask::Post(message) => self.knows_message(message),
            Ask::Claim(_, slot) => (slot.port as usize) < self.ports,
            Ask::Commit(task, _) => self.knows_task(task),
            Ask::Suspend(task) => self.knows_task(task),
            Ask::Put(task) => self.knows_task(task),
            _ => true,
        }
    }

    /// Whether all numbers in the reply are among these, and no cause stands twice in a message or task of it. The places of a
    /// wiring reply nothing else; a net of other places tests its replies so.
    pub fn names(&self, reply: &Reply) -> bool
        ensures { result ≡ names_known self.now reply.now }
    {
        match reply {
            Reply::Got(messages) => self.knows_messages(messages.as_slice()),
            Reply::Fired { task, cuts } => {
                self.has_handed(task) && has_cuts(self.queues, cuts.as_slice())
            }
            Reply::Admitted(task) | Reply::Dropped(task) | Reply::Taken(task) => {
                self.has_handed(task)
            }
            _ => true,
        }
    }

    fn knows_messages(&self, messages: &[Msg]) -> bool
        ensures { result ≡ list_all (knows_message self.now) messages.now }
    {
        for message in messages {
            if !self.knows_message(message) {
                return false;
            }
        }
        true
    }

    fn has_handed(&self, task: &Option<Task>) -> bool
        ensures { result ≡ has_handed self.now task.now }
    {
        match task {
            Some(task) => self.knows_task(task),
            None => true,
        }
    }

    fn knows_message(&self, message: &Msg) -> bool
        ensures { result ≡ knows_message self.now message.now }
    {
        (message.port as usize) < self.ports && self.has_causes(message.causes.as_slice())
    }

    fn knows_task(&self, task: &Task) -> bool
        ensures { result ≡ knows_task self.now task.now }
    {
        self.has_spot(task.spot)
            && self.has_domain(task.arbiter)
            && (task.queue as usize) < self.queues
            && self.has_causes(task.causes.as_slice())
    }

    fn has_spot(&self, spot: Spot) -> bool
        ensures { result ≡ has_spot self.now spot }
    {
        match spot {
            Spot::Branch(branch) => (branch as usize) < self.sites.len(),
            Spot::Site(branch, site) => match self.sites.get(branch as usize) {
                Some(count) => (site as usize) < *count,
                None => false,
            },
        }
    }

    fn has_domain(&self, number: ArbiterNo) -> bool
        ensures { result ≡ has_domain self.now number }
    {
        match self.domains.get(number as usize) {
            Some(own) => *own,
            None => false,
        }
    }

    fn has_causes(&self, causes: &[u32]) -> bool
        ensures { result ≡ has_causes self.now causes.now }
    {
        has_each(self.causes, causes) && are_apart(causes)
    }
}

fn has_cuts(count: usize, cuts: &[Cut]) -> bool
    ensures { result ≡ list_all (λ (cut : CutOf). nat_lt cut.queue count) cuts.now }
{
    for cut in cuts {
        if (cut.queue as usize) >= count {
            return false;
        }
    }
    true
}

fn has_each(count: usize, causes: &[u32]) -> bool
    ensures { result ≡ has_each count causes.now }
{
    for cause in causes {
        if (*cause as usize) >= count {
            return false;
        }
    }
    true
}

fn count_awaits(actions: &[Action]) -> usize
    ensures { result ≡ length (awaited actions.now) }
{
    let mut count = 0;
    for action in actions {
        if let Action::Await(_) = *action {
            count += 1;
        }
    }
    count
}

fn add_counts(
    counts: &mut Vec<usize>,
    wiring: &Wiring,
    branches: &[BranchPart],
) -> Result<(), OutOfMemory>
    ensures { OnOk result (counts.new.items ≡ counts.old.items ++ map (site_count wiring.now) branches.now) }
{
    for branch in branches {
        counts.push(count_awaits(wiring.actions_of(branch.handler)))?;
    }
    Ok(())
}

fn domain_tests(alloc: Global, wiring: &Wiring) -> Result<Vec<bool>, OutOfMemory>
    ensures { IfOk result (λ tests. tests.items ≡ domain_tests wiring.now.domains (length wiring.now.arbiters)) }
{
    let count = wiring.parts().arbiters.as_slice().len() as u32;
    let mut tests = Vec::new(alloc);
    for number in 0..count {
        tests.push(wiring.domain(number) == number)?;
    }
    Ok(tests)
}

fn site_counts(alloc: Global, wiring: &Wiring) -> Result<Vec<usize>, OutOfMemory>
    ensures { IfOk result (λ counts. counts.items ≡ site_counts wiring.now) }
{
    let mut counts = Vec::new(alloc);
    for arbiter in wiring.parts().arbiters.as_slice() {
        add_counts(&mut counts, wiring, arbiter.branches.as_slice())?;
    }
    Ok(counts)
}

//! The limits of a wiring.

ghost use Rattle.std.specs.Prelude.{◌≡◌};
ghost use Rattle.std.specs.List.{list_any};
ghost use Rattle.ccr_wiring.specs.Limits.{policy_is_outside, expr_is_outside, action_is_outside, slot_is_outside, slots_are_outside, pattern_is_outside, handler_is_outside, branch_is_outside, arbiter_is_outside, queue_is_outside, set_is_outside, has_branches_above, has_posts_above, has_too_many, has_outside_queue, has_outside_set, has_outside_handler, has_outside_arbiter, domain_is_outside, has_outside_domain, has_outside_budget, has_outside};

use crate::versions::is_closed;
use crate::{
    ArbiterPart, BranchPart, DomainPart, HandlerPart, Parts, PosterPart, QueuePart, SetPart,
};
use ccr_base::{Action, Expr, Pattern, Policy, Slot};

/// The posts that tasks may make in a run, at most.
pub const MAX_BUDGET: u32 = 10_000;

pub const MAX_QUEUES: usize = 16;

pub const MAX_PORTS: usize = 256;

pub const MAX_SETS: usize = 64;
/// The ports of one set.
pub const MAX_SET_PORTS: usize = 8;

pub const MAX_CAUSES: usize = 32;

pub const MAX_HANDLERS: usize = 256;
/// The actions of one handler.
pub const MAX_ACTIONS: usize = 16;

pub const MAX_ARBITERS: usize = 256;

pub const MAX_DOMAINS: usize = 128;
/// The members of one domain.
pub const MAX_MEMBERS: usize = 8;
/// The branches of all arbiters together.
pub const MAX_BRANCHES: usize = 256;
/// The slots of one pattern.
pub const MAX_SLOTS: usize = 8;
/// The messages that one slot or one gather takes.
pub const MAX_COUNT: u32 = 1_000;
/// The number of a policy.
pub const MAX_POLICY: u32 = 1_000;
/// The number of a message of a task, in an expression.
pub const MAX_ARG: u32 = 65_535;
/// The index of a number in its value, in an expression.
pub const MAX_INDEX: u32 = 7;

pub const MAX_POSTERS: usize = 16;
/// The largest number of an actor: posters come first, then at most 16 workers, then who finishes the run.
pub const MAX_ACTOR: u32 = 32;
/// The posts of all scripts together.
pub const MAX_SCRIPT_POSTS: usize = 10_000;
/// The spots that name one port.
pub const MAX_SPOTS: u32 = 16;

fn policy_is_outside(policy: Policy) -> bool
    ensures { result ≡ policy_is_outside policy }
{
    match policy {
        Policy::Unbounded => false,
        Policy::Discard(n) | Policy::Throttle(n) => n < 1 || n > MAX_POLICY,
    }
}

fn expr_is_outside(expr: Expr) -> bool
    ensures { result ≡ expr_is_outside expr }
{
    match expr {
        Expr::Arg(k) => k > MAX_ARG,
        Expr::Part(k, index) => k > MAX_ARG || index > MAX_INDEX,
        Expr::Number(_) | Expr::Sum | Expr::Count => false,
    }
}

fn action_is_outside(action: Action) -> bool
    ensures { result ≡ action_is_outside action }
{
    match action {
        Action::Post(_, expr) | Action::Fail(expr) => expr_is_outside(expr),
        Action::Add(_) | Action::Remove(_) | Action::Await(_) => false,
    }
}

fn slot_is_outside(slot: Slot) -> bool
    ensures { result ≡ slot_is_outside slot }
{
    slot.least != slot.most || slot.least < 1 || slot.least > MAX_COUNT
}

fn has_outside_slot(slots: &[Slot]) -> bool
    ensures { result ≡ list_any slot_is_outside slots.now }
{
    slots.iter().any(|slot| slot_is_outside(*slot))
}

fn slots_are_outside(slots: &[Slot]) -> bool
    ensures { result ≡ slots_are_outside slots.now }
{
    slots.is_empty() || slots.len() > MAX_SLOTS || has_outside_slot(slots)
}

fn pattern_is_outside(pattern: &Pattern) -> bool
    ensures { result ≡ pattern_is_outside pattern.now }
{
    match pattern {
        Pattern::Slots(slots) => slots_are_outside(slots.as_slice()),
        Pattern::Gather { total, .. } => *total < 1 || *total > MAX_COUNT,
    }
}

fn has_outside_action(actions: &[Action]) -> bool
    ensures { result ≡ list_any action_is_outside actions.now }
{
    actions.iter().any(|action| action_is_outside(*action))
}

fn handler_is_outside(part: &HandlerPart) -> bool
    ensures { result ≡ handler_is_outside part.now }
{
    let actions = part.handler.actions.as_slice();
    actions.len() > MAX_ACTIONS || has_outside_action(actions)
}

fn branch_is_outside(branch: &BranchPart) -> bool
    ensures { result ≡ branch_is_outside branch.now }
{
    pattern_is_outside(&branch.pattern)
}

fn arbiter_is_outside(arbiter: &ArbiterPart) -> bool
    ensures { result ≡ arbiter_is_outside arbiter.now }
{
    arbiter
        .branches
        .as_slice()
        .iter()
        .any(|branch| branch_is_outside(branch))
}

fn queue_is_outside(part: &QueuePart) -> bool
    ensures { result ≡ queue_is_outside part.now }
{
    policy_is_outside(part.policy)
}

fn set_is_outside(set: &SetPart) -> bool
    ensures { result ≡ set_is_outside set.now }
{
    let ports = set.ports.as_slice();
    ports.is_empty() || ports.len() > MAX_SET_PORTS
}

fn has_branches_above(most: usize, arbiters: &[ArbiterPart]) -> bool
    ensures { result ≡ has_branches_above most arbiters.now }
{
    let mut count: usize = 0;
    for arbiter in arbiters {
        let branches = arbiter.branches.as_slice().len();
        if branches > most - count {
            return true;
        }
        count += branches;
    }
    false
}

fn has_posts_above(most: usize, posters: &[PosterPart]) -> bool
    ensures { result ≡ has_posts_above most posters.now }
{
    let mut count: usize = 0;
    for poster in posters {
        let posts = poster.posts.as_slice().len();
        if posts > most - count {
            return true;
        }
        count += posts;
    }
    false
}

fn has_too_many(parts: &Parts) -> bool
    ensures { result ≡ has_too_many parts.now }
{
    parts.queues.as_slice().len() > MAX_QUEUES
        || parts.ports.as_slice().len() > MAX_PORTS
        || parts.sets.as_slice().len() > MAX_SETS
        || parts.causes.as_slice().len() > MAX_CAUSES
        || parts.handlers.as_slice().len() > MAX_HANDLERS
        || parts.arbiters.as_slice().len() > MAX_ARBITERS
        || parts.posters.as_slice().len() > MAX_POSTERS
        || has_branches_above(MAX_BRANCHES, parts.arbiters.as_slice())
        || has_posts_above(MAX_SCRIPT_POSTS, parts.posters.as_slice())
}

fn has_outside_queue(parts: &Parts) -> bool
    ensures { result ≡ has_outside_queue parts.now }
{
    parts
        .queues
        .as_slice()
        .iter()
        .any(|part| queue_is_outside(part))
}

fn has_outside_set(parts: &Parts) -> bool
    ensures { result ≡ has_outside_set parts.now }
{
    parts.sets.as_slice().iter().any(|set| set_is_outside(set))
}

fn has_outside_handler(parts: &Parts) -> bool
    ensures { result ≡ has_outside_handler parts.now }
{
    parts
        .handlers
        .as_slice()
        .iter()
        .any(|part| handler_is_outside(part))
}

fn has_outside_arbiter(parts: &Parts) -> bool
    ensures { result ≡ has_outside_arbiter parts.now }
{
    parts
        .arbiters
        .as_slice()
        .iter()
        .any(|arbiter| arbiter_is_outside(arbiter))
}

fn domain_is_outside(domain: &DomainPart) -> bool
    ensures { result ≡ domain_is_outside domain.now }
{
    let count = domain.members.as_slice().len();
    count < 2 || count > MAX_MEMBERS
}

fn has_domain_outside(domains: &[DomainPart]) -> bool
    ensures { result ≡ list_any domain_is_outside domains.now }
{
    domains.iter().any(|domain| domain_is_outside(domain))
}

fn has_outside_domain(parts: &Parts) -> bool
    ensures { result ≡ has_outside_domain parts.now }
{
    let domains = parts.domains.as_slice();
    domains.len() > MAX_DOMAINS || has_domain_outside(domains)
}

fn has_outside_budget(parts: &Parts) -> bool
    ensures { result ≡ has_outside_budget parts.now }
{
    is_closed(parts) && parts.budget > MAX_BUDGET
}

pub(crate) fn has_outside(parts: &Parts) -> bool
    ensures { result ≡ has_outside parts.now }
{
    has_outside_budget(parts)
        || has_too_many(parts)
        || has_outside_queue(parts)
        || has_outside_set(parts)
        || has_outside_handler(parts)
        || has_outside_arbiter(parts)
        || has_outside_domain(parts)
}

//! Numbers that name nothing.

ghost use Rattle.std.specs.Prelude.{◌≡◌};
ghost use Rattle.std.specs.List.{list_any};
ghost use Rattle.ccr_wiring.specs.References.{is_beyond, has_beyond, no_port, no_cause, action_is_dangling, pattern_is_dangling, slots_are_dangling, branch_is_dangling, post_is_dangling, set_is_dangling, cause_is_dangling, handler_is_dangling, arbiter_is_dangling, poster_is_dangling, has_dangling, has_dangling_set, has_dangling_cause, has_dangling_handler, has_dangling_arbiter, has_dangling_poster, no_interleave, domain_is_dangling, has_dangling_domain, open_is_dangling, has_dangling_open};
ghost use Rattle.ccr_wiring.specs.Groups.{is_interleave};

use crate::script_posts::ScriptPost;
use crate::{
    ArbiterPart, BranchPart, CausePart, DomainPart, HandlerPart, Kind, OpenPart, Parts, PosterPart,
    SetPart,
};
use ccr_base::{Action, ArbiterNo, Pattern, Slot};

fn is_beyond(count: usize, number: u32) -> bool
    ensures { result ≡ is_beyond count number }
{
    number as usize >= count
}

fn has_beyond(count: usize, numbers: &[u32]) -> bool
    ensures { result ≡ has_beyond count numbers.now }
{
    numbers.iter().any(|number| is_beyond(count, *number))
}

fn no_port(parts: &Parts, port: u32) -> bool
    ensures { result ≡ no_port parts.now port }
{
    is_beyond(parts.ports.as_slice().len(), port)
}

fn no_cause(parts: &Parts, cause: u32) -> bool
    ensures { result ≡ no_cause parts.now cause }
{
    is_beyond(parts.causes.as_slice().len(), cause)
}

fn action_is_dangling(parts: &Parts, action: &Action) -> bool
    ensures { result ≡ action_is_dangling parts.now action.now }
{
    match *action {
        Action::Post(port, _) | Action::Await(port) => no_port(parts, port),
        Action::Add(cause) | Action::Remove(cause) => no_cause(parts, cause),
        Action::Fail(_) => false,
    }
}

fn slots_are_dangling(parts: &Parts, slots: &[Slot]) -> bool
    ensures { result ≡ slots_are_dangling parts.now slots.now }
{
    slots.iter().any(|slot| no_port(parts, slot.port))
}

fn pattern_is_dangling(parts: &Parts, pattern: &Pattern) -> bool
    ensures { result ≡ pattern_is_dangling parts.now pattern.now }
{
    match pattern {
        Pattern::Slots(slots) => slots_are_dangling(parts, slots.as_slice()),
        Pattern::Gather { first, second, .. } => no_port(parts, *first) || no_port(parts, *second),
    }
}

fn branch_is_dangling(parts: &Parts, branch: &BranchPart) -> bool
    ensures { result ≡ branch_is_dangling parts.now branch.now }
{
    is_beyond(parts.queues.as_slice().len(), branch.queue)
        || is_beyond(parts.handlers.as_slice().len(), branch.handler)
        || pattern_is_dangling(parts, &branch.pattern)
}

fn post_is_dangling(parts: &Parts, post: &ScriptPost) -> bool
    ensures { result ≡ post_is_dangling parts.now post.now }
{
    no_port(parts, post.port()) || has_beyond(parts.causes.as_slice().len(), post.causes())
}

fn set_is_dangling(parts: &Parts, set: &SetPart) -> bool
    ensures { result ≡ set_is_dangling parts.now set.now }
{
    has_beyond(parts.ports.as_slice().len(), set.ports.as_slice())
}

fn cause_is_dangling(parts: &Parts, cause: &CausePart) -> bool
    ensures { result ≡ cause_is_dangling parts.now cause.now }
{
    no_port(parts, cause.port)
}

fn handler_is_dangling(parts: &Parts, part: &HandlerPart) -> bool
    ensures { result ≡ handler_is_dangling parts.now part.now }
{
    let actions = part.handler.actions.as_slice();
    actions
        .iter()
        .any(|action| action_is_dangling(parts, action))
}

fn arbiter_is_dangling(parts: &Parts, arbiter: &ArbiterPart) -> bool
    ensures { result ≡ arbiter_is_dangling parts.now arbiter.now }
{
    let branches = arbiter.branches.as_slice();
    branches
        .iter()
        .any(|branch| branch_is_dangling(parts, branch))
}

fn poster_is_dangling(parts: &Parts, poster: &PosterPart) -> bool
    ensures { result ≡ poster_is_dangling parts.now poster.now }
{
    poster
        .posts
        .as_slice()
        .iter()
        .any(|post| post_is_dangling(parts, post))
}

fn has_dangling_set(parts: &Parts) -> bool
    ensures { result ≡ has_dangling_set parts.now }
{
    parts
        .sets
        .as_slice()
        .iter()
        .any(|set| set_is_dangling(parts, set))
}

fn has_dangling_cause(parts: &Parts) -> bool
    ensures { result ≡ has_dangling_cause parts.now }
{
    parts
        .causes
        .as_slice()
        .iter()
        .any(|cause| cause_is_dangling(parts, cause))
}

fn has_dangling_handler(parts: &Parts) -> bool
    ensures { result ≡ has_dangling_handler parts.now }
{
    parts
        .handlers
        .as_slice()
        .iter()
        .any(|part| handler_is_dangling(parts, part))
}

fn has_dangling_arbiter(parts: &Parts) -> bool
    ensures { result ≡ has_dangling_arbiter parts.now }
{
    parts
        .arbiters
        .as_slice()
        .iter()
        .any(|arbiter| arbiter_is_dangling(parts, arbiter))
}

fn has_dangling_poster(parts: &Parts) -> bool
    ensures { result ≡ has_dangling_poster parts.now }
{
    parts
        .posters
        .as_slice()
        .iter()
        .any(|poster| poster_is_dangling(parts, poster))
}

/// Whether an arbiter of the kind is an Interleave.
pub fn is_interleave(kind: Kind) -> bool
    ensures { result ≡ is_interleave kind }
{
    match kind {
        Kind::Interleave => true,
        Kind::Receive | Kind::Choice => false,
    }
}

/// Whether the number names no Interleave.
pub fn no_interleave(parts: &Parts, number: ArbiterNo) -> bool
    ensures { result ≡ no_interleave parts.now number }
{
    match parts.arbiters.as_slice().get(number as usize) {
        Some(arbiter) => !is_interleave(arbiter.kind),
        None => true,
    }
}

fn domain_is_dangling(parts: &Parts, domain: &DomainPart) -> bool
    ensures { result ≡ domain_is_dangling parts.now domain.now }
{
    let members = domain.members.as_slice();
    members.iter().any(|member| no_interleave(parts, *member))
}

fn has_dangling_domain(parts: &Parts) -> bool
    ensures { result ≡ has_dangling_domain parts.now }
{
    parts
        .domains
        .as_slice()
        .iter()
        .any(|domain| domain_is_dangling(parts, domain))
}

fn open_is_dangling(parts: &Parts, count: usize, part: &OpenPart) -> bool
    ensures { result ≡ open_is_dangling parts.now count part.now }
{
    is_beyond(count, part.part) || has_beyond(parts.ports.as_slice().len(), part.ports.as_slice())
}

fn has_dangling_among(parts: &Parts, count: usize, listed: &[OpenPart]) -> bool
    ensures { result ≡ list_any (open_is_dangling parts.now count) listed.now }
{
    listed
        .iter()
        .any(|part| open_is_dangling(parts, count, part))
}

fn has_dangling_open(parts: &Parts) -> bool
    ensures { result ≡ has_dangling_open parts.now }
{
    let posters = parts.posters.as_slice().len();
    let handlers = parts.handlers.as_slice().len();
    has_dangling_among(parts, posters, parts.open_posters.as_slice())
        || has_dangling_among(parts, handlers, parts.open_handlers.as_slice())
}

pub(crate) fn has_dangling(parts: &Parts) -> bool
    ensures { result ≡ has_dangling parts.now }
{
    has_dangling_set(parts)
        || has_dangling_cause(parts)
        || has_dangling_handler(parts)
        || has_dangling_arbiter(parts)
        || has_dangling_poster(parts)
        || has_dangling_domain(parts)
        || has_dangling_open(parts)
}

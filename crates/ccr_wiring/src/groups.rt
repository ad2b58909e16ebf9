//! The groups and the number of an arbiter's branches.

ghost use Rattle.std.specs.Prelude.{◌≡◌};
ghost use Rattle.std.specs.List.{list_any};
ghost use Rattle.ccr_wiring.specs.Groups.{may_have, is_receive, is_one_named, has_strange_group, is_misgrouped, has_script, is_no_await, acts, poster_is_scripted, handler_is_scripted, has_scripted, has_misgrouped, is_branchless, has_branchless};

use crate::{ArbiterPart, BranchPart, HandlerPart, Kind, OpenPart, Parts, PosterPart};
use ccr_base::{Action, Group};

fn may_have(kind: Kind, group: Group) -> bool
    ensures { result ≡ may_have kind group }
{
    match kind {
        Kind::Receive => matches!(group, Group::Once | Group::Always),
        Kind::Choice => matches!(group, Group::Choice),
        Kind::Interleave => {
            matches!(
                group,
                Group::Teardown | Group::Exclusive | Group::Concurrent
            )
        }
    }
}

pub(crate) fn is_receive(kind: Kind) -> bool
    ensures { result ≡ is_receive kind }
{
    matches!(kind, Kind::Receive)
}

fn is_one_named(name: &[u8], branches: &[BranchPart]) -> bool
    ensures { result ≡ is_one_named name.now branches.now }
{
    match branches.split_first() {
        Some((branch, others)) => others.is_empty() && branch.name.as_slice() == name,
        None => false,
    }
}

fn has_strange_group(arbiter: &ArbiterPart) -> bool
    ensures { result ≡ has_strange_group arbiter.now }
{
    let kind = arbiter.kind;
    let branches = arbiter.branches.as_slice();
    branches.iter().any(|branch| !may_have(kind, branch.group))
}

fn is_misgrouped(arbiter: &ArbiterPart) -> bool
    ensures { result ≡ is_misgrouped arbiter.now }
{
    has_strange_group(arbiter)
        || is_receive(arbiter.kind)
            && !is_one_named(arbiter.name.as_slice(), arbiter.branches.as_slice())
}

fn has_misgrouped_arbiter(arbiters: &[ArbiterPart]) -> bool
    ensures { result ≡ list_any is_misgrouped arbiters.now }
{
    arbiters.iter().any(|arbiter| is_misgrouped(arbiter))
}

fn has_script(poster: &PosterPart) -> bool
    ensures { result ≡ has_script poster.now }
{
    !poster.posts.as_slice().is_empty()
}

fn is_no_await(action: &Action) -> bool
    ensures { result ≡ is_no_await action.now }
{
    match action {
        Action::Await(_) => false,
        Action::Post(_, _) | Action::Fail(_) | Action::Add(_) | Action::Remove(_) => true,
    }
}

fn acts(part: &HandlerPart) -> bool
    ensures { result ≡ acts part.now }
{
    let actions = part.handler.actions.as_slice();
    actions.iter().any(|action| is_no_await(action))
}

fn poster_is_scripted(parts: &Parts, part: &OpenPart) -> bool
    ensures { result ≡ poster_is_scripted parts.now part.now }
{
    match parts.posters.as_slice().get(part.part as usize) {
        Some(poster) => has_script(poster),
        None => false,
    }
}

fn handler_is_scripted(parts: &Parts, part: &OpenPart) -> bool
    ensures { result ≡ handler_is_scripted parts.now part.now }
{
    match parts.handlers.as_slice().get(part.part as usize) {
        Some(handler) => acts(handler),
        None => false,
    }
}

fn has_scripted_poster(parts: &Parts) -> bool
    ensures { result ≡ list_any (poster_is_scripted parts.now) parts.now.open_posters }
{
    parts
        .open_posters
        .as_slice()
        .iter()
        .any(|part| poster_is_scripted(parts, part))
}

fn has_scripted_handler(parts: &Parts) -> bool
    ensures { result ≡ list_any (handler_is_scripted parts.now) parts.now.open_handlers }
{
    parts
        .open_handlers
        .as_slice()
        .iter()
        .any(|part| handler_is_scripted(parts, part))
}

fn has_scripted(parts: &Parts) -> bool
    ensures { result ≡ has_scripted parts.now }
{
    has_scripted_poster(parts) || has_scripted_handler(parts)
}

pub(crate) fn has_misgrouped(parts: &Parts) -> bool
    ensures { result ≡ has_misgrouped parts.now }
{
    has_misgrouped_arbiter(parts.arbiters.as_slice()) || has_scripted(parts)
}

fn is_branchless(arbiter: &ArbiterPart) -> bool
    ensures { result ≡ is_branchless arbiter.now }
{
    !is_receive(arbiter.kind) && arbiter.branches.as_slice().is_empty()
}

pub(crate) fn has_branchless(parts: &Parts) -> bool
    ensures { result ≡ has_branchless parts.now }
{
    parts
        .arbiters
        .as_slice()
        .iter()
        .any(|arbiter| is_branchless(arbiter))
}

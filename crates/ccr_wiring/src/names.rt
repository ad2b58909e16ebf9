//! The names that a wiring declares. They share one space.

ghost use Rattle.std.specs.Prelude.{◌≡◌, ◌++◌, IfOk, OnOk, map, flat_map};
ghost use Rattle.ccr_wiring.specs.Names.{queue_names, set_names, cause_names, handler_names, poster_names, branch_names, arbiter_names, declared_names, has_repeated, has_malformed};

use crate::groups::is_receive;
use crate::{
    ArbiterPart, BranchPart, CausePart, HandlerPart, Parts, PosterPart, QueuePart, SetPart,
};
use ccr_base::{Name, OutOfMemory};
use ccr_text::is_name;
use indexmap::IndexSet;
use std::alloc::Global;

fn add_queues<'a>(names: &mut Vec<&'a [u8]>, parts: &'a [QueuePart]) -> Result<(), OutOfMemory>
    ensures { OnOk result (map (λ name. name.now) names.new.items ≡ map (λ name. name.now) names.old.items ++ queue_names parts.now) }
{
    for part in parts {
        names.push(part.name.as_slice())?;
    }
    Ok(())
}

fn add_ports<'a>(names: &mut Vec<&'a [u8]>, ports: &'a [Name]) -> Result<(), OutOfMemory>
    ensures { OnOk result (map (λ name. name.now) names.new.items ≡ map (λ name. name.now) names.old.items ++ ports.now) }
{
    for name in ports {
        names.push(name.as_slice())?;
    }
    Ok(())
}

fn add_sets<'a>(names: &mut Vec<&'a [u8]>, parts: &'a [SetPart]) -> Result<(), OutOfMemory>
    ensures { OnOk result (map (λ name. name.now) names.new.items ≡ map (λ name. name.now) names.old.items ++ set_names parts.now) }
{
    for part in parts {
        names.push(part.name.as_slice())?;
    }
    Ok(())
}

fn add_causes<'a>(names: &mut Vec<&'a [u8]>, parts: &'a [CausePart]) -> Result<(), OutOfMemory>
    ensures { OnOk result (map (λ name. name.now) names.new.items ≡ map (λ name. name.now) names.old.items ++ cause_names parts.now) }
{
    for part in parts {
        names.push(part.name.as_slice())?;
    }
    Ok(())
}

fn add_handlers<'a>(names: &mut Vec<&'a [u8]>, parts: &'a [HandlerPart]) -> Result<(), OutOfMemory>
    ensures { OnOk result (map (λ name. name.now) names.new.items ≡ map (λ name. name.now) names.old.items ++ handler_names parts.now) }
{
    for part in parts {
        names.push(part.name.as_slice())?;
    }
    Ok(())
}

fn add_branches<'a>(
    names: &mut Vec<&'a [u8]>,
    branches: &'a [BranchPart],
) -> Result<(), OutOfMemory>
    ensures { OnOk result (map (λ name. name.now) names.new.items ≡ map (λ name. name.now) names.old.items ++ branch_names branches.now) }
{
    for branch in branches {
        names.push(branch.name.as_slice())?;
    }
    Ok(())
}

fn add_arbiter<'a>(names: &mut Vec<&'a [u8]>, arbiter: &'a ArbiterPart) -> Result<(), OutOfMemory>
    ensures { OnOk result (map (λ name. name.now) names.new.items ≡ map (λ name. name.now) names.old.items ++ arbiter_names arbiter.now) }
{
    names.push(arbiter.name.as_slice())?;
    if is_receive(arbiter.kind) {
        return Ok(());
    }
    add_branches(names, arbiter.branches.as_slice())
}

fn add_arbiters<'a>(
    names: &mut Vec<&'a [u8]>,
    arbiters: &'a [ArbiterPart],
) -> Result<(), OutOfMemory>
    ensures { OnOk result (map (λ name. name.now) names.new.items ≡ map (λ name. name.now) names.old.items ++ flat_map arbiter_names arbiters.now) }
{
    for arbiter in arbiters {
        add_arbiter(names, arbiter)?;
    }
    Ok(())
}

fn add_posters<'a>(names: &mut Vec<&'a [u8]>, parts: &'a [PosterPart]) -> Result<(), OutOfMemory>
    ensures { OnOk result (map (λ name. name.now) names.new.items ≡ map (λ name. name.now) names.old.items ++ poster_names parts.now) }
{
    for part in parts {
        names.push(part.name.as_slice())?;
    }
    Ok(())
}

/// Every name that the parts declare.
pub(crate) fn declared_names(alloc: Global, parts: &Parts) -> Result<Vec<&[u8]>, OutOfMemory>
    ensures { IfOk result (λ names. map (λ name. name.now) names.items ≡ declared_names parts.now) }
{
    let mut names = Vec::new(alloc);
    add_queues(&mut names, parts.queues.as_slice())?;
    add_ports(&mut names, parts.ports.as_slice())?;
    add_sets(&mut names, parts.sets.as_slice())?;
    add_causes(&mut names, parts.causes.as_slice())?;
    add_handlers(&mut names, parts.handlers.as_slice())?;
    add_arbiters(&mut names, parts.arbiters.as_slice())?;
    add_posters(&mut names, parts.posters.as_slice())?;
    Ok(names)
}

/// Whether some name stands twice.
pub(crate) fn has_repeated(alloc: Global, names: &[&[u8]]) -> Result<bool, OutOfMemory>
    ensures { IfOk result (λ repeated. repeated ≡ has_repeated (map (λ name. name.now) names.now)) }
{
    let mut seen: IndexSet<&[u8]> = IndexSet::new(alloc);
    for name in names {
        if !seen.insert(*name)? {
            return Ok(true);
        }
    }
    Ok(false)
}

/// Whether some name isn't of the form of a name.
pub(crate) fn has_malformed(names: &[&[u8]]) -> bool
    ensures { result ≡ has_malformed (map (λ name. name.now) names.now) }
{
    for name in names {
        if !is_name(name) {
            return true;
        }
    }
    false
}

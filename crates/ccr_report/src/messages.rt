//! The messages of a history: where they were posted, and which of them are held.

ghost use Rattle.std.specs.Prelude.{◌≡◌, IfOk, filter, not};
ghost use Rattle.std.specs.HashSet.{contains};
ghost use Rattle.ccr_base.specs.declared.names.MsgId.{MsgId as Name};
ghost use Rattle.ccr_base.specs.declared.messages.Msg.{Msg as Message};
ghost use Rattle.ccr_base.specs.Names.{same_message, has_message};
ghost use Rattle.ccr_report.specs.Counting.{ports_of};
ghost use Rattle.ccr_model.specs.Posts.{posts};

use ccr_base::{MsgId, OutOfMemory, PortNo};
use ccr_model::Event;
use std::alloc::Global;
use std::collections::HashSet;

/// The ports of the posts, in order.
pub fn posted_ports(alloc: Global, events: &[Event]) -> Result<Vec<PortNo>, OutOfMemory>
    ensures { IfOk result (λ ports. ports.items ≡ ports_of (posts events.now)) }
{
    let mut ports = Vec::new(alloc);
    for event in events {
        if let Event::Post(message) = event {
            ports.push(message.port)?;
        }
    }
    Ok(ports)
}

/// The same names, to be looked up.
fn set_of(alloc: Global, names: &[MsgId]) -> Result<HashSet<MsgId>, OutOfMemory>
    ensures { IfOk result (λ set. (name : Name) → contains same_message set name ≡ has_message names.now name) }
{
    let mut set = HashSet::new(alloc);
    for name in names {
        set.insert(*name)?;
    }
    Ok(set)
}

/// Whether the name stands in the set.
fn is_in(set: &HashSet<MsgId>, name: MsgId) -> bool
    ensures { result ≡ contains same_message set.now name }
{
    set.contains(&name)
}

/// The ports of the messages that don't stand among these, in the order of their posts.
pub fn held_ports(
    alloc: Global,
    events: &[Event],
    taken: &[MsgId],
) -> Result<Vec<PortNo>, OutOfMemory>
    ensures { IfOk result (λ ports. ports.items ≡ ports_of (filter (λ (message : Message). not (has_message taken.now message.id)) (posts events.now))) }
{
    let taken = set_of(alloc, taken)?;
    let ports = ports_outside(alloc, events, &taken)?;
    Ok(ports)
}

fn ports_outside(
    alloc: Global,
    events: &[Event],
    taken: &HashSet<MsgId>,
) -> Result<Vec<PortNo>, OutOfMemory>
    ensures { IfOk result (λ ports. ports.items ≡ ports_of (filter (λ (message : Message). not (contains same_message taken.now message.id)) (posts events.now))) }
{
    let mut ports = Vec::new(alloc);
    for event in events {
        if let Event::Post(message) = event {
            if !is_in(taken, message.id) {
                ports.push(message.port)?;
            }
        }
    }
    Ok(ports)
}

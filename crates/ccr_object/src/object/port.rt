//! A port answers.

ghost use Rattle.std.specs.Prelude.{◌≡◌, ◌≤◌, IfOk, OnErr, IsOk, true};
ghost use Rattle.ccr_port.specs.Replies.{reply_note};
ghost use Rattle.ccr_claim.specs.Asks.{is_settling};
ghost use Rattle.ccr_object.specs.Ports.{answer, after, claim_reply, got_count};
ghost use Rattle.ccr_object.specs.Objects.{answered, is_due};

use ccr_base::{Msg, OutOfMemory, Slot, TaskId};
use ccr_claim::{Ask, Reply};
use ccr_places::{ClaimNote, Note};
use ccr_port::{Claimed, PortObject};
use std::alloc::Global;

#[inline(always)]
pub(super) fn act(
    alloc: Global,
    port: &mut PortObject,
    ask: Ask,
) -> Result<Option<(Reply, Note)>, OutOfMemory>
    ensures answer { IfOk result (λ given. given ≡ answer port.old ask) }
    ensures fits { IfOk result (λ given. is_due ask (answered given) ≡ true) }
    ensures state { IfOk result (λ given. port.new ≡ after port.old ask) }
    ensures err { OnErr result (port.new ≡ port.old) }
    ensures settles { is_settling ask ≡ true → IsOk result }
{
    match ask {
        Ask::Post(message) => post(alloc, port, message),
        Ask::Claim(task, slot) => claim(port, task, slot),
        Ask::Consume(task) => {
            if !port.may_consume(task) {
                return Ok(None);
            }
            port.consume(task);
            Ok(Some((Reply::Done, Note::Consume(task))))
        }
        Ask::Free(task) => {
            if !port.may_free(task) {
                return Ok(None);
            }
            port.free(task);
            Ok(Some((Reply::Done, Note::Free(task))))
        }
        _ => Ok(None),
    }
}

#[inline(always)]
fn post(
    alloc: Global,
    port: &mut PortObject,
    message: Msg,
) -> Result<Option<(Reply, Note)>, OutOfMemory>
    ensures answer { IfOk result (λ given. given ≡ answer port.old (Ask.Post message)) }
    ensures fits { IfOk result (λ given. is_due (Ask.Post message) (answered given) ≡ true) }
    ensures state { IfOk result (λ given. port.new ≡ after port.old (Ask.Post message)) }
    ensures err { OnErr result (port.new ≡ port.old) }
{
    if !port.may_post(&message) {
        return Ok(None);
    }
    let noted = message.copy(alloc)?;
    match port.post(message) {
        Ok(()) => Ok(Some((Reply::Done, Note::Post(noted)))),
        Err((refused, _)) => Err(refused),
    }
}

#[tactic(auto, using(crate::proofs::RepliesFitAsks::slot_due))]
#[inline(always)]
fn claim(
    port: &mut PortObject,
    task: TaskId,
    slot: Slot,
) -> Result<Option<(Reply, Note)>, OutOfMemory>
    ensures answer { IfOk result (λ given. given ≡ answer port.old (Ask.Claim task slot)) }
    ensures fits { IfOk result (λ given. is_due (Ask.Claim task slot) (answered given) ≡ true) }
    ensures state { IfOk result (λ given. port.new ≡ after port.old (Ask.Claim task slot)) }
    ensures err { OnErr result (port.new ≡ port.old) }
{
    if !port.may_claim(task, &slot) {
        return Ok(None);
    }
    let claimed = port.claim(task, &slot)?;
    let (given, noted) = told(claimed, slot.most);
    Ok(Some((
        given,
        Note::Claim {
            task,
            slot,
            reply: noted,
        },
    )))
}

#[inline(always)]
fn told(claimed: Claimed, most: u32) -> (Reply, ClaimNote)
    requires { got_count claimed ≤ most }
    ensures reply { result.0 ≡ claim_reply claimed }
    ensures note { result.1 ≡ reply_note claimed }
{
    match claimed {
        Claimed::Got(messages) => {
            let count = messages.as_slice().len() as u32;
            (Reply::Got(messages), ClaimNote::Got(count))
        }
        Claimed::Busy(task) => (Reply::Busy(task), ClaimNote::Busy(task)),
        Claimed::Short(count) => (Reply::Short(count), ClaimNote::Short(count)),
    }
}

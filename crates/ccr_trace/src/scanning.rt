//! The words of plain lines, in one scan from a word's first byte to the space behind it. What is found is what the readers of whole words say
//! (`fields.rt`); where nothing is found they decide.

ghost use Rattle.std.specs.Prelude.{◌≡◌, [], Some, IfSome};
ghost use Rattle.std.specs.Option.{option_map_or};
ghost use Rattle.ccr_trace.specs.Pieces.{pieces};
ghost use Rattle.ccr_trace.specs.Fields.{message_of, short_number, task_of};
ghost use Rattle.ccr_trace.specs.Forms.{field};

use ccr_base::{MsgId, TaskId};
use ccr_text::number_before;

/// The number below 2^32 before the first separator, and what stands behind that.
fn short_before(separator: u8, bytes: &[u8]) -> Option<(u32, Option<&[u8]>)>
    ensures { IfSome result (λ found. field short_number (pieces separator bytes.now) ≡ Some (found.0, option_map_or (λ rest. pieces separator rest.now) found.1 [])) }
{
    let (number, rest) = number_before(separator, bytes)?;
    if number > u64::from(u32::MAX) {
        return None;
    }
    Some((number as u32, rest))
}

/// tA.K before a space or at the end, and what stands behind the space.
pub fn task_before(bytes: &[u8]) -> Option<(TaskId, Option<&[u8]>)>
    ensures { IfSome result (λ found. field task_of (pieces 32 bytes.now) ≡ Some (found.0, option_map_or (λ rest. pieces 32 rest.now) found.1 [])) }
{
    let (first, numbers) = bytes.split_first()?;
    if *first != b't' {
        return None;
    }
    let (actor, rest) = short_before(b'.', numbers)?;
    let (attempt, rest) = short_before(b' ', rest?)?;
    Some((TaskId { actor, attempt }, rest))
}

/// sA.K
fn script_before(bytes: &[u8]) -> Option<(MsgId, Option<&[u8]>)>
    ensures { IfSome result (λ found. field message_of (pieces 32 bytes.now) ≡ Some (found.0, option_map_or (λ rest. pieces 32 rest.now) found.1 [])) }
{
    let (first, numbers) = bytes.split_first()?;
    if *first != b's' {
        return None;
    }
    let (actor, rest) = short_before(b'.', numbers)?;
    let (place, rest) = short_before(b' ', rest?)?;
    Some((MsgId::Script { actor, place }, rest))
}

/// tA.K.I
fn task_message_before(bytes: &[u8]) -> Option<(MsgId, Option<&[u8]>)>
    ensures { IfSome result (λ found. field message_of (pieces 32 bytes.now) ≡ Some (found.0, option_map_or (λ rest. pieces 32 rest.now) found.1 [])) }
{
    let (first, numbers) = bytes.split_first()?;
    if *first != b't' {
        return None;
    }
    let (actor, rest) = short_before(b'.', numbers)?;
    let (attempt, rest) = short_before(b'.', rest?)?;
    let (place, rest) = short_before(b' ', rest?)?;
    let task = TaskId { actor, attempt };
    Some((MsgId::Task { task, place }, rest))
}

/// sA.K or tA.K.I before a space or at the end, and what stands behind the space.
pub fn message_before(bytes: &[u8]) -> Option<(MsgId, Option<&[u8]>)>
    ensures { IfSome result (λ found. field message_of (pieces 32 bytes.now) ≡ Some (found.0, option_map_or (λ rest. pieces 32 rest.now) found.1 [])) }
{
    if let Some(found) = script_before(bytes) {
        return Some(found);
    }
    task_message_before(bytes)
}

//! One more word at the end of a line, behind a space.

ghost use Rattle.std.specs.Prelude.{◌≡◌, ◌<◌, ◌^◌, ◌++◌, ◌∷◌, OnOk, decimal};
ghost use Rattle.std.specs.List.{All};
ghost use Rattle.ccr_trace.specs.Words.{task_word, message_word, other_numbers, spot_word};
ghost use Rattle.ccr_text.specs.Exact.{value_word};
ghost use Rattle.ccr_trace.specs.Said.{IsTask, IsMessage, HasNumbers};
ghost use Rattle.ccr_trace.specs.Known.{IsShortSpot};

use crate::prepending::{prepend_message, prepend_task};
use ccr_base::{List, MsgId, Name, OutOfMemory, Spot, TaskId, Value};
use ccr_text::{LineBuffer, put_bytes, put_number};
use ccr_wiring::put_spot_word;

pub fn put_word(out: &mut List<u8>, word: &[u8]) -> Result<(), OutOfMemory>
    ensures { OnOk result (out.new ≡ out.old ++ 32 ∷ word.now) }
{
    put_bytes(out, b" ")?;
    put_bytes(out, word)
}

pub fn put_number_word(out: &mut List<u8>, number: u64) -> Result<(), OutOfMemory>
    ensures { OnOk result (out.new ≡ out.old ++ 32 ∷ decimal number) }
{
    put_bytes(out, b" ")?;
    put_number(out, number)
}

pub fn put_task(out: &mut List<u8>, task: TaskId) -> Result<(), OutOfMemory>
    ensures text { OnOk result (out.new ≡ out.old ++ 32 ∷ task_word task) }
    ensures numbers { IsTask task }
{
    let mut word = LineBuffer::new();
    prepend_task(&mut word, task);
    put_bytes(out, word.as_slice())
}

pub fn put_message(out: &mut List<u8>, message: MsgId) -> Result<(), OutOfMemory>
    ensures text { OnOk result (out.new ≡ out.old ++ 32 ∷ message_word message) }
    ensures numbers { IsMessage message }
{
    let mut word = LineBuffer::new();
    prepend_message(&mut word, message);
    put_bytes(out, word.as_slice())
}

/// Each number behind a comma.
fn put_others(out: &mut List<u8>, others: &[u64]) -> Result<(), OutOfMemory>
    ensures text { OnOk result (out.new ≡ out.old ++ other_numbers others.now) }
    ensures numbers { OnOk result (All (λ n. n < 2 ^ 64) others.now) }
{
    for number in others {
        put_bytes(out, b",")?;
        put_number(out, *number)?;
    }
    Ok(())
}

/// The numbers, joined by commas.
fn put_joined(out: &mut List<u8>, numbers: &[u64]) -> Result<(), OutOfMemory>
    ensures text { OnOk result (out.new ≡ out.old ++ value_word numbers.now) }
    ensures numbers { OnOk result (All (λ n. n < 2 ^ 64) numbers.now) }
{
    let Some((first, others)) = numbers.split_first() else {
        return Ok(());
    };
    put_number(out, *first)?;
    put_others(out, others)
}

pub fn put_value(out: &mut List<u8>, value: Value) -> Result<(), OutOfMemory>
    ensures text { OnOk result (out.new ≡ out.old ++ 32 ∷ value_word value) }
    ensures numbers { OnOk result (HasNumbers value) }
{
    put_bytes(out, b" ")?;
    put_joined(out, value.numbers())
}

/// The word for the spot. `branches` are the names of all branches.
pub(crate) fn put_spot(out: &mut List<u8>, branches: &[Name], spot: Spot) -> Result<(), OutOfMemory>
    ensures text { OnOk result (out.new ≡ out.old ++ 32 ∷ spot_word branches.now spot) }
    ensures numbers { IsShortSpot spot }
{
    put_bytes(out, b" ")?;
    put_spot_word(out, branches, spot)
}

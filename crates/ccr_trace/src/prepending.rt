//! Words put in front of a line that is built from its end, each behind a space.

ghost use Rattle.std.specs.Prelude.{◌≡◌, ◌≤◌, ◌+◌, ◌++◌, ◌∷◌, length, decimal};
ghost use Rattle.ccr_text.specs.Room.{Fits};
ghost use Rattle.ccr_trace.specs.Words.{most_message_bytes, most_task_bytes, task_word, message_word};
ghost use Rattle.ccr_trace.specs.Said.{IsTask, IsMessage};

use ccr_base::{MsgId, TaskId};
use ccr_text::LineBuffer;

/// Two numbers with a full stop between them, behind a space and this letter.
#[inline(always)]
fn prepend_pair(line: &mut LineBuffer, letter: u8, first: u32, second: u32)
    requires { Fits most_task_bytes line.old }
    ensures text { line.new ≡ 32 ∷ (letter ∷ (decimal first ++ (46 ∷ (decimal second ++ line.old)))) }
    ensures short { length line.new ≤ length line.old + most_task_bytes }
{
    line.prepend_index(second);
    line.prepend_byte(b'.');
    line.prepend_index(first);
    line.prepend_byte(letter);
    line.prepend_byte(b' ');
}

#[inline(always)]
pub(crate) fn prepend_task(line: &mut LineBuffer, task: TaskId)
    requires { Fits most_task_bytes line.old }
    ensures text { line.new ≡ (32 ∷ task_word task) ++ line.old }
    ensures short { length line.new ≤ length line.old + most_task_bytes }
    ensures numbers { IsTask task }
{
    prepend_pair(line, b't', task.actor, task.attempt);
}

#[inline(always)]
pub(crate) fn prepend_message(line: &mut LineBuffer, message: MsgId)
    requires { Fits most_message_bytes line.old }
    ensures text { line.new ≡ (32 ∷ message_word message) ++ line.old }
    ensures short { length line.new ≤ length line.old + most_message_bytes }
    ensures numbers { IsMessage message }
{
    match message {
        MsgId::Script { actor, place } => prepend_pair(line, b's', actor, place),
        MsgId::Task { task, place } => {
            line.prepend_index(place);
            line.prepend_byte(b'.');
            prepend_task(line, task);
        }
    }
}

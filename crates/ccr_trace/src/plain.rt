//! The plain lines of events: each is built from its end, and added at once.

ghost use Rattle.std.specs.Prelude.{◌≡◌, ◌≤◌, ◌<◌, ◌+◌, ◌^◌, ◌++◌, ◌∷◌, [], OnOk, IfSome, IsTrue, length, map, codes, decimal};
ghost use Rattle.std.specs.List.{All};
ghost use Rattle.ccr_base.specs.Bounds.{most_name_bytes};
ghost use Rattle.ccr_text.specs.Spelling.{line_text};
ghost use Rattle.ccr_text.specs.Room.{Fits};
ghost use Rattle.ccr_trace.specs.Words.{task_word, message_word};
ghost use Rattle.ccr_trace.specs.Said.{IsTask, IsMessage};
ghost use Rattle.ccr_trace.specs.HistoryText.{behind};

use crate::prepending::{prepend_message, prepend_task};
use ccr_base::{List, MsgId, OutOfMemory, TaskId};
use ccr_text::{LineBuffer, put_bytes};

/// How many bytes may stand behind a message, which has at most 34.
const BEHIND_A_MESSAGE: usize = 62;

/// How many bytes may stand behind a firing's task and branch, which have at most 44 with the word `fire`.
const BEHIND_A_BRANCH: usize = 52;

/// A buffer that has the end of a line.
#[inline(always)]
fn line_end() -> LineBuffer
    ensures { result ≡ 10 ∷ [] }
{
    let mut line = LineBuffer::new();
    line.prepend_byte(b'\n');
    line
}

/// A word behind a space.
#[inline(always)]
fn prepend_word(line: &mut LineBuffer, word: &[u8])
    requires { Fits (length word.now + 1) line.old }
    ensures { line.new ≡ 32 ∷ (word.now ++ line.old) }
{
    line.prepend_bytes(word);
    line.prepend_byte(b' ');
}

/// A message with one number, at the port of this name.
pub(crate) fn put_plain_post(
    out: &mut List<u8>,
    id: MsgId,
    port: &[u8],
    number: u64,
) -> Result<(), OutOfMemory>
    requires { length port.now ≤ most_name_bytes }
    ensures text { OnOk result (out.new ≡ out.old ++ line_text (codes "post" ∷ message_word id ∷ port.now ∷ decimal number ∷ [])) }
    ensures numbers { IsMessage id }
{
    let mut line = line_end();
    line.prepend_number(number);
    line.prepend_byte(b' ');
    prepend_word(&mut line, port);
    prepend_message(&mut line, id);
    line.prepend_bytes(b"post");
    put_bytes(out, line.as_slice())
}

/// Puts the messages in front, from the last, as long as each fits: whether all do.
#[inline(always)]
fn prepend_messages(line: &mut LineBuffer, messages: &[MsgId]) -> bool
    ensures text { IsTrue result → line.new ≡ behind (map message_word messages.now) ++ line.old }
    ensures numbers { IsTrue result → All IsMessage messages.now }
{
    let mut left = messages.len();
    while left > 0 {
        if line.as_slice().len() > BEHIND_A_MESSAGE {
            return false;
        }
        left -= 1;
        prepend_message(line, messages[left]);
    }
    true
}

/// A firing of the branch of this name, without cuts; none where its messages don't fit.
#[inline(always)]
pub(crate) fn fire_line(task: TaskId, branch: &[u8], messages: &[MsgId]) -> Option<LineBuffer>
    requires { length branch.now ≤ most_name_bytes }
    ensures text { IfSome result (λ line. line ≡ line_text (codes "fire" ∷ task_word task ∷ branch.now ∷ map message_word messages.now)) }
    ensures numbers { IfSome result (λ _. IsTask task × All IsMessage messages.now) }
{
    let mut line = line_end();
    let all = prepend_messages(&mut line, messages);
    if !all || line.as_slice().len() > BEHIND_A_BRANCH {
        return None;
    }
    prepend_word(&mut line, branch);
    prepend_task(&mut line, task);
    line.prepend_bytes(b"fire");
    Some(line)
}

/// A word and a task.
pub(crate) fn put_task_line(
    out: &mut List<u8>,
    word: &[u8],
    task: TaskId,
) -> Result<(), OutOfMemory>
    requires { length word.now ≤ most_name_bytes }
    ensures text { OnOk result (out.new ≡ out.old ++ line_text (word.now ∷ task_word task ∷ [])) }
    ensures numbers { IsTask task }
{
    let mut line = line_end();
    prepend_task(&mut line, task);
    line.prepend_bytes(word);
    put_bytes(out, line.as_slice())
}

/// A put that drops a task.
pub(crate) fn put_drop_line(
    out: &mut List<u8>,
    task: TaskId,
    dropped: TaskId,
) -> Result<(), OutOfMemory>
    ensures text { OnOk result (out.new ≡ out.old ++ line_text (codes "put" ∷ task_word task ∷ codes "drop" ∷ task_word dropped ∷ [])) }
    ensures numbers { IsTask task × IsTask dropped }
{
    let mut line = line_end();
    prepend_task(&mut line, dropped);
    prepend_word(&mut line, b"drop");
    prepend_task(&mut line, task);
    line.prepend_bytes(b"put");
    put_bytes(out, line.as_slice())
}

pub(crate) fn put_start(out: &mut List<u8>, task: TaskId, actor: u32) -> Result<(), OutOfMemory>
    ensures text { OnOk result (out.new ≡ out.old ++ line_text (codes "start" ∷ task_word task ∷ decimal actor ∷ [])) }
    ensures numbers { IsTask task × (actor < 2 ^ 32) }
{
    let mut line = line_end();
    line.prepend_index(actor);
    line.prepend_byte(b' ');
    prepend_task(&mut line, task);
    line.prepend_bytes(b"start");
    put_bytes(out, line.as_slice())
}

/// The end of a task by a word.
pub(crate) fn put_end_line(out: &mut List<u8>, task: TaskId, how: &[u8]) -> Result<(), OutOfMemory>
    requires { length how.now ≤ most_name_bytes }
    ensures text { OnOk result (out.new ≡ out.old ++ line_text (codes "end" ∷ task_word task ∷ how.now ∷ [])) }
    ensures numbers { IsTask task }
{
    let mut line = line_end();
    prepend_word(&mut line, how);
    prepend_task(&mut line, task);
    line.prepend_bytes(b"end");
    put_bytes(out, line.as_slice())
}

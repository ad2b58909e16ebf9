//! Pieces of answers. Where memory is refused a piece lacks, and the row differs.

use ccr_base::{List, MsgId, Spot, TaskId};
use ccr_text::put_bytes;

pub fn put(out: &mut List<u8>, bytes: &[u8]) {
    let _ = put_bytes(out, bytes);
}

/// Adds the word, behind a space where something stands before it.
pub fn put_word(out: &mut List<u8>, word: &[u8]) {
    if !out.is_empty() {
        put(out, b" ");
    }
    put(out, word);
}

/// Adds the number as a word.
pub fn put_number(out: &mut List<u8>, number: u64) {
    put_word(out, b"");
    let _ = ccr_text::put_number(out, number);
}

pub fn put_numbers(out: &mut List<u8>, numbers: &[u32]) {
    for number in numbers {
        put_number(out, u64::from(*number));
    }
}

/// Adds the numbers of the letter's name, parted by points.
fn put_parts(out: &mut List<u8>, letter: &[u8], first: u32, second: u32) {
    put_word(out, letter);
    let _ = ccr_text::put_number(out, u64::from(first));
    put(out, b".");
    let _ = ccr_text::put_number(out, u64::from(second));
}

/// Adds the task's name.
pub fn put_task(out: &mut List<u8>, task: TaskId) {
    put_parts(out, b"t", task.actor, task.attempt);
}

/// Adds the message's name.
pub fn put_message(out: &mut List<u8>, message: MsgId) {
    match message {
        MsgId::Script { actor, place } => put_parts(out, b"s", actor, place),
        MsgId::Task { task, place } => {
            put_task(out, task);
            put(out, b".");
            let _ = ccr_text::put_number(out, u64::from(place));
        }
    }
}

/// Adds the branch's number, and that of its site.
pub fn put_spot(out: &mut List<u8>, spot: Spot) {
    match spot {
        Spot::Branch(branch) => put_number(out, u64::from(branch)),
        Spot::Site(branch, site) => put_parts(out, b"@", branch, site),
    }
}

pub fn put_truth(out: &mut List<u8>, truth: bool) {
    let word: &[u8] = if truth { b"yes" } else { b"no" };
    put_word(out, word);
}

/// Adds the line and code with which a text is refused.
pub fn put_refused(out: &mut List<u8>, line: u32, code: u8) {
    put_number(out, u64::from(line));
    put_number(out, u64::from(code));
}

/// Whether the answer, with `;` for each LF, is what is due.
pub fn is_due(answer: &[u8], due: &str) -> bool {
    let due = due.as_bytes();
    answer.len() == due.len()
        && answer.iter().zip(due).all(|(byte, wanted)| *byte == *wanted
            || (*byte == b'\n' && *wanted == b';'))
}

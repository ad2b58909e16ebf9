//! What one line of a record says.

ghost use Rattle.std.specs.Prelude.{◌≤◌, IfOk};
ghost use Rattle.ccr_base.specs.Bounds.{most_workers};
ghost use Rattle.ccr_replay.specs.Answers.{Gives, GivesSeen};
ghost use Rattle.ccr_replay.specs.Reading.{behind_first, done_in, done_on, skipped_in, skipped_on, workers_in, workers_of, workers_on};

use crate::refusals::RecordCode;
use ccr_base::{MAX_WORKERS, Name};
use ccr_text::{Line, is_comment, read_number};

/// The words behind the first of a line.
fn behind_first(line: &Line) -> Result<&[Name], RecordCode>
    ensures { GivesSeen result (behind_first line.now) }
{
    if !line.clean {
        return Err(RecordCode::Unclean);
    }
    match line.words.as_slice().split_first() {
        Some((_, others)) => Ok(others),
        None => Ok(&[]),
    }
}

/// The number of workers, where no further word stands behind it.
fn workers_of(digits: &[u8], others: &[Name]) -> Result<u32, RecordCode>
    ensures read { Gives result (workers_of digits.now others.now) }
    ensures few { IfOk result (λ workers. workers ≤ most_workers) }
{
    let Some(workers) = read_number(digits) else {
        return Err(RecordCode::Number);
    };
    if workers > u64::from(MAX_WORKERS) {
        return Err(RecordCode::Limit);
    }
    if !others.is_empty() {
        return Err(RecordCode::WordCount);
    }
    Ok(workers as u32)
}

/// The words behind `record` are `1` and the number of workers.
fn workers_in(words: &[Name]) -> Result<u32, RecordCode>
    ensures read { Gives result (workers_in words.now) }
    ensures few { IfOk result (λ workers. workers ≤ most_workers) }
{
    let Some((version, words)) = words.split_first() else {
        return Err(RecordCode::WordCount);
    };
    if version.as_slice() != b"1".as_slice() {
        return Err(RecordCode::Keyword);
    }
    let Some((digits, others)) = words.split_first() else {
        return Err(RecordCode::WordCount);
    };
    workers_of(digits.as_slice(), others)
}

/// How many workers the line of the record says that there are.
pub fn workers_on(line: &Line) -> Result<u32, RecordCode>
    ensures read { Gives result (workers_on line.now) }
    ensures few { IfOk result (λ workers. workers ≤ most_workers) }
{
    workers_in(behind_first(line)?)
}

/// The word behind `done` is `0`.
fn done_in(words: &[Name]) -> Result<(), RecordCode>
    ensures { Gives result (done_in words.now) }
{
    let Some((status, others)) = words.split_first() else {
        return Err(RecordCode::WordCount);
    };
    if status.as_slice() != b"0".as_slice() {
        return Err(RecordCode::Keyword);
    }
    if !others.is_empty() {
        return Err(RecordCode::WordCount);
    }
    Ok(())
}

/// Whether the line is the last one of a record.
pub fn done_on(line: &Line) -> Result<(), RecordCode>
    ensures { Gives result (done_on line.now) }
{
    done_in(behind_first(line)?)
}

/// A line without words or with a comment is skipped.
fn skipped_in(words: &[Name]) -> Result<(), RecordCode>
    ensures { Gives result (skipped_in words.now) }
{
    let Some((first, _)) = words.split_first() else {
        return Ok(());
    };
    if !is_comment(first.as_slice()) {
        return Err(RecordCode::Ending);
    }
    Ok(())
}

/// Whether the line is skipped.
pub fn skipped_on(line: &Line) -> Result<(), RecordCode>
    ensures { Gives result (skipped_on line.now) }
{
    if !line.clean {
        return Err(RecordCode::Unclean);
    }
    skipped_in(line.words.as_slice())
}

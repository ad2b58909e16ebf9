//! What one line says.

ghost use Rattle.ccr_replay.specs.Answers.{Gives};
ghost use Rattle.ccr_replay.specs.Turns.{actor_in, turn_of, turn_in, turn_on};

use crate::refusals::RecordCode;
use ccr_base::{ActorNo, Name};
use ccr_text::{Line, is_comment, read_number};

/// The actor that the words behind `turn` name.
fn actor_in(words: &[Name], actors: u32) -> Result<ActorNo, RecordCode>
    ensures { Gives result (actor_in actors words.now) }
{
    let Some((digits, others)) = words.split_first() else {
        return Err(RecordCode::WordCount);
    };
    let Some(actor) = read_number(digits.as_slice()) else {
        return Err(RecordCode::Number);
    };
    if actor >= u64::from(actors) {
        return Err(RecordCode::Limit);
    }
    if !others.is_empty() {
        return Err(RecordCode::WordCount);
    }
    Ok(actor as u32)
}

/// The actor of a line whose first word is no comment.
fn turn_of(first: &[u8], others: &[Name], actors: u32) -> Result<ActorNo, RecordCode>
    ensures { Gives result (turn_of actors first.now others.now) }
{
    if first != b"turn".as_slice() {
        return Err(RecordCode::Keyword);
    }
    actor_in(others, actors)
}

/// The actor of a line's words; none where the line is skipped.
fn turn_in(words: &[Name], actors: u32) -> Result<Option<ActorNo>, RecordCode>
    ensures { Gives result (turn_in actors words.now) }
{
    let Some((first, others)) = words.split_first() else {
        return Ok(None);
    };
    if is_comment(first.as_slice()) {
        return Ok(None);
    }
    Ok(Some(turn_of(first.as_slice(), others, actors)?))
}

/// Whose turn a line says it is; none where the line is skipped.
pub fn turn_on(line: &Line, actors: u32) -> Result<Option<ActorNo>, RecordCode>
    ensures { Gives result (turn_on actors line.now) }
{
    if !line.clean {
        return Err(RecordCode::Unclean);
    }
    turn_in(line.words.as_slice(), actors)
}

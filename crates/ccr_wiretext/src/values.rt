//! The word of a value.

ghost use Rattle.std.specs.Prelude.{◌≡◌, ◌∷◌, ◌<◌, [], IfSome, IfNone, length};
ghost use Rattle.ccr_text.specs.Answers.{Gives, GivesBy};
ghost use Rattle.ccr_wiretext.specs.Fields.{pieces, numbers_after, several, single, value_in};

use ccr_base::Value;
use ccr_text::{Code, Stop, read_number};
use std::alloc::Global;

/// What stands before the first comma, and what stands behind it.
fn split_piece(word: &[u8]) -> (&[u8], Option<&[u8]>)
    ensures whole { IfNone result.1 (pieces word.now ≡ result.0.now ∷ []) }
    ensures parts { IfSome result.1 (λ after. pieces word.now ≡ result.0.now ∷ pieces after.now) }
    ensures shorter { IfSome result.1 (λ after. length after.now < length word.now) }
{
    for (index, byte) in word.iter().enumerate() {
        if *byte == b',' {
            return (&word[..index], Some(&word[index + 1..]));
        }
    }
    (word, None)
}

/// The numbers between the commas of a word.
#[tactic(auto, unfolding(crate::specs::Fields::numbers_after))]
fn numbers_in(alloc: Global, word: &[u8]) -> Result<Vec<u64>, Stop<Code>>
    ensures { GivesBy (λ numbers. numbers.items) result (numbers_after [] (pieces word.now)) }
{
    let mut numbers = Vec::new(alloc);
    let mut rest = Some(word);
    'pieces: while let Some(bytes) = rest {
        let (piece, after) = split_piece(bytes);
        let Some(number) = read_number(piece) else {
            return Err(Stop::Refused(Code::Number));
        };
        numbers.push(number)?;
        rest = after;
    }
    Ok(numbers)
}

/// 1 to 8 numbers with commas between them.
#[tactic(auto, unfolding(crate::specs::Fields::several))]
fn several(alloc: Global, word: &[u8]) -> Result<Value, Stop<Code>>
    ensures { Gives result (several word.now) }
{
    let numbers = numbers_in(alloc, word)?;
    match Value::of(&numbers) {
        Some(value) => Ok(value),
        None => Err(Stop::Refused(Code::Limit)),
    }
}

#[tactic(auto, unfolding(crate::specs::Fields::single))]
fn single(word: &[u8]) -> Result<Value, Stop<Code>>
    ensures { Gives result (single word.now) }
{
    match read_number(word) {
        Some(number) => Ok(Value::one(number)),
        None => Err(Stop::Refused(Code::Number)),
    }
}

/// The value that a word is in a text of this version.
#[tactic(auto, unfolding(crate::specs::Fields::value_in))]
pub fn value_in(alloc: Global, version: u32, word: &[u8]) -> Result<Value, Stop<Code>>
    ensures { Gives result (value_in version word.now) }
{
    if version == 2 {
        several(alloc, word)
    } else {
        single(word)
    }
}

//! The first line of a text, by its words. No word is copied, and the list of words is used again for the next line.

ghost use Rattle.std.specs.Prelude.{◌≡◌, ◌≢◌, ◌<◌, ◌==◌, not, [], ◌∷◌, ◌++◌, IfOk, OnOk, length, map, filter};
ghost use Rattle.ccr_text.specs.Words.{is_clean, words_of};
ghost use Rattle.ccr_text.specs.Lines.{split_text, first_line};

use crate::words::{is_blank_byte, split_run};
use ccr_base::OutOfMemory;

/// Adds the word where it has a byte.
fn push_word<'a>(words: &mut Vec<&'a [u8]>, word: &'a [u8]) -> Result<(), OutOfMemory>
    ensures { OnOk result (map (λ word. word.now) words.new.items ≡ map (λ word. word.now) words.old.items ++ filter (λ piece. not (length piece == 0)) (word.now ∷ [])) }
{
    if !word.is_empty() {
        words.push(word)?;
    }
    Ok(())
}

/// Puts the words of the text's first line in place of those that `words` had. Tells whether the line is clean, and what
/// stands behind it. One pass over the line; memory is taken only where it has more words than any line before it.
pub fn take_line<'a>(
    text: &'a [u8],
    words: &mut Vec<&'a [u8]>,
) -> Result<(bool, &'a [u8]), OutOfMemory>
    requires { text.now ≢ [] }
    ensures words { OnOk result (map (λ word. word.now) words.new.items ≡ words_of (first_line text.now)) }
    ensures clean { IfOk result (λ taken. taken.0 ≡ is_clean (first_line text.now)) }
    ensures lines { IfOk result (λ taken. split_text text.now ≡ first_line text.now ∷ split_text taken.1.now) }
    ensures shorter { IfOk result (λ taken. length taken.1.now < length text.now) }
{
    words.clear();
    let mut clean = true;
    let mut rest = text;
    'runs: loop {
        let (word, behind) = split_run(rest);
        push_word(words, word)?;
        let Some((byte, after)) = behind else {
            return Ok((clean, &[]));
        };
        if byte == b'\n' {
            return Ok((clean, after));
        }
        clean = clean && is_blank_byte(byte);
        rest = after;
    }
}

//! Where in a text the first line stands that begins with a word.

ghost use Rattle.std.specs.Prelude.{◌≡◌, ◌≤◌, [], Some, IfSome, IfNone, length};
ghost use Rattle.std.specs.List.{slice_get};
ghost use Rattle.ccr_base.specs.Bounds.{most_bytes};
ghost use Rattle.ccr_text.specs.Words.{words_of};
ghost use Rattle.ccr_text.specs.Lines.{begins_with, find_line};

use crate::lines::split_line;
use crate::words::split_word;

/// The first word of a line, if it has one.
fn first_word(line: &[u8]) -> Option<&[u8]>
    ensures some { IfSome result (λ word. slice_get (words_of line.now) 0 ≡ Some word.now) }
    ensures none { IfNone result (words_of line.now ≡ []) }
{
    let mut rest = Some(line);
    'pieces: while let Some(bytes) = rest {
        let (word, after) = split_word(bytes);
        if !word.is_empty() {
            return Some(word);
        }
        rest = after;
    }
    None
}

/// Whether the line's first word is this one.
fn begins_with(word: &[u8], line: &[u8]) -> bool
    ensures { result ≡ begins_with word.now line.now }
{
    match first_word(line) {
        Some(first) => first == word,
        None => false,
    }
}

/// Finds the first line that opens with `word`: the byte it begins at and the lines before it. Where none does, the end of
/// the text and all its lines. One pass, which takes no memory.
pub fn find_line(text: &[u8], word: &[u8]) -> (usize, u32)
    requires { length text.now ≤ most_bytes }
    ensures line { result ≡ find_line text.now word.now }
    ensures within { result.0 ≤ length text.now }
    ensures few { result.1 ≤ length text.now }
{
    let mut rest = text;
    let mut number: u32 = 0;
    'lines: while !rest.is_empty() {
        let (line, after) = split_line(rest);
        if begins_with(word, line) {
            return (text.len() - rest.len(), number);
        }
        number += 1;
        rest = after.unwrap_or(&[]);
    }
    (text.len(), number)
}

//! The lines of a text.

ghost use Rattle.std.specs.Prelude.{◌≡◌, ◌≢◌, ◌≤◌, ◌<◌, false, [], ◌∷◌, ◌++◌, IfOk, IfSome, IfNone, length};
ghost use Rattle.std.specs.Option.{option_map_or};
ghost use Rattle.ccr_base.specs.Bounds.{most_bytes};
ghost use Rattle.ccr_text.specs.Lines.{split_text, has_feed, numbered_line, lines_of};

use crate::words::{is_clean_line, words_in};
use ccr_base::{List, Name, OutOfMemory};
use std::alloc::Global;

/// The most bytes that a text of any kind may have.
pub const MAX_TEXT: usize = 33_554_432;

/// A line of a text: its number, from 1 on, its words, and whether it has only blanks and bytes of words.
/// An unclean line has words too: the runs of bytes of words in it.
#[derive(Drop)]
pub struct Line {
    pub number: u32,
    pub words: List<Name>,
    pub clean: bool,
}

/// The first line of a text that isn't empty, and what follows its LF. None where it has no LF: then it is the last
/// line. A long text is read line by line with it, with no list of all lines.
pub fn split_line(text: &[u8]) -> (&[u8], Option<&[u8]>)
    requires { text.now ≢ [] }
    ensures feed { has_feed result.0.now ≡ false }
    ensures whole { IfNone result.1 (result.0.now ≡ text.now) }
    ensures parts { IfSome result.1 (λ rest. text.now ≡ result.0.now ++ 10 ∷ rest.now) }
    ensures lines { split_text text.now ≡ result.0.now ∷ option_map_or (λ rest. split_text rest.now) result.1 [] }
    ensures shorter { IfSome result.1 (λ rest. length rest.now < length text.now) }
{
    for (index, byte) in text.iter().enumerate() {
        if *byte == b'\n' {
            return (&text[..index], Some(&text[index + 1..]));
        }
    }
    (text, None)
}

/// The line with these bytes, which have no LF, and this number.
pub fn numbered_line(alloc: Global, number: u32, bytes: &[u8]) -> Result<Line, OutOfMemory>
    ensures { IfOk result (λ line. line ≡ numbered_line number bytes.now) }
{
    Ok(Line {
        number,
        words: words_in(alloc, bytes)?,
        clean: is_clean_line(bytes),
    })
}

/// The lines of a text, split at each LF. What follows the last LF is a line where it isn't empty.
/// One pass; a line takes some 40 bytes beside its words.
pub fn split_lines(alloc: Global, text: &[u8]) -> Result<List<Line>, OutOfMemory>
    requires { length text.now ≤ most_bytes }
    ensures { IfOk result (λ lines. lines ≡ lines_of text.now) }
{
    let mut lines = List::new(alloc);
    let mut rest = text;
    let mut number: u32 = 0;
    'lines: while !rest.is_empty() {
        let (bytes, after) = split_line(rest);
        number += 1;
        let line = numbered_line(alloc, number, bytes)?;
        lines.push(line).map_err(|(refused, _)| refused)?;
        rest = after.unwrap_or(&[]);
    }
    Ok(lines)
}

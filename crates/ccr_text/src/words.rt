//! Words of a line, and which words are names.

ghost use Rattle.std.specs.Prelude.{◌≡◌, ◌<◌, [], ◌∷◌, ◌++◌, true, false, IfOk, IfSome, IfNone, length};
ghost use Rattle.std.specs.List.{list_all};
ghost use Rattle.std.specs.Str.{bytes_eq};
ghost use Rattle.ccr_text.specs.Words.{is_blank, is_graphic, is_clean, pieces, words_of, is_comment, is_name_of, may_be_in_name};

use ccr_base::{List, Name, OutOfMemory};
use std::alloc::Global;

/// How many bytes a name has at most.
pub const MAX_NAME_BYTES: usize = 16;

fn is_graphic_byte(byte: u8) -> bool
    ensures { result ≡ is_graphic byte }
{
    (33..=126).contains(&byte)
}

/// Space, tab and CR.
pub fn is_blank_byte(byte: u8) -> bool
    ensures { result ≡ is_blank byte }
{
    matches!(byte, b' ' | b'\t' | b'\r')
}

/// Whether the bytes are blanks (space, tab, CR) and bytes of words (33 to 126) alone.
pub(crate) fn is_clean_line(line: &[u8]) -> bool
    ensures { result ≡ is_clean line.now }
{
    line.iter()
        .all(|byte| is_blank_byte(*byte) || is_graphic_byte(*byte))
}

/// What stands before the first byte that is not graphic, and what stands behind that byte.
pub fn split_word(line: &[u8]) -> (&[u8], Option<&[u8]>)
    ensures whole { IfNone result.1 (pieces line.now ≡ result.0.now ∷ []) }
    ensures parts { IfSome result.1 (λ after. pieces line.now ≡ result.0.now ∷ pieces after.now) }
    ensures shorter { IfSome result.1 (λ after. length after.now < length line.now) }
{
    for (index, byte) in line.iter().enumerate() {
        if !is_graphic_byte(*byte) {
            return (&line[..index], Some(&line[index + 1..]));
        }
    }
    (line, None)
}

/// The bytes of words at the beginning, and the first byte that is none with what follows it.
pub fn split_run(bytes: &[u8]) -> (&[u8], Option<(u8, &[u8])>)
    ensures graphic { list_all is_graphic result.0.now ≡ true }
    ensures whole { IfNone result.1 (bytes.now ≡ result.0.now) }
    ensures parts { IfSome result.1 (λ behind. bytes.now ≡ result.0.now ++ behind.0 ∷ behind.1.now) }
    ensures other { IfSome result.1 (λ behind. is_graphic behind.0 ≡ false) }
{
    for (index, byte) in bytes.iter().enumerate() {
        if !is_graphic_byte(*byte) {
            return (&bytes[..index], Some((*byte, &bytes[index + 1..])));
        }
    }
    (bytes, None)
}

/// The words of a line. A word goes on as long as its bytes are printable and no space (33 to 126).
pub fn words_in(alloc: Global, line: &[u8]) -> Result<List<Name>, OutOfMemory>
    ensures { IfOk result (λ words. words ≡ words_of line.now) }
{
    let mut words = List::new(alloc);
    let mut rest = Some(line);
    'pieces: while let Some(bytes) = rest {
        let (word, after) = split_word(bytes);
        if !word.is_empty() {
            let word = List::from_vec(Vec::from_slice(alloc, word)?);
            words.push(word).map_err(|(refused, _)| refused)?;
        }
        rest = after;
    }
    Ok(words)
}

/// Whether the word is that text.
pub fn is_text(word: &[u8], text: &str) -> bool
    ensures { result ≡ bytes_eq word.now text.now }
{
    word == text.as_bytes()
}

/// Whether a line that begins with the word is a comment.
pub fn is_comment(word: &[u8]) -> bool
    ensures { result ≡ is_comment word.now }
{
    match word.first() {
        Some(byte) => *byte == b'#',
        None => false,
    }
}

fn is_name_byte(byte: u8) -> bool
    ensures { result ≡ may_be_in_name byte }
{
    byte.is_ascii_alphanumeric() || byte == b'_' || byte == b'-'
}

fn are_name_bytes(bytes: &[u8]) -> bool
    ensures { result ≡ list_all may_be_in_name bytes.now }
{
    bytes.iter().all(|byte| is_name_byte(*byte))
}

/// Whether the word is a name: 1 to 16 bytes, an ASCII letter and then letters, digits, `_` and `-`.
pub fn is_name(word: &[u8]) -> bool
    ensures { result ≡ is_name_of word.now }
{
    let Some((first, others)) = word.split_first() else {
        return false;
    };
    if !first.is_ascii_alphabetic() || others.len() >= MAX_NAME_BYTES {
        return false;
    }
    are_name_bytes(others)
}

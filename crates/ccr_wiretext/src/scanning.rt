//! The plain lines of a poster, in one scan. What is found is what the reader of words says (`reading.rt`); where nothing is found it decides.

ghost use Rattle.std.specs.Prelude.{◌≡◌, ◌≢◌, ◌++◌, ◌∷◌, [], ◌⊎◌, true, codes, IfSome};
ghost use Rattle.std.specs.List.{list_all};
ghost use Rattle.ccr_text.specs.Words.{is_graphic};
ghost use Rattle.ccr_wiretext.specs.Scanning.{IsPlainPost};

use ccr_text::number_before;

/// A line `post PORT N`: its port's name, its number, and what stands behind it.
#[derive(Clone, Copy)]
pub struct PlainPost<'a> {
    pub port: &'a [u8],
    pub number: u64,
    pub behind: &'a [u8],
}

/// The text without two spaces at its beginning.
fn unindented(text: &[u8]) -> &[u8]
    ensures { (text.now ≡ result.now) ⊎ (text.now ≡ codes "  " ++ result.now) }
{
    match text {
        [b' ', b' ', rest @ ..] => rest,
        _ => text,
    }
}

/// What stands behind `post` and a space.
fn post_words(text: &[u8]) -> Option<&[u8]>
    ensures { IfSome result (λ words. text.now ≡ codes "post " ++ words.now) }
{
    match text {
        [b'p', b'o', b's', b't', b' ', words @ ..] => Some(words),
        _ => None,
    }
}

/// A word before a space, and what stands behind that.
fn word_before(bytes: &[u8]) -> Option<(&[u8], &[u8])>
    ensures parts { IfSome result (λ found. bytes.now ≡ found.0.now ++ 32 ∷ found.1.now) }
    ensures graphic { IfSome result (λ found. list_all is_graphic found.0.now ≡ true) }
    ensures some { IfSome result (λ found. found.0.now ≢ []) }
{
    for (index, byte) in bytes.iter().enumerate() {
        if *byte == b' ' && index > 0 {
            return Some((&bytes[..index], &bytes[index + 1..]));
        }
        if !(33..=126).contains(byte) {
            return None;
        }
    }
    None
}

/// The post that the text's first line is, where it is a plain one: its three words with one space between them, behind two spaces or none, and LF.
pub fn plain_post(text: &[u8]) -> Option<PlainPost<'_>>
    ensures { IfSome result (IsPlainPost text.now) }
{
    let words = post_words(unindented(text))?;
    let (port, numbers) = word_before(words)?;
    let (number, behind) = number_before(b'\n', numbers)?;
    Some(PlainPost {
        port,
        number,
        behind: behind?,
    })
}

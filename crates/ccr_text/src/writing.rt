//! Writing at the end of a text, whole or not at all.

ghost use Rattle.std.specs.Prelude.{◌≡◌, ◌≤◌, ◌++◌, OnOk, OnErr, length, take, map};
ghost use Rattle.ccr_text.specs.Spelling.{Grew, spaced, line_text};

use ccr_base::{List, OutOfMemory};

/// Takes off the end what stands behind this length.
pub fn shorten(out: &mut List<u8>, len: usize)
    requires { len ≤ length out.old }
    ensures { out.new ≡ take len out.old }
{
    'longer: while out.as_slice().len() > len {
        let last = out.as_slice().len() - 1;
        out.remove(last);
    }
}

/// Adds the bytes. Without memory the text stays as it was.
pub fn put_bytes(out: &mut List<u8>, bytes: &[u8]) -> Result<(), OutOfMemory>
    ensures ok { OnOk result (out.new ≡ out.old ++ bytes.now) }
    ensures err { OnErr result (out.new ≡ out.old) }
{
    out.extend(bytes)
}

/// What follows the first word of a line.
fn put_spaced(out: &mut List<u8>, words: &[&[u8]]) -> Result<(), OutOfMemory>
    ensures ok { OnOk result (out.new ≡ out.old ++ spaced (map (λ word. word.now) words.now)) }
    ensures err { OnErr result (Grew out.old out.new) }
{
    for word in words {
        put_bytes(out, b" ")?;
        put_bytes(out, word)?;
    }
    put_bytes(out, b"\n")
}

fn put_words(out: &mut List<u8>, words: &[&[u8]]) -> Result<(), OutOfMemory>
    ensures ok { OnOk result (out.new ≡ out.old ++ line_text (map (λ word. word.now) words.now)) }
    ensures err { OnErr result (Grew out.old out.new) }
{
    match words.split_first() {
        None => put_bytes(out, b"\n"),
        Some((first, others)) => {
            put_bytes(out, first)?;
            put_spaced(out, others)
        }
    }
}

/// Adds a line of these words, with single spaces between them and LF at its end. Without memory the text stays as it was.
pub fn put_line(out: &mut List<u8>, words: &[&[u8]]) -> Result<(), OutOfMemory>
    ensures ok { OnOk result (out.new ≡ out.old ++ line_text (map (λ word. word.now) words.now)) }
    ensures err { OnErr result (out.new ≡ out.old) }
{
    let len = out.as_slice().len();
    match put_words(out, words) {
        Ok(()) => Ok(()),
        Err(refused) => {
            shorten(out, len);
            Err(refused)
        }
    }
}

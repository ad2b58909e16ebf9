//! The word of a spot.

ghost use Rattle.std.specs.Prelude.{◌≡◌, ◌++◌, IfOk, OnErr, OnOk};
ghost use Rattle.ccr_text.specs.Spelling.{Grew};
ghost use Rattle.ccr_wiring.specs.SpotWords.{spot_word};

use crate::spot_names::name_at;
use ccr_base::{List, Name, OutOfMemory, Spot};
use ccr_text::{put_bytes, put_number, shorten};
use std::alloc::Global;

/// The word for the spot: its branch's name, or NAME@K for the branch's site K. `branches` are the names of all branches.
pub fn spot_text(alloc: Global, branches: &[Name], spot: Spot) -> Result<List<u8>, OutOfMemory>
    ensures { IfOk result (λ word. word ≡ spot_word branches.now spot) }
{
    let mut word = List::new(alloc);
    put_spot_word(&mut word, branches, spot)?;
    Ok(word)
}

/// Adds the word for the spot at the end. Without memory the text stays as it was.
pub fn put_spot_word(out: &mut List<u8>, branches: &[Name], spot: Spot) -> Result<(), OutOfMemory>
    ensures ok { OnOk result (out.new ≡ out.old ++ spot_word branches.now spot) }
    ensures err { OnErr result (out.new ≡ out.old) }
{
    let len = out.as_slice().len();
    match put_parts(out, branches, spot) {
        Ok(()) => Ok(()),
        Err(refused) => {
            shorten(out, len);
            Err(refused)
        }
    }
}

/// Adds the parts of the word, one after another. Without memory some of them may stand behind the text.
fn put_parts(out: &mut List<u8>, branches: &[Name], spot: Spot) -> Result<(), OutOfMemory>
    ensures ok { OnOk result (out.new ≡ out.old ++ spot_word branches.now spot) }
    ensures err { OnErr result (Grew out.old out.new) }
{
    match spot {
        Spot::Branch(branch) => put_bytes(out, name_at(branches, branch)),
        Spot::Site(branch, site) => {
            put_bytes(out, name_at(branches, branch))?;
            put_bytes(out, b"@")?;
            put_number(out, u64::from(site))
        }
    }
}

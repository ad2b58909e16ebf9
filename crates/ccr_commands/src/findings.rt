//! What `verify` finds, and its text.

ghost use Rattle.std.specs.Prelude.{◌≡◌, [], ◌∷◌, ◌++◌, IfOk, codes, decimal};
ghost use Rattle.ccr_commands.specs.Findings.{finding_text, yes_or_no};

use ccr_base::{List, OutOfMemory};
use ccr_model::Rule;
use ccr_text::{put_bytes, put_number};
use std::alloc::Global;

/// What is found of an output, the first that is there. Lines are counted from the first one of the whole input.
#[derive(Clone, Copy, PartialEq, Eq)]
pub enum Finding {
    /// It doesn't begin with the text of a history: the first line that offends, and the code.
    Malformed { line: u32, code: u8 },
    /// Its history isn't legal: the line of the first event that isn't allowed, and its rule.
    Illegal { line: u32, rule: Rule },
    /// The first line that differs from the report and the last line that are due.
    Misreported { line: u32 },
    Legal { complete: bool, quiet: bool },
}

fn yes_or_no(is: bool) -> &'static [u8]
    ensures { result.now ≡ yes_or_no is }
{
    if is { b"yes" } else { b"no" }
}

/// What was found in a word, two numbers, and the last line.
fn fault_text(alloc: Global, word: &[u8], line: u32, number: u8) -> Result<List<u8>, OutOfMemory>
    ensures { IfOk result (λ text. text ≡ word.now ++ decimal line ++ 32 ∷ decimal number ++ 10 ∷ codes "done 7" ++ 10 ∷ []) }
{
    let mut text = List::from_vec(Vec::from_slice(alloc, word)?);
    put_number(&mut text, u64::from(line))?;
    put_bytes(&mut text, b" ")?;
    put_number(&mut text, u64::from(number))?;
    put_bytes(&mut text, b"\ndone 7\n")?;
    Ok(text)
}

fn misreported_text(alloc: Global, line: u32) -> Result<List<u8>, OutOfMemory>
    ensures { IfOk result (λ text. text ≡ codes "misreported " ++ decimal line ++ 10 ∷ codes "done 7" ++ 10 ∷ []) }
{
    let mut text = List::from_vec(Vec::from_slice(alloc, b"misreported ")?);
    put_number(&mut text, u64::from(line))?;
    put_bytes(&mut text, b"\ndone 7\n")?;
    Ok(text)
}

fn legal_text(alloc: Global, complete: bool, quiet: bool) -> Result<List<u8>, OutOfMemory>
    ensures { IfOk result (λ text. text ≡ codes "legal complete " ++ yes_or_no complete ++ codes " quiet " ++ yes_or_no quiet ++ 10 ∷ codes "done 0" ++ 10 ∷ []) }
{
    let mut text = List::from_vec(Vec::from_slice(alloc, b"legal complete ")?);
    put_bytes(&mut text, yes_or_no(complete))?;
    put_bytes(&mut text, b" quiet ")?;
    put_bytes(&mut text, yes_or_no(quiet))?;
    put_bytes(&mut text, b"\ndone 0\n")?;
    Ok(text)
}

/// The finding's line and the last line.
pub fn finding_text(alloc: Global, finding: Finding) -> Result<List<u8>, OutOfMemory>
    ensures { IfOk result (λ text. text ≡ finding_text finding) }
{
    match finding {
        Finding::Malformed { line, code } => fault_text(alloc, b"malformed ", line, code),
        Finding::Illegal { line, rule } => fault_text(alloc, b"illegal ", line, rule.number()),
        Finding::Misreported { line } => misreported_text(alloc, line),
        Finding::Legal { complete, quiet } => legal_text(alloc, complete, quiet),
    }
}

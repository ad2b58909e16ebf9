//! What the judge answers.

/// Legal, with whether the history is complete and whether it is quiet; or the index, from 0, of the first event that
/// isn't allowed after those before it, and the number of the first rule of docs/MODEL.md that refuses it.
#[derive(Clone, Copy, PartialEq, Eq)]
pub enum Verdict {
    Legal { complete: bool, quiet: bool },
    Illegal { at: u32, rule: u8 },
}

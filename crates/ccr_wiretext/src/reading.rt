//! A text, line by line.

ghost use Rattle.std.specs.Prelude.{◌≡◌, true, ◌≢◌, ◌≤◌, [], length, None, IfErr, IfNone, IfOk, IfSome};
ghost use Rattle.ccr_base.specs.Bounds.{most_wiring_bytes};
ghost use Rattle.ccr_text.specs.Answers.{Gives, GivesState};
ghost use Rattle.ccr_text.specs.Fields.{seen};
ghost use Rattle.ccr_wiring.specs.Openness.{is_closed};
ghost use Rattle.ccr_wiring.specs.Valid.{IsValid};
ghost use Rattle.ccr_wiretext.specs.Answers.{IsReading, IsNoText};
ghost use Rattle.ccr_wiretext.specs.Lines.{IsText};
ghost use Rattle.ccr_wiretext.specs.Reading.{version_word, version_of, after_all, after_clean, at_end, reading_text};
ghost use Rattle.ccr_wiretext.specs.Scanning.{IsLineRefused, IsLineTaken};

use crate::draft::{Block, Draft};
use crate::keyword::keyword_of;
use crate::refused::ReadRefused;
use crate::scanning::plain_post;
use ccr_base::OutOfMemory;
use ccr_text::{Code, Cursor, Stop, is_comment, is_text, take_line};
use ccr_wiring::{Parts, Unfit, Wiring};
use std::alloc::Global;
use std::marker::Model;

/// The most bytes that a wiring or a service may have.
pub const MAX_WIRING_TEXT: usize = 1_048_576;

/// What is declared so far: nothing before the line that gives the version.
#[derive(Drop)]
struct Reader {
    alloc: Global,
    draft: Option<Draft>,
}

impl Model for Reader {
    ghost use Rattle.ccr_wiretext.specs.Reading.{So};

    ghost Value = { So };

    ghost view = { λ reader. reader.draft };
}

fn version_word(word: &[u8]) -> Option<u32>
    ensures { result ≡ version_word word.now }
{
    if is_text(word, "1") {
        Some(1)
    } else if is_text(word, "2") {
        Some(2)
    } else {
        None
    }
}

/// The version of the line `ccr 1` or `ccr 2`.
fn version_of(words: &[&[u8]]) -> Option<u32>
    ensures { result ≡ version_of (seen words.now) }
{
    match words {
        [first, second] if is_text(first, "ccr") => version_word(second),
        _ => None,
    }
}

impl Reader {
    fn new(alloc: Global) -> Self
        ensures { result ≡ None }
    {
        Reader { alloc, draft: None }
    }

    #[tactic(auto, unfolding(crate::specs::Reading::after_all, crate::specs::Reading::after_words))]
    fn words(&mut self, words: &[&[u8]]) -> Result<(), Stop<Code>>
        ensures { GivesState self.new result (after_all self.old (seen words.now)) }
    {
        let Some((first, others)) = words.split_first() else {
            return Ok(());
        };
        if is_comment(first) {
            return Ok(());
        }
        match &mut self.draft {
            Some(draft) => draft.line(keyword_of(first), Cursor::new(others)),
            None => {
                let Some(version) = version_of(words) else {
                    return Err(Stop::Refused(Code::Version));
                };
                self.draft = Some(Draft::new(self.alloc, version));
                Ok(())
            }
        }
    }

    /// Takes in the words of the next line, which is clean or isn't.
    fn line(&mut self, clean: bool, words: &[&[u8]]) -> Result<(), Stop<Code>>
        ensures { GivesState self.new result (after_clean self.old clean (seen words.now)) }
    {
        if !clean {
            return Err(Stop::Refused(Code::Unclean));
        }
        self.words(words)
    }

    /// Takes in the text's first line where it is a plain post, and answers what stands behind it.
    fn plain_line<'t>(&mut self, text: &'t [u8]) -> Result<Option<&'t [u8]>, OutOfMemory>
        ensures taken { IfOk result (λ found. IfSome found (λ behind. IsLineTaken self.old text.now self.new behind.now)) }
        ensures left { IfOk result (λ found. IfNone found (self.new ≡ self.old)) }
    {
        let Some(draft) = &mut self.draft else {
            return Ok(None);
        };
        let Some(post) = plain_post(text) else {
            return Ok(None);
        };
        if !draft.plain_post(post.port, post.number)? {
            return Ok(None);
        }
        Ok(Some(post.behind))
    }

    /// Takes in the text's first line, and answers what stands behind it. No word is copied, and all lines use one list of words.
    fn next<'t>(
        &mut self,
        text: &'t [u8],
        words: &mut Vec<&'t [u8]>,
    ) -> Result<&'t [u8], Stop<Code>>
        requires { text.now ≢ [] }
        ensures taken { IfOk result (λ behind. IsLineTaken self.old text.now self.new behind.now) }
        ensures refused { IfErr result (IsLineRefused self.old text.now) }
    {
        if let Some(behind) = self.plain_line(text)? {
            return Ok(behind);
        }
        let (clean, behind) = take_line(text, words)?;
        self.line(clean, words)?;
        Ok(behind)
    }

    /// The parts, at the end of the text.
    #[tactic(auto, unfolding(crate::specs::Reading::at_end))]
    fn end(self) -> Result<Parts, Stop<Code>>
        ensures { Gives result (at_end self) }
    {
        let Reader { alloc: _, draft } = self;
        let Some(draft) = draft else {
            return Err(Stop::Refused(Code::Version));
        };
        let Draft {
            alloc: _,
            parts,
            budgeted: _,
            names: _,
            spotted: _,
            block,
        } = draft;
        match block {
            Block::Outside => Ok(parts),
            _ => Err(Stop::Refused(Code::OpenBlock)),
        }
    }
}

#[tactic(auto, unfolding(crate::specs::Reading::reading_after, crate::specs::Reading::after_line))]
fn read_text(alloc: Global, text: &[u8]) -> Result<Parts, ReadRefused>
    requires { length text.now ≤ most_wiring_bytes }
    ensures { IsReading result (reading_text text.now) }
{
    let mut reader = Reader::new(alloc);
    let mut words = Vec::new(alloc);
    let mut rest = text;
    let mut last: u32 = 0;
    'lines: while !rest.is_empty() {
        last += 1;
        match reader.next(rest, &mut words) {
            Ok(behind) => rest = behind,
            Err(stop) => return Err(ReadRefused::of(last, stop)),
        }
    }
    match reader.end() {
        Ok(parts) => Ok(parts),
        Err(stop) => Err(ReadRefused::of(last.max(1), stop)),
    }
}

/// The parts that a text says, or its first offending line and the code. Near linear in the text's length.
fn read_parts(alloc: Global, text: &[u8]) -> Result<Parts, ReadRefused>
    requires { length text.now ≤ most_wiring_bytes }
    ensures reading { IsReading result (reading_text text.now) }
    ensures grammar { IfOk result (λ parts. IsText text.now parts) }
    ensures valid { IfOk result (λ parts. IsValid parts) }
    ensures closed { IfOk result (λ parts. is_closed parts ≡ true) }
    ensures refused { IfErr result (λ refused. IsNoText text.now refused) }
{
    read_text(alloc, text)
}

/// The wiring that a text says, or its first offending line and the code (docs/FORMATS.md). Near linear in the text's
/// length.
pub fn read_wiring(alloc: Global, text: &[u8]) -> Result<Wiring, ReadRefused>
    requires { length text.now ≤ most_wiring_bytes }
    ensures reading { IsReading result (reading_text text.now) }
    ensures grammar { IfOk result (λ wiring. IsText text.now wiring) }
    ensures closed { IfOk result (λ wiring. is_closed wiring ≡ true) }
    ensures refused { IfErr result (λ refused. IsNoText text.now refused) }
{
    let parts = read_parts(alloc, text)?;
    match Wiring::check(alloc, parts) {
        Ok(wiring) => Ok(wiring),
        Err(Unfit::Memory) => Err(ReadRefused::Memory),
        Err(Unfit::Code(_)) => unreachable!(),
    }
}

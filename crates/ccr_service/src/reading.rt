//! A service text, line by line.

ghost use Rattle.std.specs.Prelude.{◌≡◌, ◌≢◌, ◌≤◌, [], length, None, IfOk, IfErr};
ghost use Rattle.ccr_base.specs.Bounds.{most_wiring_bytes};
ghost use Rattle.ccr_text.specs.Answers.{Gives, GivesState};
ghost use Rattle.ccr_text.specs.Fields.{seen};
ghost use Rattle.ccr_wiretext.specs.Answers.{IsReading};
ghost use Rattle.ccr_service.specs.Grammar.{IsText, IsNoText};
ghost use Rattle.ccr_service.specs.Reading.{is_version, after_all, after_clean, at_end, reading_text};
ghost use Rattle.ccr_service.specs.Taking.{IsLineRefused, IsLineTaken};

use crate::draft::ServiceDraft;
use crate::{Service, ServiceParts};
use ccr_text::{Code, Cursor, Stop, is_comment, is_text, take_line};
use ccr_wiretext::ReadRefused;
use std::alloc::Global;
use std::marker::Model;

/// What is declared so far: nothing before the line that gives the version.
#[derive(Drop)]
struct ServiceReader {
    alloc: Global,
    draft: Option<ServiceDraft>,
}

impl Model for ServiceReader {
    ghost use Rattle.ccr_service.specs.Reading.{So};

    ghost Value = { So };

    ghost view = { λ reader. reader.draft };
}

/// Whether the line is `service 1`.
fn is_version(words: &[&[u8]]) -> bool
    ensures { result ≡ is_version (seen words.now) }
{
    match words {
        [first, second] => is_text(first, "service") && is_text(second, "1"),
        _ => false,
    }
}

impl ServiceReader {
    fn new(alloc: Global) -> Self
        ensures { result ≡ None }
    {
        ServiceReader { alloc, draft: None }
    }

    #[tactic(auto, unfolding(crate::specs::Reading::after_all, crate::specs::Reading::after_words))]
    fn words(&mut self, words: &[&[u8]]) -> Result<(), Stop<Code>>
        ensures { GivesState self.new result (after_all self.old (seen words.now)) }
    {
        let Some((first, others)) = words.split_first() else {
            return Ok(());
        };
        if is_comment(first) {
            return Ok(());
        }
        match &mut self.draft {
            Some(draft) => draft.line(first, Cursor::new(others)),
            None => {
                if !is_version(words) {
                    return Err(Stop::Refused(Code::Version));
                }
                self.draft = Some(ServiceDraft::new(self.alloc));
                Ok(())
            }
        }
    }

    /// Takes in the words of the next line, which is clean or isn't.
    fn line(&mut self, clean: bool, words: &[&[u8]]) -> Result<(), Stop<Code>>
        ensures { GivesState self.new result (after_clean self.old clean (seen words.now)) }
    {
        if !clean {
            return Err(Stop::Refused(Code::Unclean));
        }
        self.words(words)
    }

    /// Takes in the text's first line, and answers what stands behind it. No word is copied, and all lines use one list of words.
    fn next<'t>(
        &mut self,
        text: &'t [u8],
        words: &mut Vec<&'t [u8]>,
    ) -> Result<&'t [u8], Stop<Code>>
        requires { text.now ≢ [] }
        ensures taken { IfOk result (λ behind. IsLineTaken self.old text.now self.new behind.now) }
        ensures refused { IfErr result (IsLineRefused self.old text.now) }
    {
        let (clean, behind) = take_line(text, words)?;
        self.line(clean, words)?;
        Ok(behind)
    }

    /// The parts, at the end of the text.
    #[tactic(auto, unfolding(crate::specs::Reading::at_end))]
    fn end(self) -> Result<ServiceParts, Stop<Code>>
        ensures { Gives result (at_end self) }
    {
        let ServiceReader { alloc: _, draft } = self;
        let Some(draft) = draft else {
            return Err(Stop::Refused(Code::Version));
        };
        let ServiceDraft {
            alloc: _,
            parts,
            policied: _,
            names: _,
            asks: _,
            block,
        } = draft;
        if block.is_some() {
            return Err(Stop::Refused(Code::OpenBlock));
        }
        if parts.ops.is_empty() {
            return Err(Stop::Refused(Code::Empty));
        }
        Ok(parts)
    }
}

#[tactic(auto, unfolding(crate::specs::Reading::reading_after, crate::specs::Reading::after_line))]
fn read_text(alloc: Global, text: &[u8]) -> Result<ServiceParts, ReadRefused>
    requires { length text.now ≤ most_wiring_bytes }
    ensures { IsReading result (reading_text text.now) }
{
    let mut reader = ServiceReader::new(alloc);
    let mut words = Vec::new(alloc);
    let mut rest = text;
    let mut last: u32 = 0;
    'lines: while !rest.is_empty() {
        last += 1;
        match reader.next(rest, &mut words) {
            Ok(behind) => rest = behind,
            Err(stop) => return Err(ReadRefused::of(last, stop)),
        }
    }
    match reader.end() {
        Ok(parts) => Ok(parts),
        Err(stop) => Err(ReadRefused::of(last.max(1), stop)),
    }
}

/// The service that a text says, or its first offending line and the code (docs/FORMATS.md). Near linear in the text's length.
pub fn read_service(alloc: Global, text: &[u8]) -> Result<Service, ReadRefused>
    requires { length text.now ≤ most_wiring_bytes }
    ensures reading { IsReading result (reading_text text.now) }
    ensures grammar { IfOk result (λ service. IsText text.now service) }
    ensures refused { IfErr result (λ refused. IsNoText text.now refused) }
{
    match read_text(alloc, text) {
        Ok(parts) => Ok(Service::of(parts)),
        Err(refused) => Err(refused),
    }
}

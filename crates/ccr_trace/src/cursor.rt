//! The words of a line, read from left to right.

ghost use Rattle.std.specs.Prelude.{◌≡◌, [], ◌∷◌, Some, IfSome, IfNone};
ghost use Rattle.std.specs.List.{list_all};
ghost use Rattle.ccr_text.specs.Words.{is_name_of};
ghost use Rattle.ccr_trace.specs.Pieces.{pieces};
ghost use Rattle.ccr_trace.specs.Fields.{short_number, value_of, name_of, task_of, message_of, spot_of};
ghost use Rattle.ccr_trace.specs.Forms.{word, no_more, only, field};
ghost use Rattle.ccr_trace.specs.Answers.{Says, Leaves, LeavesBy};

use crate::fields::{message_of, short_in, spot_of, task_of, value_of};
use crate::line_fault::LineFault;
use crate::pieces::Pieces;
use ccr_base::{ActorNo, MsgId, TaskId, Value};
use ccr_text::{Stop, is_name};
use std::marker::Model;

/// The words that are left. Each method takes the words of one field; the line is malformed where they don't fit it.
#[derive(Drop)]
pub struct PieceCursor<'a> {
    words: Pieces<'a>,
}

impl<'a> Model for PieceCursor<'a> {
    ghost use Rattle.std.specs.Prelude.{List as Listed, ℕ};

    ghost Value = { Listed (Listed ℕ) };

    ghost view = { λ cursor. cursor.words };
}

impl<'a> PieceCursor<'a> {
    /// The words of a line without its LF. One space stands between two words.
    pub fn new(line: &'a [u8]) -> Self
        ensures { result ≡ pieces 32 line.now }
    {
        PieceCursor {
            words: Pieces::new(b' ', line),
        }
    }

    /// Takes the first word, where there is one.
    pub fn take(&mut self) -> Option<&'a [u8]>
        ensures some { IfSome result (λ word. self.old ≡ word.now ∷ self.new) }
        ensures none { IfNone result (self.old ≡ []) }
    {
        self.words.take()
    }

    pub fn word(&mut self) -> Result<&'a [u8], Stop<LineFault>>
        ensures { LeavesBy (λ word. word.now) self.new result (word self.old) }
    {
        self.take().ok_or(Stop::Refused(LineFault::Malformed))
    }

    pub fn no_more(&self) -> Result<(), Stop<LineFault>>
        ensures { Says result (no_more self.now) }
    {
        if !self.words.is_empty() {
            return Err(Stop::Refused(LineFault::Malformed));
        }
        Ok(())
    }

    pub fn task(&mut self) -> Result<TaskId, Stop<LineFault>>
        ensures { Leaves self.new result (field task_of self.old) }
    {
        if let Some(task) = self.words.plain_task() {
            return Ok(task);
        }
        let word = self.word()?;
        task_of(word).ok_or(Stop::Refused(LineFault::Malformed))
    }

    pub fn message(&mut self) -> Result<MsgId, Stop<LineFault>>
        ensures { Leaves self.new result (field message_of self.old) }
    {
        if let Some(message) = self.words.plain_message() {
            return Ok(message);
        }
        let word = self.word()?;
        message_of(word).ok_or(Stop::Refused(LineFault::Malformed))
    }

    /// Takes the first word where one scan finds a message's name; else nothing is taken.
    pub fn plain_message(&mut self) -> Option<MsgId>
        ensures some { IfSome result (λ message. field message_of self.old ≡ Some (message, self.new)) }
        ensures none { IfNone result (self.new ≡ self.old) }
    {
        self.words.plain_message()
    }

    /// A word of the form of a name.
    pub fn name(&mut self) -> Result<&'a [u8], Stop<LineFault>>
        ensures { LeavesBy (λ name. name.now) self.new result (field name_of self.old) }
    {
        let word = self.word()?;
        if !is_name(word) {
            return Err(Stop::Refused(LineFault::Malformed));
        }
        Ok(word)
    }

    /// A value in a wiring of this version.
    pub fn value(&mut self, version: u32) -> Result<Value, Stop<LineFault>>
        ensures { Leaves self.new result (field (value_of version) self.old) }
    {
        let word = self.word()?;
        value_of(version, word).ok_or(Stop::Refused(LineFault::Malformed))
    }

    pub fn actor(&mut self) -> Result<ActorNo, Stop<LineFault>>
        ensures { Leaves self.new result (field short_number self.old) }
    {
        short_in(&mut self.words).ok_or(Stop::Refused(LineFault::Malformed))
    }

    /// A branch's name, and its site where there is one.
    pub fn spot(&mut self) -> Result<(&'a [u8], Option<u32>), Stop<LineFault>>
        ensures { LeavesBy (λ spot. record { name = spot.0.now; site = spot.1 }) self.new result (field spot_of self.old) }
    {
        let word = self.word()?;
        spot_of(word).ok_or(Stop::Refused(LineFault::Malformed))
    }

    /// Whether the words that are left are of the form of names.
    fn are_names(&self) -> bool
        ensures { result ≡ list_all is_name_of self.now }
    {
        let mut words = self.words.again();
        'words: while let Some(word) = words.take() {
            if !is_name(word) {
                return false;
            }
        }
        true
    }

    /// The words that are left are of the form of names.
    pub fn names(&self) -> Result<(), Stop<LineFault>>
        ensures { Says result (only (list_all is_name_of self.now)) }
    {
        if !self.are_names() {
            return Err(Stop::Refused(LineFault::Malformed));
        }
        Ok(())
    }
}

//! The words of a line, read from left to right.

ghost use Rattle.std.specs.Prelude.{◌≡◌, ◌==◌, length};
ghost use Rattle.ccr_text.specs.Fields.{seen, word, no_more, number, number_within, policy};
ghost use Rattle.ccr_text.specs.Answers.{Gives, Leaves, LeavesBy};

use crate::numerals::read_number;
use crate::words::is_text;
use crate::{Code, Stop};
use ccr_base::Policy;
use std::marker::Model;

/// The words that are left: those behind so many that were taken. Each method takes the words of one field, or tells the
/// code of what stands there.
#[derive(Drop)]
pub struct Cursor<'a> {
    words: &'a [&'a [u8]],
    taken: usize,
}

impl<'a> Model for Cursor<'a> {
    ghost use Rattle.std.specs.Prelude.{List as Listed, ℕ, drop};
    ghost use Rattle.ccr_text.specs.Fields.{seen};

    ghost Value = { Listed (Listed ℕ) };

    ghost view = { λ cursor. seen (drop cursor.taken cursor.words.now) };
}

impl<'a> Cursor<'a> {
    pub fn new(words: &'a [&'a [u8]]) -> Self
        ensures { result ≡ seen words.now }
    {
        Cursor { words, taken: 0 }
    }

    pub fn is_empty(&self) -> bool
        ensures { result ≡ (length self.now == 0) }
    {
        self.taken >= self.words.len()
    }

    /// The next word.
    pub fn word(&mut self) -> Result<&'a [u8], Stop<Code>>
        ensures { LeavesBy (λ word. word.now) self.new result (word self.old) }
    {
        let Some(word) = self.words.get(self.taken) else {
            return Err(Stop::Refused(Code::WordCount));
        };
        self.taken += 1;
        Ok(*word)
    }

    /// Refuses a word more.
    pub fn no_more(&self) -> Result<(), Stop<Code>>
        ensures { Gives result (no_more self.now) }
    {
        if !self.is_empty() {
            return Err(Stop::Refused(Code::WordCount));
        }
        Ok(())
    }

    #[tactic(auto, unfolding(crate::specs::Fields::number))]
    pub fn number(&mut self) -> Result<u64, Stop<Code>>
        ensures { Leaves self.new result (number self.old) }
    {
        let digits = self.word()?;
        match read_number(digits) {
            Some(value) => Ok(value),
            None => Err(Stop::Refused(Code::Number)),
        }
    }

    /// A number between two bounds, which are within them.
    #[tactic(auto, unfolding(crate::specs::Fields::number_within))]
    pub fn number_within(&mut self, low: u32, high: u32) -> Result<u32, Stop<Code>>
        ensures { Leaves self.new result (number_within low high self.old) }
    {
        let value = self.number()?;
        if value < u64::from(low) || u64::from(high) < value {
            return Err(Stop::Refused(Code::Limit));
        }
        Ok(value as u32)
    }

    /// unbounded, discard N or throttle N, with N from 1 to `most`.
    #[tactic(auto, unfolding(crate::specs::Fields::policy))]
    pub fn policy(&mut self, most: u32) -> Result<Policy, Stop<Code>>
        ensures { Leaves self.new result (policy most self.old) }
    {
        let name = self.word()?;
        if is_text(name, "unbounded") {
            Ok(Policy::Unbounded)
        } else if is_text(name, "discard") {
            Ok(Policy::Discard(self.number_within(1, most)?))
        } else if is_text(name, "throttle") {
            Ok(Policy::Throttle(self.number_within(1, most)?))
        } else {
            Err(Stop::Refused(Code::Keyword))
        }
    }
}

//! What stands between separators, from left to right: lines of a text, words of a line, numbers of a word.

ghost use Rattle.std.specs.Prelude.{◌≡◌, ◌==◌, [], ◌∷◌, Some, None, IfSome, IfNone, length};
ghost use Rattle.ccr_trace.specs.Pieces.{pieces};
ghost use Rattle.ccr_trace.specs.Fields.{exact_number, message_of, task_of};
ghost use Rattle.ccr_trace.specs.Forms.{field};

use crate::scanning::{message_before, task_before};
use ccr_base::{MsgId, TaskId};
use ccr_text::number_before;
use memchr::memchr;
use std::marker::Model;

/// What stands before the first separator, and what stands behind it.
fn split_piece(separator: u8, bytes: &[u8]) -> (&[u8], Option<&[u8]>)
    ensures last { IfNone result.1 (pieces separator bytes.now ≡ result.0.now ∷ []) }
    ensures parts { IfSome result.1 (λ rest. pieces separator bytes.now ≡ result.0.now ∷ pieces separator rest.now) }
{
    match memchr(separator, bytes) {
        Some(index) => (&bytes[..index], Some(&bytes[index + 1..])),
        None => (bytes, None),
    }
}

/// The pieces that are left.
#[derive(Drop)]
pub struct Pieces<'a> {
    separator: u8,
    rest: Option<&'a [u8]>,
}

impl<'a> Model for Pieces<'a> {
    ghost use Rattle.std.specs.Prelude.{List as Listed, ℕ, []};
    ghost use Rattle.std.specs.Option.{option_map_or};
    ghost use Rattle.ccr_trace.specs.Pieces.{pieces};

    ghost Value = { Listed (Listed ℕ) };

    ghost view = { λ left. option_map_or (λ rest. pieces left.separator rest.now) left.rest [] };
}

impl<'a> Pieces<'a> {
    pub fn new(separator: u8, bytes: &'a [u8]) -> Self
        ensures { result ≡ pieces separator bytes.now }
    {
        Pieces {
            separator,
            rest: Some(bytes),
        }
    }

    pub fn is_empty(&self) -> bool
        ensures { result ≡ (length self.now == 0) }
    {
        self.rest.is_none()
    }

    /// The same pieces, to be read once more.
    pub fn again(&self) -> Pieces<'a>
        ensures { result ≡ self.now }
    {
        Pieces {
            separator: self.separator,
            rest: self.rest,
        }
    }

    /// Takes the first piece.
    pub fn take(&mut self) -> Option<&'a [u8]>
        ensures some { IfSome result (λ piece. self.old ≡ piece.now ∷ self.new) }
        ensures none { IfNone result (self.old ≡ []) }
        ensures left { IfNone result (self.new ≡ []) }
    {
        let (piece, rest) = split_piece(self.separator, self.rest?);
        self.rest = rest;
        Some(piece)
    }

    /// Takes the first piece, where it is a number in its one spelling.
    #[tactic(auto, using(crate::proofs::Firsts::number_field))]
    pub fn number(&mut self) -> Option<u64>
        ensures some { IfSome result (λ n. field exact_number self.old ≡ Some (n, self.new)) }
        ensures none { IfNone result (field exact_number self.old ≡ None) }
    {
        let (number, rest) = number_before(self.separator, self.rest?)?;
        self.rest = rest;
        Some(number)
    }

    /// Takes the first word of a line where one scan finds tA.K; else nothing is taken, and `task_of` says what the word is.
    pub fn plain_task(&mut self) -> Option<TaskId>
        ensures some { IfSome result (λ task. field task_of self.old ≡ Some (task, self.new)) }
        ensures none { IfNone result (self.new ≡ self.old) }
    {
        if self.separator != b' ' {
            return None;
        }
        let (task, rest) = task_before(self.rest?)?;
        self.rest = rest;
        Some(task)
    }

    /// The same of sA.K and tA.K.I, and of `message_of`.
    pub fn plain_message(&mut self) -> Option<MsgId>
        ensures some { IfSome result (λ message. field message_of self.old ≡ Some (message, self.new)) }
        ensures none { IfNone result (self.new ≡ self.old) }
    {
        if self.separator != b' ' {
            return None;
        }
        let (message, rest) = message_before(self.rest?)?;
        self.rest = rest;
        Some(message)
    }
}

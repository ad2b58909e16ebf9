//! A line that is built from its end, with no memory.

ghost use Rattle.std.specs.Prelude.{◌≡◌, ◌≤◌, ◌+◌, ◌∷◌, ◌++◌, [], length, decimal};
ghost use Rattle.ccr_text.specs.Room.{Fits, most_index_digits, most_number_digits};

use std::marker::Model;

/// How many bytes a line buffer has room for.
const ROOM: usize = 96;

/// Up to 96 bytes, written from the last to the first: digits come in that order.
#[derive(Drop)]
pub struct LineBuffer {
    bytes: [u8; ROOM],
    start: usize,
}

impl Model for LineBuffer {
    ghost use Rattle.std.specs.Prelude.{ℕ, List, drop, ◌≤◌};
    ghost use Rattle.ccr_text.specs.Room.{line_room};

    ghost Value = { List ℕ };

    ghost view = { λ line. drop line.start line.bytes };

    ghost invariant = { λ line. line.start ≤ line_room };
}

impl LineBuffer {
    /// No byte.
    #[inline(always)]
    pub fn new() -> Self
        ensures { result ≡ [] }
    {
        LineBuffer {
            bytes: [0; ROOM],
            start: ROOM,
        }
    }

    #[inline(always)]
    pub fn as_slice(&self) -> &[u8]
        ensures { result.now ≡ self.now }
    {
        &self.bytes[self.start..]
    }

    /// Puts the byte in front.
    #[inline(always)]
    pub fn prepend_byte(&mut self, byte: u8)
        requires { Fits 1 self.old }
        ensures { self.new ≡ byte ∷ self.old }
    {
        self.start -= 1;
        self.bytes[self.start] = byte;
    }

    /// Puts the bytes in front.
    #[inline(always)]
    pub fn prepend_bytes(&mut self, bytes: &[u8])
        requires { Fits (length bytes.now) self.old }
        ensures { self.new ≡ bytes.now ++ self.old }
    {
        let end = self.start;
        self.start -= bytes.len();
        self.bytes[self.start..end].copy_from_slice(bytes);
    }

    /// Puts the number's digits in front, without leading zeros: at most 20.
    #[inline(always)]
    pub fn prepend_number(&mut self, number: u64)
        requires { Fits most_number_digits self.old }
        ensures text { self.new ≡ decimal number ++ self.old }
        ensures short { length self.new ≤ length self.old + most_number_digits }
    {
        self.start = itoa::write_digits(number, &mut self.bytes, self.start);
    }

    /// The same for a number of 32 bits: at most 10 digits.
    #[inline(always)]
    pub fn prepend_index(&mut self, number: u32)
        requires { Fits most_index_digits self.old }
        ensures text { self.new ≡ decimal number ++ self.old }
        ensures short { length self.new ≤ length self.old + most_index_digits }
    {
        self.start = itoa::write_digits(u64::from(number), &mut self.bytes, self.start);
    }
}

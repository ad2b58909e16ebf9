//! What is written is read again.

ghost use Rattle.std.specs.Prelude.{◌≡◌, ℕ, ◌^◌, ◌<◌, List, Some, decimal};
ghost use Rattle.ccr_text.specs.Words.{number_of};
ghost use Rattle.ccr_text.specs.Lines.{lines_of};
ghost use Rattle.ccr_text.specs.Spelling.{AreLines, text_of, spelled_lines};

/// A text that was written line by line has these lines again, each with its words.
pub fn lines_are_read_again()
    ensures { (lines : List (List (List ℕ))) → AreLines lines → lines_of (text_of lines) ≡ spelled_lines 1 lines }
{}

/// The digits of a number read as that number.
pub fn numbers_are_read_again()
    ensures { (n : ℕ) → n < 2 ^ 64 → number_of (decimal n) ≡ Some n }
{}

//! What holds of every text.

ghost use Rattle.std.specs.Prelude.{◌≡◌, ℕ, true, List, Ok};
ghost use Rattle.ccr_wiring.specs.declared.parts.Parts.{Parts as Said};
ghost use Rattle.ccr_wiretext.specs.Lines.{IsText};
ghost use Rattle.ccr_wiretext.specs.Reading.{reading_text};
ghost use Rattle.ccr_wiretext.specs.Spelling.{spelling};
ghost use Rattle.ccr_wiretext.specs.Values.{IsValued};
ghost use Rattle.ccr_wiring.specs.Openness.{is_closed};
ghost use Rattle.ccr_wiring.specs.Valid.{IsValid};

use ccr_text::{lines_are_read_again, numbers_are_read_again};

/// A text is read exactly where the grammar has it, and as the parts that the grammar says. So a text says at most
/// one wiring, and a refused text says none.
pub fn reading_is_exact()
    ensures said { (text : List ℕ) (parts : Said) → reading_text text ≡ Ok parts → IsText text parts }
    ensures read { (text : List ℕ) (parts : Said) → IsText text parts → reading_text text ≡ Ok parts }
{}

/// The canonical text of a valid wiring, of which nothing is open, is read as that wiring.
pub fn what_is_written_is_read()
    ensures { (parts : Said) → IsValid parts → is_closed parts ≡ true → IsValued parts → reading_text (spelling parts) ≡ Ok parts }
{
    lines_are_read_again();
    numbers_are_read_again();
}

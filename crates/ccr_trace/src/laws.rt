//! What holds of every text of a history.

ghost use Rattle.std.specs.Prelude.{◌≡◌, ℕ, List, Some, Ok};
ghost use Rattle.ccr_wiring.specs.declared.parts.Parts.{Parts};
ghost use Rattle.ccr_model.specs.declared.history.Event.{Event};
ghost use Rattle.ccr_trace.specs.declared.reading.ReadHistory.{ReadHistory};
ghost use Rattle.ccr_trace.specs.HistoryText.{history_text};
ghost use Rattle.ccr_trace.specs.Said.{Said, IsSaid, spelled};
ghost use Rattle.ccr_trace.specs.Forms.{said_on};
ghost use Rattle.ccr_trace.specs.Reading.{reading};
ghost use Rattle.ccr_trace.specs.Written.{IsReadBefore, IsTextOf, WhereTellable};

use ccr_text::numbers_are_read_again;

/// In a wiring of a version a line says something exactly where it is the one spelling of it. So a malformed line is the spelling of nothing.
pub fn lines_are_read_exactly()
    ensures said { (version : ℕ) (line : List ℕ) (said : Said) → said_on version line ≡ Some said → IsSaid version said × (spelled said ≡ line) }
    ensures read { (version : ℕ) (said : Said) → IsSaid version said → said_on version (spelled said) ≡ Some said }
{
    numbers_are_read_again();
}

/// What is written of a history is read again as that history, whatever stands behind the line `report 1`.
pub fn what_is_written_is_read()
    ensures { (wiring : Parts) (history : List Event) (more : List ℕ) → WhereTellable wiring history (IsReadBefore more wiring history (history_text wiring history)) }
{
    numbers_are_read_again();
}

/// What is read is what would be written, up to the line `report 1`.
pub fn what_is_read_is_written()
    ensures { (wiring : Parts) (text : List ℕ) (read : ReadHistory) → reading wiring text ≡ Ok read → IsTextOf wiring text read }
{}

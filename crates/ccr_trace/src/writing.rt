//! The text of a history, whole or event by event.

ghost use Rattle.std.specs.Prelude.{◌≡◌, ◌++◌, ◌∷◌, [], ℕ, List as Listed, IfOk, OnOk};
ghost use Rattle.ccr_model.specs.declared.history.Event.{Event as SomeEvent};
ghost use Rattle.ccr_text.specs.Spelling.{line_text};
ghost use Rattle.ccr_trace.specs.HistoryText.{event_words, history_text};
ghost use Rattle.ccr_trace.specs.Known.{AreKnown, HaveMessages, AreShort, IsShort};
ghost use Rattle.ccr_trace.specs.Values.{HasSmallValue};
ghost use Rattle.ccr_trace.specs.Written.{IsReadBefore, IsWritten};

use crate::events::put_event;
use crate::first::first_line;
use crate::laws::what_is_written_is_read;
use crate::names::WiringNames;
use crate::values::event_is_small;
use ccr_base::{List, OutOfMemory};
use ccr_model::{Event, History};
use ccr_text::put_bytes;
use ccr_wiring::Wiring;
use std::alloc::Global;

/// How many bytes the line of an event has, about.
const LINE: usize = 24;

/// An empty text with room for the lines of so many events.
fn room_for(alloc: Global, events: usize) -> Result<List<u8>, OutOfMemory>
    ensures { IfOk result (λ text. text ≡ []) }
{
    let bytes = Vec::with_capacity(alloc, events.saturating_mul(LINE))?;
    Ok(List::from_vec(bytes))
}

/// The text of the history without events, with room for the lines of so many: its first line.
pub fn begin_text(
    alloc: Global,
    names: &WiringNames<'_>,
    events: usize,
) -> Result<List<u8>, OutOfMemory>
    ensures text { IfOk result (λ text. text ≡ history_text names.now []) }
    ensures written { IfOk result (IsWritten names.now []) }
{
    let mut text = room_for(alloc, events)?;
    put_bytes(&mut text, first_line(names.parts()))?;
    put_bytes(&mut text, b"\n")?;
    Ok(text)
}

/// Adds the event's line to the text of the history before it.
pub fn add_event(
    text: &mut List<u8>,
    names: &WiringNames<'_>,
    event: &Event,
) -> Result<(), OutOfMemory>
    ensures line { OnOk result (text.new ≡ text.old ++ line_text (event_words names.now event.now)) }
    ensures short { OnOk result (IsShort event.now) }
    ensures small { HasSmallValue event.now }
    ensures written { OnOk result ((history : Listed SomeEvent) → IsWritten names.now history text.old → IsWritten names.now (history ++ event.now ∷ []) text.new) }
{
    event_is_small(event);
    put_event(text, names.parts(), names.branches(), event)?;
    Ok(())
}

/// A line for each event, behind the first line.
fn add_events(
    text: &mut List<u8>,
    names: &WiringNames<'_>,
    events: &[Event],
) -> Result<(), OutOfMemory>
    requires { IsWritten names.now [] text.old }
    ensures { OnOk result (IsWritten names.now events.now text.new) }
{
    for event in events {
        add_event(text, names, event)?;
    }
    Ok(())
}

/// The history's text (docs/FORMATS.md): a line for each event behind the first, `history 1` or `history 2` by the wiring's
/// version. The numbers of ports, causes and branches in the history should be the wiring's; where one isn't, no byte stands
/// in the place of its name. Values should be of its version: one number in version 1.
pub fn write_history(
    alloc: Global,
    wiring: &Wiring,
    history: &History,
) -> Result<List<u8>, OutOfMemory>
    ensures text { IfOk result (λ text. text ≡ history_text wiring.now history.now) }
    ensures numbers { OnOk result (AreShort history.now) }
    ensures written { IfOk result (IsWritten wiring.now history.now) }
    ensures again { IfOk result (λ text. (more : Listed ℕ) → AreKnown wiring.now history.now → HaveMessages history.now → IsReadBefore more wiring.now history.now text) }
{
    what_is_written_is_read();
    // `parts` says that the wiring is valid.
    let _parts = wiring.parts();
    let names = WiringNames::new(alloc, wiring)?;
    let events = history.events();
    let mut text = begin_text(alloc, &names, events.len())?;
    add_events(&mut text, &names, events)?;
    Ok(text)
}

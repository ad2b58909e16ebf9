//! Histories as text, written and read again.
#![tactic(auto)]

mod cursor;
mod event_reader;
mod events;
mod fields;
mod first;
mod forms;
mod known;
mod laws;
mod line_fault;
mod names;
mod numbered_names;
mod pieces;
mod plain;
mod prepending;
mod reading;
mod refused;
mod scanning;
mod values;
mod words;
mod writing;

pub use event_reader::EventReader;
pub use laws::{lines_are_read_exactly, what_is_read_is_written, what_is_written_is_read};
pub use names::WiringNames;
pub use reading::{ReadHistory, read_history};
pub use refused::{HistoryCode, HistoryRefused};
pub use values::values_are_small;
pub use words::{put_message, put_number_word, put_task, put_value, put_word};
pub use writing::{add_event, begin_text, write_history};

//! What is wrong with a line that is no event.

/// The line has none of the forms, or names what the wiring doesn't have.
#[derive(Clone, Copy, PartialEq, Eq)]
pub enum LineFault {
    Malformed,
    Unknown,
}

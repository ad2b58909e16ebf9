//! What the words behind the program's name ask for. clap reads them.
#![tactic(auto)]

mod parsing;
mod requests;
mod table;
mod words;

pub use requests::{Command, Request};
pub use words::read_words;

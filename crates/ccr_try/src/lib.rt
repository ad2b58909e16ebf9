//! The rows that programs of cases read from standard input, and what their answers are written with (README.md says how a row is written); and the small
//! wirings that rows and tests start from.
#![tactic(auto)]

mod lists;
mod rows;
mod texts;
mod wirings;
mod writing;

pub use lists::only;
pub use rows::{Row, RowLine, read_line};
pub use texts::{first_number, numbers_of, text_of};
pub use wirings::{one_cause, one_handler, one_post, one_queue, one_receiver};
pub use writing::{
    is_due, put, put_message, put_number, put_numbers, put_refused, put_spot, put_task, put_truth,
    put_word,
};

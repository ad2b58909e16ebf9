//! What each of the program's commands answers: the text that is due for words and an input, whole, with its status.
#![tactic(auto)]

mod accounting;
mod answering;
mod comparing;
mod findings;
mod judging;
mod kept_history;
mod laws;
mod load;
mod outputs;
mod recording;
mod replaying;
mod run;
mod schedule;
mod serving;
mod sheds;
mod status;
mod steady;
mod verify;

pub use answering::answer_words;
pub use laws::{
    loads_write_one_text, records_are_read_as_recorded, runs_are_found_legal,
    threaded_runs_are_scheduled,
};
pub use outputs::Output;
pub use status::Status;

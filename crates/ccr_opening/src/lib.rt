//! How a run begins: with what its actors do, by turns or in threads, before the serial order finishes it.
#![tactic(auto)]

mod opening;
mod threads;

pub use opening::first_history;
pub use threads::{run_threads, run_threads_in_full};

//! Lists of causes, none of which stands twice.
#![tactic(auto)]

mod lists;

pub use lists::{add, remove, union};

//! Handlers: rows of actions, parted into segments at each `await`.

use crate::{CauseNo, List, PortNo, Value};

/// A value; the value of the task's message `Arg(k)`, from 0, and 0 where there is none; of the value of message `k` the one
/// number `Part(k, i)`, from 0, and 0 where there is no such message or number; the sum of all values, index by index; how many.
#[derive(Clone, Copy, PartialEq, Eq)]
pub enum Expr {
    Number(Value),
    Arg(u32),
    Part(u32, u32),
    Sum,
    Count,
}

#[derive(Clone, Copy, PartialEq, Eq)]
pub enum Action {
    Post(PortNo, Expr),
    Fail(Expr),
    Add(CauseNo),
    Remove(CauseNo),
    Await(PortNo),
}

#[derive(Drop)]
pub struct Handler {
    pub actions: List<Action>,
}

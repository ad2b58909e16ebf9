//! The words that every layer speaks: names, messages, patterns, tasks, handlers, policies and the gate.
#![tactic(auto)]

mod gate;
mod handlers;
mod list;
mod messages;
mod names;
mod numbers;
mod patterns;
mod policies;
mod selections;
mod tasks;
mod values;

pub use gate::{Gate, OpenGate, Point};
pub use handlers::{Action, Expr, Handler};
pub use list::{List, Name, OutOfMemory, name_of};
pub use messages::{Msg, Seen, Sent};
pub use names::{
    ActorNo, ArbiterNo, BranchNo, CauseNo, HandlerNo, MAX_WORKERS, MsgId, Place, PortNo, QueueNo,
    Spot, TaskId,
};
pub use numbers::has_number;
pub use patterns::{Pattern, Pred, Slot};
pub use policies::{Group, Policy, is_concurrent, is_teardown};
pub use selections::{can_choose, choose};
pub use tasks::{By, Commit, Cut, How, Task};
pub use values::{MAX_VALUE_NUMBERS, Value};

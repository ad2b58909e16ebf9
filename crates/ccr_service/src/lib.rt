//! A service language: its parts, the wiring that they expand to, and what holds of each history of an expansion.
#![tactic(auto)]

mod answer;
mod draft;
mod expanding;
mod fields;
mod laws;
mod names;
mod parts;
mod reading;
mod service;
mod stillness;
mod tables;
mod telling;

pub use answer::Answer;
pub use expanding::expand;
pub use laws::requests_have_one_answer;
pub use parts::{AskPart, ClientPart, OpPart, ServiceParts};
pub use reading::read_service;
pub use service::Service;
pub use stillness::quiet_is_still;
pub use telling::answers;

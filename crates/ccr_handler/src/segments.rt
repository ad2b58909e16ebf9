//! The play of a segment.

ghost use Rattle.std.specs.Prelude.{◌≡◌, IfOk};
ghost use Rattle.std.specs.List.{slice_get};
ghost use Rattle.ccr_handler.specs.Playing.{actions_from, exceptions, play};

use crate::actions::actions_from;
use crate::values::value_of;
use ccr_base::{Action, CauseNo, Handler, List, OutOfMemory, PortNo, Sent, Value};
use ccr_cause::{add, remove};
use std::alloc::Global;

/// How a segment ends: by its last action, by a `fail` with this value, or at the await site of this number.
#[derive(Clone, Copy, PartialEq, Eq)]
pub enum PlayEnd {
    Done,
    Failed(Value),
    Yield(u32),
}

/// What a segment posts, in order, how it ends, and its causes then.
#[derive(Drop)]
pub struct Play {
    pub posts: List<Sent>,
    pub end: PlayEnd,
    pub causes: List<CauseNo>,
}

/// The play of the segment of this number, from 0, over the values of its task and the causes at its start.
/// `exception_ports` has the port of each cause; a cause without one posts nothing when the segment fails.
pub fn plays(
    alloc: Global,
    handler: &Handler,
    exception_ports: &[PortNo],
    segment: u32,
    values: &[Value],
    causes: &List<CauseNo>,
) -> Result<Play, OutOfMemory>
    ensures { IfOk result (λ played. played ≡ play (slice_get exception_ports.now) values.now segment causes.now (actions_from segment handler.now.actions)) }
{
    let mut posts = Vec::new(alloc);
    let mut now = causes.copy(alloc)?;
    let actions = actions_from(handler.actions.as_slice(), segment);
    'actions: for action in actions {
        match *action {
            Action::Post(port, expr) => posts.push(Sent {
                port,
                value: value_of(expr, values),
                causes: now.copy(alloc)?,
            })?,
            Action::Fail(expr) => {
                let value = value_of(expr, values);
                let mut more = exceptions_of(alloc, exception_ports, value, &now)?;
                posts.append(&mut more)?;
                return Ok(played(posts, PlayEnd::Failed(value), now));
            }
            Action::Add(cause) => add(&mut now, cause)?,
            Action::Remove(cause) => remove(&mut now, cause),
            Action::Await(_) => return Ok(played(posts, PlayEnd::Yield(segment), now)),
        }
    }
    Ok(played(posts, PlayEnd::Done, now))
}

/// One post for the exception port of each cause.
fn exceptions_of(
    alloc: Global,
    exception_ports: &[PortNo],
    value: Value,
    causes: &List<CauseNo>,
) -> Result<Vec<Sent>, OutOfMemory>
    ensures { IfOk result (λ posts. posts.items ≡ exceptions (slice_get exception_ports.now) value causes.now) }
{
    let mut posts = Vec::new(alloc);
    let causes = causes.as_slice();
    for cause in causes {
        if let Some(port) = exception_port(exception_ports, *cause) {
            posts.push(Sent {
                port,
                value,
                causes: List::new(alloc),
            })?;
        }
    }
    Ok(posts)
}

fn exception_port(exception_ports: &[PortNo], cause: CauseNo) -> Option<PortNo>
    ensures { result ≡ slice_get exception_ports.now cause }
{
    exception_ports.get(cause as usize).copied()
}

fn played(posts: Vec<Sent>, end: PlayEnd, causes: List<CauseNo>) -> Play
    ensures posts { result.posts ≡ posts.items }
    ensures end { result.end ≡ end }
    ensures causes { result.causes ≡ causes }
{
    Play {
        posts: List::from_vec(posts),
        end,
        causes,
    }
}

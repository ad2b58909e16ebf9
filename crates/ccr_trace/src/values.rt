//! How many numbers the values of a history have at most, told of its events. No number is looked at.

ghost use Rattle.ccr_trace.specs.Values.{HasSmallValue, HaveSmallValues, IsSmallEnd, IsSmallValue};

use ccr_base::Value;
use ccr_model::{EndHow, Event};

/// A value's type has room for 8 numbers.
fn value_is_small(value: Value)
    ensures { IsSmallValue value }
{
    let _numbers = value.numbers();
}

/// The value with which a task failed.
fn end_is_small(how: EndHow)
    ensures { IsSmallEnd how }
{
    match how {
        EndHow::Failed(value) => value_is_small(value),
        EndHow::Done | EndHow::Yield | EndHow::Shed => {}
    }
}

/// No value of the event has more than 8 numbers.
pub(crate) fn event_is_small(event: &Event)
    ensures { HasSmallValue event.now }
{
    match event {
        Event::Post(message) => value_is_small(message.value),
        Event::End { how, .. } => end_is_small(*how),
        Event::Fire { .. } | Event::Admit(_) | Event::Put { .. } | Event::Start { .. } => {}
    }
}

/// No value of these events has more than 8 numbers, as the type of a value has it. The call does nothing else than tell so.
pub fn values_are_small(events: &[Event])
    ensures { HaveSmallValues events.now }
{
    for event in events {
        event_is_small(event);
    }
}

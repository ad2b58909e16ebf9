//! What stands at an index of a port: the message that was posted there, in few bytes, until it is taken.

ghost use Rattle.std.specs.Prelude.{◌≡◌, [], ◌∷◌, Some, None, IfOk, IfSome, option_map, is_some};
ghost use Rattle.ccr_base.specs.declared.messages.Msg.{Msg};

use ccr_base::{CauseNo, List, Msg, MsgId, OutOfMemory, PortNo, Value};
use std::alloc::Global;
use std::marker::Model;
use std::mem;

/// What a message carries. Most carry one number and no cause.
#[derive(Drop)]
pub(crate) enum Body {
    Plain(u64),
    Full(Box<(Value, List<CauseNo>)>),
    Gone,
}

/// A message, or nothing once it was taken.
#[derive(Drop)]
pub(crate) struct Item {
    id: MsgId,
    port: PortNo,
    body: Body,
}

impl Model for Item {
    ghost use Rattle.std.specs.Prelude.{Option};
    ghost use Rattle.ccr_base.specs.declared.messages.Msg.{Msg};
    ghost use Rattle.ccr_ledger.specs.Items.{carried};

    ghost Value = { Option Msg };

    ghost view = { λ item. carried item.id item.port item.body };
}

/// The one number of a message that carries nothing else.
fn plain(value: &Value, causes: &[CauseNo]) -> Option<u64>
    ensures { IfSome result (λ number. (value.now ≡ number ∷ []) × (causes.now ≡ [])) }
{
    match (value.numbers(), causes) {
        ([number], []) => Some(*number),
        _ => None,
    }
}

impl Item {
    /// The message in few bytes.
    pub fn of(alloc: Global, message: Msg) -> Result<Item, OutOfMemory>
        ensures { IfOk result (λ item. item ≡ Some message) }
    {
        let Msg {
            id,
            port,
            value,
            causes,
        } = message;
        let body = match plain(&value, causes.as_slice()) {
            Some(number) => Body::Plain(number),
            None => Body::Full(Box::new(alloc, (value, causes))?),
        };
        Ok(Item { id, port, body })
    }

    /// An index whose message is not there.
    pub fn gone() -> Item
        ensures { result ≡ None }
    {
        Item {
            id: MsgId::Script { actor: 0, place: 0 },
            port: 0,
            body: Body::Gone,
        }
    }

    pub fn is_here(&self) -> bool
        ensures { result ≡ is_some self.now }
    {
        !matches!(self.body, Body::Gone)
    }

    pub fn id(&self) -> Option<MsgId>
        ensures { result ≡ option_map (λ (m : Msg). m.id) self.now }
    {
        if self.is_here() { Some(self.id) } else { None }
    }

    pub fn value(&self) -> Option<Value>
        ensures { result ≡ option_map (λ (m : Msg). m.value) self.now }
    {
        match &self.body {
            Body::Plain(number) => Some(Value::one(*number)),
            Body::Full(carried) => Some(carried.0),
            Body::Gone => None,
        }
    }

    /// Takes the message out.
    pub fn take(&mut self, alloc: Global) -> Option<Msg>
        ensures message { result ≡ self.old }
        ensures gone { self.new ≡ None }
    {
        let (id, port) = (self.id, self.port);
        let (value, causes) = match mem::replace(&mut self.body, Body::Gone) {
            Body::Plain(number) => (Value::one(number), List::new(alloc)),
            Body::Full(carried) => Box::into_inner(carried),
            Body::Gone => return None,
        };
        Some(Msg {
            id,
            port,
            value,
            causes,
        })
    }
}

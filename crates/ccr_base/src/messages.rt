//! Messages, and posts that have no name yet.

ghost use Rattle.std.specs.Prelude.{◌≡◌, IfOk, List, [], ◌∷◌, map, refl};

use crate::{CauseNo, List, MsgId, OutOfMemory, PortNo, Value};
use std::alloc::Global;

/// A message at its port. Its causes have no member twice.
#[derive(Drop)]
pub struct Msg {
    pub id: MsgId,
    pub port: PortNo,
    pub value: Value,
    pub causes: List<CauseNo>,
}

/// A post of a script or of a handler.
#[derive(Drop)]
pub struct Sent {
    pub port: PortNo,
    pub value: Value,
    pub causes: List<CauseNo>,
}

impl Msg {
    /// An equal message.
    pub fn copy(&self, alloc: Global) -> Result<Msg, OutOfMemory>
        ensures { IfOk result (λ copied. copied ≡ self.now) }
    {
        Ok(Msg {
            id: self.id,
            port: self.port,
            value: self.value,
            causes: self.causes.copy(alloc)?,
        })
    }
}

/// What stands for a message: a message itself, or a reference to one. A list of such stands for a list of messages,
/// one for one.
pub trait Seen {
    ghost use Rattle.ccr_base.specs.declared.messages.Msg.{Msg};

    ghost message: { Self → Msg };

    ghost seen: { List Self → List Msg };

    fn value(&self) -> Value
        ensures { result ≡ (message self.now).value };

    ghost none: { seen [] ≡ [] };

    ghost one_more: { (x : Self) (xs : List Self) → seen (x ∷ xs) ≡ message x ∷ seen xs };
}

impl Seen for Msg {
    ghost message = { λ message. message };

    ghost seen = { λ messages. messages };

    fn value(&self) -> Value {
        self.value
    }

    ghost none = { refl };

    ghost one_more = { λ _ _. refl };
}

impl Seen for &Msg {
    ghost message = { λ message. message.now };

    ghost seen = { λ messages. map (λ message. message.now) messages };

    fn value(&self) -> Value {
        self.value
    }

    ghost none = { refl };

    ghost one_more = { λ _ _. refl };
}

//! A script's post, in few bytes: most have one number and no causes.

ghost use Rattle.std.specs.Prelude.{◌≡◌, [], ◌∷◌, IfOk, IfSome};

use ccr_base::{CauseNo, OutOfMemory, PortNo, Sent, Value};
use std::alloc::Global;
use std::marker::Model;

/// What stands behind the port.
#[derive(Drop)]
enum CompactPost {
    /// One number, and no cause.
    One(u64),
    Full(Box<Sent>),
}

/// A post of a script; contracts see it as what is sent.
#[derive(Drop)]
pub struct ScriptPost {
    compact: CompactPost,
    port: PortNo,
}

impl Model for ScriptPost {
    ghost use Rattle.ccr_base.specs.declared.messages.Sent.{Sent as Seen};
    ghost use Rattle.ccr_wiring.specs.Compact.{sent_kept};

    ghost Value = { Seen };

    ghost view = { λ post. sent_kept post.port post.compact };
}

/// The number of a post that has one, and no cause.
fn one_number(sent: &Sent) -> Option<u64>
    ensures value { IfSome result (λ number. sent.now.value ≡ number ∷ []) }
    ensures causes { IfSome result (λ number. sent.now.causes ≡ []) }
{
    if !sent.causes.is_empty() {
        return None;
    }
    let [number] = sent.value.numbers() else {
        return None;
    };
    Some(*number)
}

impl ScriptPost {
    /// The post in few bytes.
    pub fn of(alloc: Global, sent: Sent) -> Result<Self, OutOfMemory>
        ensures { IfOk result (λ post. post ≡ sent) }
    {
        let port = sent.port;
        let compact = match one_number(&sent) {
            Some(number) => CompactPost::One(number),
            None => CompactPost::Full(Box::new(alloc, sent)?),
        };
        Ok(ScriptPost { compact, port })
    }

    pub fn port(&self) -> PortNo
        ensures { result ≡ self.now.port }
    {
        match &self.compact {
            CompactPost::One(_) => self.port,
            CompactPost::Full(sent) => sent.port,
        }
    }

    pub fn value(&self) -> Value
        ensures { result ≡ self.now.value }
    {
        match &self.compact {
            CompactPost::One(number) => Value::one(*number),
            CompactPost::Full(sent) => sent.value,
        }
    }

    pub fn causes(&self) -> &[CauseNo]
        ensures { result.now ≡ self.now.causes }
    {
        match &self.compact {
            CompactPost::One(_) => &[],
            CompactPost::Full(sent) => sent.causes.as_slice(),
        }
    }
}

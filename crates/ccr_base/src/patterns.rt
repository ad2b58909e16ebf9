//! What a branch takes: slots with predicates, or a gather.

ghost use Rattle.std.specs.Prelude.{◌≡◌, IfOk};
ghost use Rattle.ccr_base.specs.Selection.{holds};

use crate::{List, OutOfMemory, PortNo, Value};
use std::alloc::Global;

/// What a slot asks of the first number of a message's value.
#[derive(Clone, Copy, PartialEq, Eq)]
pub enum Pred {
    Any,
    Eq(u64),
    Lt(u64),
    Ge(u64),
}

impl Pred {
    pub fn holds(&self, value: &Value) -> bool
        ensures { result ≡ holds self.now value.now }
    {
        match *self {
            Pred::Any => true,
            Pred::Eq(n) => value.first() == n,
            Pred::Lt(n) => value.first() < n,
            Pred::Ge(n) => value.first() >= n,
        }
    }
}

/// At least `least` and at most `most` of the port's oldest messages that satisfy the predicate.
#[derive(Clone, Copy, PartialEq, Eq)]
pub struct Slot {
    pub port: PortNo,
    pub least: u32,
    pub most: u32,
    pub pred: Pred,
}

/// What one firing takes. A gather takes `total` messages of two ports; which split is free.
#[derive(Drop)]
pub enum Pattern {
    Slots(List<Slot>),
    Gather {
        total: u32,
        first: PortNo,
        second: PortNo,
    },
}

impl Pattern {
    /// An equal pattern.
    pub fn copy(&self, alloc: Global) -> Result<Pattern, OutOfMemory>
        ensures { IfOk result (λ copied. copied ≡ self.now) }
    {
        match self {
            Pattern::Slots(slots) => Ok(Pattern::Slots(slots.copy(alloc)?)),
            Pattern::Gather {
                total,
                first,
                second,
            } => Ok(Pattern::Gather {
                total: *total,
                first: *first,
                second: *second,
            }),
        }
    }
}

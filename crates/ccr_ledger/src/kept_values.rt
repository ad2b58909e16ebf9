//! The values that a task starts with, in few bytes: most start with one value of one number.

ghost use Rattle.std.specs.Prelude.{◌≡◌, [], ◌∷◌, IfOk, IfSome};

use ccr_base::{List, OutOfMemory, Value};
use std::alloc::Global;
use std::marker::Model;

/// How they are kept.
#[derive(Drop)]
enum CompactValues {
    /// One value of this number alone.
    One(u64),
    More(Box<List<Value>>),
}

/// Values; contracts see them as a list.
#[derive(Drop)]
pub struct KeptValues {
    compact: CompactValues,
}

impl Model for KeptValues {
    ghost use Rattle.std.specs.Prelude.{ℕ, List};
    ghost use Rattle.ccr_ledger.specs.Compact.{values_kept};

    ghost Value = { List (List ℕ) };

    ghost view = { λ kept. values_kept kept.compact };
}

/// The number of one value that has no other.
fn one_number(values: &[Value]) -> Option<u64>
    ensures { IfSome result (λ number. values.now ≡ (number ∷ []) ∷ []) }
{
    let [value] = values else {
        return None;
    };
    let [number] = value.numbers() else {
        return None;
    };
    Some(*number)
}

impl KeptValues {
    /// The values in few bytes.
    pub(crate) fn of(alloc: Global, values: List<Value>) -> Result<Self, OutOfMemory>
        ensures { IfOk result (λ kept. kept ≡ values) }
    {
        let compact = match one_number(values.as_slice()) {
            Some(number) => CompactValues::One(number),
            None => CompactValues::More(Box::new(alloc, values)?),
        };
        Ok(KeptValues { compact })
    }

    /// The values as a list of their own.
    pub(crate) fn to_list(&self, alloc: Global) -> Result<List<Value>, OutOfMemory>
        ensures { IfOk result (λ values. values ≡ self.now) }
    {
        match &self.compact {
            CompactValues::One(number) => {
                let mut values = List::new(alloc);
                values.add(Value::one(*number))?;
                Ok(values)
            }
            CompactValues::More(values) => values.copy(alloc),
        }
    }
}

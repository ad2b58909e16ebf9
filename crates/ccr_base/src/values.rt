//! What a message carries: a few numbers, kept inline.

ghost use Rattle.std.specs.Prelude.{◌≡◌, ◌<◌, ◌≤◌, [], ◌∷◌, length, nat_eq};
ghost use Rattle.std.specs.Cmp.{partial_equiv_from_equiv};
ghost use Rattle.std.specs.Cmp.Lexicographic.{pointwise, nat_list_eq_equiv};
ghost use Rattle.ccr_base.specs.Bounds.{most_value_numbers};
ghost use Rattle.ccr_base.specs.Values.{value_of_numbers, first_number};

use std::marker::Model;

/// The most numbers that a value has.
pub const MAX_VALUE_NUMBERS: usize = 8;

/// A list of 1 to 8 numbers, which takes no memory of its own.
#[derive(Clone, Copy)]
pub struct Value {
    /// Zero from `count` on.
    numbers: [u64; MAX_VALUE_NUMBERS],
    count: usize,
}

impl Model for Value {
    ghost use Rattle.std.specs.Prelude.{ℕ, ◌-◌, ◌++◌, List, length, take, replicate};
    ghost use Rattle.ccr_base.specs.Padding.{IsPadded, padded-taken, counted};
    ghost use Rattle.ccr_base.specs.Bounds.{most_value_numbers};

    ghost Value = { List ℕ };

    ghost view = { λ v. take v.count v.numbers };

    ghost invariant = { λ v. IsPadded v.count v.numbers };

    ghost inverse = { λ ns. record { numbers = ns ++ replicate (most_value_numbers - length ns) 0; count = length ns } };

    ghost inverse_ok = { λ v h i. record { numbers = padded-taken v.count v.numbers h i; count = counted v.count v.numbers h i } };
}

impl Value {
    /// The value of one number.
    pub const fn one(number: u64) -> Self
        ensures { result ≡ number ∷ [] }
    {
        Value {
            numbers: [number, 0, 0, 0, 0, 0, 0, 0],
            count: 1,
        }
    }

    /// The value of these numbers. None exactly where there is none, or there are more than 8.
    pub fn of(numbers: &[u64]) -> Option<Self>
        ensures { result ≡ value_of_numbers numbers.now }
    {
        if numbers.is_empty() || numbers.len() > MAX_VALUE_NUMBERS {
            return None;
        }
        let mut kept = [0; MAX_VALUE_NUMBERS];
        kept[..numbers.len()].copy_from_slice(numbers);
        Some(Value {
            numbers: kept,
            count: numbers.len(),
        })
    }

    pub fn numbers(&self) -> &[u64]
        ensures value { result.now ≡ self.now }
        ensures some { 0 < length self.now }
        ensures few { length self.now ≤ most_value_numbers }
    {
        &self.numbers[..self.count]
    }

    /// The number that predicates look at.
    pub fn first(&self) -> u64
        ensures { result ≡ first_number self.now }
    {
        self.numbers[0]
    }
}

impl PartialEq for Value {
    ghost eq = { pointwise nat_eq };

    ghost laws = { partial_equiv_from_equiv nat_list_eq_equiv };

    fn eq(&self, other: &Value) -> bool {
        self.numbers() == other.numbers()
    }
}

impl Eq for Value {
    ghost laws = { nat_list_eq_equiv };
}

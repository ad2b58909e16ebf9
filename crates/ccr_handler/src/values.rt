//! The value of an expression over the values of a task.

ghost use Rattle.std.specs.Prelude.{◌≡◌, ◌≤◌, sum};
ghost use Rattle.ccr_base.specs.Bounds.{most_value_numbers};
ghost use Rattle.ccr_handler.specs.Evaluating.{value_of, number_at, longest, sum_at, sum_of, part_of};

use ccr_base::{Expr, MAX_VALUE_NUMBERS, Value};

/// The number at the index, from 0, and 0 where there is none.
fn number_at(value: &Value, index: usize) -> u64
    ensures { result ≡ number_at index value.now }
{
    match value.numbers().get(index) {
        Some(number) => *number,
        None => 0,
    }
}

/// How many numbers the longest value has.
fn longest(values: &[Value]) -> usize
    ensures most { result ≡ longest values.now }
    ensures few { result ≤ most_value_numbers }
{
    let mut most = 0;
    for value in values {
        most = most.max(value.numbers().len());
    }
    most
}

/// The sum of the numbers at this index, modulo 2^64.
fn sum_at(values: &[Value], index: usize) -> u64
    ensures { result ≡ sum_at values.now index }
{
    let mut total: u64 = 0;
    for value in values {
        total = total.wrapping_add(number_at(value, index));
    }
    total
}

/// The values summed index by index.
fn sum_of(values: &[Value]) -> Value
    ensures { result ≡ sum_of values.now }
{
    let count = longest(values);
    let mut numbers = [0; MAX_VALUE_NUMBERS];
    for index in 0..count {
        numbers[index] = sum_at(values, index);
    }
    match Value::of(&numbers[..count]) {
        Some(sum) => sum,
        None => Value::one(0),
    }
}

/// One number of one of the values.
fn part_of(values: &[Value], message: u32, index: u32) -> u64
    ensures { result ≡ part_of values.now message index }
{
    match values.get(message as usize) {
        Some(value) => number_at(value, index as usize),
        None => 0,
    }
}

pub fn value_of(expr: Expr, values: &[Value]) -> Value
    ensures { result ≡ value_of expr values.now }
{
    match expr {
        Expr::Number(value) => value,
        Expr::Arg(k) => match values.get(k as usize) {
            Some(value) => *value,
            None => Value::one(0),
        },
        Expr::Part(k, index) => Value::one(part_of(values, k, index)),
        Expr::Sum => sum_of(values),
        Expr::Count => Value::one(values.len() as u64),
    }
}

//! What one word of a line says. Each number, name and spot has one word.

ghost use Rattle.std.specs.Prelude.{◌≡◌, Some, None, IfSome, IfNone};
ghost use Rattle.std.specs.Option.{option_map};
ghost use Rattle.ccr_base.specs.Bounds.{most_value_numbers};
ghost use Rattle.ccr_trace.specs.Forms.{field};
ghost use Rattle.ccr_trace.specs.Fields.{exact_number, short_number, values_in, value_of, task_in, task_of, script_in, task_message_in, message_of, spot_with, spot_of};

use crate::pieces::Pieces;
use ccr_base::{MAX_VALUE_NUMBERS, MsgId, TaskId, Value};
use ccr_text::{is_name, read_exact_number};

/// A number below 2^64 without leading zeros.
#[tactic(auto, unfolding(crate::specs::Fields::exact_number))]
pub fn exact_number(word: &[u8]) -> Option<u64>
    ensures { result ≡ exact_number word.now }
{
    read_exact_number(word)
}

/// The same below 2^32.
#[tactic(auto, unfolding(crate::specs::Fields::short_number))]
pub fn short_number(word: &[u8]) -> Option<u32>
    ensures { result ≡ short_number word.now }
{
    let number = exact_number(word)?;
    if number > u64::from(u32::MAX) {
        return None;
    }
    Some(number as u32)
}

/// One number.
fn single_of(word: &[u8]) -> Option<Value>
    ensures { result ≡ values_in 1 word.now }
{
    let mut parts = Pieces::new(b',', word);
    let number = parts.number()?;
    if !parts.is_empty() {
        return None;
    }
    Some(Value::one(number))
}

/// 1 to 8 numbers joined by commas.
fn several_of(word: &[u8]) -> Option<Value>
    ensures { result ≡ values_in most_value_numbers word.now }
{
    let mut numbers = [0; MAX_VALUE_NUMBERS];
    let mut count = 0;
    let mut parts = Pieces::new(b',', word);
    'parts: while !parts.is_empty() {
        if count == MAX_VALUE_NUMBERS {
            return None;
        }
        numbers[count] = parts.number()?;
        count += 1;
    }
    Value::of(&numbers[..count])
}

/// Numbers joined by commas: 1 to 8 in version 2, else one.
#[tactic(auto, unfolding(crate::specs::Fields::value_of))]
pub fn value_of(version: u32, word: &[u8]) -> Option<Value>
    ensures { result ≡ value_of version word.now }
{
    if version == 2 {
        several_of(word)
    } else {
        single_of(word)
    }
}

/// Takes the first number, which is below 2^32.
#[tactic(auto, using(crate::proofs::Firsts::short_none))]
pub fn short_in(numbers: &mut Pieces<'_>) -> Option<u32>
    ensures some { IfSome result (λ n. field short_number numbers.old ≡ Some (n, numbers.new)) }
    ensures none { IfNone result (field short_number numbers.old ≡ None) }
{
    let number = numbers.number()?;
    if number > u64::from(u32::MAX) {
        return None;
    }
    Some(number as u32)
}

/// A.K
#[tactic(auto, using(crate::proofs::Firsts::task_steps))]
fn task_in(mut numbers: Pieces<'_>) -> Option<TaskId>
    ensures { result ≡ task_in numbers.entry }
{
    let actor = short_in(&mut numbers)?;
    let attempt = short_in(&mut numbers)?;
    if !numbers.is_empty() {
        return None;
    }
    Some(TaskId { actor, attempt })
}

/// tA.K
#[tactic(auto, unfolding(crate::specs::Fields::task_of))]
pub fn task_of(word: &[u8]) -> Option<TaskId>
    ensures { result ≡ task_of word.now }
{
    let (first, numbers) = word.split_first()?;
    if *first != b't' {
        return None;
    }
    task_in(Pieces::new(b'.', numbers))
}

/// A.K of a script.
#[tactic(auto, using(crate::proofs::Firsts::script_steps))]
fn script_in(mut numbers: Pieces<'_>) -> Option<MsgId>
    ensures { result ≡ script_in numbers.entry }
{
    let actor = short_in(&mut numbers)?;
    let place = short_in(&mut numbers)?;
    if !numbers.is_empty() {
        return None;
    }
    Some(MsgId::Script { actor, place })
}

/// A.K.I
#[tactic(auto, using(crate::proofs::Firsts::task_message_steps))]
fn task_message_in(mut numbers: Pieces<'_>) -> Option<MsgId>
    ensures { result ≡ task_message_in numbers.entry }
{
    let actor = short_in(&mut numbers)?;
    let attempt = short_in(&mut numbers)?;
    let place = short_in(&mut numbers)?;
    if !numbers.is_empty() {
        return None;
    }
    Some(MsgId::Task {
        task: TaskId { actor, attempt },
        place,
    })
}

/// sA.K or tA.K.I
#[tactic(auto, unfolding(crate::specs::Fields::message_of))]
pub fn message_of(word: &[u8]) -> Option<MsgId>
    ensures { result ≡ message_of word.now }
{
    let (first, numbers) = word.split_first()?;
    let numbers = Pieces::new(b'.', numbers);
    match *first {
        b's' => script_in(numbers),
        b't' => task_message_in(numbers),
        _ => None,
    }
}

fn spot_with(name: &[u8], site: Option<u32>) -> Option<(&[u8], Option<u32>)>
    ensures { option_map (λ spot. record { name = spot.0.now; site = spot.1 }) result ≡ spot_with name.now site }
{
    if !is_name(name) {
        return None;
    }
    Some((name, site))
}

/// A branch's name, and its site where there is one, of the word NAME or NAME@K.
#[tactic(auto, unfolding(crate::specs::Fields::spot_of))]
pub fn spot_of(word: &[u8]) -> Option<(&[u8], Option<u32>)>
    ensures { option_map (λ spot. record { name = spot.0.now; site = spot.1 }) result ≡ spot_of word.now }
{
    let mut parts = Pieces::new(b'@', word);
    let name = parts.take()?;
    let Some(site) = parts.take() else {
        return spot_with(name, None);
    };
    if !parts.is_empty() {
        return None;
    }
    spot_with(name, Some(short_number(site)?))
}

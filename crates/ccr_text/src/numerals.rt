//! Decimal numbers below 2^64.

ghost use Rattle.std.specs.Prelude.{◌≡◌, ◌++◌, [], OnOk, OnErr, decimal};
ghost use Rattle.std.specs.Option.{option_map, option_map_or};
ghost use Rattle.ccr_text.specs.Words.{number_of, with_digit};
ghost use Rattle.ccr_text.specs.Exact.{exact_number_of, first_part, may_begin, number_first, parts};

use crate::writing::put_bytes;
use ccr_base::{List, OutOfMemory};

fn with_digit(number: u64, byte: u8) -> Option<u64>
    ensures { result ≡ with_digit number byte }
{
    if !byte.is_ascii_digit() {
        return None;
    }
    number.checked_mul(10)?.checked_add(u64::from(byte - b'0'))
}

/// The value of one or more decimal digits, where it is below 2^64. Leading zeros are accepted.
pub fn read_number(word: &[u8]) -> Option<u64>
    ensures { result ≡ number_of word.now }
{
    if word.is_empty() {
        return None;
    }
    let mut number: u64 = 0;
    for byte in word {
        number = with_digit(number, *byte)?;
    }
    Some(number)
}

/// Whether a word may be the spelling of a number by its first two bytes: a zero stands alone.
fn may_begin(word: &[u8]) -> bool
    ensures { result ≡ may_begin word.now }
{
    match word {
        [] => false,
        [_] => true,
        [first, _, ..] => *first != b'0',
    }
}

/// The same of what stands before the first separator.
fn may_begin_before(separator: u8, bytes: &[u8]) -> bool
    ensures { result ≡ may_begin (first_part separator bytes.now) }
{
    match bytes {
        [] => false,
        [first] => *first != separator,
        [first, second, ..] => *first != separator && (*first != b'0' || *second == separator),
    }
}

/// The value of one or more decimal digits without leading zeros, where it is below 2^64.
pub fn read_exact_number(word: &[u8]) -> Option<u64>
    ensures { result ≡ exact_number_of word.now }
{
    if !may_begin(word) {
        return None;
    }
    read_number(word)
}

/// The same of what stands before the first separator, and what stands behind that separator. One pass.
pub fn number_before(separator: u8, bytes: &[u8]) -> Option<(u64, Option<&[u8]>)>
    ensures { option_map (λ found. (found.0, option_map_or (λ rest. parts separator rest.now) found.1 [])) result ≡ number_first (parts separator bytes.now) }
{
    if !may_begin_before(separator, bytes) {
        return None;
    }
    let mut number: u64 = 0;
    let mut rest = bytes;
    'digits: while let Some((byte, behind)) = rest.split_first() {
        if *byte == separator {
            return Some((number, Some(behind)));
        }
        number = with_digit(number, *byte)?;
        rest = behind;
    }
    Some((number, None))
}

/// Adds the number's digits, without leading zeros. Without memory the text stays as it was.
pub fn put_number(out: &mut List<u8>, n: u64) -> Result<(), OutOfMemory>
    ensures ok { OnOk result (out.new ≡ out.old ++ decimal n) }
    ensures err { OnErr result (out.new ≡ out.old) }
{
    let mut buffer = itoa::Buffer::new();
    put_bytes(out, buffer.format(n).as_bytes())
}

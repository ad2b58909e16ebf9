//! Texts as rows have them.

use ccr_base::List;
use ccr_text::put_number;
use std::alloc::Global;

/// Where the reading of an escaped byte stands: at none, behind its mark, or behind its first digit.
#[derive(Clone, Copy)]
enum Escape {
    Outside,
    Marked,
    Half(u8),
}

fn digit(byte: u8) -> u8 {
    match byte {
        b'0'..=b'9' => byte.wrapping_sub(b'0'),
        b'a'..=b'f' => byte.wrapping_sub(b'a').wrapping_add(10),
        _ => 0,
    }
}

/// Adds what the byte stands for.
fn add_one(out: &mut List<u8>, escape: Escape, byte: u8) -> Escape {
    let (read, then) = match (escape, byte) {
        (Escape::Marked, first) => return Escape::Half(digit(first)),
        (Escape::Half(first), second) => {
            let high = first.wrapping_mul(16);
            (high.wrapping_add(digit(second)), Escape::Outside)
        }
        (Escape::Outside, b'\\') => return Escape::Marked,
        (Escape::Outside, b';') => (b'\n', Escape::Outside),
        (Escape::Outside, other) => (other, Escape::Outside),
    };
    let _ = out.add(read);
    then
}

/// Adds the text, with LF for each `;` and a byte for each `\` with its two digits.
fn add_text(out: &mut List<u8>, text: &str) {
    let mut escape = Escape::Outside;
    for byte in text.bytes() {
        escape = add_one(out, escape, byte);
    }
}

/// Adds the text, with LF for each `;`, the number for each `#`, and its rest by 16 for each `%`.
fn add_numbered(out: &mut List<u8>, text: &str, number: u64) {
    for byte in text.bytes() {
        let _ = match byte {
            b'#' => put_number(out, number),
            b'%' => put_number(out, number % 16),
            b';' => out.add(b'\n'),
            other => out.add(other),
        };
    }
}

/// Adds `COUNT|EACH|LAST`: `EACH` so many times, and `LAST`.
fn add_repeated(out: &mut List<u8>, text: &str) {
    let Some((count, rest)) = text.split_once('|') else {
        return;
    };
    let (each, last) = rest.split_once('|').unwrap_or((rest, ""));
    for number in 0..count.parse::<u64>().unwrap_or(0) {
        add_numbered(out, each, number);
    }
    add_text(out, last);
}

/// Both texts, one behind the other. Each is `FIRST`, or `FIRST|COUNT|EACH|LAST`: `EACH` comes so many times, with a number from
/// 0 on for each `#`, and its rest by 16 for each `%`.
pub fn text_of(alloc: Global, first: &str, second: &str) -> List<u8> {
    let mut out = List::new(alloc);
    for text in [first, second] {
        match text.split_once('|') {
            Some((before, repeated)) => {
                add_text(&mut out, before);
                add_repeated(&mut out, repeated);
            }
            None => add_text(&mut out, text),
        }
    }
    out
}

/// The numbers of the words; 0 for a word that is none.
pub fn numbers_of(alloc: Global, words: &str) -> List<u32> {
    let mut numbers = List::new(alloc);
    if words.is_empty() {
        return numbers;
    }
    for word in words.split(' ') {
        let _ = numbers.add(word.parse::<u32>().unwrap_or(0));
    }
    numbers
}

/// The number that the text begins with, 0 where it begins with none, and what stands behind it.
pub fn first_number<'a>(text: &'a str) -> (u32, &'a str) {
    let (word, rest) = text.split_once(' ').unwrap_or((text, ""));
    (word.parse::<u32>().unwrap_or(0), rest)
}

//! Lists, and lists of causes.

use crate::making::{at, first_part, word_and_numbers};
use ccr_base::List;
use ccr_cause::{add, remove, union};
use ccr_try::{numbers_of, put_number, put_numbers, put_word};
use std::alloc::Global;

/// One step of the list; the number that it takes out.
fn step(list: &mut List<u32>, word: &str, numbers: &[u32], out: &mut List<u8>) {
    let first = at(numbers, 0);
    match word {
        "push" => {
            let _ = list.push(first);
        }
        "add" => {
            let _ = list.add(first);
        }
        "extend" => {
            let _ = list.extend(numbers);
        }
        _ => {
            if (first as usize) < list.len() {
                put_number(out, u64::from(list.remove(first as usize)));
            }
        }
    }
}

/// For `STEP, ..` what is taken out, how many numbers are in the list, and which.
pub fn list(alloc: Global, steps: &str, out: &mut List<u8>) {
    let mut list = List::new(alloc);
    for text in steps.split(", ") {
        let (word, numbers) = word_and_numbers(alloc, text);
        step(&mut list, word, numbers.as_slice(), out);
    }
    put_word(out, b"len");
    put_number(out, list.len() as u64);
    put_numbers(out, list.as_slice());
}

/// For `CAUSE .. : CAUSE ..` both lists joined.
pub fn joined(alloc: Global, input: &str, out: &mut List<u8>) {
    let (first, second) = first_part(input);
    let first = numbers_of(alloc, first);
    let second = numbers_of(alloc, second);
    if let Ok(found) = union(alloc, &first, &second) {
        put_numbers(out, found.as_slice());
    }
}

/// Adds the cause, or removes it.
fn cause_step(alloc: Global, causes: &mut List<u32>, text: &str) {
    let (word, numbers) = word_and_numbers(alloc, text);
    let cause = at(numbers.as_slice(), 0);
    if word == "add" {
        let _ = add(causes, cause);
    } else {
        remove(causes, cause);
    }
}

/// For `add CAUSE, remove CAUSE, ..` the causes then.
pub fn causes(alloc: Global, steps: &str, out: &mut List<u8>) {
    let mut causes = List::new(alloc);
    for text in steps.split(", ") {
        cause_step(alloc, &mut causes, text);
    }
    put_numbers(out, causes.as_slice());
}

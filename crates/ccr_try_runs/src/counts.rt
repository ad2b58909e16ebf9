//! What every run of a wiring agrees on, and the generated wirings.

use ccr_base::List;
use ccr_gen::generate;
use ccr_report::put_total;
use ccr_steady::{Agreed, agreed};
use ccr_try::{put_number, put_numbers, put_word};
use ccr_wiring::Wiring;
use std::alloc::Global;

/// The largest generated wiring.
const LARGEST: u32 = 10_000;

/// Adds what is agreed on.
fn put_agreed(alloc: Global, out: &mut List<u8>, agreed: &Agreed) {
    match agreed {
        Agreed::Unsteady(rule) => {
            put_word(out, b"unsteady");
            put_number(out, u64::from(*rule));
        }
        Agreed::Spent => put_word(out, b"spent"),
        Agreed::Counts { fired, totals } => {
            put_numbers(out, fired.as_slice());
            put_word(out, b"");
            let _ = put_total(alloc, out, totals);
        }
    }
}

/// What all runs of the wiring agree on: the rule by which it is unsteady, or how often each branch fires, and the totals.
pub fn steady(alloc: Global, wiring: &Wiring, out: &mut List<u8>) {
    match agreed(alloc, wiring) {
        Ok(found) => put_agreed(alloc, out, &found),
        Err(_) => put_word(out, b"memory"),
    }
}

/// The same of the generated wiring of this size.
pub fn generated(alloc: Global, input: &str, out: &mut List<u8>) {
    let size = input.parse::<u32>().unwrap_or(0);
    if 0 < size && size <= LARGEST {
        if let Ok(wiring) = generate(alloc, size) {
            steady(alloc, &wiring, out);
        }
    }
}

/// How many posts each poster of the generated wiring of this size has.
pub fn dealt(alloc: Global, input: &str, out: &mut List<u8>) {
    let size = input.parse::<u32>().unwrap_or(0);
    if 0 < size && size <= LARGEST {
        if let Ok(wiring) = generate(alloc, size) {
            for poster in wiring.parts().posters.as_slice() {
                put_number(out, poster.posts.len() as u64);
            }
        }
    }
}

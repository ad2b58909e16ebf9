//! Names and lists of parts, and the code that stands in parts.

use ccr_base::{List, Name, Sent};
use ccr_text::put_bytes;
use ccr_try::put_number;
use ccr_wiring::{Parts, ScriptPost, Unfit, Wiring};
use std::alloc::Global;

/// Adds the item. Where memory is refused it lacks.
pub fn add<T: Drop>(list: &mut List<T>, item: T) {
    let _ = list.add(item);
}

/// The post as a script keeps it, or none where there is no memory.
pub fn add_post(alloc: Global, posts: &mut List<ScriptPost>, post: Sent) {
    if let Ok(post) = ScriptPost::of(alloc, post) {
        add(posts, post);
    }
}

/// The word with its number.
pub fn name(alloc: Global, kind: &[u8], number: u32) -> Name {
    let mut name = List::new(alloc);
    let _ = put_bytes(&mut name, kind);
    let _ = ccr_text::put_number(&mut name, u64::from(number));
    name
}

/// Adds the code that stands in the parts, or 0. There is none where memory lacks.
pub fn put_code(alloc: Global, parts: Parts, out: &mut List<u8>) {
    match Wiring::check(alloc, parts) {
        Ok(_) => put_number(out, 0),
        Err(Unfit::Code(code)) => put_number(out, u64::from(code)),
        Err(Unfit::Memory) => {}
    }
}

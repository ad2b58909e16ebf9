//! The posters of a generated wiring.

ghost use Rattle.std.specs.Prelude.{◌≡◌, IfOk};
ghost use Rattle.ccr_gen.specs.Posters.{sent, script, poster, posters};

use ccr_base::{List, OutOfMemory, Sent, Value, name_of};
use ccr_wiring::{PosterPart, ScriptPost};
use std::alloc::Global;

fn sent(alloc: Global, post: u32) -> Sent
    ensures { result ≡ sent post }
{
    Sent {
        port: post % 3,
        value: Value::one(u64::from(post)),
        causes: List::new(alloc),
    }
}

/// The posts of the poster of this number, of so many in all.
#[tactic(auto, using(crate::proofs::Lines::script_more))]
fn script(alloc: Global, size: u32, number: u32) -> Result<List<ScriptPost>, OutOfMemory>
    ensures { IfOk result (λ posts. posts ≡ script size number) }
{
    let mut posts = Vec::new(alloc);
    for post in 0..size {
        if post % 4 == number {
            posts.push(ScriptPost::of(alloc, sent(alloc, post))?)?;
        }
    }
    Ok(List::from_vec(posts))
}

fn poster(alloc: Global, size: u32, name: &[u8], number: u32) -> Result<PosterPart, OutOfMemory>
    ensures { IfOk result (λ part. part ≡ poster size name.now number) }
{
    Ok(PosterPart {
        name: name_of(alloc, name)?,
        posts: script(alloc, size, number)?,
    })
}

/// The posters of so many posts in all.
pub fn posters(alloc: Global, size: u32) -> Result<List<PosterPart>, OutOfMemory>
    ensures { IfOk result (λ parts. parts ≡ posters size) }
{
    let first = poster(alloc, size, b"w0", 0)?;
    let second = poster(alloc, size, b"w1", 1)?;
    let third = poster(alloc, size, b"w2", 2)?;
    let fourth = poster(alloc, size, b"w3", 3)?;
    Ok(List::from_vec(vec![in alloc; first, second, third, fourth]?))
}

//! An input that is a wiring with turns behind it.

ghost use Rattle.std.specs.Prelude.{◌≡◌, ◌<◌, ◌≤◌, All, IfErr, IfOk, Err, Ok, Some, length, true};
ghost use Rattle.ccr_wiring.specs.Openness.{is_closed};
ghost use Rattle.ccr_base.specs.Bounds.{most_wiring_bytes, most_workers};
ghost use Rattle.ccr_wiring.specs.Actors.{actor_count};
ghost use Rattle.ccr_wiretext.specs.Answers.{IsReading};
ghost use Rattle.ccr_commands.specs.Answers.{AnswersText};
ghost use Rattle.ccr_commands.specs.Inputs.{reading_run, turns_of};
ghost use Rattle.ccr_words.specs.declared.requests.Command.TheVariants.{Run};

use crate::outputs::{Output, refused};
use crate::run::run;
use ccr_actor::actor_count;
use ccr_base::{ActorNo, Gate, List, OutOfMemory};
use ccr_replay::read_turns;
use ccr_text::find_line;
use ccr_wiretext::{ReadRefused, read_wiring};
use ccr_wiring::Wiring;
use std::alloc::Global;
use std::sync::Wait;
use std::thread::Threads;

/// The wiring and the turns behind it. The wiring is what stands before the first line whose first word is `turn`.
fn read_schedule(
    alloc: Global,
    text: &[u8],
    workers: u32,
) -> Result<(Wiring, List<ActorNo>), ReadRefused>
    requires workers { workers ≤ most_workers }
    requires length { length text.now ≤ most_wiring_bytes }
    ensures wiring { IfOk result (λ read. reading_run true workers text.now ≡ Ok read.0) }
    ensures turns { IfOk result (λ read. turns_of true read.0 workers text.now ≡ Some read.1) }
    ensures closed { IfOk result (λ read. is_closed read.0 ≡ true) }
    ensures actors { IfOk result (λ read. All (λ actor. actor < actor_count read.0 workers) read.1) }
    ensures refused { IfErr result (λ why. IsReading (Err why) (reading_run true workers text.now)) }
{
    let (index, before) = find_line(text, b"turn");
    let wiring = read_wiring(alloc, &text[..index])?;
    let actors = actor_count(&wiring, workers);
    match read_turns(alloc, &text[index..], before, actors) {
        Ok(turns) => Ok((wiring, turns)),
        Err(why) => Err(why),
    }
}

/// What a scheduled run writes.
pub fn answer_schedule<R: AllocGlobal + Threads + Wait + Sync, G: Gate + Sync>(
    rt: &R,
    gate: &G,
    text: &[u8],
    workers: u32,
    json: bool,
) -> Result<Output, OutOfMemory>
    requires workers { workers ≤ most_workers }
    requires length { length text.now ≤ most_wiring_bytes }
    ensures { IfOk result (λ due. AnswersText (Run workers true) json text.now due.status due.text) }
{
    match read_schedule(rt.alloc(), text, workers) {
        Ok((wiring, turns)) => run(rt, gate, &wiring, workers, Some(turns.as_slice()), json),
        Err(why) => refused(rt.alloc(), why),
    }
}

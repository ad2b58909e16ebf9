//! A wiring is read from its text and run to its end by one thread, and its history is written.

ghost use Rattle.std.specs.Prelude.{◌≡◌, ◌≤◌, length, true, IfOk};
ghost use Rattle.ccr_wiring.specs.Openness.{is_closed};
ghost use Rattle.ccr_base.specs.Bounds.{most_wiring_bytes};
ghost use Rattle.ccr_model.specs.Legal.{IsLegal, IsQuiet, is_complete};
ghost use Rattle.ccr_examples.specs.Runs.{IsRunOf, IsRunOfText};

use ccr_actor::actor_count;
use ccr_base::{List, OutOfMemory};
use ccr_model::History;
use ccr_serial::Serial;
use ccr_trace::write_history;
use ccr_wiretext::{ReadRefused, read_wiring};
use ccr_wiring::Wiring;
use std::alloc::Global;

/// The history of a run from its beginning until nothing more is allowed.
fn run_to_the_end(alloc: Global, wiring: &Wiring) -> Result<History, OutOfMemory>
    requires { is_closed wiring.now ≡ true }
    ensures legal { IfOk result (IsLegal wiring.now) }
    ensures complete { IfOk result (λ history. is_complete wiring.now history ≡ true) }
    ensures quiet { IfOk result (IsQuiet wiring.now) }
{
    // All tasks are run by the actor of the first number behind those of the posters.
    let engine = Serial::start(alloc, wiring, actor_count(wiring, 0))?;
    engine.finish()
}

/// The text of the history of such a run.
fn run(alloc: Global, wiring: &Wiring) -> Result<List<u8>, OutOfMemory>
    requires { is_closed wiring.now ≡ true }
    ensures { IfOk result (IsRunOf wiring.now) }
{
    let history = run_to_the_end(alloc, wiring)?;
    write_history(alloc, wiring, &history)
}

/// The text of the history of a run of the wiring that this text says, or the line that offends.
pub fn run_text(alloc: Global, text: &[u8]) -> Result<List<u8>, ReadRefused>
    requires { length text.now ≤ most_wiring_bytes }
    ensures { IfOk result (IsRunOfText text.now) }
{
    let wiring = read_wiring(alloc, text)?;
    match run(alloc, &wiring) {
        Ok(written) => Ok(written),
        Err(OutOfMemory) => Err(ReadRefused::Memory),
    }
}

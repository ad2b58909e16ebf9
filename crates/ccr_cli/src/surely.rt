//! The top call over streams that never fail.

ghost use Rattle.std.specs.Prelude.{◌≡◌, ◌≢◌, ℕ, Bool, [], ◌∷◌, Some, Contains};
ghost use Rattle.ccr_io.specs.Memory.{told};
ghost use Rattle.ccr_words.specs.AskedFor.{asked_for};
ghost use Rattle.ccr_words.specs.declared.requests.Request.TheVariants.{Load};
ghost use Rattle.ccr_commands.specs.Answers.{IsAccepted, OfCommand};
ghost use Rattle.ccr_commands.specs.declared.status.Status.TheVariants.{Done};
ghost use Rattle.ccr_commands.specs.Exits.{exit_done, exit_read_fault, exit_write_fault, exit_no_memory};
ghost use Rattle.ccr_cli.specs.Ends.{IsAnswered, statuses_of};

use crate::top::run_ccr;
use ccr_base::{Gate, Name};
use ccr_io::{SureSink, SureSource};
use std::sync::Wait;
use std::thread::Threads;

/// Does what the words say, as `run_ccr`, and never ends for a fault of the source or the sink.
pub fn run_surely<R: AllocGlobal + Threads + Wait + Sync, G: Gate + Sync>(
    rt: &R,
    words: &[Name],
    source: &mut SureSource,
    sink: &mut SureSink,
    gate: &G,
) -> u8
    ensures read { result ≢ exit_read_fault }
    ensures written { result ≢ exit_write_fault }
    ensures done { result ≡ exit_done → IsAnswered Done words.now (Some source.old.rest) (told sink.old) (told sink.new) }

    // Words and input of their forms.
    ensures complete { OfCommand words.now (λ command. IsAccepted command (Some source.old.rest) → Contains (statuses_of command) result) }
    ensures load_complete { (size workers : ℕ) → (json : Bool) → asked_for words.now ≡ Some (Load size workers json) → Contains (exit_done ∷ exit_no_memory ∷ []) result }
{
    run_ccr(rt, words, source, sink, gate)
}

//! The top call.

ghost use Rattle.std.specs.Prelude.{◌≡◌, ℕ, Bool, [], ◌∷◌, true, Some, None, IsSome, Contains};
ghost use Rattle.ccr_io.specs.Faults.{Rose};
ghost use Rattle.ccr_words.specs.AskedFor.{asked_for};
ghost use Rattle.ccr_words.specs.declared.requests.Command.TheVariants.{Verify};
ghost use Rattle.ccr_words.specs.declared.requests.Request.TheVariants.{Read, Load};
ghost use Rattle.ccr_commands.specs.Answers.{IsDeclined, IsExcessive, IsVerified, IsExhausted, OfCommand};
ghost use Rattle.ccr_commands.specs.declared.status.Status.TheVariants.{Done, Usage, Refused, Shed, Illegal, TooLong};
ghost use Rattle.ccr_commands.specs.Exits.{exit_done, exit_usage, exit_refused, exit_read_fault, exit_write_fault, exit_no_memory, exit_shed, exit_illegal, exit_too_long, failures};
ghost use Rattle.ccr_cli.specs.Ends.{IsAnswered, IsBegun, IsOwnEnd};

use ccr_base::{Gate, Name};
use ccr_commands::{Status, answer_words};
use ccr_io::{Failed, Sink, Source, write_all};
use std::sync::Wait;
use std::thread::Threads;

/// Does what the words say and answers the exit status. The words are those behind the program's name.
pub fn run_ccr<R: AllocGlobal + Threads + Wait + Sync, S: Source, K: Sink, G: Gate + Sync>(
    rt: &R,
    words: &[Name],
    source: &mut S,
    sink: &mut K,
    gate: &G,
) -> u8
    ensures done { result ≡ exit_done → IsAnswered Done words.now (S.rest source.old) (K.written sink.old) (K.written sink.new) }
    ensures done_input { OfCommand words.now (λ command. result ≡ exit_done → IsExhausted Done (S.rest source.old) (S.rest source.new)) }
    ensures shed { result ≡ exit_shed → IsAnswered Shed words.now (S.rest source.old) (K.written sink.old) (K.written sink.new) }
    ensures shed_input { result ≡ exit_shed → IsExhausted Shed (S.rest source.old) (S.rest source.new) }

    ensures usage { result ≡ exit_usage → IsAnswered Usage words.now (S.rest source.old) (K.written sink.old) (K.written sink.new) }
    ensures usage_due { asked_for words.now ≡ None → Contains (exit_usage ∷ exit_write_fault ∷ exit_no_memory ∷ []) result }
    ensures usage_source { asked_for words.now ≡ None → source.new ≡ source.old }

    ensures load_due { (size workers : ℕ) → (json : Bool) → asked_for words.now ≡ Some (Load size workers json) → Contains (exit_done ∷ exit_write_fault ∷ exit_no_memory ∷ []) result }
    ensures load_source { (size workers : ℕ) → (json : Bool) → asked_for words.now ≡ Some (Load size workers json) → source.new ≡ source.old }

    ensures refused { result ≡ exit_refused → IsAnswered Refused words.now (S.rest source.old) (K.written sink.old) (K.written sink.new) }
    ensures refused_input { result ≡ exit_refused → IsExhausted Refused (S.rest source.old) (S.rest source.new) }
    ensures refused_due { OfCommand words.now (λ command. IsDeclined command (S.rest source.old) → Contains (exit_refused ∷ failures) result) }

    ensures illegal { result ≡ exit_illegal → IsAnswered Illegal words.now (S.rest source.old) (K.written sink.old) (K.written sink.new) }
    ensures illegal_input { result ≡ exit_illegal → IsExhausted Illegal (S.rest source.old) (S.rest source.new) }
    ensures illegal_due { (json : Bool) → asked_for words.now ≡ Some (Read Verify json) → IsVerified true (S.rest source.old) → Contains (exit_illegal ∷ failures) result }

    ensures too_long { result ≡ exit_too_long → IsAnswered TooLong words.now (S.rest source.old) (K.written sink.old) (K.written sink.new) }
    ensures too_long_due { OfCommand words.now (λ command. IsExcessive command (S.rest source.old) → Contains (exit_too_long ∷ failures) result) }

    ensures read_fault { result ≡ exit_read_fault → Rose (S.faults source.old) (S.faults source.new) }
    ensures read_words { result ≡ exit_read_fault → IsSome (asked_for words.now) }
    ensures read_silent { result ≡ exit_read_fault → sink.new ≡ sink.old }

    ensures write_fault { result ≡ exit_write_fault → Rose (K.faults sink.old) (K.faults sink.new) }
    ensures write_begun { result ≡ exit_write_fault → IsBegun words.now (S.rest source.old) (K.written sink.old) (K.written sink.new) }

    ensures memory { result ≡ exit_no_memory → sink.new ≡ sink.old }
    ensures statuses { Contains (exit_done ∷ exit_usage ∷ exit_refused ∷ exit_read_fault ∷ exit_write_fault ∷ exit_no_memory ∷ exit_shed ∷ exit_illegal ∷ exit_too_long ∷ []) result }

    // Words and input of their forms, and no fault in this call.
    ensures complete { OfCommand words.now (λ command. IsOwnEnd command (S.rest source.old)
        (Rose (S.faults source.old) (S.faults source.new)) (Rose (K.faults sink.old) (K.faults sink.new)) result) }
    ensures load_complete { (size workers : ℕ) → (json : Bool) → asked_for words.now ≡ Some (Load size workers json) →
        (Rose (K.faults sink.old) (K.faults sink.new) → ⊥) → Contains (exit_done ∷ exit_no_memory ∷ []) result }
{
    match answer_words(rt, gate, words, source) {
        Ok(due) => match write_all(sink, due.text.as_slice()) {
            Ok(()) => due.status as u8,
            Err(Failed) => Status::WriteFault as u8,
        },
        Err(status) => status as u8,
    }
}

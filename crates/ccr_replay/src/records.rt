//! A record, and its text.

ghost use Rattle.std.specs.Prelude.{◌≡◌, ◌++◌, IfOk, Ok, OnOk, map};
ghost use Rattle.ccr_text.specs.Spelling.{text_of};
ghost use Rattle.ccr_wiring.specs.declared.parts.Parts.{Parts};
ghost use Rattle.ccr_replay.specs.Lawful.{record_of, WhereRecorded};
ghost use Rattle.ccr_replay.specs.Reading.{reading_record};
ghost use Rattle.ccr_replay.specs.Records.{record_text, turn_words};

use crate::laws::records_are_read_again;
use ccr_base::{ActorNo, List, OutOfMemory};
use ccr_text::put_bytes;
use ccr_trace::put_number_word;
use ccr_wiring::Wiring;
use std::alloc::Global;

/// A run as it is written down: its wiring, how many workers it had, and whose turn it was, in order.
#[derive(Drop)]
pub struct Record {
    pub wiring: Wiring,
    pub workers: u32,
    pub turns: List<ActorNo>,
}

/// How many bytes the line of a turn has at most, for an actor of a wiring.
const LINE: usize = 8;

fn put_turns(out: &mut List<u8>, turns: &[ActorNo]) -> Result<(), OutOfMemory>
    ensures { OnOk result (out.new ≡ out.old ++ text_of (map turn_words turns.now)) }
{
    for turn in turns {
        put_bytes(out, b"turn")?;
        put_number_word(out, u64::from(*turn))?;
        put_bytes(out, b"\n")?;
    }
    Ok(())
}

fn put_record(
    alloc: Global,
    wiring_text: &[u8],
    workers: u32,
    turns: &[ActorNo],
) -> Result<List<u8>, OutOfMemory>
    ensures { IfOk result (λ text. text ≡ record_text wiring_text.now workers turns.now) }
{
    let mut out = List::from_vec(Vec::with_capacity(
        alloc,
        turns
            .len()
            .saturating_mul(LINE)
            .saturating_add(wiring_text.len()),
    )?);
    put_bytes(&mut out, wiring_text)?;
    put_bytes(&mut out, b"\nrecord 1")?;
    put_number_word(&mut out, u64::from(workers))?;
    put_bytes(&mut out, b"\n")?;
    put_turns(&mut out, turns)?;
    put_bytes(&mut out, b"done 0\n")?;
    Ok(out)
}

/// Writes the record of a run with so many workers. The wiring's text comes first, unchanged and with LF behind it; then the
/// line `record 1 N`, each turn as `turn A`, and the last line `done 0`. Where the text says a wiring and has at most 1,048,576
/// bytes, there are at most 16 workers, and each turn is that of one of its posters or of the workers, it is read as that record.
pub fn write_record(
    alloc: Global,
    wiring_text: &[u8],
    workers: u32,
    turns: &[ActorNo],
) -> Result<List<u8>, OutOfMemory>
    ensures text { IfOk result (λ text. text ≡ record_text wiring_text.now workers turns.now) }
    ensures again { (wiring : Parts) → WhereRecorded wiring_text.now wiring workers turns.now (IfOk result (λ text. reading_record text ≡ Ok (record_of wiring workers turns.now))) }
{
    records_are_read_again();
    put_record(alloc, wiring_text, workers, turns)
}

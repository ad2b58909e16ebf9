//! The words of places and notes, each behind a space.

ghost use Rattle.std.specs.Prelude.{◌≡◌, ◌++◌, ◌∷◌, [], OnOk, codes, decimal};
ghost use Rattle.ccr_trace.specs.HistoryText.{behind, dropped_words};
ghost use Rattle.ccr_trace.specs.Words.{branch_names, task_word};
ghost use Rattle.ccr_replay.specs.Steps.{by_words, claim_words, full_words, how_words, note_words, number_or_none, place_words, task_or_none};

use ccr_base::{By, How, List, Name, OutOfMemory, Place, Spot, TaskId};
use ccr_places::{ClaimNote, Note};
use ccr_text::put_bytes;
use ccr_trace::{put_message, put_number_word, put_task, put_value, put_word};
use ccr_wiring::{Parts, arbiter_name, port_name, put_spot_word, queue_name};

/// Adds the digits of a stamp.
pub fn put_stamp(out: &mut List<u8>, stamp: u128) -> Result<(), OutOfMemory>
    ensures { OnOk result (out.new ≡ out.old ++ 32 ∷ decimal stamp) }
{
    let mut buffer = itoa::Buffer::new();
    put_word(out, buffer.format(stamp).as_bytes())
}

/// Adds the kind of the place and its name. `branches` are the names of all branches.
pub fn put_place(
    out: &mut List<u8>,
    parts: &Parts,
    branches: &[Name],
    place: Place,
) -> Result<(), OutOfMemory>
    requires { branches.now ≡ branch_names parts.now }
    ensures { OnOk result (out.new ≡ out.old ++ behind (place_words parts.now place)) }
{
    match place {
        Place::Port(port) => put_named(out, b"port", port_name(parts, port)),
        Place::Arbiter(arbiter) => put_named(out, b"arbiter", arbiter_name(parts, arbiter)),
        Place::Site(branch, site) => {
            put_word(out, b"site")?;
            put_bytes(out, b" ")?;
            put_spot_word(out, branches, Spot::Site(branch, site))
        }
        Place::Queue(queue) => put_named(out, b"queue", queue_name(parts, queue)),
        Place::Meter => put_word(out, b"meter"),
    }
}

fn put_named(out: &mut List<u8>, kind: &[u8], name: &[u8]) -> Result<(), OutOfMemory>
    ensures { OnOk result (out.new ≡ out.old ++ behind (kind.now ∷ name.now ∷ [])) }
{
    put_word(out, kind)?;
    put_word(out, name)
}

/// Adds what the place noted.
pub fn put_note(out: &mut List<u8>, note: &Note) -> Result<(), OutOfMemory>
    ensures { OnOk result (out.new ≡ out.old ++ behind (note_words note.now)) }
{
    match note {
        Note::Post(message) => {
            put_word(out, b"post")?;
            put_message(out, message.id)
        }
        Note::Claim { task, reply, .. } => {
            put_of(out, b"claim", *task)?;
            put_claim(out, *reply)
        }
        Note::Consume(task) => put_of(out, b"consume", *task),
        Note::Free(task) => put_of(out, b"free", *task),
        Note::Fired { task, .. } => put_of(out, b"fired", *task),
        Note::Dead { task, by, .. } => {
            put_of(out, b"dead", *task)?;
            put_by(out, *by)
        }
        Note::Admit(task) => put_of_some(out, b"admit", *task),
        Note::Over { task, how, .. } => {
            put_of(out, b"over", *task)?;
            put_how(out, *how)
        }
        Note::Suspend(task) => put_of(out, b"suspend", *task),
        Note::Book { task, full, .. } => {
            put_of(out, b"book", *task)?;
            put_full(out, *full)
        }
        Note::Unbook(task) => put_of(out, b"unbook", *task),
        Note::Put { task, dropped } => {
            put_of(out, b"put", *task)?;
            put_drop(out, *dropped)
        }
        Note::Take(task) => put_of_some(out, b"take", *task),
        Note::Draw(number) => put_draw(out, *number),
        Note::Leave => put_word(out, b"leave"),
        Note::Left(count) => put_counted(out, b"left", *count),
    }
}

/// A word and a task.
fn put_of(out: &mut List<u8>, word: &[u8], task: TaskId) -> Result<(), OutOfMemory>
    ensures { OnOk result (out.new ≡ out.old ++ behind (word.now ∷ task_word task ∷ [])) }
{
    put_word(out, word)?;
    put_task(out, task)
}

/// A word, and a task or `none`.
fn put_of_some(out: &mut List<u8>, word: &[u8], task: Option<TaskId>) -> Result<(), OutOfMemory>
    ensures { OnOk result (out.new ≡ out.old ++ behind (word.now ∷ task_or_none task ∷ [])) }
{
    put_word(out, word)?;
    match task {
        None => put_word(out, b"none"),
        Some(task) => put_task(out, task),
    }
}

/// A word and a number.
fn put_counted(out: &mut List<u8>, word: &[u8], count: u32) -> Result<(), OutOfMemory>
    ensures { OnOk result (out.new ≡ out.old ++ behind (word.now ∷ decimal count ∷ [])) }
{
    put_word(out, word)?;
    put_number_word(out, u64::from(count))
}

fn put_claim(out: &mut List<u8>, reply: ClaimNote) -> Result<(), OutOfMemory>
    ensures { OnOk result (out.new ≡ out.old ++ behind (claim_words reply)) }
{
    match reply {
        ClaimNote::Got(count) => put_counted(out, b"got", count),
        ClaimNote::Busy(task) => put_of(out, b"busy", task),
        ClaimNote::Short(count) => put_counted(out, b"short", count),
    }
}

fn put_by(out: &mut List<u8>, by: By) -> Result<(), OutOfMemory>
    ensures { OnOk result (out.new ≡ out.old ++ behind (by_words by)) }
{
    match by {
        By::Fired(task) => put_of(out, b"by", task),
        By::NoneWaiting => put_word(out, b"none"),
    }
}

fn put_how(out: &mut List<u8>, how: How) -> Result<(), OutOfMemory>
    ensures { OnOk result (out.new ≡ out.old ++ behind (how_words how)) }
{
    match how {
        How::Done => put_word(out, b"done"),
        How::Failed(value) => {
            put_word(out, b"failed")?;
            put_value(out, value)
        }
        How::Shed => put_word(out, b"shed"),
        How::Dropped => put_word(out, b"dropped"),
    }
}

fn put_full(out: &mut List<u8>, full: Option<u32>) -> Result<(), OutOfMemory>
    ensures { OnOk result (out.new ≡ out.old ++ behind (full_words full)) }
{
    match full {
        None => Ok(()),
        Some(count) => put_counted(out, b"full", count),
    }
}

fn put_drop(out: &mut List<u8>, dropped: Option<TaskId>) -> Result<(), OutOfMemory>
    ensures { OnOk result (out.new ≡ out.old ++ behind (dropped_words dropped)) }
{
    match dropped {
        None => Ok(()),
        Some(task) => put_of(out, b"drop", task),
    }
}

fn put_draw(out: &mut List<u8>, number: Option<u32>) -> Result<(), OutOfMemory>
    ensures { OnOk result (out.new ≡ out.old ++ behind (codes "draw" ∷ number_or_none number ∷ [])) }
{
    match number {
        None => put_none(out, b"draw"),
        Some(number) => put_counted(out, b"draw", number),
    }
}

/// A word and `none`.
fn put_none(out: &mut List<u8>, word: &[u8]) -> Result<(), OutOfMemory>
    ensures { OnOk result (out.new ≡ out.old ++ behind (word.now ∷ codes "none" ∷ [])) }
{
    put_word(out, word)?;
    put_word(out, b"none")
}

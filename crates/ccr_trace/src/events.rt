//! The lines of events.

ghost use Rattle.std.specs.Prelude.{◌≡◌, ◌++◌, ◌∷◌, [], OnOk, map, codes};
ghost use Rattle.std.specs.List.{All};
ghost use Rattle.ccr_text.specs.Spelling.{line_text};
ghost use Rattle.ccr_trace.specs.Words.{task_word, message_word, spot_word, name_at, branch_names, cause_names};
ghost use Rattle.ccr_text.specs.Exact.{value_word};
ghost use Rattle.ccr_trace.specs.Said.{IsTask, IsMessage, IsDropped, HasNumbers};
ghost use Rattle.ccr_trace.specs.Known.{IsShortSpot, IsShortEnd, IsShort};
ghost use Rattle.ccr_trace.specs.HistoryText.{behind, cut_words, dropped_words, end_words, event_words, post_words};

use crate::plain::{
    fire_line, put_drop_line, put_end_line, put_plain_post, put_start, put_task_line,
};
use crate::words::{put_message, put_spot, put_task, put_value, put_word};
use ccr_base::{CauseNo, List, Msg, MsgId, Name, OutOfMemory, Spot, TaskId, Value};
use ccr_model::{EndHow, Event};
use ccr_text::{MAX_NAME_BYTES, put_bytes};
use ccr_wiring::{Parts, cause_name, name_at};

/// Adds the event's line.
pub fn put_event(
    out: &mut List<u8>,
    parts: &Parts,
    branches: &[Name],
    event: &Event,
) -> Result<(), OutOfMemory>
    requires { branches.now ≡ branch_names parts.now }
    ensures text { OnOk result (out.new ≡ out.old ++ line_text (event_words parts.now event.now)) }
    ensures numbers { OnOk result (IsShort event.now) }
{
    match event {
        Event::Post(message) => put_post(out, parts, message),
        Event::Fire {
            task,
            spot,
            messages,
            cuts,
        } => put_fire(out, branches, *task, *spot, messages, cuts),
        Event::Admit(task) => put_task_line(out, b"admit", *task),
        Event::Put { task, dropped } => put_put(out, *task, *dropped),
        Event::Start { task, actor } => put_start(out, *task, *actor),
        Event::End { task, how } => put_end(out, *task, *how),
    }
}

fn put_post(out: &mut List<u8>, parts: &Parts, message: &Msg) -> Result<(), OutOfMemory>
    ensures text { OnOk result (out.new ≡ out.old ++ line_text (post_words parts.now message.now)) }
    ensures numbers { OnOk result (IsMessage message.now.id × HasNumbers message.now.value) }
{
    let port = name_at(parts.ports.as_slice(), message.port);
    if let Some((number, others)) = message.value.numbers().split_first()
        && others.is_empty()
        && message.causes.is_empty()
        && port.len() <= MAX_NAME_BYTES
    {
        return put_plain_post(out, message.id, port, *number);
    }
    put_full_post(out, parts, message)
}

/// The line word by word.
fn put_full_post(out: &mut List<u8>, parts: &Parts, message: &Msg) -> Result<(), OutOfMemory>
    ensures text { OnOk result (out.new ≡ out.old ++ line_text (post_words parts.now message.now)) }
    ensures numbers { OnOk result (IsMessage message.now.id × HasNumbers message.now.value) }
{
    put_bytes(out, b"post")?;
    put_message(out, message.id)?;
    put_word(out, name_at(parts.ports.as_slice(), message.port))?;
    put_value(out, message.value)?;
    put_causes(out, parts, message.causes.as_slice())?;
    put_bytes(out, b"\n")
}

fn put_causes(out: &mut List<u8>, parts: &Parts, causes: &[CauseNo]) -> Result<(), OutOfMemory>
    ensures { OnOk result (out.new ≡ out.old ++ behind (map (name_at (cause_names parts.now)) causes.now)) }
{
    for cause in causes {
        put_word(out, cause_name(parts, *cause))?;
    }
    Ok(())
}

fn put_fire(
    out: &mut List<u8>,
    branches: &[Name],
    task: TaskId,
    spot: Spot,
    messages: &List<MsgId>,
    cuts: &List<TaskId>,
) -> Result<(), OutOfMemory>
    ensures text { OnOk result (out.new ≡ out.old ++ line_text (codes "fire" ∷ task_word task ∷ spot_word branches.now spot ∷ (map message_word messages.now ++ cut_words cuts.now))) }
    ensures numbers { OnOk result (IsTask task × IsShortSpot spot × All IsMessage messages.now × All IsTask cuts.now) }
{
    if let Spot::Branch(branch) = spot
        && cuts.is_empty()
    {
        let name = name_at(branches, branch);
        if name.len() <= MAX_NAME_BYTES
            && let Some(line) = fire_line(task, name, messages.as_slice())
        {
            return put_bytes(out, line.as_slice());
        }
    }
    put_full_fire(out, branches, task, spot, messages, cuts)
}

/// The line word by word.
fn put_full_fire(
    out: &mut List<u8>,
    branches: &[Name],
    task: TaskId,
    spot: Spot,
    messages: &List<MsgId>,
    cuts: &List<TaskId>,
) -> Result<(), OutOfMemory>
    ensures text { OnOk result (out.new ≡ out.old ++ line_text (codes "fire" ∷ task_word task ∷ spot_word branches.now spot ∷ (map message_word messages.now ++ cut_words cuts.now))) }
    ensures numbers { OnOk result (IsTask task × IsShortSpot spot × All IsMessage messages.now × All IsTask cuts.now) }
{
    put_bytes(out, b"fire")?;
    put_task(out, task)?;
    put_spot(out, branches, spot)?;
    put_messages(out, messages.as_slice())?;
    put_cuts(out, cuts.as_slice())?;
    put_bytes(out, b"\n")
}

fn put_messages(out: &mut List<u8>, messages: &[MsgId]) -> Result<(), OutOfMemory>
    ensures text { OnOk result (out.new ≡ out.old ++ behind (map message_word messages.now)) }
    ensures numbers { OnOk result (All IsMessage messages.now) }
{
    for message in messages {
        put_message(out, *message)?;
    }
    Ok(())
}

fn put_cuts(out: &mut List<u8>, cuts: &[TaskId]) -> Result<(), OutOfMemory>
    ensures text { OnOk result (out.new ≡ out.old ++ behind (cut_words cuts.now)) }
    ensures numbers { OnOk result (All IsTask cuts.now) }
{
    if cuts.is_empty() {
        return Ok(());
    }
    put_word(out, b"cut")?;
    put_tasks(out, cuts)
}

fn put_tasks(out: &mut List<u8>, tasks: &[TaskId]) -> Result<(), OutOfMemory>
    ensures text { OnOk result (out.new ≡ out.old ++ behind (map task_word tasks.now)) }
    ensures numbers { OnOk result (All IsTask tasks.now) }
{
    for task in tasks {
        put_task(out, *task)?;
    }
    Ok(())
}

fn put_put(out: &mut List<u8>, task: TaskId, dropped: Option<TaskId>) -> Result<(), OutOfMemory>
    ensures text { OnOk result (out.new ≡ out.old ++ line_text (codes "put" ∷ task_word task ∷ dropped_words dropped)) }
    ensures numbers { OnOk result (IsTask task × IsDropped dropped) }
{
    match dropped {
        None => put_task_line(out, b"put", task),
        Some(dropped) => put_drop_line(out, task, dropped),
    }
}

fn put_end(out: &mut List<u8>, task: TaskId, how: EndHow) -> Result<(), OutOfMemory>
    ensures text { OnOk result (out.new ≡ out.old ++ line_text (codes "end" ∷ task_word task ∷ end_words how)) }
    ensures numbers { OnOk result (IsTask task × IsShortEnd how) }
{
    match how {
        EndHow::Done => put_end_line(out, task, b"done"),
        EndHow::Yield => put_end_line(out, task, b"yield"),
        EndHow::Shed => put_end_line(out, task, b"shed"),
        EndHow::Failed(value) => put_failed(out, task, value),
    }
}

fn put_failed(out: &mut List<u8>, task: TaskId, value: Value) -> Result<(), OutOfMemory>
    ensures text { OnOk result (out.new ≡ out.old ++ line_text (codes "end" ∷ task_word task ∷ codes "failed" ∷ value_word value ∷ [])) }
    ensures numbers { OnOk result (IsTask task × HasNumbers value) }
{
    put_bytes(out, b"end")?;
    put_task(out, task)?;
    put_word(out, b"failed")?;
    put_value(out, value)?;
    put_bytes(out, b"\n")
}

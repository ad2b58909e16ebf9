//! The lines of events: first what a line says, then what the wiring has of it.

ghost use Rattle.std.specs.Prelude.{◌≡◌};
ghost use Rattle.ccr_trace.specs.Fields.{each, task_of};
ghost use Rattle.ccr_trace.specs.Forms.{cuts, fired, post_said, fire_said, admit_said, dropped_said, put_said, start_said, how_said, plain_end, end_said, form_said};
ghost use Rattle.ccr_trace.specs.Reading.{event_of, event_on};
ghost use Rattle.ccr_trace.specs.Answers.{Says, Leaves, Gives};

use crate::cursor::PieceCursor;
use crate::fields::{message_of, task_of};
use crate::known::Known;
use crate::line_fault::LineFault;
use ccr_base::{List, Msg, MsgId, TaskId};
use ccr_model::{EndHow, Event};
use ccr_text::{Stop, is_text};
use std::alloc::Global;

/// Each word that is left names a task.
#[tactic(auto, using(crate::proofs::Each::each_steps))]
fn tasks(alloc: Global, mut words: PieceCursor<'_>) -> Result<List<TaskId>, Stop<LineFault>>
    ensures { Says result (each task_of words.entry) }
{
    let mut tasks = List::new(alloc);
    'words: while let Some(word) = words.take() {
        let task = task_of(word).ok_or(Stop::Refused(LineFault::Malformed))?;
        tasks.push(task).map_err(|refused| refused.0)?;
    }
    Ok(tasks)
}

/// TASK .., one at least.
#[tactic(auto, unfolding(crate::specs::Forms::cuts))]
fn cuts(alloc: Global, words: PieceCursor<'_>) -> Result<List<TaskId>, Stop<LineFault>>
    ensures { Says result (cuts words.entry) }
{
    let tasks = tasks(alloc, words)?;
    if tasks.as_slice().is_empty() {
        return Err(Stop::Refused(LineFault::Malformed));
    }
    Ok(tasks)
}

/// MSG .., and the tasks behind the word cut.
#[tactic(auto, using(crate::proofs::Each::fired_steps))]
fn fired(
    alloc: Global,
    mut words: PieceCursor<'_>,
) -> Result<(List<MsgId>, List<TaskId>), Stop<LineFault>>
    ensures { Says result (fired words.entry) }
{
    let mut messages = List::new(alloc);
    'plain: while let Some(message) = words.plain_message() {
        messages.push(message).map_err(|refused| refused.0)?;
    }
    'words: while let Some(word) = words.take() {
        if is_text(word, "cut") {
            return Ok((messages, cuts(alloc, words)?));
        }
        let message = message_of(word).ok_or(Stop::Refused(LineFault::Malformed))?;
        messages.push(message).map_err(|refused| refused.0)?;
    }
    Ok((messages, List::new(alloc)))
}

/// post MSG PORT VALUE CAUSE ..
#[tactic(auto, unfolding(crate::specs::Forms::post_said, crate::specs::Known::known))]
fn post(known: &Known<'_>, mut words: PieceCursor<'_>) -> Result<Event, Stop<LineFault>>
    ensures { Gives result (event_of known.now (post_said known.now.version words.entry)) }
{
    let id = words.message()?;
    let port = words.name()?;
    let value = words.value(known.version())?;
    words.names()?;
    Ok(Event::Post(Msg {
        id,
        port: known.port(port)?,
        value,
        causes: known.causes(words)?,
    }))
}

/// fire TASK SPOT MSG .., with cut TASK .. behind it where there are cuts.
#[tactic(auto, unfolding(crate::specs::Forms::fire_said, crate::specs::Known::known))]
fn fire(
    alloc: Global,
    known: &Known<'_>,
    mut words: PieceCursor<'_>,
) -> Result<Event, Stop<LineFault>>
    ensures { Gives result (event_of known.now (fire_said words.entry)) }
{
    let task = words.task()?;
    let (name, site) = words.spot()?;
    let (messages, cuts) = fired(alloc, words)?;
    if messages.as_slice().is_empty() {
        return Err(Stop::Refused(LineFault::Malformed));
    }
    Ok(Event::Fire {
        task,
        spot: known.spot(name, site)?,
        messages,
        cuts,
    })
}

/// admit TASK
#[tactic(auto, unfolding(crate::specs::Forms::admit_said, crate::specs::Known::known))]
fn admit(known: &Known<'_>, mut words: PieceCursor<'_>) -> Result<Event, Stop<LineFault>>
    ensures { Gives result (event_of known.now (admit_said words.entry)) }
{
    let task = words.task()?;
    words.no_more()?;
    Ok(Event::Admit(task))
}

/// Nothing, or drop TASK.
#[tactic(auto, unfolding(crate::specs::Forms::dropped_said))]
fn dropped(mut words: PieceCursor<'_>) -> Result<Option<TaskId>, Stop<LineFault>>
    ensures { Says result (dropped_said words.entry) }
{
    let Some(word) = words.take() else {
        return Ok(None);
    };
    if !is_text(word, "drop") {
        return Err(Stop::Refused(LineFault::Malformed));
    }
    let task = words.task()?;
    words.no_more()?;
    Ok(Some(task))
}

/// put TASK, or put TASK drop TASK.
#[tactic(auto, unfolding(crate::specs::Forms::put_said, crate::specs::Known::known))]
fn put(known: &Known<'_>, mut words: PieceCursor<'_>) -> Result<Event, Stop<LineFault>>
    ensures { Gives result (event_of known.now (put_said words.entry)) }
{
    let task = words.task()?;
    let dropped = dropped(words)?;
    Ok(Event::Put { task, dropped })
}

/// start TASK ACTOR
#[tactic(auto, unfolding(crate::specs::Forms::start_said, crate::specs::Known::known))]
fn start(known: &Known<'_>, mut words: PieceCursor<'_>) -> Result<Event, Stop<LineFault>>
    ensures { Gives result (event_of known.now (start_said words.entry)) }
{
    let task = words.task()?;
    let actor = words.actor()?;
    words.no_more()?;
    Ok(Event::Start { task, actor })
}

/// done, yield or shed.
fn plain_end(word: &[u8]) -> Option<EndHow>
    ensures { result ≡ plain_end word.now }
{
    if is_text(word, "done") {
        Some(EndHow::Done)
    } else if is_text(word, "yield") {
        Some(EndHow::Yield)
    } else if is_text(word, "shed") {
        Some(EndHow::Shed)
    } else {
        None
    }
}

/// How a segment ends.
#[tactic(auto, unfolding(crate::specs::Forms::how_said))]
fn how(version: u32, words: &mut PieceCursor<'_>) -> Result<EndHow, Stop<LineFault>>
    ensures { Leaves words.new result (how_said version words.old) }
{
    let word = words.word()?;
    if is_text(word, "failed") {
        let value = words.value(version)?;
        return Ok(EndHow::Failed(value));
    }
    plain_end(word).ok_or(Stop::Refused(LineFault::Malformed))
}

/// end TASK done, end TASK failed VALUE, end TASK yield, end TASK shed.
#[tactic(auto, unfolding(crate::specs::Forms::end_said, crate::specs::Known::known))]
fn end(known: &Known<'_>, mut words: PieceCursor<'_>) -> Result<Event, Stop<LineFault>>
    ensures { Gives result (event_of known.now (end_said known.now.version words.entry)) }
{
    let task = words.task()?;
    let how = how(known.version(), &mut words)?;
    words.no_more()?;
    Ok(Event::End { task, how })
}

#[tactic(auto, unfolding(crate::specs::Forms::form_said))]
fn event_of_words(
    alloc: Global,
    known: &Known<'_>,
    first: &[u8],
    words: PieceCursor<'_>,
) -> Result<Event, Stop<LineFault>>
    ensures { Gives result (event_of known.now (form_said known.now.version first.now words.entry)) }
{
    if is_text(first, "post") {
        post(known, words)
    } else if is_text(first, "fire") {
        fire(alloc, known, words)
    } else if is_text(first, "admit") {
        admit(known, words)
    } else if is_text(first, "put") {
        put(known, words)
    } else if is_text(first, "start") {
        start(known, words)
    } else if is_text(first, "end") {
        end(known, words)
    } else {
        Err(Stop::Refused(LineFault::Malformed))
    }
}

/// The event of a line without its LF.
pub fn event_on(alloc: Global, known: &Known<'_>, line: &[u8]) -> Result<Event, Stop<LineFault>>
    ensures { Gives result (event_on known.now line.now) }
{
    let mut words = PieceCursor::new(line);
    let first = words.word()?;
    event_of_words(alloc, known, first, words)
}

//! The fields of a line of one word or two. Each function takes the words of one field, or tells the code of what stands
//! there.

ghost use Rattle.ccr_text.specs.Answers.{Leaves, LeavesBy};
ghost use Rattle.ccr_wiretext.specs.Names.{as_queue, as_cause, as_handler, as_arbiter};
ghost use Rattle.ccr_wiretext.specs.Fields.{new_name, reference, port, group, value, part, expr, interleave};

use crate::draft::Draft;
use crate::named::Named;
use crate::values::value_in;
use ccr_base::{ArbiterNo, CauseNo, Expr, Group, HandlerNo, PortNo, QueueNo, Value};
use ccr_text::{Code, Cursor, Names, Stop, is_name, is_text};
use ccr_wiring::{MAX_ARG, MAX_INDEX};
use std::alloc::Global;

/// A name that is declared here.
#[tactic(auto, unfolding(crate::specs::Fields::new_name))]
pub fn new_name<'a>(words: &mut Cursor<'a>, names: &Names<Named>) -> Result<&'a [u8], Stop<Code>>
    ensures { LeavesBy (λ name. name.now) words.new result (new_name names.now words.old) }
{
    let name = words.word()?;
    if !is_name(name) {
        return Err(Stop::Refused(Code::NameForm));
    }
    if names.get(name).is_some() {
        return Err(Stop::Refused(Code::Declared));
    }
    Ok(name)
}

/// PORT or SET/PORT.
#[tactic(auto, unfolding(crate::specs::Fields::port))]
pub fn port(words: &mut Cursor<'_>, draft: &Draft) -> Result<PortNo, Stop<Code>>
    ensures { Leaves words.new result (port draft.now words.old) }
{
    let name = words.word()?;
    match draft.port(name) {
        Some(number) => Ok(number),
        None => Err(Stop::Refused(Code::Reference)),
    }
}

#[tactic(auto, unfolding(crate::specs::Fields::reference))]
pub fn queue(words: &mut Cursor<'_>, names: &Names<Named>) -> Result<QueueNo, Stop<Code>>
    ensures { Leaves words.new result (reference as_queue names.now words.old) }
{
    let name = words.word()?;
    match names.get(name) {
        Some(Named::Queue(number)) => Ok(number),
        _ => Err(Stop::Refused(Code::Reference)),
    }
}

#[tactic(auto, unfolding(crate::specs::Fields::reference))]
pub fn cause(words: &mut Cursor<'_>, names: &Names<Named>) -> Result<CauseNo, Stop<Code>>
    ensures { Leaves words.new result (reference as_cause names.now words.old) }
{
    let name = words.word()?;
    match names.get(name) {
        Some(Named::Cause(number)) => Ok(number),
        _ => Err(Stop::Refused(Code::Reference)),
    }
}

#[tactic(auto, unfolding(crate::specs::Fields::reference))]
pub fn handler(words: &mut Cursor<'_>, names: &Names<Named>) -> Result<HandlerNo, Stop<Code>>
    ensures { Leaves words.new result (reference as_handler names.now words.old) }
{
    let name = words.word()?;
    match names.get(name) {
        Some(Named::Handler(number)) => Ok(number),
        _ => Err(Stop::Refused(Code::Reference)),
    }
}

/// once or always.
#[tactic(auto, unfolding(crate::specs::Fields::group))]
pub fn group(words: &mut Cursor<'_>) -> Result<Group, Stop<Code>>
    ensures { Leaves words.new result (group words.old) }
{
    let name = words.word()?;
    if is_text(name, "once") {
        Ok(Group::Once)
    } else if is_text(name, "always") {
        Ok(Group::Always)
    } else {
        Err(Stop::Refused(Code::Keyword))
    }
}

#[tactic(auto, unfolding(crate::specs::Fields::reference))]
fn arbiter(words: &mut Cursor<'_>, names: &Names<Named>) -> Result<ArbiterNo, Stop<Code>>
    ensures { Leaves words.new result (reference as_arbiter names.now words.old) }
{
    let name = words.word()?;
    match names.get(name) {
        Some(Named::Arbiter(number)) => Ok(number),
        _ => Err(Stop::Refused(Code::Reference)),
    }
}

#[tactic(auto, unfolding(crate::specs::Fields::interleave))]
pub fn interleave(words: &mut Cursor<'_>, draft: &Draft) -> Result<ArbiterNo, Stop<Code>>
    ensures { Leaves words.new result (interleave draft.now words.old) }
{
    let arbiter = arbiter(words, &draft.names)?;
    if !draft.is_interleave(arbiter) {
        return Err(Stop::Refused(Code::Reference));
    }
    Ok(arbiter)
}

/// A value in a text of this version.
#[tactic(auto, unfolding(crate::specs::Fields::value))]
pub fn value(words: &mut Cursor<'_>, alloc: Global, version: u32) -> Result<Value, Stop<Code>>
    ensures { Leaves words.new result (value version words.old) }
{
    let word = words.word()?;
    value_in(alloc, version, word)
}

/// The two numbers behind part.
#[tactic(auto, unfolding(crate::specs::Fields::part))]
fn part(words: &mut Cursor<'_>) -> Result<Expr, Stop<Code>>
    ensures { Leaves words.new result (part words.old) }
{
    let message = words.number_within(0, MAX_ARG)?;
    let index = words.number_within(0, MAX_INDEX)?;
    Ok(Expr::Part(message, index))
}

/// A value, arg N, sum or count; in version 2 part N N too.
#[tactic(auto, unfolding(crate::specs::Fields::expr))]
pub fn expr(words: &mut Cursor<'_>, alloc: Global, version: u32) -> Result<Expr, Stop<Code>>
    ensures { Leaves words.new result (expr version words.old) }
{
    let name = words.word()?;
    if is_text(name, "sum") {
        Ok(Expr::Sum)
    } else if is_text(name, "count") {
        Ok(Expr::Count)
    } else if is_text(name, "arg") {
        Ok(Expr::Arg(words.number_within(0, MAX_ARG)?))
    } else if is_text(name, "part") && version == 2 {
        part(words)
    } else {
        Ok(Expr::Number(value_in(alloc, version, name)?))
    }
}

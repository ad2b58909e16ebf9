//! The fields of a line that go on up to its end: patterns, the members of a set, combined Interleaves, the causes of a post.

ghost use Rattle.std.specs.Prelude.{[]};
ghost use Rattle.ccr_text.specs.Answers.{Gives, Leaves};
ghost use Rattle.ccr_wiretext.specs.Patterns.{pred, new_port, slot, slots, taken, gathered, pattern, members, all_members, new_member, further, combined, causes};

use crate::draft::Draft;
use crate::fields;
use crate::named::Named;
use crate::references::is_combined;
use ccr_base::{ArbiterNo, CauseNo, List, Pattern, PortNo, Pred, Slot, has_number};
use ccr_text::{Code, Cursor, Names, Stop, is_text};
use ccr_wiring::{MAX_COUNT, MAX_MEMBERS, MAX_SET_PORTS, MAX_SLOTS, has_slot_at};
use std::alloc::Global;

/// any, eq N, lt N or ge N.
#[tactic(auto, unfolding(crate::specs::Patterns::pred))]
fn pred(words: &mut Cursor<'_>) -> Result<Pred, Stop<Code>>
    ensures { Leaves words.new result (pred words.old) }
{
    let name = words.word()?;
    if is_text(name, "any") {
        Ok(Pred::Any)
    } else if is_text(name, "eq") {
        Ok(Pred::Eq(words.number()?))
    } else if is_text(name, "lt") {
        Ok(Pred::Lt(words.number()?))
    } else if is_text(name, "ge") {
        Ok(Pred::Ge(words.number()?))
    } else {
        Err(Stop::Refused(Code::Keyword))
    }
}

/// A port that isn't among those found before it.
#[tactic(auto, unfolding(crate::specs::Patterns::new_port))]
fn new_port(words: &mut Cursor<'_>, draft: &Draft, found: &[PortNo]) -> Result<PortNo, Stop<Code>>
    ensures { Leaves words.new result (new_port draft.now found.now words.old) }
{
    let port = fields::port(words, draft)?;
    if has_number(found, port) {
        return Err(Stop::Refused(Code::Repeat));
    }
    Ok(port)
}

/// A slot whose port none of those found before has.
#[tactic(auto, unfolding(crate::specs::Patterns::slot))]
fn slot(words: &mut Cursor<'_>, draft: &Draft, found: &[Slot]) -> Result<Slot, Stop<Code>>
    ensures { Leaves words.new result (slot draft.now found.now words.old) }
{
    let port = fields::port(words, draft)?;
    if has_slot_at(found, port) {
        return Err(Stop::Refused(Code::Repeat));
    }
    let count = words.number_within(1, MAX_COUNT)?;
    let pred = pred(words)?;
    Ok(Slot {
        port,
        least: count,
        most: count,
        pred,
    })
}

/// 1 to 8 slots.
#[tactic(auto, unfolding(crate::specs::Patterns::taken, crate::specs::Patterns::slots))]
fn taken(words: &mut Cursor<'_>, alloc: Global, draft: &Draft) -> Result<Pattern, Stop<Code>>
    ensures { Gives result (taken draft.now words.old) }
{
    let mut found = Vec::new(alloc);
    found.push(slot(words, draft, &[])?)?;
    'slots: while !words.is_empty() {
        if found.len() == MAX_SLOTS {
            return Err(Stop::Refused(Code::Limit));
        }
        let next = slot(words, draft, &found)?;
        found.push(next)?;
    }
    Ok(Pattern::Slots(List::from_vec(found)))
}

/// N PORT PORT.
#[tactic(auto, unfolding(crate::specs::Patterns::gathered))]
fn gathered(words: &mut Cursor<'_>, draft: &Draft) -> Result<Pattern, Stop<Code>>
    ensures { Gives result (gathered draft.now words.old) }
{
    let total = words.number_within(1, MAX_COUNT)?;
    let first = fields::port(words, draft)?;
    let second = new_port(words, draft, &[first])?;
    words.no_more()?;
    Ok(Pattern::Gather {
        total,
        first,
        second,
    })
}

/// take and its slots, or gather and its ports, up to the end of the line.
#[tactic(auto, unfolding(crate::specs::Patterns::pattern))]
pub fn pattern(words: &mut Cursor<'_>, alloc: Global, draft: &Draft) -> Result<Pattern, Stop<Code>>
    ensures { Gives result (pattern draft.now words.old) }
{
    let name = words.word()?;
    if is_text(name, "take") {
        taken(words, alloc, draft)
    } else if is_text(name, "gather") {
        gathered(words, draft)
    } else {
        Err(Stop::Refused(Code::Keyword))
    }
}

/// The 1 to 8 members of a set, up to the end of the line.
#[tactic(auto, unfolding(crate::specs::Patterns::all_members, crate::specs::Patterns::members))]
pub fn members(
    words: &mut Cursor<'_>,
    alloc: Global,
    draft: &Draft,
) -> Result<List<PortNo>, Stop<Code>>
    ensures { Gives result (all_members draft.now words.old) }
{
    let mut found = Vec::new(alloc);
    found.push(fields::port(words, draft)?)?;
    'members: while !words.is_empty() {
        if found.len() == MAX_SET_PORTS {
            return Err(Stop::Refused(Code::Limit));
        }
        let next = new_port(words, draft, &found)?;
        found.push(next)?;
    }
    Ok(List::from_vec(found))
}

/// An Interleave that no line before combines, and that isn't among those found before it.
#[tactic(auto, unfolding(crate::specs::Patterns::new_member))]
fn new_member(
    words: &mut Cursor<'_>,
    draft: &Draft,
    found: &[ArbiterNo],
) -> Result<ArbiterNo, Stop<Code>>
    ensures { Leaves words.new result (new_member draft.now found.now words.old) }
{
    let arbiter = fields::interleave(words, draft)?;
    if is_combined(draft.parts.domains.as_slice(), arbiter) || has_number(found, arbiter) {
        return Err(Stop::Refused(Code::Repeat));
    }
    Ok(arbiter)
}

/// 2 to 8 Interleaves, up to the end of the line.
#[tactic(auto, unfolding(crate::specs::Patterns::combined, crate::specs::Patterns::further))]
pub fn combined(
    words: &mut Cursor<'_>,
    alloc: Global,
    draft: &Draft,
) -> Result<List<ArbiterNo>, Stop<Code>>
    ensures { Gives result (combined draft.now words.old) }
{
    let mut found = Vec::new(alloc);
    found.push(new_member(words, draft, &[])?)?;
    found.push(new_member(words, draft, &found)?)?;
    'further: while !words.is_empty() {
        if found.len() == MAX_MEMBERS {
            return Err(Stop::Refused(Code::Limit));
        }
        let next = new_member(words, draft, &found)?;
        found.push(next)?;
    }
    Ok(List::from_vec(found))
}

/// The causes of a post, up to the end of the line.
#[tactic(auto, unfolding(crate::specs::Patterns::causes, crate::specs::Fields::reference))]
pub fn causes(
    words: &mut Cursor<'_>,
    alloc: Global,
    names: &Names<Named>,
) -> Result<List<CauseNo>, Stop<Code>>
    ensures { Gives result (causes names.now [] words.old) }
{
    let mut found = Vec::new(alloc);
    'causes: while !words.is_empty() {
        let next = fields::cause(words, names)?;
        if has_number(&found, next) {
            return Err(Stop::Refused(Code::Repeat));
        }
        found.push(next)?;
    }
    Ok(List::from_vec(found))
}

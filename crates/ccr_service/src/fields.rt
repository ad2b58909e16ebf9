//! What may stand in one field of a service's line. Each function takes the words of its field, or tells the code of what stands there.

ghost use Rattle.std.specs.Prelude.{◌≡◌, None, IfOk};
ghost use Rattle.std.specs.Char.{is_ascii_alphanumeric};
ghost use Rattle.std.specs.List.{list_all};
ghost use Rattle.ccr_text.specs.Answers.{Leaves, LeavesBy};
ghost use Rattle.ccr_text.specs.Names.{meaning_of};
ghost use Rattle.ccr_service.specs.Fields.{new_name, op_name, group, expr, bound};
ghost use Rattle.ccr_service.specs.Services.{is_service_name};

use crate::names::OpOrClient;
use ccr_base::{Expr, Group, Value};
use ccr_text::{Code, Cursor, Names, Stop, is_text, read_number};
use ccr_wiring::MAX_ARG;

/// The most bytes of a name.
const MAX_NAME_BYTES: usize = 12;

fn are_alphanumeric(bytes: &[u8]) -> bool
    ensures { result ≡ list_all is_ascii_alphanumeric bytes.now }
{
    bytes.iter().all(|byte| byte.is_ascii_alphanumeric())
}

/// A letter, and up to 11 letters and digits.
fn is_service_name(word: &[u8]) -> bool
    ensures { result ≡ is_service_name word.now }
{
    let Some((first, others)) = word.split_first() else {
        return false;
    };
    if !first.is_ascii_alphabetic() || others.len() >= MAX_NAME_BYTES {
        return false;
    }
    are_alphanumeric(others)
}

/// A name that is declared here.
#[tactic(auto, unfolding(crate::specs::Fields::new_name))]
pub fn new_name<'a>(
    words: &mut Cursor<'a>,
    names: &Names<OpOrClient>,
) -> Result<&'a [u8], Stop<Code>>
    ensures name { LeavesBy (λ name. name.now) words.new result (new_name names.now words.old) }
    ensures new { IfOk result (λ name. meaning_of names.now name.now ≡ None) }
{
    let name = words.word()?;
    if !is_service_name(name) {
        return Err(Stop::Refused(Code::NameForm));
    }
    if names.get(name).is_some() {
        return Err(Stop::Refused(Code::Declared));
    }
    Ok(name)
}

/// The name of an operation.
#[tactic(auto, unfolding(crate::specs::Fields::op_name))]
pub fn op_name(words: &mut Cursor<'_>, names: &Names<OpOrClient>) -> Result<u32, Stop<Code>>
    ensures { Leaves words.new result (op_name names.now words.old) }
{
    let name = words.word()?;
    match names.get(name) {
        Some(OpOrClient::Op(number)) => Ok(number),
        _ => Err(Stop::Refused(Code::Reference)),
    }
}

/// teardown, exclusive or concurrent.
#[tactic(auto, unfolding(crate::specs::Fields::group))]
pub fn group(words: &mut Cursor<'_>) -> Result<Group, Stop<Code>>
    ensures { Leaves words.new result (group words.old) }
{
    let name = words.word()?;
    if is_text(name, "teardown") {
        Ok(Group::Teardown)
    } else if is_text(name, "exclusive") {
        Ok(Group::Exclusive)
    } else if is_text(name, "concurrent") {
        Ok(Group::Concurrent)
    } else {
        Err(Stop::Refused(Code::Keyword))
    }
}

/// N, arg N, sum or count.
#[tactic(auto, unfolding(crate::specs::Fields::expr))]
pub fn expr(words: &mut Cursor<'_>) -> Result<Expr, Stop<Code>>
    ensures { Leaves words.new result (expr words.old) }
{
    let name = words.word()?;
    if is_text(name, "sum") {
        Ok(Expr::Sum)
    } else if is_text(name, "count") {
        Ok(Expr::Count)
    } else if is_text(name, "arg") {
        Ok(Expr::Arg(words.number_within(0, MAX_ARG)?))
    } else {
        match read_number(name) {
            Some(number) => Ok(Expr::Number(Value::one(number))),
            None => Err(Stop::Refused(Code::Number)),
        }
    }
}

/// Nothing, or below N.
#[tactic(auto, unfolding(crate::specs::Fields::bound))]
pub fn bound(words: &mut Cursor<'_>) -> Result<Option<u64>, Stop<Code>>
    ensures { Leaves words.new result (bound words.old) }
{
    if words.is_empty() {
        return Ok(None);
    }
    let name = words.word()?;
    if is_text(name, "below") {
        Ok(Some(words.number()?))
    } else {
        Err(Stop::Refused(Code::Keyword))
    }
}

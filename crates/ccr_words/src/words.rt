//! What the words ask for.

ghost use Rattle.std.specs.Prelude.{◌≡◌, IfOk, IfSome};
ghost use Rattle.ccr_words.specs.Parts.{Given};
ghost use Rattle.ccr_words.specs.Table.{meaning, IsWithin};
ghost use Rattle.ccr_words.specs.AskedFor.{asked_for};
ghost use Rattle.ccr_words.specs.Parsing.{HasGiven};

use crate::parsing::{matches_of, texts_of};
use crate::requests::Request;
use crate::table::request_of;
use ccr_base::{Name, OutOfMemory};
use clap::ArgMatches;
use std::alloc::Global;

/// What the matches ask for.
fn request_of_matches(matches: &ArgMatches) -> Option<Request>
    ensures request { (given : Given) → HasGiven matches.now given → result ≡ meaning given }
    ensures within { IfSome result IsWithin }
{
    let workers = matches.get_str("workers");
    let size = matches.get_str("size");
    let schedule = matches.get_flag("schedule");
    let json = matches.get_flag("json");
    match matches.get_str("word") {
        Some(word) => request_of(word, workers, size, schedule, json),
        None => None,
    }
}

/// What the words behind the program's name ask for; none where they aren't of the form (docs/FORMATS.md, "Words").
#[tactic(auto, using(crate::proofs::Same::same_said))]
pub fn read_words(alloc: Global, words: &[Name]) -> Result<Option<Request>, OutOfMemory>
    ensures asked_for { IfOk result (λ request. request ≡ asked_for words.now) }
    ensures within { IfOk result (λ request. IfSome request IsWithin) }
{
    match texts_of(alloc, words)? {
        Some(texts) => match matches_of(alloc, texts.as_slice())? {
            Some(matches) => Ok(request_of_matches(&matches)),
            None => Ok(None),
        },
        None => Ok(None),
    }
}

//! The words, as clap reads them.

ghost use Rattle.std.specs.Prelude.{◌≡◌, IfOk, IsSomeAnd, MatchOption, None, true, option_map, map};
ghost use Rattle.std.specs.List.{list_all};
ghost use Rattle.std.specs.Str.{is_utf8};
ghost use Rattle.clap.specs.Words.{app_of};
ghost use Rattle.ccr_words.specs.Clap.{app};
ghost use Rattle.ccr_words.specs.Parsing.{HasGiven, parsed_by, texts as texts_by};

use ccr_base::{Name, OutOfMemory};
use clap::error::ErrorKind;
use clap::{Arg, ArgAction, ArgMatches, Command};
use std::alloc::{AllocError, Global};

/// One required word and four options. The values of options stay text: clap's own numbers may begin with a sign.
fn clap_command<'a>(alloc: Global) -> Result<Command<'a>, AllocError>
    ensures { IfOk result (λ c. app_of c ≡ app) }
{
    let word = Arg::new(alloc, "word")
        .required(true)
        .action(ArgAction::Set);
    let workers = Arg::new(alloc, "workers")
        .long("workers")
        .action(ArgAction::Set);
    let size = Arg::new(alloc, "size").long("size").action(ArgAction::Set);
    let schedule = Arg::new(alloc, "schedule")
        .long("schedule")
        .action(ArgAction::SetTrue);
    let json = Arg::new(alloc, "json")
        .long("json")
        .action(ArgAction::SetTrue);
    let command = Command::new(alloc, "ccr")
        .no_binary_name(true)
        .disable_help_flag(true)
        .disable_version_flag(true);
    command
        .arg(word)?
        .arg(workers)?
        .arg(size)?
        .arg(schedule)?
        .arg(json)
}

/// clap's matches of the texts, or none where it refuses them.
pub fn matches_of<'a>(
    alloc: Global,
    texts: &'a [&'a str],
) -> Result<Option<ArgMatches<'a>>, OutOfMemory>
    requires { list_all is_utf8 (map (λ t. t.now) texts.now) ≡ true }
    ensures { IfOk result (λ r. MatchOption r (parsed_by (map (λ t. t.now) texts.entry.now) ≡ None)
        (λ m. IsSomeAnd (parsed_by (map (λ t. t.now) texts.entry.now)) (HasGiven m))) }
{
    match clap_command(alloc)?.try_get_matches_from(texts) {
        Ok(matches) => Ok(Some(matches)),
        Err(error) => match error.kind() {
            ErrorKind::OutOfMemory => Err(OutOfMemory),
            _ => Ok(None),
        },
    }
}

/// The words as text, or none where one is no text.
pub fn texts_of<'a>(alloc: Global, words: &'a [Name]) -> Result<Option<Vec<&'a str>>, OutOfMemory>
    ensures { IfOk result (λ r. option_map (λ v. map (λ t. t.now) v.items) r ≡ texts_by words.entry.now) }
{
    let mut texts = Vec::new(alloc);
    for word in words {
        match str::from_utf8(word.as_slice()) {
            Ok(text) => texts.push(text)?,
            Err(_) => return Ok(None),
        }
    }
    Ok(Some(texts))
}

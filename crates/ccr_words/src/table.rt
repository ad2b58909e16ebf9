//! The table of the words, with the options that each may have.

ghost use Rattle.std.specs.Prelude.{◌≡◌, ◌≤◌, IfSome, option_map};
ghost use Rattle.std.specs.List.{list_all};
ghost use Rattle.std.specs.Char.{is_ascii_digit};
ghost use Rattle.ccr_base.specs.Bounds.{most_workers};
ghost use Rattle.ccr_words.specs.Table.{is_number, number, number_or, check_request, run_request, plain_request, workers_alone, record_request, service_request, load_request, wiring_word, further_word, request_of, HasFewWorkers, IsWithin};

use crate::requests::{Command, Request};
use ccr_base::MAX_WORKERS;

/// The workers of a run that names none.
const USUAL_WORKERS: u32 = 4;
/// The posts of a load, at most.
const MAX_LOAD: u32 = 10_000;
/// The posts of a load that names no size.
const USUAL_LOAD: u32 = 1_000;

fn has_only_digits(text: &str) -> bool
    ensures { result ≡ list_all is_ascii_digit text.now }
{
    text.bytes().all(|b| b.is_ascii_digit())
}

/// Decimal digits, and at least one.
fn is_number(text: &str) -> bool
    ensures { result ≡ is_number text.now }
{
    !text.is_empty() && has_only_digits(text)
}

/// A number of decimal digits between two bounds.
fn number(text: &str, low: u32, high: u32) -> Option<u32>
    ensures number { result ≡ number low high text.now }
    ensures within { IfSome result (λ n. (low ≤ n) × (n ≤ high)) }
{
    if !is_number(text) {
        return None;
    }
    match text.parse::<u32>() {
        Ok(n) => { if low <= n && n <= high { Some(n) } else { None } }
        Err(_) => None,
    }
}

fn number_or(text: Option<&str>, default: u32, low: u32, high: u32) -> Option<u32>
    ensures number { result ≡ number_or default low high (option_map (λ t. t.now) text.entry) }
    ensures within { low ≤ default → default ≤ high → IfSome result (λ n. (low ≤ n) × (n ≤ high)) }
{
    match text {
        Some(text) => number(text, low, high),
        None => Some(default),
    }
}

fn check_request(
    workers: Option<&str>,
    size: Option<&str>,
    schedule: bool,
    json: bool,
) -> Option<Request>
    ensures request { result ≡ check_request (option_map (λ t. t.now) workers.entry) (option_map (λ t. t.now) size.entry) schedule json }
    ensures within { IfSome result IsWithin }
{
    if workers.is_some() || size.is_some() || schedule {
        return None;
    }
    Some(Request::Read {
        command: Command::Check,
        json,
    })
}

fn run_request(
    workers: Option<&str>,
    size: Option<&str>,
    schedule: bool,
    json: bool,
) -> Option<Request>
    ensures request { result ≡ run_request (option_map (λ t. t.now) workers.entry) (option_map (λ t. t.now) size.entry) schedule json }
    ensures within { IfSome result IsWithin }
{
    if size.is_some() {
        return None;
    }
    match number_or(workers, USUAL_WORKERS, 0, MAX_WORKERS) {
        Some(workers) => Some(Request::Read {
            command: Command::Run { workers, schedule },
            json,
        }),
        None => None,
    }
}

/// A word that has no option.
fn plain_request(
    command: Command,
    workers: Option<&str>,
    size: Option<&str>,
    schedule: bool,
    json: bool,
) -> Option<Request>
    requires { HasFewWorkers command }
    ensures request { result ≡ plain_request command (option_map (λ t. t.now) workers.entry) (option_map (λ t. t.now) size.entry) schedule json }
    ensures within { IfSome result IsWithin }
{
    if workers.is_some() || size.is_some() || schedule || json {
        return None;
    }
    Some(Request::Read {
        command,
        json: false,
    })
}

/// The workers of a word that may have `--workers` alone.
fn workers_alone(
    workers: Option<&str>,
    size: Option<&str>,
    schedule: bool,
    json: bool,
) -> Option<u32>
    ensures workers { result ≡ workers_alone (option_map (λ t. t.now) workers.entry) (option_map (λ t. t.now) size.entry) schedule json }
    ensures few { IfSome result (λ n. n ≤ most_workers) }
{
    if size.is_some() || schedule || json {
        return None;
    }
    number_or(workers, USUAL_WORKERS, 0, MAX_WORKERS)
}

fn record_request(
    workers: Option<&str>,
    size: Option<&str>,
    schedule: bool,
    json: bool,
) -> Option<Request>
    ensures request { result ≡ record_request (option_map (λ t. t.now) workers.entry) (option_map (λ t. t.now) size.entry) schedule json }
    ensures within { IfSome result IsWithin }
{
    match workers_alone(workers, size, schedule, json) {
        Some(workers) => Some(Request::Read {
            command: Command::Record { workers },
            json: false,
        }),
        None => None,
    }
}

fn service_request(
    workers: Option<&str>,
    size: Option<&str>,
    schedule: bool,
    json: bool,
) -> Option<Request>
    ensures request { result ≡ service_request (option_map (λ t. t.now) workers.entry) (option_map (λ t. t.now) size.entry) schedule json }
    ensures within { IfSome result IsWithin }
{
    match workers_alone(workers, size, schedule, json) {
        Some(workers) => Some(Request::Read {
            command: Command::Service { workers },
            json: false,
        }),
        None => None,
    }
}

fn load_request(
    workers: Option<&str>,
    size: Option<&str>,
    schedule: bool,
    json: bool,
) -> Option<Request>
    ensures request { result ≡ load_request (option_map (λ t. t.now) workers.entry) (option_map (λ t. t.now) size.entry) schedule json }
    ensures within { IfSome result IsWithin }
{
    if schedule {
        return None;
    }
    match (
        number_or(workers, 0, 0, MAX_WORKERS),
        number_or(size, USUAL_LOAD, 1, MAX_LOAD),
    ) {
        (Some(workers), Some(size)) => Some(Request::Load {
            size,
            workers,
            json,
        }),
        _ => None,
    }
}

/// A word of a wiring, a run or its output, with the options that it may have.
fn wiring_word(
    word: &str,
    workers: Option<&str>,
    size: Option<&str>,
    schedule: bool,
    json: bool,
) -> Option<Request>
    ensures request { result ≡ wiring_word word.now (option_map (λ t. t.now) workers.entry) (option_map (λ t. t.now) size.entry) schedule json }
    ensures within { IfSome result IsWithin }
{
    if word == "check" {
        check_request(workers, size, schedule, json)
    } else if word == "run" {
        run_request(workers, size, schedule, json)
    } else if word == "verify" {
        plain_request(Command::Verify, workers, size, schedule, json)
    } else if word == "load" {
        load_request(workers, size, schedule, json)
    } else {
        None
    }
}

/// A word of a record, of what all runs agree on, or of a service, with the options that it may have.
fn further_word(
    word: &str,
    workers: Option<&str>,
    size: Option<&str>,
    schedule: bool,
    json: bool,
) -> Option<Request>
    ensures request { result ≡ further_word word.now (option_map (λ t. t.now) workers.entry) (option_map (λ t. t.now) size.entry) schedule json }
    ensures within { IfSome result IsWithin }
{
    if word == "record" {
        record_request(workers, size, schedule, json)
    } else if word == "replay" {
        plain_request(Command::Replay, workers, size, schedule, json)
    } else if word == "steps" {
        plain_request(Command::Steps, workers, size, schedule, json)
    } else if word == "steady" {
        plain_request(Command::Steady, workers, size, schedule, json)
    } else if word == "service" {
        service_request(workers, size, schedule, json)
    } else if word == "expand" {
        plain_request(Command::Expand, workers, size, schedule, json)
    } else {
        None
    }
}

/// The word of the table, with the options that it may have.
pub fn request_of(
    word: &str,
    workers: Option<&str>,
    size: Option<&str>,
    schedule: bool,
    json: bool,
) -> Option<Request>
    ensures request { result ≡ request_of word.now (option_map (λ t. t.now) workers.entry) (option_map (λ t. t.now) size.entry) schedule json }
    ensures within { IfSome result IsWithin }
{
    match wiring_word(word, workers, size, schedule, json) {
        Some(request) => Some(request),
        None => further_word(word, workers, size, schedule, json),
    }
}

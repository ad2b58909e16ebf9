//! The words that the program is called with.

use ccr_base::{List, Name};
use ccr_try::{put, put_number, put_truth};
use ccr_words::{Command, Request, read_words};
use std::alloc::Global;

/// The words of the line, which single spaces part.
fn words_of(alloc: Global, line: &[u8]) -> List<Name> {
    let mut words = List::new(alloc);
    for word in line.split(|byte| *byte == b' ') {
        let mut name = List::new(alloc);
        put(&mut name, word);
        let _ = words.add(name);
    }
    words
}

fn put_threads(out: &mut List<u8>, word: &[u8], workers: u32) {
    put(out, word);
    put_number(out, u64::from(workers));
}

fn put_command(out: &mut List<u8>, command: Command) {
    match command {
        Command::Check => put(out, b"check"),
        Command::Verify => put(out, b"verify"),
        Command::Replay => put(out, b"replay"),
        Command::Steps => put(out, b"steps"),
        Command::Steady => put(out, b"steady"),
        Command::Expand => put(out, b"expand"),
        Command::Record { workers } => put_threads(out, b"record", workers),
        Command::Service { workers } => put_threads(out, b"service", workers),
        Command::Run { workers, schedule } => {
            put_threads(out, b"run", workers);
            put(out, b" schedule");
            put_truth(out, schedule);
        }
    }
}

fn put_request(out: &mut List<u8>, request: Request) {
    let is_json = match request {
        Request::Read { command, json } => {
            put_command(out, command);
            json
        }
        Request::Load {
            size,
            workers,
            json,
        } => {
            put(out, b"load");
            put_number(out, u64::from(size));
            put_number(out, u64::from(workers));
            json
        }
    };
    put(out, b" json");
    put_truth(out, is_json);
}

/// What the words of the line ask for.
pub fn request(alloc: Global, line: &[u8], out: &mut List<u8>) {
    let words = words_of(alloc, line);
    match read_words(alloc, words.as_slice()) {
        Ok(Some(request)) => put_request(out, request),
        Ok(None) => put(out, b"refused"),
        Err(_) => put(out, b"memory"),
    }
}

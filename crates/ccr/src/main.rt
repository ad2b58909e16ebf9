//! The program `ccr`: its words, standard input and output, and the status it ends with.
#![tactic(auto)]

use ccr_base::{List, Name, OpenGate, OutOfMemory};
use ccr_cli::{Status, run_ccr};
use ccr_io::{StdSink, StdSource};
use std::env::FillError;
use std::process::ExitCode;
use std::rt::Env;

/// How many bytes a word is first taken to have at most.
const SHORT: usize = 4096;

/// The bytes of the argument of this number; none where there are no more. One that is longer than the room is copied again
/// into twice as much.
fn argument<R: Env + AllocGlobal>(rt: &R, number: usize) -> Result<Option<Name>, OutOfMemory> {
    for doubled in 0..20u32 {
        let mut bytes = Vec::from_elem(rt.alloc(), 0u8, SHORT << doubled)?;
        match rt.arg(number, &mut bytes) {
            Ok(length) => {
                bytes.truncate(length);
                return Ok(Some(List::from_vec(bytes)));
            }
            Err(FillError::NotPresent) => return Ok(None),
            Err(FillError::TooLong) => {}
        }
    }
    Err(OutOfMemory)
}

/// The words behind the program's name, each as its bytes.
fn words_of<R: Env + AllocGlobal>(rt: &R) -> Result<List<Name>, OutOfMemory> {
    let mut words = List::new(rt.alloc());
    for number in 1..usize::MAX {
        match argument(rt, number)? {
            Some(word) => words.push(word).map_err(|(refused, _)| refused)?,
            None => break,
        }
    }
    Ok(words)
}

fn main(rt: HostRuntime) -> ExitCode {
    let Ok(words) = words_of(&rt) else {
        return ExitCode::from(Status::Memory as u8);
    };
    let mut source = StdSource::new(rt.stdin());
    let mut sink = StdSink::new(rt.stdout());
    let status = run_ccr(&rt, words.as_slice(), &mut source, &mut sink, &OpenGate);
    ExitCode::from(status)
}

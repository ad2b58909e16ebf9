//! Runs the cases that standard input has through the top call, and names those that fail. README.md says how a case is written.
#![tactic(auto)]

mod running;

use crate::running::{Case, Expected, holds, put_generated, put_text, put_times};
use ccr_base::OutOfMemory;
use std::alloc::Global;
use std::io;
use std::sync::Wait;
use std::thread::Threads;

/// Takes in a line that says something of what the program is given.
fn take_in<'a>(
    alloc: Global,
    case: &mut Case<'a>,
    key: &str,
    value: &'a str,
) -> Result<(), OutOfMemory> {
    match key {
        "words" => case.words = value,
        "input" => return put_text(&mut case.input, value),
        "times" => return put_times(&mut case.input, value),
        "generated" => return put_generated(alloc, case, value),
        "sure" => {
            case.is_sure = true;
            case.room = value.parse::<usize>().unwrap_or(0);
        }
        "room" => case.room = value.parse::<usize>().unwrap_or(0),
        "reads" => case.reads = value.parse::<u64>().ok(),
        "writes" => case.writes = value.parse::<u64>().ok(),
        "status" => case.status = value.parse::<u8>().unwrap_or(u8::MAX),
        _ => {}
    }
    Ok(())
}

/// What the line says that the program answers, if it says that.
fn due_of<'a>(key: &str, value: &'a str) -> Option<Expected<'a>> {
    match key {
        "output" => Some(Expected::Whole(value)),
        "ends" => Some(Expected::Ending(value)),
        "has" => Some(Expected::Part(value)),
        _ => None,
    }
}

/// Takes in the line; where it says what is due, whether the case holds.
fn judged<'a, R: AllocGlobal + Threads + Wait + Sync>(
    rt: &R,
    case: &mut Case<'a>,
    key: &str,
    value: &'a str,
) -> Option<bool> {
    if key == "case" {
        *case = Case::new(rt.alloc(), value);
    } else if let Some(due) = due_of(key, value) {
        return Some(holds(rt, case, due).unwrap_or(false));
    } else if take_in(rt.alloc(), case, key, value).is_err() {
        case.status = u8::MAX;
    }
    None
}

fn main(rt: HostRuntime) -> io::Result<()> {
    let text = io::read_to_string(rt.alloc(), rt.stdin())?;
    let (mut passed, mut failed) = (0u64, 0u64);
    let mut case = Case::new(rt.alloc(), "");
    for line in text.as_str().split('\n') {
        let (key, value) = line.split_once(' ').unwrap_or(("", ""));
        match judged(&rt, &mut case, key, value) {
            Some(true) => passed = passed.saturating_add(1),
            Some(false) => {
                failed = failed.saturating_add(1);
                println!(rt; "{}", case.name)?;
            }
            None => {}
        }
    }
    println!(rt; "{passed} passed, {failed} failed")?;
    Ok(())
}

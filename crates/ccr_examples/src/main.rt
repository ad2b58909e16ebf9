//! Calls of the crates from Rattle, to copy from: a wiring is run, a history judged, turns are followed, a wiring is made without a text, and an
//! object of one's own is put under a lock that keeps its history. README.md says which file shows what.
#![tactic(auto)]

ghost use Rattle.std.specs.Prelude.{◌≤◌, length, ◌≡◌, true};
ghost use Rattle.ccr_wiring.specs.Openness.{is_closed};
ghost use Rattle.ccr_base.specs.Bounds.{most_bytes, most_wiring_bytes};

mod following;
mod judging;
mod making;
mod running;
mod tally;

use crate::following::follow;
use crate::judging::judge_text;
use crate::making::{code_of, one_receiver};
use crate::running::run_text;
use crate::tally::raise_by_two;
use ccr_base::OutOfMemory;
use ccr_model::History;
use ccr_trace::write_history;
use ccr_wiretext::{MAX_WIRING_TEXT, read_wiring};
use ccr_wiring::Wiring;
use std::alloc::Global;
use std::io::{self, Write};

/// The code by which a wiring is refused whose one slot takes so many messages.
fn code_of_count(alloc: Global, count: u32) -> Result<Option<u8>, OutOfMemory> {
    code_of(alloc, one_receiver(alloc, count)?)
}

fn memory<T>(answer: Result<T, OutOfMemory>) -> io::Result<T> {
    match answer {
        Ok(value) => Ok(value),
        Err(OutOfMemory) => Err(io::Error::from(io::ErrorKind::OutOfMemory)),
    }
}

/// Writes what the wiring does, or which line of it offends.
fn tell_run(rt: &HostRuntime, text: &[u8]) -> io::Result<()>
    requires { length text.now ≤ most_wiring_bytes }
{
    match run_text(rt.alloc(), text) {
        Ok(written) => rt.stdout().write_all(written.as_slice()),
        Err(why) => println!(rt; "{why}"),
    }
}

/// Writes what is found of a history.
fn tell_judgement(rt: &HostRuntime, wiring: &Wiring, text: &[u8]) -> io::Result<()>
    requires closed { is_closed wiring.now ≡ true }
    requires few { length text.now ≤ most_bytes }
{
    match judge_text(rt.alloc(), wiring, text) {
        Ok(found) => println!(rt; "{found:?}"),
        Err(why) => println!(rt; "{why}"),
    }
}

/// Writes the history.
fn tell_history(rt: &HostRuntime, wiring: &Wiring, history: &History) -> io::Result<()> {
    let written = memory(write_history(rt.alloc(), wiring, history))?;
    rt.stdout().write_all(written.as_slice())
}

/// Writes what is visible of these turns of posters.
fn tell_turns(rt: &HostRuntime, wiring: &Wiring, turns: &[u32]) -> io::Result<()>
    requires { is_closed wiring.now ≡ true }
{
    match memory(follow(rt.alloc(), wiring, 0, turns))? {
        Some(seen) => tell_history(rt, wiring, &seen),
        None => println!(rt; "a turn of no actor"),
    }
}

/// Judges a whole history of the wiring, one that stops early, and one with a wrong value.
fn tell_judgements(rt: &HostRuntime, wiring: &Wiring) -> io::Result<()>
    requires { is_closed wiring.now ≡ true }
{
    tell_judgement(
        rt,
        wiring,
        b"history 1\npost s0.0 range 250\npost s0.1 range 40\npost s1.0 command 5\nfire t2.0 pair s0.1 s1.0\nput t2.0\nstart t2.0 2\nend t2.0 done\nreport 1\n",
    )?;
    tell_judgement(rt, wiring, b"history 1\npost s0.0 range 250\nreport 1\n")?;
    tell_judgement(rt, wiring, b"history 1\npost s0.0 range 9\nreport 1\n")
}

/// Judges histories of the wiring, and follows turns of its posters.
fn tell_more(rt: &HostRuntime, wiring: &Wiring) -> io::Result<()>
    requires { is_closed wiring.now ≡ true }
{
    tell_judgements(rt, wiring)?;
    tell_turns(rt, wiring, &[1, 0, 0, 0, 0, 0, 0, 0, 0, 0, 0, 0, 0, 0])
}

/// Runs the wiring of the text, judges histories of it, and follows turns.
fn tell_text(rt: &HostRuntime, text: &[u8]) -> io::Result<()>
    requires { length text.now ≤ most_wiring_bytes }
{
    tell_run(rt, text)?;
    match read_wiring(rt.alloc(), text) {
        Ok(wiring) => tell_more(rt, &wiring),
        Err(_) => Ok(()),
    }
}

/// Writes the codes of two wirings that are made without a text.
fn tell_codes(rt: &HostRuntime) -> io::Result<()> {
    let fits = memory(code_of_count(rt.alloc(), 1))?;
    let too_many = memory(code_of_count(rt.alloc(), 1001))?;
    println!(rt; "a slot of 1: {fits:?}, of 1001: {too_many:?}")
}

/// Writes the sum that two threads made.
fn tell_sum(rt: &HostRuntime, raised: Result<(u64, usize), OutOfMemory>) -> io::Result<()> {
    let (sum, entries) = memory(raised)?;
    println!(rt; "two threads raised it to {sum} by {entries} entries")
}

/// Tells of the text that stands on standard input, and whether it is short enough for a wiring.
fn tell_input(rt: &HostRuntime) -> io::Result<bool> {
    let text = io::read_to_string(rt.alloc(), rt.stdin())?;
    if text.len() > MAX_WIRING_TEXT {
        return Ok(false);
    }
    tell_text(rt, text.as_bytes())?;
    Ok(true)
}

fn main(rt: HostRuntime) -> io::Result<()> {
    if tell_input(&rt)? {
        tell_codes(&rt)?;
        tell_sum(&rt, raise_by_two(&rt, 100))?;
    }
    Ok(())
}

//! A case: what the program is given, and what it answers.

use ccr_base::{List, Name, OpenGate, OutOfMemory};
use ccr_cli::{Status, run_ccr, run_surely};
use ccr_gen::generate;
use ccr_io::{MemorySink, MemorySource, SureSink, SureSource};
use ccr_wiretext::write_wiring;
use std::alloc::Global;
use std::sync::Wait;
use std::thread::Threads;

/// What is due for an output that has no fault.
const LEGAL: &str = "legal complete yes quiet yes;done 0;";

/// The number of no call.
const NEVER: u64 = u64::MAX;

/// What the program is given, and its status.
#[derive(Drop)]
pub struct Case<'a> {
    pub name: &'a str,
    pub words: &'a str,
    pub input: Vec<u8>,
    pub status: u8,
    /// The most bytes that the program may write.
    pub room: usize,
    /// Whether it runs on streams that never fail.
    pub is_sure: bool,
    /// How many calls of the source it makes, and of the sink, where each of them is to be made to fail.
    pub reads: Option<u64>,
    pub writes: Option<u64>,
}

/// What the program writes, whole, the last lines of it or some of them.
#[derive(Clone, Copy)]
pub enum Expected<'a> {
    Whole(&'a str),
    Ending(&'a str),
    Part(&'a str),
}

/// How much room the sink has, and which call of the source fails, and of the sink.
#[derive(Clone, Copy)]
struct Streams {
    room: usize,
    read: u64,
    write: u64,
}

/// How the program ended, and what it wrote.
#[derive(Drop)]
struct CaseEnd {
    status: u8,
    written: List<u8>,
}

impl<'a> Case<'a> {
    /// A case without words and without input.
    pub fn new(alloc: Global, name: &'a str) -> Self {
        Case {
            name,
            words: "",
            input: Vec::new(alloc),
            status: 0,
            room: 1_000_000,
            is_sure: false,
            reads: None,
            writes: None,
        }
    }

    /// What the case runs on, where these calls fail.
    fn streams(&self, read: u64, write: u64) -> Streams {
        Streams {
            room: self.room,
            read,
            write,
        }
    }

    /// Whether it is a run that writes its report as lines.
    fn is_run(&self) -> bool {
        self.words.starts_with("run") && !self.words.contains("--json")
    }
}

/// What the byte of a text stands for: `;` for the end of a line, and `` ` `` for a byte that no line has.
fn meant(byte: u8) -> u8 {
    match byte {
        b';' => b'\n',
        b'`' => 0,
        other => other,
    }
}

/// Adds the text with the ends of its lines.
pub fn put_text(out: &mut Vec<u8>, text: &str) -> Result<(), OutOfMemory> {
    for byte in text.bytes() {
        out.push(meant(byte))?;
    }
    Ok(())
}

/// Adds a text as often as the number in front of it says.
pub fn put_times(out: &mut Vec<u8>, value: &str) -> Result<(), OutOfMemory> {
    let Some((number, text)) = value.split_once(' ') else {
        return Ok(());
    };
    for _ in 0..number.parse::<usize>().unwrap_or(0) {
        put_text(out, text)?;
    }
    Ok(())
}

/// Adds the wiring that is generated for this size.
pub fn put_generated(alloc: Global, case: &mut Case<'_>, value: &str) -> Result<(), OutOfMemory> {
    let size = value.parse::<u32>().unwrap_or(0);
    if 0 < size && size <= 10_000 {
        let text = write_wiring(alloc, &generate(alloc, size)?)?;
        case.input.extend_from_slice(text.as_slice())?;
        case.room = 10_000_000;
    }
    Ok(())
}

fn listed<T: Copy>(alloc: Global, items: &[T]) -> Result<List<T>, OutOfMemory> {
    Ok(List::from_vec(Vec::from_slice(alloc, items)?))
}

fn words_of(alloc: Global, words: &str) -> Result<List<Name>, OutOfMemory> {
    let mut names = List::new(alloc);
    if words.is_empty() {
        return Ok(names);
    }
    for word in words.split(' ') {
        names.add(listed(alloc, word.as_bytes())?)?;
    }
    Ok(names)
}

/// A source of this input whose call of this number fails.
fn source_of(alloc: Global, input: &[u8], failing: u64) -> Result<MemorySource, OutOfMemory> {
    let bytes = listed(alloc, input)?;
    Ok(MemorySource::new(bytes, listed(alloc, &[failing])?))
}

/// A sink with so much room whose call of this number fails.
fn sink_of(alloc: Global, room: usize, failing: u64) -> Result<MemorySink, OutOfMemory> {
    MemorySink::new(alloc, room, listed(alloc, &[failing])?)
}

/// The outcome of this status and of what was written.
fn ended_with(alloc: Global, status: u8, written: &[u8]) -> Result<CaseEnd, OutOfMemory> {
    Ok(CaseEnd {
        status,
        written: listed(alloc, written)?,
    })
}

/// Runs the program on these streams, and tells its status.
fn status_of<R: AllocGlobal + Threads + Wait + Sync>(
    rt: &R,
    words: &[Name],
    source: &mut MemorySource,
    sink: &mut MemorySink,
) -> u8 {
    run_ccr(rt, words, source, sink, &OpenGate)
}

/// The same on streams that never fail.
fn sure_status_of<R: AllocGlobal + Threads + Wait + Sync>(
    rt: &R,
    words: &[Name],
    source: &mut SureSource,
    sink: &mut SureSink,
) -> u8 {
    run_surely(rt, words, source, sink, &OpenGate)
}

/// Runs the program, and tells what it answered.
fn run_program<R: AllocGlobal + Threads + Wait + Sync>(
    rt: &R,
    words: &str,
    input: &[u8],
    streams: Streams,
) -> Result<CaseEnd, OutOfMemory> {
    let alloc = rt.alloc();
    let words = words_of(alloc, words)?;
    let mut source = source_of(alloc, input, streams.read)?;
    let mut sink = sink_of(alloc, streams.room, streams.write)?;
    let status = status_of(rt, words.as_slice(), &mut source, &mut sink);
    ended_with(alloc, status, sink.written())
}

/// Runs the program on streams that never fail, and tells what it answered.
fn run_sure<R: AllocGlobal + Threads + Wait + Sync>(
    rt: &R,
    case: &Case<'_>,
) -> Result<CaseEnd, OutOfMemory> {
    let alloc = rt.alloc();
    let words = words_of(alloc, case.words)?;
    let mut source = SureSource::new(listed(alloc, case.input.as_slice())?);
    let mut sink = SureSink::new(alloc, case.room)?;
    let status = sure_status_of(rt, words.as_slice(), &mut source, &mut sink);
    ended_with(alloc, status, sink.kept())
}

/// Whether the bytes begin with what the text stands for.
fn begins(bytes: &[u8], text: &[u8]) -> bool {
    text.len() <= bytes.len()
        && bytes
            .iter()
            .zip(text)
            .all(|(byte, due)| *byte == meant(*due))
}

/// Whether the bytes end with what the text stands for.
fn ends(bytes: &[u8], text: &[u8]) -> bool {
    match bytes.len().checked_sub(text.len()) {
        Some(start) => begins(bytes.get(start..).unwrap_or(&[]), text),
        None => false,
    }
}

/// Whether what the part stands for is somewhere in the bytes.
fn has_part(bytes: &[u8], part: &[u8]) -> bool {
    let mut rest = bytes;
    for _ in 0..bytes.len() {
        if begins(rest, part) {
            return true;
        }
        rest = rest.get(1..).unwrap_or(&[]);
    }
    false
}

/// Whether what was written is what is due.
fn is_due(written: &[u8], due: Expected<'_>) -> bool {
    match due {
        Expected::Whole(whole) => written.len() == whole.len() && begins(written, whole.as_bytes()),
        Expected::Ending(ending) => ends(written, ending.as_bytes()),
        Expected::Part(part) => has_part(written, part.as_bytes()),
    }
}

/// The input up to its turn lines: the wiring.
fn before_turns(input: &[u8]) -> &[u8] {
    let mut rest = input;
    for at in 0..input.len() {
        if rest.starts_with(b"\nturn ") {
            return input.get(..at.saturating_add(1)).unwrap_or(input);
        }
        rest = rest.get(1..).unwrap_or(&[]);
    }
    input
}

/// The wiring of the case, and behind it what was written.
fn output_of(alloc: Global, case: &Case<'_>, written: &[u8]) -> Result<Vec<u8>, OutOfMemory> {
    let mut output = Vec::from_slice(alloc, before_turns(case.input.as_slice()))?;
    output.extend_from_slice(written)?;
    Ok(output)
}

/// Whether what the case wrote is judged legal, complete and quiet.
fn is_legal<R: AllocGlobal + Threads + Wait + Sync>(
    rt: &R,
    case: &Case<'_>,
    written: &[u8],
) -> Result<bool, OutOfMemory> {
    let output = output_of(rt.alloc(), case, written)?;
    let streams = Streams {
        room: 10_000,
        read: NEVER,
        write: NEVER,
    };
    let judged = run_program(rt, "verify", output.as_slice(), streams)?;
    Ok(judged.status == 0 && is_due(judged.written.as_slice(), Expected::Whole(LEGAL)))
}

/// Runs the case with a call of the source and one of the sink that fail.
fn run_failing<R: AllocGlobal + Threads + Wait + Sync>(
    rt: &R,
    case: &Case<'_>,
    read: u64,
    write: u64,
) -> Result<CaseEnd, OutOfMemory> {
    let streams = case.streams(read, write);
    run_program(rt, case.words, case.input.as_slice(), streams)
}

/// Whether this read, made to fail, ends the case with nothing written.
fn read_ends_it<R: AllocGlobal + Threads + Wait + Sync>(
    rt: &R,
    case: &Case<'_>,
    read: u64,
) -> Result<bool, OutOfMemory> {
    let given = run_failing(rt, case, read, NEVER)?;
    Ok(given.status == Status::ReadFault as u8 && given.written.as_slice().is_empty())
}

/// Whether each of so many reads, made to fail, ends the case with nothing written, and one behind them isn't made.
fn each_read_ends_it<R: AllocGlobal + Threads + Wait + Sync>(
    rt: &R,
    case: &Case<'_>,
    reads: u64,
    whole: &[u8],
) -> Result<bool, OutOfMemory> {
    for read in 0..reads {
        if !read_ends_it(rt, case, read)? {
            return Ok(false);
        }
    }
    let given = run_failing(rt, case, reads, NEVER)?;
    Ok(given.status == case.status && given.written.as_slice() == whole)
}

/// Whether this write, made to fail, ends the case where nothing is written if it is the first, and else a prefix of the whole.
fn write_ends_it<R: AllocGlobal + Threads + Wait + Sync>(
    rt: &R,
    case: &Case<'_>,
    write: u64,
    whole: &[u8],
) -> Result<bool, OutOfMemory> {
    let given = run_failing(rt, case, NEVER, write)?;
    let written = given.written.as_slice();
    Ok(
        given.status == Status::WriteFault as u8
            && whole.starts_with(written)
            && (write != 0 || written.is_empty()),
    )
}

/// Whether each of so many writes, made to fail, ends the case there, and one behind them isn't made.
fn each_write_ends_it<R: AllocGlobal + Threads + Wait + Sync>(
    rt: &R,
    case: &Case<'_>,
    writes: u64,
    whole: &[u8],
) -> Result<bool, OutOfMemory> {
    for write in 0..writes {
        if !write_ends_it(rt, case, write, whole)? {
            return Ok(false);
        }
    }
    let given = run_failing(rt, case, NEVER, writes)?;
    Ok(given.status == case.status)
}

/// Whether the reads and writes of which the case tells end it where they fail.
fn faults_end_it<R: AllocGlobal + Threads + Wait + Sync>(
    rt: &R,
    case: &Case<'_>,
    whole: &[u8],
) -> Result<bool, OutOfMemory> {
    if let Some(reads) = case.reads
        && !each_read_ends_it(rt, case, reads, whole)?
    {
        return Ok(false);
    }
    match case.writes {
        Some(writes) => each_write_ends_it(rt, case, writes, whole),
        None => Ok(true),
    }
}

/// Whether the case's outcome is the one that is due, with its faults where it tells of them. What a run writes is also judged.
fn is_answered<R: AllocGlobal + Threads + Wait + Sync>(
    rt: &R,
    case: &Case<'_>,
    given: &CaseEnd,
    due: Expected<'_>,
) -> Result<bool, OutOfMemory> {
    let written = given.written.as_slice();
    if given.status != case.status || !is_due(written, due) || !faults_end_it(rt, case, written)? {
        return Ok(false);
    }
    let is_answer = given.status == 0 || given.status == 6;
    if case.is_run() && is_answer && !case.is_sure {
        is_legal(rt, case, written)
    } else {
        Ok(true)
    }
}

/// Whether the case holds.
pub fn holds<R: AllocGlobal + Threads + Wait + Sync>(
    rt: &R,
    case: &Case<'_>,
    due: Expected<'_>,
) -> Result<bool, OutOfMemory> {
    let given = if case.is_sure {
        run_sure(rt, case)?
    } else {
        run_failing(rt, case, NEVER, NEVER)?
    };
    is_answered(rt, case, &given, due)
}

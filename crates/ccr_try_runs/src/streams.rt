//! Streams whose calls fail in turn.

ghost use Rattle.std.specs.Prelude.{◌≡◌, IfOk};

use crate::making::at;
use ccr_base::List;
use ccr_io::{
    Failed, MemorySink, MemorySource, ReadEnd, Sink, Source, StdSink, StdSource, SureSink,
    SureSource, read_all, write_all,
};
use ccr_text::MAX_TEXT;
use ccr_try::{numbers_of, put, put_number, put_truth, put_word};
use std::alloc::Global;
use std::io;
use std::io::{ErrorKind, Read, Write};

const TEXT: &[u8] = b"tea 95\n";

/// So many bytes.
fn bytes(alloc: Global, length: u32) -> List<u8> {
    match Vec::from_elem(alloc, 7, length as usize) {
        Ok(bytes) => List::from_vec(bytes),
        Err(_) => List::new(alloc),
    }
}

/// The list of this number.
fn only(alloc: Global, number: u32) -> List<u64> {
    let mut list = List::new(alloc);
    let _ = list.add(u64::from(number));
    list
}

fn put_read(out: &mut List<u8>, read: &Result<List<u8>, ReadEnd>) {
    match read {
        Ok(bytes) => put_number(out, bytes.len() as u64),
        Err(ReadEnd::Fault) => put_word(out, b"fault"),
        Err(ReadEnd::TooLong) => put_word(out, b"too long"),
        Err(ReadEnd::Memory) => put_word(out, b"memory"),
    }
}

fn put_done(out: &mut List<u8>, is_done: bool) {
    put_word(out, if is_done { b"done" } else { b"fail" });
}

/// For `LIMIT LENGTH CALL` what is read of so many bytes where the call of this number fails, and how many are left.
pub fn source(alloc: Global, input: &str, out: &mut List<u8>) {
    let numbers = numbers_of(alloc, input);
    let numbers = numbers.as_slice();
    let limit = at(numbers, 0) as usize;
    if limit > MAX_TEXT {
        return;
    }
    let failing = only(alloc, at(numbers, 2));
    let mut source = MemorySource::new(bytes(alloc, at(numbers, 1)), failing);
    put_read(out, &read_all(alloc, &mut source, limit));
    put_number(out, source.rest().len() as u64);
}

/// What is read of 40,000 bytes where the call of this number fails.
pub fn fault(alloc: Global, input: &str, out: &mut List<u8>) {
    let failing = only(alloc, at(numbers_of(alloc, input).as_slice(), 0));
    let mut source = MemorySource::new(bytes(alloc, 40_000), failing);
    put_read(out, &read_all(alloc, &mut source, 40_000));
}

/// For `ROOM CALL` what is written where there is so much room and the call of this number fails.
pub fn sink(alloc: Global, input: &str, out: &mut List<u8>) {
    let numbers = numbers_of(alloc, input);
    let numbers = numbers.as_slice();
    let room = at(numbers, 0) as usize;
    if let Ok(mut sink) = MemorySink::new(alloc, room, only(alloc, at(numbers, 1))) {
        put_done(out, write_all(&mut sink, TEXT).is_ok());
        put_word(out, sink.written());
    }
}

/// Adds what is read of a source that never fails.
fn put_sure_read(alloc: Global, out: &mut List<u8>) {
    let mut text = List::new(alloc);
    put(&mut text, TEXT);
    let mut source = SureSource::new(text);
    put_read(out, &read_all(alloc, &mut source, 9));
    put_number(out, source.rest().len() as u64);
}

/// Adds what is written to a sink that never fails and has so much room.
fn put_sure_written(alloc: Global, room: usize, out: &mut List<u8>) {
    if let Ok(mut sink) = SureSink::new(alloc, room) {
        put_done(out, write_all(&mut sink, TEXT).is_ok());
        put_truth(out, sink.is_whole());
        put_word(out, sink.kept());
    }
}

/// For `ROOM` what streams that never fail read and write.
pub fn sure(alloc: Global, input: &str, out: &mut List<u8>) {
    put_sure_read(alloc, out);
    let room = at(numbers_of(alloc, input).as_slice(), 0) as usize;
    put_sure_written(alloc, room, out);
}

/// Fails at every other call, and else gives or takes nothing.
#[derive(Drop)]
struct Broken {
    fails: bool,
}

impl Broken {
    fn answer(&mut self) -> io::Result<usize>
        ensures { IfOk result (λ n. n ≡ 0) }
    {
        self.fails = !self.fails;
        if self.fails {
            Ok(0)
        } else {
            Err(io::Error::from(ErrorKind::Other))
        }
    }
}

impl Read for Broken {
    fn read(&mut self, _buf: &mut [u8]) -> io::Result<usize> {
        self.answer()
    }
}

impl Write for Broken {
    fn write(&mut self, _buf: &[u8]) -> io::Result<usize> {
        self.answer()
    }

    fn flush(&mut self) -> io::Result<()> {
        Ok(())
    }
}

fn put_count(out: &mut List<u8>, answer: Result<usize, Failed>) {
    match answer {
        Ok(count) => put_number(out, count as u64),
        Err(_) => put_word(out, b"fail"),
    }
}

/// What two reads of a broken source answer and two writes to a broken sink, and how many bytes are read of a text.
pub fn standard(alloc: Global, out: &mut List<u8>) {
    let mut source = StdSource::new(Broken { fails: true });
    let mut buf = [0; 4];
    put_count(out, source.read(&mut buf));
    put_count(out, source.read(&mut buf));
    let mut sink = StdSink::new(Broken { fails: true });
    put_count(out, sink.write(b"tea"));
    put_count(out, sink.write(b"tea"));
    let mut source = StdSource::new(TEXT);
    put_read(out, &read_all(alloc, &mut source, 100));
}

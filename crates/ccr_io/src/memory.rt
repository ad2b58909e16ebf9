//! A source and a sink in memory, whose calls fail where they are told to.

ghost use Rattle.std.specs.Prelude.{◌≡◌, ◌+◌, ◌≤◌, ◌==◌, ◌||◌, [], ◌++◌, Some, min, is_err, if◌then◌else◌, length, take, IfOk, OnErr};
ghost use Rattle.ccr_base.specs.Lists.{has_number};
ghost use Rattle.ccr_io.specs.Faults.{Rose};
ghost use Rattle.ccr_io.specs.Memory.{raised};

use crate::{Failed, Sink, Source};
use ccr_base::{List, OutOfMemory};
use std::alloc::Global;
use std::marker::Model;

/// A source over bytes in memory. Its calls are counted from 0, and those of the listed numbers fail.
#[derive(Drop)]
pub struct MemorySource {
    bytes: List<u8>,
    at: usize,
    failing: List<u64>,
    calls: u64,
    faults: u64,
}

impl Model for MemorySource {
    ghost use Rattle.std.specs.Prelude.{◌≤◌, length, drop};
    ghost use Rattle.ccr_io.specs.Memory.{SourceState};

    ghost Value = { SourceState };

    ghost view = { λ source. record { rest = drop source.at source.bytes; failing = source.failing; calls = source.calls; faults = source.faults } };

    ghost invariant = { λ source. source.at ≤ length source.bytes };
}

impl MemorySource {
    pub fn new(bytes: List<u8>, failing: List<u64>) -> Self
        ensures rest { result.rest ≡ bytes }
        ensures failing { result.failing ≡ failing }
        ensures calls { result.calls ≡ 0 }
        ensures faults { result.faults ≡ 0 }
    {
        MemorySource {
            bytes,
            at: 0,
            failing,
            calls: 0,
            faults: 0,
        }
    }

    /// The bytes still to come.
    pub fn rest(&self) -> &[u8]
        ensures { result.now ≡ self.now.rest }
    {
        &self.bytes.as_slice()[self.at..]
    }
}

/// Copies as many bytes as there are and as fit, and answers how many.
pub fn copy_front(buf: &mut [u8], bytes: &[u8]) -> usize
    ensures count { result ≡ min (length bytes.now) (length buf.old) }
    ensures prefix { take result buf.new ≡ take result bytes.now }
{
    let count = bytes.len().min(buf.len());
    buf[..count].copy_from_slice(&bytes[..count]);
    count
}

impl Source for MemorySource {
    ghost rest = { λ source. Some source.rest };

    ghost faults = { λ source. source.faults };

    fn read(&mut self, buf: &mut [u8]) -> Result<usize, Failed>
        ensures fits { IfOk result (λ n. n ≡ min (length self.old.rest) (length buf.old)) }
        ensures read { IfOk result (λ n. self.old.rest ≡ take n buf.new ++ self.new.rest) }
        ensures failed { is_err result ≡ has_number self.old.failing self.old.calls }
        ensures kept { OnErr result (self.new.rest ≡ self.old.rest) }
        ensures cause { OnErr result (Rose self.old.faults self.new.faults) }
        ensures count { self.old.faults ≤ self.new.faults }
        ensures faults { self.new.faults ≡ (if is_err result then raised self.old.faults else self.old.faults) }
        ensures calls { self.new.calls ≡ raised self.old.calls }
        ensures failing { self.new.failing ≡ self.old.failing }
    {
        let fails = self.failing.as_slice().contains(&self.calls);
        self.calls = self.calls.saturating_add(1);
        if fails {
            self.faults = self.faults.saturating_add(1);
            return Err(Failed);
        }
        let count = copy_front(buf, &self.bytes.as_slice()[self.at..]);
        self.at += count;
        Ok(count)
    }
}

/// A sink in memory with room for so many bytes. Its calls are counted from 0, and those of the listed numbers fail, as
/// does each that finds no room left.
#[derive(Drop)]
pub struct MemorySink {
    bytes: Vec<u8>,
    room: usize,
    failing: List<u64>,
    calls: u64,
    faults: u64,
}

impl Model for MemorySink {
    ghost use Rattle.std.specs.Prelude.{◌≤◌, ◌+◌, vec_len, vec_capacity};
    ghost use Rattle.ccr_io.specs.Memory.{SinkState};

    ghost Value = { SinkState };

    ghost view = { λ sink. record { written = sink.bytes.items; room = sink.room; failing = sink.failing; calls = sink.calls; faults = sink.faults } };

    ghost invariant = { λ sink. vec_len sink.bytes + sink.room ≤ vec_capacity sink.bytes };
}

impl MemorySink {
    /// All the memory that the sink ever needs is taken here.
    pub fn new(alloc: Global, room: usize, failing: List<u64>) -> Result<Self, OutOfMemory>
        ensures written { IfOk result (λ sink. sink.written ≡ []) }
        ensures room { IfOk result (λ sink. sink.room ≡ room) }
        ensures failing { IfOk result (λ sink. sink.failing ≡ failing) }
        ensures calls { IfOk result (λ sink. sink.calls ≡ 0) }
        ensures faults { IfOk result (λ sink. sink.faults ≡ 0) }
    {
        Ok(MemorySink {
            bytes: Vec::with_capacity(alloc, room)?,
            room,
            failing,
            calls: 0,
            faults: 0,
        })
    }

    /// The bytes that were written.
    pub fn written(&self) -> &[u8]
        ensures { result.now ≡ self.now.written }
    {
        &self.bytes
    }
}

impl Sink for MemorySink {
    ghost written = { λ sink. Some sink.written };

    ghost faults = { λ sink. sink.faults };

    fn write(&mut self, piece: &[u8]) -> Result<usize, Failed>
        ensures fits { IfOk result (λ n. n ≡ min self.old.room (length piece.now)) }
        ensures room { IfOk result (λ n. self.old.room ≡ n + self.new.room) }
        ensures added { IfOk result (λ n. self.new.written ≡ self.old.written ++ take n piece.now) }
        ensures failed { is_err result ≡ (self.old.room == 0 || has_number self.old.failing self.old.calls) }
        ensures kept { OnErr result ((self.new.written ≡ self.old.written) × (self.new.room ≡ self.old.room)) }
        ensures cause { OnErr result (Rose self.old.faults self.new.faults) }
        ensures count { self.old.faults ≤ self.new.faults }
        ensures faults { self.new.faults ≡ (if is_err result then raised self.old.faults else self.old.faults) }
        ensures calls { self.new.calls ≡ raised self.old.calls }
        ensures failing { self.new.failing ≡ self.old.failing }
    {
        let fails = self.room == 0 || self.failing.as_slice().contains(&self.calls);
        self.calls = self.calls.saturating_add(1);
        if fails {
            self.faults = self.faults.saturating_add(1);
            return Err(Failed);
        }
        let count = self.room.min(piece.len());
        self.bytes.extend_from_slice(&piece[..count]).unwrap();
        self.room -= count;
        Ok(count)
    }
}

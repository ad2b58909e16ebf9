//! A source and a sink in memory that never fail.

ghost use Rattle.std.specs.Prelude.{◌≡◌, ◌-◌, ◌≤◌, ◌&&◌, true, [], ◌++◌, Some, Ok, min, length, nat_le, take, IfOk};
ghost use Rattle.ccr_io.specs.Memory.{told};

use crate::memory::copy_front;
use crate::{Failed, Sink, Source};
use ccr_base::{List, OutOfMemory};
use std::alloc::Global;
use std::marker::Model;

/// A source over bytes in memory that never fails.
#[derive(Drop)]
pub struct SureSource {
    bytes: List<u8>,
    at: usize,
}

impl Model for SureSource {
    ghost use Rattle.std.specs.Prelude.{◌≤◌, length, drop};
    ghost use Rattle.ccr_io.specs.Memory.{SureRest};

    ghost Value = { SureRest };

    ghost view = { λ source. record { rest = drop source.at source.bytes } };

    ghost invariant = { λ source. source.at ≤ length source.bytes };
}

impl SureSource {
    pub fn new(bytes: List<u8>) -> Self
        ensures rest { result.rest ≡ bytes }
    {
        SureSource { bytes, at: 0 }
    }

    /// The bytes still to come.
    pub fn rest(&self) -> &[u8]
        ensures { result.now ≡ self.now.rest }
    {
        &self.bytes.as_slice()[self.at..]
    }
}

impl Source for SureSource {
    ghost rest = { λ source. Some source.rest };

    ghost faults = { λ _. 0 };

    fn read(&mut self, buf: &mut [u8]) -> Result<usize, Failed>
        ensures sure { result ≡ Ok (min (length self.old.rest) (length buf.old)) }
        ensures read { IfOk result (λ n. self.old.rest ≡ take n buf.new ++ self.new.rest) }
    {
        let count = copy_front(buf, &self.bytes.as_slice()[self.at..]);
        self.at += count;
        Ok(count)
    }
}

/// A sink in memory that never fails. It takes each piece whole and keeps the first bytes, as many as it has room for.
#[derive(Drop)]
pub struct SureSink {
    bytes: Vec<u8>,
    room: usize,
    whole: bool,
}

impl Model for SureSink {
    ghost use Rattle.std.specs.Prelude.{◌≤◌, ◌+◌, vec_len, vec_capacity};
    ghost use Rattle.ccr_io.specs.Memory.{SureState};

    ghost Value = { SureState };

    ghost view = { λ sink. record { kept = sink.bytes.items; room = sink.room; is_whole = sink.whole } };

    ghost invariant = { λ sink. vec_len sink.bytes + sink.room ≤ vec_capacity sink.bytes };
}

impl SureSink {
    /// All the memory that the sink ever needs is taken here.
    pub fn new(alloc: Global, room: usize) -> Result<Self, OutOfMemory>
        ensures kept { IfOk result (λ sink. sink.kept ≡ []) }
        ensures room { IfOk result (λ sink. sink.room ≡ room) }
        ensures whole { IfOk result (λ sink. sink.is_whole ≡ true) }
    {
        Ok(SureSink {
            bytes: Vec::with_capacity(alloc, room)?,
            room,
            whole: true,
        })
    }

    /// The bytes that were kept.
    pub fn kept(&self) -> &[u8]
        ensures { result.now ≡ self.now.kept }
    {
        &self.bytes
    }

    /// Whether each byte has found room: the bytes that were kept are then all that were written.
    pub fn is_whole(&self) -> bool
        ensures { result ≡ self.now.is_whole }
    {
        self.whole
    }
}

impl Sink for SureSink {
    ghost written = { told };

    ghost faults = { λ _. 0 };

    fn write(&mut self, piece: &[u8]) -> Result<usize, Failed>
        ensures sure { result ≡ Ok (length piece.now) }
        ensures kept { self.new.kept ≡ self.old.kept ++ take self.old.room piece.now }
        ensures room { self.new.room ≡ self.old.room - length piece.now }
        ensures whole { self.new.is_whole ≡ (self.old.is_whole && nat_le (length piece.now) self.old.room) }
    {
        let count = self.room.min(piece.len());
        self.bytes.extend_from_slice(&piece[..count]).unwrap();
        self.room -= count;
        self.whole = self.whole && count == piece.len();
        Ok(piece.len())
    }
}

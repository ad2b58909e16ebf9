//! Sources of bytes, and the whole of one.

ghost use Rattle.std.specs.Prelude.{◌≡◌, ◌≢◌, ◌+◌, ◌≤◌, ℕ, List, [], Option, length, take, IfOk, OnErr, IsErrOf};
ghost use Rattle.ccr_base.specs.Bounds.{most_bytes};
ghost use Rattle.ccr_io.specs.Bytes.{IsTakenOff, IsAtEnd, HoldsAll, IsLongerThan, TakesAtMost};
ghost use Rattle.ccr_io.specs.Faults.{Rose};
ghost use Rattle.ccr_io.specs.declared.source.ReadEnd.TheVariants.{Fault, TooLong, Memory};

use ccr_base::List;
use std::alloc::{AllocError, Global};
use thiserror::Error;

/// A read or a write that did not happen.
#[derive(Clone, Copy, Debug, PartialEq, Eq)]
pub struct Failed;

/// Where bytes come from.
pub trait Source {
    /// The bytes still to come, where they are told.
    ghost rest: { Self → Option (List ℕ) };

    /// How often a call has failed. It never falls.
    ghost faults: { Self → ℕ };

    /// Reads into the buffer from the front on. 0 bytes into a buffer that is not empty are the end of input.
    fn read(&mut self, buf: &mut [u8]) -> Result<usize, Failed>
        ensures fits { IfOk result (λ n. n ≤ length buf.old) }
        ensures read { IfOk result (λ n. IsTakenOff (take n buf.new) (rest self.old) (rest self.new)) }
        ensures end { IfOk result (λ n. n ≡ 0 → buf.old ≢ [] → IsAtEnd (rest self.old)) }
        ensures kept { OnErr result (rest self.new ≡ rest self.old) }
        ensures cause { OnErr result (Rose (faults self.old) (faults self.new)) }
        ensures count { faults self.old ≤ faults self.new };
}

/// Why not all was read.
#[derive(Clone, Copy, Debug, PartialEq, Eq, Error)]
pub enum ReadEnd {
    #[error("the source failed")]
    Fault,
    #[error("the input is too long")]
    TooLong,
    #[error("no memory was left")]
    Memory,
}

impl From<AllocError> for ReadEnd {
    ghost from_gives = { λ _ end. end ≡ Memory };

    fn from(_: AllocError) -> Self {
        ReadEnd::Memory
    }
}

/// The most bytes that are asked for at once.
const PIECE: usize = 16_384;

/// Reads to the end of input, where that has at most `limit` bytes. Running out of memory may come at any time; the bytes read
/// up to there are then gone from the source, as with every other end.
#[tactic(auto, using(crate::proofs::Bytes::reading))]
pub fn read_all<S: Source>(alloc: Global, source: &mut S, limit: usize) -> Result<List<u8>, ReadEnd>
    requires { limit ≤ most_bytes }

    ensures whole { IfOk result (λ bytes. HoldsAll bytes (S.rest source.old) (S.rest source.new)) }
    ensures within { IfOk result (λ bytes. length bytes ≤ limit) }

    ensures fault { IsErrOf result ReadEnd.Fault → Rose (S.faults source.old) (S.faults source.new) }
    ensures too_long { IsErrOf result ReadEnd.TooLong → IsLongerThan limit (S.rest source.old) }

    // At most one byte more than the limit is read.
    ensures taken { TakesAtMost (limit + 1) (S.rest source.old) (S.rest source.new) }
    ensures count { S.faults source.old ≤ S.faults source.new }
{
    let mut bytes = Vec::new(alloc);
    let mut buf = [0; PIECE];
    'reads: loop {
        let room = PIECE.min(limit + 1 - bytes.len());
        match source.read(&mut buf[..room]) {
            Err(Failed) => return Err(ReadEnd::Fault),
            Ok(0) => return Ok(List::from_vec(bytes)),
            Ok(n) => {
                if limit - bytes.len() < n {
                    return Err(ReadEnd::TooLong);
                }
                bytes.extend_from_slice(&buf[..n])?;
            }
        }
    }
}

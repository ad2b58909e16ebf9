//! Sinks of bytes, and the writing of a whole text.

ghost use Rattle.std.specs.Prelude.{◌≡◌, ◌≢◌, ◌<◌, ◌≤◌, ℕ, List, [], Option, length, take, IfOk, OnOk, OnErr};
ghost use Rattle.ccr_io.specs.Bytes.{IsAdded, IsPrefixAdded};
ghost use Rattle.ccr_io.specs.Faults.{Rose};

use crate::Failed;

/// Where bytes go to.
pub trait Sink {
    /// The bytes that were written, where they are told.
    ghost written: { Self → Option (List ℕ) };

    /// How often a call has failed. It never falls.
    ghost faults: { Self → ℕ };

    /// Writes a prefix of the piece, at least one byte unless the piece is empty.
    fn write(&mut self, piece: &[u8]) -> Result<usize, Failed>
        ensures fits { IfOk result (λ n. n ≤ length piece.now) }
        ensures some { IfOk result (λ n. piece.now ≢ [] → 0 < n) }
        ensures added { IfOk result (λ n. IsAdded (take n piece.now) (written self.old) (written self.new)) }
        ensures kept { OnErr result (written self.new ≡ written self.old) }
        ensures cause { OnErr result (Rose (faults self.old) (faults self.new)) }
        ensures count { faults self.old ≤ faults self.new };
}

/// Writes the whole text, piece by piece, and stops at the first call that fails.
pub fn write_all<K: Sink>(sink: &mut K, text: &[u8]) -> Result<(), Failed>
    ensures ok { OnOk result (IsAdded text.now (K.written sink.old) (K.written sink.new)) }
    ensures err { OnErr result (IsPrefixAdded text.now (K.written sink.old) (K.written sink.new)) }
    ensures cause { OnErr result (Rose (K.faults sink.old) (K.faults sink.new)) }
    ensures count { K.faults sink.old ≤ K.faults sink.new }
{
    let mut at = 0;
    'writes: while at < text.len() {
        at += sink.write(&text[at..])?;
    }
    Ok(())
}

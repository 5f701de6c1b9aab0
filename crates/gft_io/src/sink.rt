//! What bytes are written to.
ghost use Rattle.std.specs.Prelude.{◌≡◌, ◌<◌, ◌≤◌, ℕ, List, Option, length, take, IfOk, OnOk, OnErr, MatchResult};
ghost use Rattle.gft_io.specs.Outside.{Rose, Told, Same, Appends, AppendsPart};

use crate::source::Failed;

/// A stream of bytes that is written piece by piece.
pub trait Sink {
    /// The bytes that it holds, where it tells them.
    ghost holds: { Self → Option (List ℕ) };

    /// How often it failed; an adapter's stands at 2^64 - 1 once it is there.
    ghost faults: { Self → ℕ };

    /// Appends the front of the piece, and answers how many bytes that is. A failure appends
    /// nothing.
    fn write(&mut self, piece: &[u8]) -> Result<usize, Failed>
        requires { 0 < length piece.now }
        ensures bound { IfOk result (λ n. (0 < n) × (n ≤ length piece.now)) }
        ensures appends { MatchResult result
            (λ n. Told (Appends (take n piece.now)) (holds self.old) (holds self.new))
            (λ _. Told Same (holds self.old) (holds self.new)) }
        ensures failed { OnErr result (Rose (faults self.old) (faults self.new)) }
        ensures faults { faults self.old ≤ faults self.new };
}

/// Writes all the bytes, piece by piece. After a failure some front of them was written.
/// It takes no memory.
pub fn write_all<K: Sink>(sink: &mut K, bytes: &[u8]) -> Result<(), Failed>
    ensures all { OnOk result (Told (Appends bytes.now) (K.holds sink.old) (K.holds sink.new)) }
    ensures part { OnErr result (Told (AppendsPart bytes.now) (K.holds sink.old) (K.holds sink.new)) }
    ensures failed { OnErr result (Rose (K.faults sink.old) (K.faults sink.new)) }
    ensures faults { K.faults sink.old ≤ K.faults sink.new }
{
    let mut rest = bytes;
    while !rest.is_empty() {
        let written = sink.write(rest)?;
        rest = rest.split_at(written).1;
    }
    Ok(())
}

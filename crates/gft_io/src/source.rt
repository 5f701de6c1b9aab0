//! What bytes are read from.
ghost use Rattle.std.specs.Prelude.{◌≡◌, ◌<◌, ◌≤◌, ℕ, List, Option, length, take, IfOk, OnErr, MatchResult};
ghost use Rattle.gft_io.specs.Outside.{raised, Rose, Told, Same, Gives};

/// A device failed in this call; its number of faults has risen.
#[derive(Clone, Copy, Debug, PartialEq, Eq)]
pub struct Failed;

/// A stream of bytes that is read piece by piece.
pub trait Source {
    /// The bytes that are left, where the source tells them.
    ghost left: { Self → Option (List ℕ) };

    /// How many bytes were taken from it; it stands at 2^64 - 1 once it is there.
    ghost taken: { Self → ℕ };

    /// How often it failed; an adapter's stands at 2^64 - 1 once it is there.
    ghost faults: { Self → ℕ };

    /// Fills the front of the buffer with the bytes that come next, and answers how many these are.
    /// 0 is the end of input. What stands in the rest of the buffer is open.
    fn read(&mut self, buffer: &mut [u8]) -> Result<usize, Failed>
        requires { 0 < length buffer.old }
        ensures bound { IfOk result (λ n. n ≤ length buffer.new) }
        ensures gives { IfOk result (λ n.
            Told (Gives (take n buffer.new)) (left self.old) (left self.new)) }
        ensures keeps { OnErr result (Told Same (left self.old) (left self.new)) }
        ensures takes { MatchResult result (λ n. taken self.new ≡ raised (taken self.old) n)
            (λ _. taken self.new ≡ taken self.old) }
        ensures failed { OnErr result (Rose (faults self.old) (faults self.new)) }
        ensures faults { faults self.old ≤ faults self.new };
}

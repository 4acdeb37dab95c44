//! Where bytes are written to.
ghost use Rattle.std.specs.Prelude.{◌≡◌, ℕ, ◌<◌, ◌≤◌, List, length, take, Option, IfOk, OnErr};
ghost use Rattle.lux_io.specs.Files.{HasCause, with_bytes};

/// The sink failed, and took nothing.
#[derive(Clone, Copy, Debug, PartialEq, Eq)]
pub struct WriteFailed;

/// A sink of bytes. It may tell what was written so far, and counts its faults: each failed call is one more, and no other
/// call is counted; at 2^64 - 1 the count stays.
pub trait Sink {
    /// The bytes written so far. `None`: the sink doesn't tell.
    ghost written: { Self → Option (List ℕ) };

    /// How often a call failed.
    ghost faults: { Self → ℕ };

    /// Writes some first bytes of the piece, and answers their number, which isn't 0 for a piece that isn't empty.
    fn write(&mut self, piece: &[u8]) -> Result<usize, WriteFailed>
        ensures bound { IfOk result (λ n. n ≤ length piece.now) }
        ensures some { 0 < length piece.now → IfOk result (λ n. 0 < n) }
        ensures bytes { IfOk result (λ n. written self.new ≡ with_bytes (written self.old) (take n piece.now)) }
        ensures none { OnErr result (written self.new ≡ written self.old) }
        ensures faults { HasCause (faults self.old) (faults self.new) result };
}

//! Where bytes go.
ghost use Rattle.std.specs.Prelude.{◌≡◌, ◌<◌, ℕ, List, length, Option, Ok};
ghost use Rattle.std.specs.Io.{WritesAtMost};
ghost use Rattle.std.specs.Io.KnownBytes.{WriteAppends};
ghost use Rattle.dl_io.specs.Outside.{HasCause, Rose};

use crate::Failed;

/// Where bytes go.
pub trait Sink {
    /// The bytes taken so far, where the sink tells them.
    ghost held: { Self → Option (List ℕ) };

    /// How often it has failed, a count that never falls.
    ghost faults: { Self → ℕ };

    /// Takes bytes from the front of the piece and answers how many. `Failed`, and no bytes of a piece
    /// that isn't empty, come only where the count of faults rose. `Failed` leaves what was taken.
    fn write(&mut self, buf: &[u8]) -> Result<usize, Failed>
        ensures bound { WritesAtMost result buf.now }
        ensures bytes { WriteAppends (held self.old) (held self.new) result buf.now }
        ensures cause { HasCause (faults self.old) (faults self.new) result }
        ensures stuck { result ≡ Ok 0 → 0 < length buf.now → Rose (faults self.old) (faults self.new) };

    /// The count of faults, which stands still at the greatest number.
    fn faults(&self) -> u64
        ensures { result ≡ faults self.now };
}

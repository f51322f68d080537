//! What bytes come from.
ghost use Rattle.std.specs.Prelude.{◌≡◌, ℕ, List, Option, OnErr};
ghost use Rattle.std.specs.Io.{ReadsAtMost};
ghost use Rattle.std.specs.Io.KnownBytes.{ReadConsumes};
ghost use Rattle.dl_io.specs.Outside.{HasCause};

use crate::Failed;

/// What bytes come from.
pub trait Source {
    /// The bytes still to come, where the source tells them.
    ghost left: { Self → Option (List ℕ) };

    /// How often it has failed, a count that never falls.
    ghost faults: { Self → ℕ };

    /// Puts the next bytes at the front of the buffer, takes them from what is left, and answers how
    /// many they are. No bytes for a buffer that isn't empty is the end of the input. `Failed` comes
    /// only where the count of faults rose. Nothing was taken then, and the buffer is as before.
    fn read(&mut self, buf: &mut [u8]) -> Result<usize, Failed>
        ensures bound { ReadsAtMost result buf.new }
        ensures bytes { ReadConsumes (left self.old) (left self.new) result buf.new }
        ensures cause { HasCause (faults self.old) (faults self.new) result }
        ensures kept { OnErr result (buf.new ≡ buf.old) };

    /// The count of faults, which stands still at the greatest number.
    fn faults(&self) -> u64
        ensures { result ≡ faults self.now };
}

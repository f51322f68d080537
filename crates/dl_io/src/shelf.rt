//! Files by their names.
ghost use Rattle.std.specs.Prelude.{◌≡◌, ◌≤◌, ◌⊎◌, ℕ, List, Option, OnErr};
ghost use Rattle.std.specs.Io.{ReadsAtMost};
ghost use Rattle.dl_io.specs.Outside.{Rose, Fetches, Lacks};

use crate::Failed;

/// Files by their names.
pub trait Shelf {
    /// The file of each name, where the shelf tells them.
    ghost files: { Self → Option (List ℕ → Option (List ℕ)) };

    /// How often it has failed, a count that never falls.
    ghost faults: { Self → ℕ };

    /// Puts bytes of the file from the place `at` on at the front of the buffer, and answers how many.
    /// No bytes for a buffer that isn't empty means that the file ends at or before that place.
    /// `Failed` comes only where the count of faults rose, or where the files are told and none has
    /// the name; for such a name it always comes. The files stay as they were, and after `Failed` the
    /// buffer too.
    fn fetch(&mut self, name: &str, at: u64, buf: &mut [u8]) -> Result<usize, Failed>
        ensures bound { ReadsAtMost result buf.new }
        ensures bytes { Fetches (files self.old) name.now at result buf.new }
        ensures same { files self.new ≡ files self.old }
        ensures later { faults self.old ≤ faults self.new }
        ensures failed { OnErr result (Rose (faults self.old) (faults self.new) ⊎ Lacks (files self.old) name.now) }
        ensures kept { OnErr result (buf.new ≡ buf.old) };

    /// The count of faults, which stands still at the greatest number.
    fn faults(&self) -> u64
        ensures { result ≡ faults self.now };
}

//! A source that is read only where it may be, beside a sink.

use dl_io::{Failed, Sink, Source};

/// A source whose reader has the sink at hand, and may read only where what both have had allows it.
///
/// Whoever reads by such a source has to show each time that it may. Each `Source` is one that may be read anywhere.
pub trait Turns<K: Sink> {
    ghost use Rattle.std.specs.Prelude.{◌≡◌, ℕ, List, Option, OnErr};
    ghost use Rattle.std.specs.Io.{ReadsAtMost};
    ghost use Rattle.std.specs.Io.KnownBytes.{ReadConsumes};
    ghost use Rattle.dl_io.specs.Outside.{HasCause};

    /// The bytes still to come, where the source tells them.
    ghost left: { Self → Option (List ℕ) };

    /// How often it has failed, a count that never falls.
    ghost faults: { Self → ℕ };

    /// Whether it may be read, beside the sink as it is.
    ghost may: { Self → K → Type 0 };

    /// Reads as [`Source::read`] does.
    fn next(&mut self, out: &K, buf: &mut [u8]) -> Result<usize, Failed>
        requires { may self.old out.now }
        ensures bound { ReadsAtMost result buf.new }
        ensures bytes { ReadConsumes (left self.old) (left self.new) result buf.new }
        ensures cause { HasCause (faults self.old) (faults self.new) result }
        ensures kept { OnErr result (buf.new ≡ buf.old) };
}

impl<K: Sink, S: Source> Turns<K> for S {
    ghost left = { λ s. S.left s };

    ghost faults = { λ s. S.faults s };

    ghost may = { λ _ _. Unit {0} };

    fn next(&mut self, _: &K, buf: &mut [u8]) -> Result<usize, Failed> {
        self.read(buf)
    }
}

//! What the writers share.
use rtt_modes::Relief;
use std::sync::Wait;

/// How many steps each writer has to do.
pub trait Quota {
    ghost use Rattle.std.specs.Prelude.{ℕ};

    /// By the writer's number.
    ghost quota: { ℕ → ℕ };
}

/// A work of which each writer does its steps one after the other.
pub trait Work<Q: Quota> {
    ghost use Rattle.std.specs.Prelude.{◌≡◌, ℕ, ◌+◌, ◌<◌, ◌==◌, if◌then◌else◌};

    /// How many steps each writer has done, by the writer's number.
    ghost done: { Self → ℕ → ℕ };

    /// Does the next step of a writer that has one left, and none of another writer. It may wait, and eases the relief
    /// meanwhile.
    fn step<R: Relief, W: Wait>(&mut self, rt: &W, writer: u8, relief: &mut R)
        requires number { writer < 8 }
        requires place { done self.old writer < Q.quota writer }
        requires relief { R.kept relief.old }
        ensures done { (w : ℕ) → done self.new w ≡ done self.old w + (if writer == w then 1 else 0) }
        ensures relief { R.kept relief.new };
}

//! What is asked of a clock that is kept.
ghost use Rattle.std.specs.Prelude.{ℕ};

/// A clock that tells the stamp of a message by its number (defmt book, "Timestamps").
pub trait Clock {
    /// At which numbers the clock may be asked.
    ghost ready: { Self → ℕ → Type 0 };

    /// Which answers it may give at a number.
    ghost gives: { Self → ℕ → ℕ → Type 0 };

    /// The stamp of the message number `t`. Takes no memory.
    fn tick(&self, t: u32) -> u64
        requires { ready self.now t }
        ensures { gives self.now t result };
}

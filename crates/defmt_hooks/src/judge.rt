//! What is asked of a judge that is kept.

use crate::level::Level;

/// What says of a message, by its level and the package that it comes from, whether it is kept.
pub trait Judge {
    ghost use Rattle.std.specs.Prelude.{ℕ, List, Bool};
    ghost use Rattle.defmt_hooks.specs.declared.level.Level.{Level};

    /// About which levels and packages the judge may be asked.
    ghost ready: { Self → Level → List ℕ → Type 0 };

    /// Which answers it may give about a level and a package.
    ghost gives: { Self → Level → List ℕ → Bool → Type 0 };

    /// Whether a message of this level and package is kept. Takes no memory.
    fn judge(&self, level: Level, name: &str) -> bool
        requires { ready self.now level name.now }
        ensures { gives self.now level name.now result };
}

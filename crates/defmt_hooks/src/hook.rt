//! Closures by the name of what they are kept for.
ghost use Rattle.std.specs.Prelude.{◌≡◌};

use crate::clock::Clock;
use crate::judge::Judge;
use crate::level::Level;

/// A stored closure: a clock where it takes a number and answers one, a judge where it takes a level and a package and
/// answers whether such a message is kept.
#[derive(Drop)]
pub struct Hook<F> {
    /// The closure.
    pub call: F,
}

impl<F> Hook<F> {
    /// Keeps the closure. Takes no memory.
    pub fn new(call: F) -> Hook<F>
        ensures { result ≡ record { call = call } }
    {
        Hook { call }
    }
}

/// What this clock may be asked and may answer is what its closure may be.
impl<F: Fn(u32) -> u64> Clock for Hook<F> {
    ghost ready = { λ h t. F.pre h.call t };

    ghost gives = { λ h t stamp. F.post h.call t stamp };

    fn tick(&self, t: u32) -> u64 {
        let call = &self.call;
        call(t)
    }
}

/// This judge may be asked where its closure may be at each reference to the package's name, and answers what its closure
/// answers at one of them.
impl<F: Fn(Level, &str) -> bool> Judge for Hook<F> {
    ghost use Rattle.std.specs.Prelude.{◌≡◌};

    ghost ready = { λ h level name. (text : _) → text.now ≡ name → F.pre h.call level text };

    ghost gives = { λ h level name answer. (text : _) × (text.now ≡ name)
        × F.post h.call level text answer };

    fn judge(&self, level: Level, name: &str) -> bool {
        let call = &self.call;
        call(level, name)
    }
}

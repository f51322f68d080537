//! A clock that is kept with the numbers by which it counts.
ghost use Rattle.std.specs.Prelude.{◌≡◌, ◌≤◌, ◌+◌, ◌*◌};
ghost use Rattle.defmt_hooks.specs.Even.{RunsEvenly, SomeClockGave};

use crate::clock::Clock;
use std::marker::Model;

/// A clock that answers `base + step * t` at each number `t` up to 4,096. Contracts see it as these two numbers.
///
/// The clock is asked for each stamp: nothing but its answer shows that a clock gave this number.
#[derive(Drop)]
pub struct Stamp<C: Clock> {
    base: u64,
    step: u64,
    clock: C,
}

impl<C: Clock> Model for Stamp<C> {
    ghost use Rattle.defmt_hooks.specs.Even.{Pace, KeepsPace};

    ghost Value = { Pace };

    ghost view = { λ s. record { base = s.base; step = s.step } };

    ghost invariant = { λ s. KeepsPace (record { base = s.base; step = s.step })
        (C.ready s.clock) (C.gives s.clock) };
}

impl<C: Clock> Stamp<C> {
    /// Keeps a clock and its numbers, which are at most 281,474,976,710,656. Takes no memory.
    ///
    /// The clock may be asked at each number up to 4,096, and answers `base + step * t` there.
    pub fn new(base: u64, step: u64, clock: C) -> Stamp<C>
        requires numbers { (base ≤ 281474976710656) × (step ≤ 281474976710656) }
        requires even { RunsEvenly base step (C.ready clock) (C.gives clock) }
        ensures { result ≡ record { base = base; step = step } }
    {
        Stamp { base, step, clock }
    }

    /// The stamp of the message number `t`, at most 4,096: `base + step * t`, as a clock gave it. Takes no memory.
    pub fn at(&self, t: u32) -> u64
        requires { t ≤ 4096 }
        ensures stamp { result ≡ self.now.base + self.now.step * t }
        ensures asked { SomeClockGave C.gives t result }
    {
        self.clock.tick(t)
    }
}

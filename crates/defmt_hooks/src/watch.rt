//! A judge that is kept with the rules that it judges by.
ghost use Rattle.std.specs.Prelude.{◌≡◌};
ghost use Rattle.defmt_hooks.specs.Kept.{keeps};
ghost use Rattle.defmt_hooks.specs.Judging.{JudgesBy, SomeJudgeGave};

use crate::judge::Judge;
use crate::level::Level;
use crate::rules::Rules;
use std::marker::Model;

/// A judge that answers by some rules which messages are kept. Contracts see it as these rules.
///
/// The judge is asked about each message: nothing but its answer shows that a judge gave this one.
#[derive(Drop)]
pub struct Watch<'a, J: Judge> {
    rules: &'a Rules,
    judge: J,
}

impl<'a, J: Judge> Model for Watch<'a, J> {
    ghost use Rattle.defmt_hooks.specs.declared.rules.Rules.{Rules};
    ghost use Rattle.defmt_hooks.specs.Judging.{JudgesBy};

    ghost Value = { Rules };

    ghost view = { λ w. w.rules.now };

    ghost invariant = { λ w. JudgesBy w.rules.now (J.ready w.judge) (J.gives w.judge) };
}

impl<'a, J: Judge> Watch<'a, J> {
    /// Keeps a judge that may be asked about each level and package and answers by the rules. Takes no memory.
    pub fn new(rules: &'a Rules, judge: J) -> Watch<'a, J>
        requires { JudgesBy rules.now (J.ready judge) (J.gives judge) }
        ensures { result ≡ rules.now }
    {
        Watch { rules, judge }
    }

    /// Whether a message of this level and package is kept, as a judge answered. Takes no memory.
    pub fn keep(&self, level: Level, name: &str) -> bool
        ensures kept { result ≡ keeps self.now level name.now }
        ensures asked { SomeJudgeGave J.gives level name.now result }
    {
        self.judge.judge(level, name)
    }
}

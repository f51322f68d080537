//! The steps of a writer.

ghost use Rattle.std.specs.Prelude.{◌≡◌, slice_get};
ghost use Rattle.defmt_script.specs.Turns.{AreInTurn, step_at, steps_of};

use crate::script::Script;
use rtt_terminal::Saying;

/// A step of a writer.
#[derive(Clone, Copy)]
pub enum Step {
    /// It logs its next statement.
    Log,
    /// It says its next text.
    Say,
}

/// The step with a number, of a writer that logs so many statements and says these texts among them.
pub fn step_at(number: u32, count: u32, sayings: &[Saying]) -> Option<Step>
    requires { AreInTurn 0 count sayings.now }
    ensures { result ≡ step_at number 0 count sayings.now }
{
    let mut left = number;
    let mut from = 0u32;
    let mut rest = sayings;
    while let [first, more @ ..] = rest {
        let logs = first.behind() - from;
        if left < logs {
            return Some(Step::Log);
        }
        if left == logs {
            return Some(Step::Say);
        }
        left = left - logs - 1;
        from = first.behind();
        rest = more;
    }
    if left < count - from {
        Some(Step::Log)
    } else {
        None
    }
}

impl Script {
    /// What a writer does in its step with this number, from 0: it logs or says what comes next. `None` exactly where it has
    /// no more statements and texts together. Takes no memory.
    pub fn step(&self, writer: u8, number: u32) -> Option<Step>
        ensures { result ≡ slice_get (steps_of self.now writer) number }
    {
        self.lawful();
        step_at(number, self.count(writer), self.speech().sayings(writer))
    }
}

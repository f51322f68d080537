//! Functions that a caller hands to a logger or to a printer, which keep them: the clock that stamps messages, and the
//! judge that says which messages are shown.
//!
//! [`Stamp`] keeps a clock with the two numbers by which it counts. [`Watch`] keeps a judge with the [`Rules`] that it
//! judges by, which [`read_rules`] reads from a text. A closure becomes a clock or a judge by [`Hook`]. What is known of a
//! clock or a judge is asked where it is handed in, and kept with it: whoever holds a `Stamp` or a `Watch` needs to know
//! nothing of the clock or the judge in it. Reading rules and a longer list of packages take memory, and nothing else does.
//!
//! After the defmt book, "Timestamps" and "Logging levels". `off,script=info` keeps of the package `script` what is of
//! the level info or above, and of others nothing (device_tests, `hooks`).
#![tactic(auto)]

mod clock;
mod fault;
mod floors;
mod hook;
mod judge;
mod level;
mod reading;
mod rules;
mod stamp;
mod watch;

pub use clock::Clock;
pub use fault::RuleFault;
pub use floors::Floors;
pub use hook::Hook;
pub use judge::Judge;
pub use level::{Floor, Level, level_named, level_of};
pub use reading::{one_spelling, read_rules, rules_are_spelled};
pub use rules::{Rules, keeps};
pub use stamp::Stamp;
pub use watch::Watch;

//! Scripts: a ring, a table of strings, and the statements of eight writers with what they say on terminals, read from a text
//! line by line (docs/SCRIPT.md).
//!
//! So `s hi defmt_info hello` and `w 0 hi` are a script of one string and of one statement of the writer 0. What a script of each form
//! of line reads as, or where it is refused, stands in script_tests, `scripts`.
#![tactic(auto)]

mod actions;
mod fault;
mod laws;
mod parts;
mod reading;
mod script;
mod step;
mod strings;
mod top;

pub use defmt_lines::RingMode;
pub use fault::ScriptFault;
pub use laws::{
    scripts_are_lawful, stamps_are_alike, stamps_fit, steps_are_counted, texts_are_few,
};
pub use rtt_terminal::WRITERS;
pub use script::{Script, Statements};
pub use step::Step;
pub use top::{one_reading, read, some_reading};

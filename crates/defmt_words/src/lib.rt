//! What the words of the program ask for, read by `clap` as one simple command.
//!
//! After `clap`, and docs/USER-GUIDE.md, "Words". So `decode --table=t.elf` asks for a recording by that file, and `print --group` for
//! nothing (program_tests, `words`).
#![tactic(auto)]

mod command_line;
mod job;
mod number;
mod parameters;
mod reading;
mod style;

pub use job::{DecodeOptions, DumpOptions, Job, RunOptions, ScriptJob};
pub use number::{Count, Jobs, Within};
pub use reading::job_of;
pub use style::{Form, Style};

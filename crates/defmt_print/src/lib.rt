//! What is printed of the run of a script, and of a script.
//!
//! A run has, in a style, the lines of the events that the host tells, a report of each frame that wasn't sent whole, the lines of the frames
//! that were, in groups by writer, counts over its tape, the texts of its terminals, and a line for each of its orders. A script
//! has the lines of all statements. `sent_events` is what the host tells of what was sent for a tape. What an event prints stands
//! in `defmt_recording`.
//!
//! After docs/USER-GUIDE.md, "Output lines". So the statements of the writer 0 are printed in front of those of the writer 1
//! (program_tests, `commands`).
#![tactic(auto)]

mod counts;
mod failing;
mod hearing;
mod laws;
mod losses;
mod mark_lines;
mod orders;
mod printing;
mod showing;
mod shown;
mod statements;
mod terminals;

pub use counts::summary;
pub use failing::run_failing;
pub use hearing::{heard_events, sent_events, sent_lines};
pub use laws::gaps_are_told;
pub use showing::{run_lines, steered_lines};
pub use shown::only_lines_are_left_out;
pub use statements::{stamps, statement_lines};
pub use terminals::with_screens;

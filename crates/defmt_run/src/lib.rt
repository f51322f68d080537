//! One session of the logger: what the words ask for is done, from the source to the sink.
//!
//! `run` runs a script by threads that log its statements, decodes what they sent, and prints what it tells and a
//! report of each frame that wasn't sent whole; with `--group` the lines stand writer by writer. `term` does as `run`,
//! says the script's texts for terminals over a second ring beside it, and prints them terminal by terminal behind the
//! others. `steer` runs a script while the host sends its orders of levels down a second ring, and prints the lines
//! and from which turn each order was heard. `record` writes what was sent, `table` the file of the script's table,
//! `print` the lines of the statements. `decode --table FILE` reads a recording of frames, and prints what it tells by
//! the table which the file names. `dump --table FILE` does so with the bytes of an up-buffer in an image of memory.
//! `gen N` runs a script of N statements that a formula makes, and prints counts of them.
//!
//! After docs/USER-GUIDE.md. So a script with `hello` of the writer 0 is run with the status 0 and the line `INFO  hello`
//! (program_tests, `run`).
#![tactic(auto)]

mod hearing;
mod logging;
mod making;
mod outcome;
mod running;
mod terminals;
mod top;

pub use defmt_decode::{Event, Events};
pub use defmt_logger::{Mark, Tape};
pub use defmt_print::{gaps_are_told, only_lines_are_left_out};
pub use defmt_recording::Fault;
pub use defmt_writers::{Gate, OpenGate, serve_here};
pub use elf_section::Part;
pub use outcome::Outcome;
pub use rtt_booth::{Said, Word};
pub use rtt_down::{Turn, Turns};
pub use rtt_dump::refusals_are_checked;
pub use rtt_modes::Fate;
pub use rtt_ring::{RingKind, Settled};
pub use top::session;

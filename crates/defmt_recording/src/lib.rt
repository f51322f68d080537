//! Recordings are decoded, and images of memory dumped, by the table that a file names.
//!
//! `decode` reads a recording of frames from a source and prints the lines of its events to a sink. `dump` does so with the bytes
//! of an up-buffer in an image of memory. An event has a line, also where it is a fault. In profile Two frames have places, and in
//! front of a line stands how many frames are missing since the line before. Rules may leave lines out, and a style gives them the form
//! of JSON or of a terminal. `HostListener` is the host as it hears a recording, `Styled` prints what it tells as it comes, and
//! `event_lines` is what a list of events prints.
//! `Fault` is what a call of the program comes to, with its status and its words.
//!
//! After docs/USER-GUIDE.md, "Output lines" and "Statuses". So `7e 00 00 01 7e 00` gives `-- front 1`, `INFO  hello` and the
//! status 9 (program_tests, `decode`).
#![tactic(auto)]

mod counting;
mod decoding;
mod dumping;
mod fault;
mod files;
mod hearing;
mod host_listener;
mod kept;
mod notices;
mod output;
mod printing;
mod reporting;
mod statement;
mod styled;
mod styles;
mod templates;

pub use decoding::decode;
pub use dumping::dump;
pub use fault::Fault;
pub use files::load;
pub use hearing::events_of;
pub use host_listener::HostListener;
pub use output::{add_count, add_ended};
pub use printing::event_lines;
pub use reporting::{fault_of, print_with};
pub use statement::add_statement;
pub use styled::Styled;
pub use styles::{fails_at, is_failing, prints_index};

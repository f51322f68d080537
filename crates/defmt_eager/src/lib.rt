//! The text of log statements: what a line says, made from the statement itself.
//!
//! One walk over pieces writes a text into a buffer at a place, where it fits. A text of its own is this walk into a room that
//! grows up to the limit of 65,536 bytes. The texts are those of the defmt book, "Display hints": `{0=0..4} {0=8..12:#b}` with
//! 0x0a05 is `5 0b1010` (text_tests, `eager`). A line at a place: `a 1` of the writer 0, at the stamp 1000, is
//! `0.001000 INFO  a 1` (program_tests, `commands`).
#![tactic(auto)]

mod eager;
mod front;
mod leaves;
mod pieces;
mod placed;
mod printed;
mod rooms;
mod stamps;
mod values;
mod wide;

pub use eager::{EagerFault, PRINTED_LIMIT, text_of};
pub use front::Front;
pub use pieces::{acting, comma};
pub use placed::{put_line, put_parted_line};
pub use printed::{level_text, line, parted_line};
pub use wide::is_wide;

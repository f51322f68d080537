//! Messages: statements as bytes, and bytes read as statements.
//!
//! A message is the index of its string, in profile Two its mark's number, the stamp and the arguments, lowest bytes first (the
//! defmt book, "Serialization"); a frame is its code between two zeros ("Encoding"). So `hello` at index 1 is `01 00`, and its frame
//! `00 01 7e 00` (wire_tests, `messages`).
#![tactic(auto)]

mod arguments;
mod bounds;
mod cause;
mod field;
mod forms;
mod framing;
mod heard;
mod law;
mod leaves;
mod padding;
mod put;
mod read;
mod slots;
mod values;
mod weights;
mod widths;
mod writing;

pub use cause::{COBS, LONG, WIDE, fault_name};
pub use framing::frame;
pub use heard::{Heard, ReadCause, read_message};
pub use law::{lengths_fit, one_answer, place_length, places_suit, reads_back, stamp_length};
pub use padding::is_padding;
pub use put::{Long, MESSAGE_LIMIT, put_bytes, put_number};
pub use slots::stamp_slots;
pub use values::{put_args, put_slice, put_text, put_value};
pub use widths::size_bytes;
pub use writing::{is_long, message, place_suits};

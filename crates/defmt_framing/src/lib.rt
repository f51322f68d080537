//! Frames in a stream of bytes: the stream is cut at its zeros, and each part tells something.
//!
//! A frame is a zero, a code and a zero (defmt book, the encoding rzcobs), and a code has no
//! zero. So what comes before the first zero of a stream is its front, what lies between two
//! zeros that follow one another is a piece, and what comes after the last zero is its tail. A
//! stream without a zero is all front, and an empty part is none.
//!
//! Of `07 08 00 01 00 00 02 03 04 00 09` the front has two bytes, the pieces one and three, and the tail one (wire_tests,
//! `parts`).
#![tactic(auto)]

mod decoded;
mod framer;
mod laws;
mod notice;
mod places;
mod teller;

pub use decoded::{decode_piece, decode_piece_in_front, decode_zeroless_piece, decoded_is};
pub use framer::Framer;
pub use laws::{
    always_laid_out, any_cutting, cut_between_frames, cut_by_places, cut_within_a_frame,
    intact_frames, messages_have_codes, without_end, without_front,
};
pub use notice::Notice;
pub use teller::Teller;

//! The codes of rzCOBS. The code of a message has no zero, so that zeros can stand between codes,
//! and it can be read in one way.
//!
//! A code is a sequence of blocks, each of which ends with its code byte (rzCOBS, the table of
//! code bytes):
//!
//! | Code byte | Stored bytes before it | Stands for |
//! |---|---|---|
//! | `01` to `7f` | one for each clear bit of its lowest seven | seven bytes, the byte `i` zero where the bit `i` is set |
//! | `80` to `fe` | 7 to 133, as many as its lowest seven bits and 7 | these, then one zero |
//! | `ff` | 134 | these |
//!
//! The message `01 00` has the code `01 7e`, which stands for `01 00` and five zeros (wire_tests, `codes`).
#![tactic(auto)]

mod decoder;
mod encoder;
mod laws;
mod spreads;
mod whole;

pub use decoder::{Malformed, decode, decode_front_to_end, decode_zeroless_to_end};
pub use encoder::{Encoder, bound};
pub use laws::{canonical_reading, canonical_size, no_zero_in_code, one_reading, reading_size};
pub use whole::encode;

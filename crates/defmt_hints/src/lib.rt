//! The texts of values under the display hints of the defmt book: Rust's formatting wherever a hint is one of Rust's too.
//!
//! Each `put` call writes the text into a buffer at a place, which is at most the buffer's length, and answers the place behind it,
//! or `None` exactly where the buffer ends before the text does. What stands in front of the place is as before in any case, and
//! what stands behind a text that was written too. Places and lengths are numbers of bytes. No `put` call takes memory. Each `show_`
//! call appends the same text to a `Text`; under `Memory`, want of memory, it has appended a front of it.
//!
//! So `{=u128:#04x}` prints 10 as `0x0a`, and `{=char:?}` a quote as `'\''` (text_tests, `hints`).
#![tactic(auto)]

mod floats;
mod laws;
mod lists;
mod numbers;
mod padded;
mod quoted;
mod radix;
mod seconds;
mod show;
mod texts;
mod times;

pub use floats::put_float;
pub use laws::digits_are_unique;
pub use lists::put_bytes;
pub use numbers::{put_complement, put_decimal, put_int, put_uint, put_wide_uint};
pub use show::{show_bool, show_bytes, show_char, show_float, show_int, show_str, show_uint};
pub use texts::{put, put_bool, put_char, put_str, put_text};

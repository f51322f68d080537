//! The grammar of format strings, after defmt (the defmt book, "Hints" and "Bitfields"; the crate defmt-parser).
//!
//! So `x{{y{=u16:#06X}{0=u16}}}` is the text `x{y`, two uses of one argument of 16 bits, the first in upper hexadecimal digits,
//! six wide, and the text `}`; `{=u8:q}` is refused strictly with cause 3 at byte 5 (text_tests, `grammar`).
#![tactic(auto)]

mod fault;
mod hint;
mod kind;
mod language;
mod param;
mod parts;
mod piece;
mod pieces;
mod positions;
mod printing;
mod reading;
mod slot;
mod step;
mod text;

pub use fault::{Cause, GrammarFault, Memory, Mode};
pub use hint::{Base, ClockUnit, Hint, IsoUnit};
pub use kind::{FloatSize, IntSize, Kind};
pub use language::Language;
pub use param::Param;
pub use piece::Piece;
pub use pieces::{Pieces, base_is_full, one_answer, parse, slots_are_sound, strict_is_lenient};
pub use printing::{print, reads_back};
pub use slot::Slot;
pub use text::Text;

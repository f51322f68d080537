//! The words that two threads share in a ring, and the ten kinds of step on them.
//!
//! The offsets are those of an up-buffer in a control block (SEGGER RTT, WrOff and RdOff): the places, in bytes from the
//! buffer's front on, behind the last byte that was published and behind the last one that was released. Each has a word of
//! its own, and behind these two a word holds each eight bytes of the buffer, the first in its lowest bits.
//!
//! [`JoinedWords::split`] makes the words and gives [`UpWords`] to the writer and [`DownWords`] to the reader, and
//! [`JoinedWords::join`] brings these two ends together. All else is private, so there is no step on a word but theirs: each
//! other method is one load or one store of one word, sequentially consistent, which takes no memory and doesn't wait.
//!
//! What an end knows is an [`UpView`] or a [`DownView`]. It has the history of each offset up to this end's last access of
//! it. The history of the other end's offset grows by a load of it alone, and such a load finds what the other end has
//! stored last: that is a law ([`look_finds_the_released`], [`look_finds_the_published`]).
#![tactic(auto)]

mod down;
mod joined;
mod lanes;
mod law;
mod table;
mod up;
mod view;

pub use down::DownWords;
pub use joined::JoinedWords;
pub use law::{
    loaded_is_last_stored, look_finds_the_published, look_finds_the_released, no_look_is_blind,
    residue_tells_the_published, residue_tells_the_released,
};
pub use up::UpWords;
pub use view::{Access, DownView, UpView};

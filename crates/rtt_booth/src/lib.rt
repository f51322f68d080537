//! A booth: eight writers say their texts on terminals, one at a time, through one end of a ring.
//!
//! A [`Stand`] takes the next text of one of eight writers, sends its line to the ring in blocking mode, with a switch in
//! front where the terminal changes, and puts a [`Word`] to those that were [`Said`].
//!
//! A [`Booth`] has a stand behind a lock, as the work that eight writers share. It gives a voice to each writer, which is a
//! [`Pen`], and only a voice can say a text. When all voices are back, `close` gives the words that were said, and each
//! writer has as many as its voice tells.
//!
//! After SEGGER RTT's virtual terminals. So `tick` on the terminal 10 and `ready` on 0 are
//! `ff 41 74 69 63 6b 0a ff 30 72 65 61 64 79 0a` (terminal_tests, `booths`).
#![tactic(auto)]

mod booth;
mod laws;
mod said;
mod speaking;
mod stand;

pub use booth::Booth;
pub use laws::{spoken_is_short, words_are_shown};
pub use said::{Said, Word};
pub use shared_work::{Pen, Pens};
pub use speaking::{EachText, Naming, Speaking};
pub use stand::Stand;

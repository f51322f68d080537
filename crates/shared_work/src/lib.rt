//! A work that eight writers share: the lock that it stands behind, and the ledgers that tell how far each writer has come.
//!
//! A [`Work`] has steps, and each writer does its own one after the other; a [`Quota`] says how many each has. [`Shared`] has
//! a work behind a lock, beside a book for each writer in which its steps are counted. It gives a [`Pen`] to each writer, and
//! only a pen does a step. When all [`Pens`] are back, `close` gives the work, and each writer has done as many steps as its
//! pen tells.
//!
//! What a work keeps of its own, such as the names of what it was made of, stands in its type: it holds each time the lock is
//! taken, and of the work that `close` gives. Nothing here takes memory.
//!
//! The lock and the ledgers are std's. A logger is such a work: three steps of its pens leave three marks (device_tests, `logger`).
#![tactic(auto)]

mod books;
mod pen;
mod shared;
mod work;

pub use books::{
    Books, Eight, HasBook, LedgerOf, Names, Numbered, W0, W1, W2, W3, W4, W5, W6, W7, Writer,
};
pub use pen::{Blanks, Pen, Pens};
pub use shared::Shared;
pub use work::{Quota, Work};

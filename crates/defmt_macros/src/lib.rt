//! The macros that log a statement: each writes its message into a buffer (defmt book, "Log levels").
//!
//! A [`Site`] is a place in a program that logs, checked against the string table when it is made. A macro names its
//! site, and its arguments by their types: `info!(buf, table, site, place, stamp; u8 x, str name)`. It expands to
//! [`Frame::begin`], one [`put!`] for each argument and [`Frame::end`], and gives the length of the message. The form
//! `info!(buf, table, site, place, stamp; all args)` puts a list of values, by [`put_message`]. Only making a site takes memory.
//!
//! So each macro puts the number 7 for `{=u8}` at index 1 as `01 00 07` (device_tests, `macros`).
#![tactic(auto)]

mod callers;
mod frame;
mod laws;
mod logging;
mod macros;
mod putting;
mod site;
mod slots;

pub use defmt_grammar::IntSize;
pub use defmt_intern::Tag;
pub use frame::Frame;
pub use laws::value_by_value;
pub use logging::{log, put_message};
pub use site::{Site, SiteFault, stamp_suits};
pub use slots::Slots;

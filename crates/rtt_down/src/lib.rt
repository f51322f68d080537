//! A steered logger: eight writers log through one end of a ring, and a host sends down another ring from which level on
//! they do.
//!
//! An order is a line of two bytes, `l` and a digit from `1` for Trace to `5` for Error, as [`order_bytes`] puts it: from now
//! on what is below this level is muted. Every other line is none. An [`Ear`] hears the bytes one by one, however they are cut
//! into pieces.
//!
//! A [`Bridge`] takes the turns of the writers' statements: each looks down once, hears what came, and then sends the frame of
//! its statement in blocking mode or mutes it, and puts a [`Turn`] to those that were taken. A statement without a level is
//! always sent.
//!
//! A [`Steered`] logger has a bridge behind a lock, as the work that eight writers share. It gives a helm to each writer,
//! which is a [`Pen`], and only a helm takes a turn. When all helms are back, `close` gives the turns, and each writer has as
//! many as its helm tells.
//!
//! After SEGGER RTT's down-buffers. The lines `l4` and `l5` order warnings and then errors; `l4x` orders
//! nothing (device_tests, `steering`).
#![tactic(auto)]

mod bridge;
mod course;
mod ear;
mod level;
mod mode;
mod order_count;
mod orders;
mod steered;
mod steering;
mod turn;
mod turns;

pub use bridge::Bridge;
pub use ear::Ear;
pub use mode::{mode_line, modes_are_set};
pub use orders::{order_bytes, orders_by_parts, orders_read_back};
pub use shared_work::{Pen, Pens};
pub use steered::Steered;
pub use steering::{EachTurn, Naming, Steering};
pub use turn::Turn;
pub use turns::Turns;

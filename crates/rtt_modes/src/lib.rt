//! Three ways to send a frame through a ring.
//!
//! Each looks how much room the ring has. [`skip`] sends a frame whole or not at all, [`trim`] cuts the tail that
//! doesn't fit, and [`block`] sends the frame in pieces until all of it is sent. They are the modes that a buffer's
//! flags name (SEGGER RTT, the buffer's flags): 0 skip, 1 trim, 2 block.
//!
//! So in a ring with room for 5 bytes a frame of 6 is dropped by [`skip`], and [`trim`] sends 5 of it (ring_tests, `modes`).
#![tactic(auto)]

mod fate;
mod modes;

pub use fate::{Both, Fate, Relief};
pub use modes::{block, skip, trim};

//! The control block of SEGGER RTT in a memory image of a target of 32 bits: found by its ID, read,
//! written, and the bytes that wait in one of its buffers.
//!
//! An image is a slice of bytes with a base address, the address of its first byte. The place of an
//! address in the image is the address less the base.
//!
//! The layout is that of `SEGGER_RTT_CB`. A block with one up-buffer of 16 bytes at 0x20000030, WrOff 2 and RdOff 14, whose
//! buffer begins `7e 00` and ends `00 01`, has the bytes `00 01 7e 00` waiting (ring_tests, `blocks`).
#![tactic(auto)]

mod block;
mod bytes;
mod calls;
mod checks;
mod fault;
mod up;

pub use block::{Block, Descriptor, Descriptors};
pub use bytes::{ID, put, put_descriptor, put_words};
pub use calls::{find, read, unread, write};
pub use fault::{Cause, ControlFault};
pub use up::read_up;

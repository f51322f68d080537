//! What readers of files and memory images share: the numbers at places of their bytes, the class of an ELF file, and checks in
//! an order, of which the first that doesn't hold is told.
//!
//! Numbers are those of little-endian targets (ELF gABI, "Data Representation"; SEGGER RTT, targets of 32 bits). So the bytes
//! `30 00 00 20` are 0x20000030, where the buffer of the block begins (ring_tests, `blocks`).
#![tactic(auto)]

mod elf;
mod fields;

pub use elf::{Class, class_of};
pub use fields::{half_at, long_at, word_at};

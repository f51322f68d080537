//! The bytes of an RTT buffer in an image of a target's memory, as a debugger saves it after a crash:
//! an ELF core file, or the bare bytes from a base address on.
//!
//! After ELF gABI, "Program Header", and SEGGER RTT's control block. The image of docs/FORMATS.md, "Memory images", gives
//! `00 01 7e 00` of its up-buffer 0, bare and in a core file (elf_tests, `dumps`).
#![tactic(auto)]

mod calls;
mod channel;
mod elf;
mod fault;
mod header;
mod ids;
mod laws;
mod segment;
mod spans;

pub use calls::{dumped, segments};
pub use fault::{Cause, DumpFault, Flaw};
pub use laws::refusals_are_checked;
pub use segment::Segment;

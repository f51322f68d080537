//! The outside as traits: a source of bytes, a sink and a shelf of files, each with a count of its
//! faults, with forms in memory for tests and with adapters over std.
//!
//! They stand for std's `Read`, `Write` and files. So a `MemSource` of `hello` whose read 0 fails refuses the first `read_all`
//! with one fault counted, and gives `hello` to the next (ring_tests, `streams`).
#![tactic(auto)]

mod adapters;
mod bytes;
mod calls;
mod fault;
mod mem_shelf;
mod memory;
mod shelf;
mod sink;
mod source;

pub use adapters::{DirShelf, StdSink, StdSource};
pub use bytes::Bytes;
pub use calls::{ReadFault, fetch_all, read_all, write_all};
pub use fault::{Failed, Memory};
pub use mem_shelf::MemShelf;
pub use memory::{MemSink, MemSource, RepeatSource};
pub use shelf::Shelf;
pub use sink::Sink;
pub use source::Source;

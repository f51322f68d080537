//! The rings that carry bytes from a device to its host.
//!
//! A ring has two ends. The upper end belongs to the one that writes: it looks how much room there is, puts bytes
//! and publishes them. The lower end belongs to the one that reads: it takes published bytes and so gives their
//! places back. [`UpEnd`], [`DownEnd`] and [`Channel`] say what each call does, whatever the ring is made of.
//!
//! [`PlainRing`] is a ring of one owner whose bytes lie in a memory image, behind an RTT control block. [`QueueRing`] and
//! [`WordRing`] are rings whose ends go to two threads, over a queue and over a table of atomic words.
//!
//! The offsets are those of an up-buffer (SEGGER RTT): equal ones mean that nothing waits, so a ring of 16 has room for 15
//! bytes, whatever it is made of (ring_tests, `rings`).
#![tactic(auto)]

mod ends;
mod image;
mod journal;
mod plain;
mod queue;
mod settled;
mod word;

pub use ends::{Channel, DownEnd, RingFault, UpEnd};
pub use image::IMAGE_BASE;
pub use plain::PlainRing;
pub use queue::{QueueDown, QueueRing, QueueUp};
pub use settled::{RingKind, Settled};
pub use word::{WordDown, WordRing, WordUp};

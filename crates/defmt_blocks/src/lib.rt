//! Blocks of a recording are decoded side by side, and their lines written in order.
//!
//! `decode` does what that of defmt_recording does, by its very clauses. With `--jobs` it reads blocks of 256 KiB ahead, and threads that
//! live as long as the recording is read hear them. What a block tells depends on the bytes before it in two ways alone: a piece must
//! begin where the block does, and in front of its first line stands how many frames are missing since the line before. So each
//! block is heard by a host of its own, as if a zero stood in front, and behind the line whose place the host finds in the first
//! kibibyte of the block. Where the lines before came to another place, or a block wasn't heard, its bytes are heard again, in
//! their turn: so a guess costs time at most.
//!
//! After docs/USER-GUIDE.md, "Words". So a recording of frames whose places are 1, 2, 5 and 6 has `-- gap 2` before its third line,
//! wherever it is cut (program_tests, `blocks`).
#![tactic(auto)]

mod ahead;
mod beside;
mod blocks;
mod cuts;
mod decoding;
mod joining;
mod lines;
mod part;
mod pool;
mod sent;
mod side;

pub use cuts::Cuts;
pub use decoding::{decode, decode_cut};

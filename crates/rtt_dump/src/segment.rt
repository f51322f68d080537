//! A part of a target's memory.
use dl_io::Bytes;

/// A part of a target's memory.
#[derive(Drop)]
pub struct Segment {
    /// The address of the first byte.
    pub base: u32,
    /// The bytes, as they stand in the file.
    pub bytes: Bytes,
}

//! Where a block is cut.
ghost use Rattle.std.specs.Prelude.{◌≤◌, length};

use memchr::{memchr, memrchr};

/// How a recording is cut into blocks.
#[derive(Clone, Copy)]
pub struct Cuts {
    /// So many bytes are read as one block.
    pub block: usize,
    /// So many bytes of a block, and those up to the next zero, tell behind which line the others stand.
    pub before: usize,
}

impl Cuts {
    /// The place behind the first zero of a block that has so many bytes before it, or the end where there is none.
    pub(crate) fn start(&self, part: &[u8]) -> usize
        ensures { result ≤ length part.now }
    {
        if self.before >= part.len() {
            return part.len();
        }
        match memchr(0, &part[self.before..]) {
            Some(at) => self.before + at + 1,
            None => part.len(),
        }
    }
}

/// The place behind the last zero of a block, or its start where there is none.
pub(crate) fn end_of(part: &[u8]) -> usize
    ensures { result ≤ length part.now }
{
    match memrchr(0, part) {
        Some(at) => at + 1,
        None => 0,
    }
}

//! One block that was read.
ghost use Rattle.std.specs.Prelude.{◌≤◌, ◌<◌, length};

/// The bytes at the front of a buffer, of which there is at least one.
#[derive(Drop)]
pub(crate) struct Part {
    pub(crate) buf: Vec<u8>,
    pub(crate) count: usize,
    ghost within: { count ≤ length buf.items },
    ghost some: { 0 < count },
}

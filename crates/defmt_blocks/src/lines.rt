//! The lines of a block, until they are written.
ghost use Rattle.std.specs.Prelude.{◌≡◌, [], Some};

use dl_io::{Bytes, Failed, Sink};
use std::alloc::Global;

/// A sink that keeps what it is given. It fails only where memory is wanting.
#[derive(Drop)]
pub(crate) struct Lines {
    pub(crate) text: Bytes,
    faults: u64,
}

impl Lines {
    /// No lines.
    pub(crate) fn new(alloc: Global) -> Self
        ensures { result.text.items ≡ [] }
    {
        Lines {
            text: Bytes::new(alloc),
            faults: 0,
        }
    }

    /// No lines again, with the room that there is.
    pub(crate) fn clear(&mut self)
        ensures { self.new.text.items ≡ [] }
    {
        self.text.clear();
    }
}

impl Sink for Lines {
    ghost held = { λ lines. Some lines.text.items };

    ghost faults = { λ lines. lines.faults };

    fn write(&mut self, buf: &[u8]) -> Result<usize, Failed> {
        match self.text.extend_from_slice(buf) {
            Ok(()) => Ok(buf.len()),
            Err(_) => {
                self.faults = self.faults.saturating_add(1);
                Err(Failed)
            }
        }
    }

    fn faults(&self) -> u64 {
        self.faults
    }
}

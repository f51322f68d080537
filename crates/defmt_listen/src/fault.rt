//! Why a recording is not heard to its end.

use dl_io::Memory;

/// Why a recording wasn't heard to its end.
#[derive(Clone, Copy, Debug)]
pub enum ListenFault {
    /// The source failed. The lines of all that is begun in the bytes taken were written.
    Source,
    /// The sink failed. A front of the recording's lines was written.
    Sink,
    /// The recording has more than 268,435,456 bytes. The lines of all that is begun in its first 268,435,456 bytes were
    /// written.
    Long,
    /// Want of memory. A front of the recording's lines was written.
    Memory,
}

impl From<Memory> for ListenFault {
    ghost use Rattle.std.specs.Prelude.{◌≡◌};
    ghost use Rattle.defmt_listen.specs.declared.fault.ListenFault.TheVariants.{Memory as OutOfMemory};

    ghost from_gives = { λ _ fault. fault ≡ OutOfMemory };

    fn from(_: Memory) -> Self {
        ListenFault::Memory
    }
}

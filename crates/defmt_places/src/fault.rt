//! Why a text tells no places.
ghost use Rattle.std.specs.Prelude.{◌≡◌};
ghost use Rattle.defmt_places.specs.Places.{cause_number};

use dl_io::Memory as NoMemory;
use std::alloc::{AllocError, AllocFailed};

/// Why a text tells no places.
#[derive(Clone, Copy, Debug)]
pub enum PlacesFault {
    /// The first line that is refused, counted from 1, and the number of its [`Cause`].
    Refused { line: u32, cause: u8 },
    /// Want of memory.
    Memory,
}

/// Why a line is refused. The causes are looked at in this order.
#[derive(Clone, Copy)]
pub enum Cause {
    /// 1: it isn't UTF-8, or has another form.
    Line,
    /// 2: its index is above 65,535.
    Index,
    /// 3: an earlier line has its index.
    Double,
}

impl Cause {
    /// The number of the cause, from 1 to 3.
    pub fn number(self) -> u8
        ensures { result ≡ cause_number self }
    {
        match self {
            Cause::Line => 1,
            Cause::Index => 2,
            Cause::Double => 3,
        }
    }
}

// Why a line isn't taken.
#[derive(Clone, Copy)]
pub(crate) enum LineFault {
    Refused(Cause),
    Memory,
}

impl From<NoMemory> for LineFault {
    ghost use Rattle.defmt_places.specs.declared.fault.LineFault.TheVariants.{Memory as OutOfMemory};

    ghost from_gives = { λ _ e. e ≡ OutOfMemory };

    fn from(_: NoMemory) -> Self {
        LineFault::Memory
    }
}

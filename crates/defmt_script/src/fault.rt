//! Why a script isn't read.

use defmt_lines::Cause;
use dl_io::Memory;

/// Why a text isn't read as a script.
#[derive(Clone, Copy, Debug)]
pub enum ScriptFault {
    /// The first line that is refused, from 1, the number of its cause from 1 to 19 (`defmt_lines::Cause`), and the number
    /// of the arguments' or the text's own cause, or 0.
    Refused { line: u32, cause: u8, inner: u8 },
    /// Want of memory.
    Memory,
}

impl From<Memory> for ScriptFault {
    ghost use Rattle.std.specs.Prelude.{◌≡◌};
    ghost use Rattle.defmt_script.specs.declared.fault.ScriptFault.TheVariants.{Memory as OutOfMemory};

    ghost from_gives = { λ _ e. e ≡ OutOfMemory };

    fn from(_: Memory) -> Self {
        ScriptFault::Memory
    }
}

/// Why a line isn't taken.
#[derive(Clone, Copy)]
pub enum LineFault {
    /// It is refused.
    Refused(Cause),
    /// Want of memory.
    Memory,
}

impl From<Memory> for LineFault {
    ghost use Rattle.std.specs.Prelude.{◌≡◌};
    ghost use Rattle.defmt_script.specs.declared.fault.LineFault.TheVariants.{Memory as OutOfMemory};

    ghost from_gives = { λ _ e. e ≡ OutOfMemory };

    fn from(_: Memory) -> Self {
        LineFault::Memory
    }
}

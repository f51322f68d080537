//! Why bytes weren't read.
ghost use Rattle.std.specs.Prelude.{◌≡◌};
ghost use Rattle.rtt_terminal.specs.Cause.{number_of};
ghost use Rattle.rtt_terminal.specs.declared.fault.TermFault.TheVariants.{Memory as OutOfMemory};

use dl_io::Memory;

/// Why bytes weren't read.
#[derive(Clone, Copy, Debug)]
pub enum TermFault {
    /// The first thing, from left to right, that isn't right: the number of its [`Cause`], and its place in bytes from
    /// the start.
    Refused { cause: u8, place: u32 },
    /// Memory ran out.
    Memory,
}

/// What isn't right, in this project's own numbering.
#[derive(Clone, Copy)]
pub enum Cause {
    /// 1: an `ff` stands where a line may begin, and no digit of a terminal follows it (its place).
    Switch,
    /// 2: a line isn't UTF-8 (the place of its first byte).
    Text,
    /// 3: the bytes end before a line does (the place of its first byte).
    Cut,
}

impl Cause {
    /// The number of the cause, from 1 to 3. Takes no memory.
    pub fn number(self) -> u8
        ensures { result ≡ number_of self }
    {
        match self {
            Cause::Switch => 1,
            Cause::Text => 2,
            Cause::Cut => 3,
        }
    }
}

impl From<Memory> for TermFault {
    ghost from_gives = { λ _ e. e ≡ OutOfMemory };

    fn from(_: Memory) -> Self {
        TermFault::Memory
    }
}

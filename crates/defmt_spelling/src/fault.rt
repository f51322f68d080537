//! Why arguments aren't read.
ghost use Rattle.std.specs.Prelude.{◌≡◌};
ghost use Rattle.defmt_spelling.specs.Reading.{cause_number};

use dl_io::Memory;

/// Why arguments weren't read.
#[derive(Clone, Copy, Debug, Drop)]
pub enum ArgFault {
    /// The first of these causes from left to right: 1 a text at a value's place that spells no value; 2 fewer or
    /// more values than positions; 3 a value of another kind; 4 a number outside its kind, bits outside their window,
    /// an array of another length, a variant that isn't there, is missing or is given to no enum; 5 a name or an
    /// index that isn't in the table, or whose tag doesn't suit, and the index 0 of an element of a sequence; 6 a
    /// Format value at depth 17; 7 the weights pass 8,192; 8 an entry whose text was refused.
    Refused { cause: u8 },
    /// Want of memory.
    Memory,
}

impl From<Memory> for ArgFault {
    ghost use Rattle.std.specs.Prelude.{◌≡◌};
    ghost use Rattle.defmt_spelling.specs.declared.fault.ArgFault.TheVariants.{Memory as OutOfMemory};

    ghost from_gives = { λ _ e. e ≡ OutOfMemory };

    fn from(_: Memory) -> ArgFault {
        ArgFault::Memory
    }
}

impl From<u8> for ArgFault {
    ghost use Rattle.std.specs.Prelude.{◌≡◌};
    ghost use Rattle.defmt_spelling.specs.declared.fault.ArgFault.TheVariants.{Refused};

    ghost from_gives = { λ c e. e ≡ Refused c };

    fn from(cause: u8) -> ArgFault {
        ArgFault::Refused { cause }
    }
}

impl From<Cause> for ArgFault {
    ghost use Rattle.std.specs.Prelude.{◌≡◌};
    ghost use Rattle.defmt_spelling.specs.declared.fault.ArgFault.TheVariants.{Refused};
    ghost use Rattle.defmt_spelling.specs.Reading.{cause_number};

    ghost from_gives = { λ c e. e ≡ Refused (cause_number c) };

    fn from(cause: Cause) -> ArgFault {
        ArgFault::Refused {
            cause: cause.number(),
        }
    }
}

#[derive(Clone, Copy)]
pub enum Cause {
    Syntax,
    Count,
    Kind,
    Range,
    NoEntry,
    Deep,
    Many,
}

impl Cause {
    pub fn number(self) -> u8
        ensures { result ≡ cause_number self }
    {
        match self {
            Cause::Syntax => 1,
            Cause::Count => 2,
            Cause::Kind => 3,
            Cause::Range => 4,
            Cause::NoEntry => 5,
            Cause::Deep => 6,
            Cause::Many => 7,
        }
    }
}

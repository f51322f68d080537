//! Why a file names no table.

ghost use Rattle.std.specs.Prelude.{◌≡◌};
ghost use Rattle.elf_table.specs.Names.{cause_number};

use elf_section::Part;

/// Why a file names no table.
#[derive(Clone, Copy, Debug, Drop)]
pub enum LoadFault {
    /// The file is refused, as `elf_section::read_symbols` refuses it: with a cause from 1 to 9, a part and a place.
    Elf { cause: u8, part: Part, place: u32 },
    /// A symbol is refused, the one at this place in the list of `elf_section::read_symbols`. The causes, of which the
    /// first counts: 3 its name reads as no entry, 6 its value is above 65,535, 2 an earlier symbol has its value, 4 its
    /// text has more than 4,096 bytes, 5 it is a second timestamp. The cause 3 comes in the base language alone.
    Names { cause: u8, symbol: u32 },
    /// Want of memory.
    Memory,
}

/// Why a symbol is refused.
pub enum Cause {
    Name,
    Index,
    /// A cause of the table.
    Insert(u8),
}

impl Cause {
    pub fn number(self) -> u8
        ensures { result ≡ cause_number self }
    {
        match self {
            Cause::Name => 3,
            Cause::Index => 6,
            Cause::Insert(cause) => cause,
        }
    }
}

/// Why a symbol wasn't put into the table.
pub enum StepFault {
    Refused { cause: Cause },
    Memory,
}

//! Why a file is refused.

ghost use Rattle.std.specs.Prelude.{◌≡◌};
ghost use Rattle.elf_section.specs.Checks.{number_of};

use dl_io::Memory;
use std::alloc::AllocError;

/// Which part of a file isn't where it ought to be.
#[derive(Clone, Copy, Debug, Drop)]
pub enum Part {
    /// No part: the refusal has another cause.
    Nothing,
    /// The ELF header (place 0), or its size of section headers (place 1).
    Header,
    /// The table of section headers.
    Sections,
    /// The section of the sections' names.
    Names,
    /// The name of the section with this number.
    SectionName,
    /// The symbol table in the section with this number.
    Symbols,
    /// The string table of the symbols, in the section with this number.
    Strings,
    /// The name of the symbol with this number.
    SymbolName,
}

/// Why a file is refused.
#[derive(Clone, Copy, Drop)]
pub enum Cause {
    Magic,
    Class,
    Order,
    Bounds,
    NoSection,
    NoSymbols,
    Version,
    Encoding,
    Profile,
}

impl Part {
    // The refusal of a file in which this part isn't where it ought to be.
    pub(crate) fn outside(self, place: u32) -> Fault
        ensures { result ≡ record { cause = Cause.Bounds; part = self; place = place } }
    {
        Fault {
            cause: Cause::Bounds,
            part: self,
            place,
        }
    }
}

impl Cause {
    // The refusal with this cause, which has no place.
    pub(crate) fn alone(self) -> Fault
        ensures { result ≡ record { cause = self; part = Part.Nothing; place = 0 } }
    {
        Fault {
            cause: self,
            part: Part::Nothing,
            place: 0,
        }
    }

    pub fn number(self) -> u8
        ensures { result ≡ number_of self }
    {
        match self {
            Cause::Magic => 1,
            Cause::Class => 2,
            Cause::Order => 3,
            Cause::Bounds => 4,
            Cause::NoSection => 5,
            Cause::NoSymbols => 6,
            Cause::Version => 7,
            Cause::Encoding => 8,
            Cause::Profile => 9,
        }
    }
}

/// A refusal.
#[derive(Clone, Copy, Drop)]
pub struct Fault {
    pub cause: Cause,
    pub part: Part,
    pub place: u32,
}

/// Why a file gives no symbols and no profile.
#[derive(Clone, Copy, Debug, Drop)]
pub enum ElfFault {
    /// The file is refused: 1 no ELF file, 2 neither ELF32 nor ELF64, 3 not little-endian, 4 a part
    /// that doesn't lie in the file, 5 no section `.defmt`, 6 no symbol table, 7 another wire
    /// version than 4, 8 another encoding than rzCOBS, 9 another profile than 1 and 2, or both.
    Refused { cause: u8, part: Part, place: u32 },
    /// Want of memory.
    Memory,
}

impl From<AllocError> for ElfFault {
    ghost use Rattle.std.specs.Prelude.{◌≡◌};
    ghost use Rattle.elf_section.specs.declared.fault.ElfFault.TheVariants.{Memory as OutOfMemory};

    ghost from_gives = { λ _ e. e ≡ OutOfMemory };

    fn from(_: AllocError) -> ElfFault {
        ElfFault::Memory
    }
}

impl From<Memory> for ElfFault {
    ghost use Rattle.std.specs.Prelude.{◌≡◌};
    ghost use Rattle.elf_section.specs.declared.fault.ElfFault.TheVariants.{Memory as OutOfMemory};

    ghost from_gives = { λ _ e. e ≡ OutOfMemory };

    fn from(_: Memory) -> ElfFault {
        ElfFault::Memory
    }
}

impl From<Fault> for ElfFault {
    ghost use Rattle.std.specs.Prelude.{◌≡◌};
    ghost use Rattle.elf_section.specs.Checks.{number_of};
    ghost use Rattle.elf_section.specs.declared.fault.ElfFault.TheVariants.{Refused as WasRefused};

    ghost from_gives = { λ f e. e ≡ WasRefused (number_of f.cause) f.part f.place };

    fn from(fault: Fault) -> ElfFault {
        ElfFault::Refused {
            cause: fault.cause.number(),
            part: fault.part,
            place: fault.place,
        }
    }
}

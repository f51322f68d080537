//! Why an image gives no segments, or no bytes.
use dl_io::Memory as NoMemory;
use rtt_control::ControlFault;
use std::alloc::AllocFailed;

/// Why an image gives no segments, or no bytes.
#[derive(Clone, Copy, Debug)]
pub enum DumpFault {
    /// The first check that doesn't hold. `cause` is the number of a [`Cause`], and `place` is what
    /// that cause says.
    Refused { cause: u8, place: u32 },
    /// Want of memory.
    Memory,
}

/// What is wrong with an image, or with the channel that is asked for.
#[derive(Clone, Copy)]
pub enum Cause {
    /// 1: no segment holds the ID of a control block (place 0).
    NoId,
    /// 2: the control block passes the end of its segment (the block's place in the segment), or a
    /// buffer of a size above 0 doesn't lie in that segment (the descriptor's number, up-descriptors
    /// first).
    Bounds,
    /// 3: WrOff or RdOff of a descriptor is at or above a size above 0, or isn't 0 for the size 0 (the
    /// descriptor's number).
    Offset,
    /// 4: bits 0 and 1 of the flags are 3, which is no mode (the descriptor's number).
    Flags,
    /// 5: a second ID stands in a segment (that segment's number, from 0).
    TwoIds,
    /// 6: the block has no up-buffer with this number (that number).
    NoChannel,
    /// 7: the image begins as an ELF file and isn't a core file that can be read (the number of its
    /// [`Flaw`]).
    Core,
    /// 8: an image that isn't an ELF file passes the address 4,294,967,296 (place 0).
    Base,
}

impl Cause {
    ghost use Rattle.std.specs.Prelude.{◌≡◌};
    ghost use Rattle.rtt_dump.specs.Faults.{number_of, refused};

    /// The number of the cause, from 1 to 8.
    pub fn number(self) -> u8
        ensures { result ≡ number_of self }
    {
        match self {
            Cause::NoId => 1,
            Cause::Bounds => 2,
            Cause::Offset => 3,
            Cause::Flags => 4,
            Cause::TwoIds => 5,
            Cause::NoChannel => 6,
            Cause::Core => 7,
            Cause::Base => 8,
        }
    }

    // The refusal with this cause.
    pub(crate) fn at(self, place: u32) -> DumpFault
        ensures { result ≡ refused self place }
    {
        DumpFault::Refused {
            cause: self.number(),
            place,
        }
    }
}

/// What is wrong with an ELF core file (ELF gABI, "ELF Header" and "Program Header"), in the order of
/// the checks.
#[derive(Clone, Copy)]
pub enum Flaw {
    /// 1: byte 4, EI_CLASS, is missing, or neither ELFCLASS32 (1) nor ELFCLASS64 (2).
    Class,
    /// 2: byte 5, EI_DATA, is missing or isn't ELFDATA2LSB (1).
    Order,
    /// 3: the ELF header, of 52 or 64 bytes, passes the file's end.
    Header,
    /// 4: `e_type` isn't ET_CORE (4).
    Kind,
    /// 5: `e_phentsize` isn't the size of a program header, 32 or 56 bytes.
    EntrySize,
    /// 6: the program headers pass the file's end.
    ProgramHeaders,
    /// 7: the bytes of a segment pass the file's end.
    Bytes,
    /// 8: the addresses of a segment's bytes pass 4,294,967,296.
    Addresses,
}

impl Flaw {
    ghost use Rattle.std.specs.Prelude.{◌≡◌};
    ghost use Rattle.rtt_dump.specs.Faults.{number_of_flaw};

    /// The number of the flaw, from 1 to 8.
    pub fn number(self) -> u8
        ensures { result ≡ number_of_flaw self }
    {
        match self {
            Flaw::Class => 1,
            Flaw::Order => 2,
            Flaw::Header => 3,
            Flaw::Kind => 4,
            Flaw::EntrySize => 5,
            Flaw::ProgramHeaders => 6,
            Flaw::Bytes => 7,
            Flaw::Addresses => 8,
        }
    }
}

impl From<Flaw> for DumpFault {
    ghost use Rattle.std.specs.Prelude.{◌≡◌};
    ghost use Rattle.rtt_dump.specs.Faults.{flawed};

    ghost from_gives = { λ flaw e. e ≡ flawed flaw };

    fn from(flaw: Flaw) -> Self {
        Cause::Core.at(u32::from(flaw.number()))
    }
}

impl From<ControlFault> for DumpFault {
    ghost use Rattle.std.specs.Prelude.{◌≡◌};
    ghost use Rattle.rtt_dump.specs.Faults.{of_block};

    ghost from_gives = { λ fault e. e ≡ of_block fault };

    fn from(fault: ControlFault) -> Self {
        match fault {
            ControlFault::Refused { cause, place } => DumpFault::Refused { cause, place },
            ControlFault::Memory => DumpFault::Memory,
        }
    }
}

impl From<NoMemory> for DumpFault {
    ghost use Rattle.std.specs.Prelude.{◌≡◌};
    ghost use Rattle.rtt_dump.specs.declared.fault.DumpFault.TheVariants.{Memory as OutOfMemory};

    ghost from_gives = { λ _ e. e ≡ OutOfMemory };

    fn from(_: NoMemory) -> Self {
        DumpFault::Memory
    }
}

impl<T: Drop> From<AllocFailed<T>> for DumpFault {
    ghost use Rattle.std.specs.Prelude.{◌≡◌};
    ghost use Rattle.rtt_dump.specs.declared.fault.DumpFault.TheVariants.{Memory as OutOfMemory};

    ghost from_gives = { λ _ e. e ≡ OutOfMemory };

    fn from(_: AllocFailed<T>) -> Self {
        DumpFault::Memory
    }
}

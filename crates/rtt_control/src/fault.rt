//! Why an image or a block is refused.
use dl_io::Memory as NoMemory;

/// Why a call refuses.
#[derive(Clone, Copy, Debug)]
pub enum ControlFault {
    /// The first check that doesn't hold. `cause` is the number of a [`Cause`], and `place` is what
    /// that cause says.
    Refused { cause: u8, place: u32 },
    /// Want of memory.
    Memory,
}

/// What is wrong with an image or a block.
#[derive(Clone, Copy)]
pub enum Cause {
    /// 1: `find` found no ID (place 0), or none stands where `read` looks (that place).
    NoId,
    /// 2: the block passes the image's end (the block's place), or a buffer of a size above 0 doesn't
    /// lie in the image (the descriptor's number, up-descriptors first).
    Bounds,
    /// 3: WrOff or RdOff is at or above a size above 0, or isn't 0 for the size 0 (the descriptor's
    /// number).
    Offset,
    /// 4: bits 0 and 1 of the flags are 3, which is no mode (the descriptor's number).
    Flags,
    /// 5: `find` found a second ID (the second's place).
    TwoIds,
}

impl Cause {
    ghost use Rattle.std.specs.Prelude.{◌≡◌};
    ghost use Rattle.rtt_control.specs.Checks.{number_of, refused};

    /// The number of the cause, from 1 to 5.
    pub fn number(self) -> u8
        ensures { result ≡ number_of self }
    {
        match self {
            Cause::NoId => 1,
            Cause::Bounds => 2,
            Cause::Offset => 3,
            Cause::Flags => 4,
            Cause::TwoIds => 5,
        }
    }

    // The refusal with this cause.
    pub(crate) fn at(self, place: u32) -> ControlFault
        ensures { result ≡ refused self place }
    {
        ControlFault::Refused {
            cause: self.number(),
            place,
        }
    }
}

impl From<NoMemory> for ControlFault {
    ghost use Rattle.std.specs.Prelude.{◌≡◌};
    ghost use Rattle.rtt_control.specs.declared.fault.ControlFault.TheVariants.{Memory as OutOfMemory};

    ghost from_gives = { λ _ e. e ≡ OutOfMemory };

    fn from(_: NoMemory) -> Self {
        ControlFault::Memory
    }
}

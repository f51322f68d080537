//! Why a piece gives no line: the numbers and the names of its events, and why bytes are no message.
ghost use Rattle.std.specs.Prelude.{◌≡◌};
ghost use Rattle.defmt_encode.specs.Cause.{cause_number, fault_name};

use dl_io::Memory;

/// The number of the event of a piece that is no code.
pub const COBS: u8 = 1;

// The numbers of those of a piece whose bytes are no message, one for each `Cause`.
const NO_ENTRY: u8 = 2;

const TAG: u8 = 3;

const UNSUPPORTED: u8 = 4;

const SHORT: u8 = 5;

const BAD_BOOL: u8 = 6;

const BAD_CHAR: u8 = 7;

const BAD_TEXT: u8 = 8;

const BAD_VARIANT: u8 = 9;

const DEEP: u8 = 10;

const TRAILING: u8 = 11;

const MANY: u8 = 12;

/// The number of the event of a piece that has more than 65,536 bytes.
pub const LONG: u8 = 13;

/// The number of the event of a piece whose stamp or statement has a text of more than 65,536 bytes.
pub const WIDE: u8 = 14;

/// The name of an event by its number. A number that no event has gives the empty text. Takes no memory.
pub fn fault_name(number: u8) -> &'static str
    ensures { result.now ≡ fault_name number }
{
    match number {
        COBS => "Cobs",
        NO_ENTRY => "NoEntry",
        TAG => "Tag",
        UNSUPPORTED => "Unsupported",
        SHORT => "Short",
        BAD_BOOL => "BadBool",
        BAD_CHAR => "BadChar",
        BAD_TEXT => "BadText",
        BAD_VARIANT => "BadVariant",
        DEEP => "Deep",
        TRAILING => "Trailing",
        MANY => "Many",
        LONG => "Long",
        WIDE => "Wide",
        _ => "",
    }
}

/// Why bytes are no message, in the order of the events' numbers.
#[derive(Clone, Copy)]
pub enum Cause {
    /// An index isn't in the table.
    NoEntry,
    /// An entry's tag doesn't suit.
    Tag,
    /// An entry's tag is unknown, or its text was refused.
    Unsupported,
    /// The bytes end within a field.
    Short,
    /// A truth value that is neither 0 nor 1.
    BadBool,
    /// A number that is no character.
    BadChar,
    /// A text that isn't UTF-8.
    BadText,
    /// A variant that isn't there.
    BadVariant,
    /// A Format value at depth 17.
    Deep,
    /// Something else than at most six zeros behind the last argument.
    Trailing,
    /// The weights of the Format values pass 8,192.
    Many,
}

impl Cause {
    /// The number of the event. Takes no memory.
    pub fn number(self) -> u8
        ensures { result ≡ cause_number self }
    {
        match self {
            Cause::NoEntry => NO_ENTRY,
            Cause::Tag => TAG,
            Cause::Unsupported => UNSUPPORTED,
            Cause::Short => SHORT,
            Cause::BadBool => BAD_BOOL,
            Cause::BadChar => BAD_CHAR,
            Cause::BadText => BAD_TEXT,
            Cause::BadVariant => BAD_VARIANT,
            Cause::Deep => DEEP,
            Cause::Trailing => TRAILING,
            Cause::Many => MANY,
        }
    }
}

/// Why nothing is read: a cause that stands in the bytes, or want of memory.
#[derive(Clone, Copy)]
pub enum Fault {
    Bad(Cause),
    Memory,
}

impl From<Cause> for Fault {
    ghost use Rattle.std.specs.Prelude.{◌≡◌};
    ghost use Rattle.defmt_encode.specs.declared.cause.Fault.TheVariants.{Bad};

    ghost from_gives = { λ c e. e ≡ Bad c };

    fn from(cause: Cause) -> Fault {
        Fault::Bad(cause)
    }
}

impl From<Memory> for Fault {
    ghost use Rattle.std.specs.Prelude.{◌≡◌};
    ghost use Rattle.defmt_encode.specs.declared.cause.Fault.TheVariants.{Memory as OutOfMemory};

    ghost from_gives = { λ _ e. e ≡ OutOfMemory };

    fn from(_: Memory) -> Fault {
        Fault::Memory
    }
}

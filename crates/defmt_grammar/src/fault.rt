//! Why a text is refused.

ghost use Rattle.std.specs.Prelude.{◌≡◌};
ghost use Rattle.defmt_grammar.specs.Fault.{cause_number};
ghost use Rattle.defmt_grammar.specs.Language.{language_of, is_lenient};
ghost use Rattle.defmt_grammar.specs.declared.fault.GrammarFault.TheVariants.{Memory as MemoryFault};

use crate::language::Language;
use std::alloc::{AllocError, AllocFailed};

/// The language of a text, and what becomes of a hint that isn't known. The crate defmt-parser has
/// two modes for the latter, the second under the name `ForwardsCompatible`.
#[derive(Clone, Copy)]
pub enum Mode {
    /// The base language; such a hint is refused.
    Strict,
    /// The base language; such a hint is read as `Hint::Plain`.
    Lenient,
    /// The full language; such a hint is refused.
    StrictFull,
    /// The full language; such a hint is read as `Hint::Plain`.
    LenientFull,
}

impl Mode {
    // The language of the mode.
    pub(crate) fn language(self) -> Language
        ensures { result ≡ language_of self }
    {
        match self {
            Mode::Strict | Mode::Lenient => Language::Base,
            Mode::StrictFull | Mode::LenientFull => Language::Full,
        }
    }

    // Whether a hint that isn't known is read as `Hint::Plain`.
    pub(crate) fn is_lenient(self) -> bool
        ensures { result ≡ is_lenient self }
    {
        match self {
            Mode::Strict | Mode::StrictFull => false,
            Mode::Lenient | Mode::LenientFull => true,
        }
    }
}

/// Why a text is refused, in this project's own numbering.
#[derive(Clone, Copy)]
pub enum Cause {
    /// A brace without its partner, or a parameter that isn't a position, a kind and a hint.
    Brace,
    /// No kind is spelled so.
    Kind,
    /// No hint is spelled so.
    Hint,
    /// The numbers of a kind are out of range.
    Range,
    /// A position is used with kinds that don't go together.
    Conflict,
    /// A position below the greatest isn't used.
    Gap,
    /// A position above 15.
    Many,
    /// A kind of floating point, which the base language leaves out.
    Float,
}

impl Cause {
    /// The number of the cause in `GrammarFault::Refused`, from 1 to 8.
    pub fn number(self) -> u8
        ensures { result ≡ cause_number self }
    {
        match self {
            Cause::Brace => 1,
            Cause::Kind => 2,
            Cause::Hint => 3,
            Cause::Range => 4,
            Cause::Conflict => 5,
            Cause::Gap => 6,
            Cause::Many => 7,
            Cause::Float => 8,
        }
    }
}

/// A cause, and its place in bytes.
#[derive(Clone, Copy)]
pub struct Fault {
    pub cause: Cause,
    pub at: usize,
}

/// Want of memory.
#[derive(Clone, Copy, Debug)]
pub struct Memory;

impl From<AllocError> for Memory {
    fn from(_: AllocError) -> Self {
        Memory
    }
}

impl<T: Drop> From<AllocFailed<T>> for Memory {
    fn from(_: AllocFailed<T>) -> Self {
        Memory
    }
}

/// Why a text was not parsed.
#[derive(Clone, Copy, Debug)]
pub enum GrammarFault {
    /// The text is no format string: the number of the cause, as `Cause::number` gives it, and its
    /// place in bytes from the text's start.
    Refused { cause: u8, at: u32 },
    /// Memory ran out.
    Memory,
}

impl From<Memory> for GrammarFault {
    ghost from_gives = { λ _ e. e ≡ MemoryFault };

    fn from(_: Memory) -> Self {
        GrammarFault::Memory
    }
}

impl From<AllocError> for GrammarFault {
    ghost from_gives = { λ _ e. e ≡ MemoryFault };

    fn from(_: AllocError) -> Self {
        GrammarFault::Memory
    }
}

impl<T: Drop> From<AllocFailed<T>> for GrammarFault {
    ghost from_gives = { λ _ e. e ≡ MemoryFault };

    fn from(_: AllocFailed<T>) -> Self {
        GrammarFault::Memory
    }
}

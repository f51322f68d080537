//! Languages of format strings.

ghost use Rattle.std.specs.Prelude.{◌≡◌};
ghost use Rattle.defmt_grammar.specs.Language.{strict_of, lenient_of};

use crate::fault::Mode;

/// The language of format strings.
#[derive(Clone, Copy, Debug, PartialEq, Eq)]
pub enum Language {
    /// Without floats, foreign texts and sequences, and without hints of dates, clocks and padding.
    Base,
    /// All kinds and hints of defmt 0.3.
    Full,
}

impl Language {
    /// The mode of this language that refuses a hint that isn't known.
    pub fn strict(self) -> Mode
        ensures { result ≡ strict_of self }
    {
        match self {
            Language::Base => Mode::Strict,
            Language::Full => Mode::StrictFull,
        }
    }

    /// The mode of this language that reads a hint that isn't known as `Hint::Plain`.
    pub fn lenient(self) -> Mode
        ensures { result ≡ lenient_of self }
    {
        match self {
            Language::Base => Mode::Lenient,
            Language::Full => Mode::LenientFull,
        }
    }
}

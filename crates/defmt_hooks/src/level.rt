//! Levels, and the floors that are set for them.
ghost use Rattle.std.specs.Prelude.{◌≡◌};
ghost use Rattle.defmt_hooks.specs.Kept.{rank, passes};
ghost use Rattle.defmt_hooks.specs.Levels.{level_named, level_of};
ghost use Rattle.defmt_hooks.specs.Spelling.{word_of};
ghost use Rattle.defmt_hooks.specs.declared.level.Floor.TheVariants.{At};

use defmt_intern::Tag;

/// The level of a message, from the least to the most urgent (defmt book, "Logging levels").
#[derive(Clone, Copy, Debug)]
pub enum Level {
    /// Each step of the program.
    Trace,
    /// What helps to find a fault.
    Debug,
    /// What is worth knowing.
    Info,
    /// What may be wrong.
    Warn,
    /// What is wrong.
    Error,
}

/// The least level that is kept.
#[derive(Clone, Copy)]
pub enum Floor {
    /// This level and each later one are kept.
    At(Level),
    /// No level is kept.
    Off,
}

impl Level {
    /// The word of a level: `trace`, `debug`, `info`, `warn` or `error`.
    pub fn word(self) -> &'static str
        ensures { result.now ≡ word_of (At self) }
    {
        match self {
            Level::Trace => "trace",
            Level::Debug => "debug",
            Level::Info => "info",
            Level::Warn => "warn",
            Level::Error => "error",
        }
    }

    /// The place in the order of levels, from 0 for `Trace` to 4 for `Error`.
    pub fn rank(self) -> u8
        ensures { result ≡ rank self }
    {
        match self {
            Level::Trace => 0,
            Level::Debug => 1,
            Level::Info => 2,
            Level::Warn => 3,
            Level::Error => 4,
        }
    }
}

impl Floor {
    /// Whether the floor keeps a level: the level is the floor's or a later one.
    pub fn passes(self, level: Level) -> bool
        ensures { result ≡ passes self level }
    {
        match self {
            Floor::At(least) => least.rank() <= level.rank(),
            Floor::Off => false,
        }
    }
}

/// The level that a word names, `None` for every other text. Takes no memory.
pub fn level_named(word: &str) -> Option<Level>
    ensures { result ≡ level_named word.now }
{
    match word {
        "trace" => Some(Level::Trace),
        "debug" => Some(Level::Debug),
        "info" => Some(Level::Info),
        "warn" => Some(Level::Warn),
        "error" => Some(Level::Error),
        _ => None,
    }
}

/// The level of a tag, `None` where it is no level. Takes no memory.
pub fn level_of(tag: &Tag) -> Option<Level>
    ensures { result ≡ level_of tag.now }
{
    match tag {
        Tag::Trace => Some(Level::Trace),
        Tag::Debug => Some(Level::Debug),
        Tag::Info => Some(Level::Info),
        Tag::Warn => Some(Level::Warn),
        Tag::Error => Some(Level::Error),
        _ => None,
    }
}

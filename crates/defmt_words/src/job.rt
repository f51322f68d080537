//! The commands, and the parameters of each of them.

ghost use Rattle.std.specs.Prelude.{◌≡◌, map};
ghost use Rattle.defmt_words.specs.Words.{command_parameters, no_options};
ghost use Rattle.defmt_words.specs.View.{parameter_view};

use crate::number::{Count, Jobs};
use crate::parameters::{Kind, Parameter};
use crate::style::Style;
use defmt_grammar::{Language, Text};

/// What the words ask for.
#[derive(Drop)]
pub enum Job {
    /// A command on a script.
    Script(ScriptJob),
    /// `decode --table FILE [--places FILE] [--live] [--full] [--jobs N]` with options of printing: the lines of a recording.
    Decode(DecodeOptions),
    /// `dump --table FILE [--places FILE] [--base 0xHEX] [--up N] [--old] [--full]` with options of printing: the lines of an up-buffer
    /// in an image of memory.
    Dump(DumpOptions),
}

/// What is done with a script.
#[derive(Drop)]
pub enum ScriptJob {
    /// `run [--group]` with options of printing: the script is run, and its lines are written.
    Run(RunOptions),
    /// `record`: the script is run, and what was sent is written.
    Record,
    /// `term`: the script is run with its texts for terminals, and its lines and these texts are written.
    Terminals,
    /// `steer`: the script is run under its orders, and its lines and from which turn each order was heard are written.
    Steer,
    /// `table`: the ELF file of its table is written.
    Table,
    /// `print`: the lines of its statements are written.
    Print,
    /// `gen N`: a generated script of so many statements is run, and counts of them are written.
    Generate(Count),
}

/// The options of `run`.
#[derive(Drop)]
pub struct RunOptions {
    /// `--group`: whether the lines are grouped by writer.
    pub group: bool,
    /// What is asked of printing.
    pub style: Style,
}

impl RunOptions {
    /// The options of words that have none: the lines of all writers in one, and all of them, plainly.
    pub fn none() -> RunOptions
        ensures { result ≡ no_options }
    {
        RunOptions {
            group: false,
            style: Style::plain(),
        }
    }
}

/// The options of `decode`.
#[derive(Drop)]
pub struct DecodeOptions {
    /// `--table FILE`: the name of the file that holds the table.
    pub table: Text,
    /// `--full`: the full language of the table, or else the base one.
    pub language: Language,
    /// `--places FILE`: the name of the file that tells where in the sources each statement stands, or else none.
    pub places: Option<Text>,
    /// `--live`: whether a device that runs is read, so that the recording may have up to 2^64 - 2 bytes, and a front and a tail are no
    /// faults.
    pub live: bool,
    /// `--jobs N`: by how many threads parts of the recording are decoded side by side, or else by none.
    pub jobs: Option<Jobs>,
    /// What is asked of printing.
    pub style: Style,
}

/// The options of `dump`.
#[derive(Drop)]
pub struct DumpOptions {
    /// `--table FILE`: the name of the file that holds the table.
    pub table: Text,
    /// `--full`: the full language of the table, or else the base one.
    pub language: Language,
    /// `--places FILE`: the name of the file that tells where in the sources each statement stands, or else none.
    pub places: Option<Text>,
    /// `--base 0xHEX`: the address of the first byte of an image that isn't a core file, or else 0x20000000.
    pub base: u32,
    /// `--up N`: the number of the up-buffer, or else 0.
    pub up: u32,
    /// `--old`: whether all bytes of the buffer are decoded, and not those alone that wait.
    pub old: bool,
    /// What is asked of printing.
    pub style: Style,
}

/// A row a parameter, but of printing.
pub fn command_parameters<'a>() -> [Parameter<'a>; 10]
    ensures { map parameter_view result ≡ command_parameters }
{
    [
        Parameter {
            name: "number",
            kind: Kind::Place,
            taken: &["gen"],
            needed: &["gen"],
        },
        Parameter {
            name: "table",
            kind: Kind::Value,
            taken: &["decode", "dump"],
            needed: &["decode", "dump"],
        },
        Parameter {
            name: "group",
            kind: Kind::Flag,
            taken: &["run"],
            needed: &[],
        },
        Parameter {
            name: "base",
            kind: Kind::Value,
            taken: &["dump"],
            needed: &[],
        },
        Parameter {
            name: "up",
            kind: Kind::Value,
            taken: &["dump"],
            needed: &[],
        },
        Parameter {
            name: "old",
            kind: Kind::Flag,
            taken: &["dump"],
            needed: &[],
        },
        Parameter {
            name: "places",
            kind: Kind::Value,
            taken: &["decode", "dump"],
            needed: &[],
        },
        Parameter {
            name: "live",
            kind: Kind::Flag,
            taken: &["decode"],
            needed: &[],
        },
        Parameter {
            name: "full",
            kind: Kind::Flag,
            taken: &["decode", "dump"],
            needed: &[],
        },
        Parameter {
            name: "jobs",
            kind: Kind::Value,
            taken: &["decode"],
            needed: &[],
        },
    ]
}

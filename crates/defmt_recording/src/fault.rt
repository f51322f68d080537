//! What ends a command that hears a recording.

ghost use Rattle.std.specs.Prelude.{[], ◌≡◌, ◌++◌, codes, IfOk, OnOk};
ghost use Rattle.std.specs.Fmt.{decimal};
ghost use Rattle.defmt_hooks.specs.Spelling.{word_of};
ghost use Rattle.defmt_hooks.specs.declared.level.Floor.TheVariants.{At};
ghost use Rattle.defmt_recording.specs.Status.{status_of, said};

use defmt_grammar::Text;
use defmt_hooks::Level;
use dl_io::Memory;
use elf_section::Part;
use std::alloc::Global;

/// What a call of the program came to.
#[derive(Clone, Copy, Debug)]
pub enum Fault {
    /// All was done. Status 0.
    Fine,
    /// Want of memory. Status 1.
    Memory,
    /// The words ask for nothing. Status 2.
    Words,
    /// The source failed. Status 3.
    Source,
    /// The sink failed. Status 4.
    Sink,
    /// A line of the script is refused: its number from 1, the cause, and the inner number of the cause or 0. Status 5.
    Script { line: u32, cause: u8, inner: u8 },
    /// The file of the table is refused: the cause, the part and its place, as `elf_section::read_symbols` gives them. Status 6.
    Elf { cause: u8, part: Part, place: u32 },
    /// A symbol of the table's file is refused: the cause and its place, as `elf_table::read_table` gives them. Status 6.
    Names { cause: u8, symbol: u32 },
    /// A line of the places' file is refused: its number from 1 and the cause, as `defmt_places::read_places` gives them. Status 6.
    Places { line: u32, cause: u8 },
    /// The shelf failed, or hasn't the file. Status 7.
    Shelf,
    /// The script has more than 4,194,304 bytes, the table's or the places' file more than 67,108,864, or the image or, without
    /// `--live`, the recording more than 268,435,456. Status 8.
    Long,
    /// All was done, and so many events of the recording, or of the bytes of the image, are faults: no lines, and with `--live` no
    /// front and no tail either. Status 9.
    Events { bad: u64 },
    /// The image is refused: the cause and its place, as `rtt_dump::dumped` gives them. Status 10.
    Control { cause: u8, place: u32 },
    /// All was done, and so many lines of this level or of a more severe one were printed, where the words ask to fail on that.
    /// Status 11.
    Level { level: Level, count: u64 },
}

impl Fault {
    /// The status of a program that ends with this fault.
    pub fn status(&self) -> u8
        ensures { result ≡ status_of self.now }
    {
        match self {
            Fault::Fine => 0,
            Fault::Memory => 1,
            Fault::Words => 2,
            Fault::Source => 3,
            Fault::Sink => 4,
            Fault::Script { .. } => 5,
            Fault::Elf { .. } | Fault::Names { .. } | Fault::Places { .. } => 6,
            Fault::Shelf => 7,
            Fault::Long => 8,
            Fault::Events { .. } => 9,
            Fault::Control { .. } => 10,
            Fault::Level { .. } => 11,
        }
    }

    /// The words that tell the fault, without a newline.
    pub fn say(&self, alloc: Global) -> Result<Text, Memory>
        ensures { IfOk result (λ text. text ≡ said self.now) }
    {
        let mut text = Text::new(alloc);
        add_words(alloc, self, &mut text)?;
        Ok(text)
    }
}

impl From<Memory> for Fault {
    ghost use Rattle.std.specs.Prelude.{◌≡◌};
    ghost use Rattle.defmt_recording.specs.declared.fault.Fault.TheVariants.{Memory as OutOfMemory};

    ghost from_gives = { λ _ fault. fault ≡ OutOfMemory };

    fn from(_: Memory) -> Self {
        Fault::Memory
    }
}

// Puts the words that tell a fault where nothing stands yet.
fn add_words(alloc: Global, fault: &Fault, text: &mut Text) -> Result<(), Memory>
    requires { text.old ≡ [] }
    ensures { OnOk result (text.new ≡ said fault.now) }
{
    match fault {
        Fault::Fine => add(text, "fine"),
        Fault::Memory => add(text, "memory"),
        Fault::Words => add(text, "words"),
        Fault::Source => add(text, "source"),
        Fault::Sink => add(text, "sink"),
        Fault::Script { line, cause, inner } => add_script(alloc, *line, *cause, *inner, text),
        Fault::Elf { cause, place, .. } => {
            add_refusal(alloc, "table elf cause ", *cause, " place ", *place, text)
        }
        Fault::Names { cause, symbol } => {
            add_refusal(
                alloc,
                "table name cause ",
                *cause,
                " symbol ",
                *symbol,
                text,
            )
        }
        Fault::Places { line, cause } => add_places(alloc, *line, *cause, text),
        Fault::Shelf => add(text, "shelf"),
        Fault::Long => add(text, "too long"),
        Fault::Events { bad } => add_number(alloc, "events with faults ", *bad, text),
        Fault::Control { cause, place } => {
            add_refusal(alloc, "control cause ", *cause, " place ", *place, text)
        }
        Fault::Level { level, count } => add_level(alloc, *level, *count, text),
    }
}

fn add_places(alloc: Global, line: u32, cause: u8, text: &mut Text) -> Result<(), Memory>
    ensures { OnOk result (text.new ≡ text.old ++ (codes "places line " ++ decimal line
        ++ codes " cause " ++ decimal cause)) }
{
    add_number(alloc, "places line ", u64::from(line), text)?;
    add_number(alloc, " cause ", u64::from(cause), text)
}

fn add_level(alloc: Global, level: Level, count: u64, text: &mut Text) -> Result<(), Memory>
    ensures { OnOk result (text.new ≡ text.old ++ (codes "lines at " ++ word_of (At level)
        ++ codes " " ++ decimal count)) }
{
    add(text, "lines at ")?;
    add(text, level.word())?;
    add_number(alloc, " ", count, text)
}

fn add_script(alloc: Global, line: u32, cause: u8, inner: u8, text: &mut Text) -> Result<(), Memory>
    ensures { OnOk result (text.new ≡ text.old ++ (codes "script line " ++ decimal line
        ++ codes " cause " ++ decimal cause ++ codes " inner " ++ decimal inner)) }
{
    add_number(alloc, "script line ", u64::from(line), text)?;
    add_number(alloc, " cause ", u64::from(cause), text)?;
    add_number(alloc, " inner ", u64::from(inner), text)
}

// Appends a cause and its place, each behind its text.
fn add_refusal(
    alloc: Global,
    front: &str,
    cause: u8,
    middle: &str,
    place: u32,
    text: &mut Text,
) -> Result<(), Memory>
    ensures { OnOk result (text.new ≡ text.old
        ++ (front.now ++ decimal cause ++ middle.now ++ decimal place)) }
{
    add_number(alloc, front, u64::from(cause), text)?;
    add_number(alloc, middle, u64::from(place), text)
}

// Appends a number behind its text.
fn add_number(alloc: Global, front: &str, number: u64, text: &mut Text) -> Result<(), Memory>
    ensures { OnOk result (text.new ≡ text.old ++ (front.now ++ decimal number)) }
{
    let words = format!(in alloc; "{front}{number}")?;
    add(text, words.as_str())
}

fn add(text: &mut Text, words: &str) -> Result<(), Memory>
    ensures { OnOk result (text.new ≡ text.old ++ words.now) }
{
    match text.push_str(words) {
        Ok(()) => Ok(()),
        Err(_) => Err(Memory),
    }
}

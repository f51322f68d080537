//! The parts of a script that is read: entries, arguments and their limits.

ghost use Rattle.std.specs.Prelude.{◌≡◌, length, nat_lt, IfOk, OnErr, OnOk, ℕ};
ghost use Rattle.std.specs.Fmt.{decimal};
ghost use Rattle.defmt_eager.specs.Line.{printed_limit};
ghost use Rattle.defmt_eager.specs.Show.{eager_text};
ghost use Rattle.defmt_encode.specs.Out.{message_limit};
ghost use Rattle.defmt_encode.specs.Placed.{place_in};
ghost use Rattle.defmt_intern.specs.Entries as map;
ghost use Rattle.defmt_intern.specs.Body.{body_of};
ghost use Rattle.defmt_intern.specs.Table.{InsertRefused};
ghost use Rattle.defmt_script.specs.Lawful.{first_message};
ghost use Rattle.defmt_script.specs.Reads.{is_message};
ghost use Rattle.defmt_script.specs.Script.{base_of};
ghost use Rattle.defmt_script.specs.State.{entry_at, no_statements, table_behind};
ghost use Rattle.defmt_values.specs.Fits.{Fits};

use crate::script::Statements;
use defmt_grammar::{Language, Text};
use defmt_intern::{Entry, Parsed, Profile, Table, TableFault, Tag};
use defmt_lines::{Form, Settings};
use defmt_values::{Statement, is_logged};
use dl_io::Memory;
use rtt_terminal::WRITERS;
use std::alloc::Global;

// Eight writers without statements.
pub(crate) fn no_statements(alloc: Global) -> Result<Vec<Statements>, Memory>
    ensures { IfOk result (λ writers. writers.items ≡ no_statements) }
{
    let mut writers = Vec::new(alloc);
    for _ in 0..WRITERS {
        writers.push(Statements::new(alloc))?;
    }
    Ok(writers)
}

// Behind the line of its language a script has an empty table of it. Takes no memory.
pub(crate) fn begin_table(alloc: Global, form: Form, language: Language, table: &mut Table)
    ensures { table.new.entries ≡ table_behind form language table.old.entries }
{
    if let Form::Language = form {
        *table = Table::of_language(alloc, language);
    }
}

fn copy_of(alloc: Global, text: &str) -> Result<Text, Memory>
    ensures { IfOk result (λ copy. copy ≡ text.now) }
{
    let mut copy = Text::new(alloc);
    match copy.push_str(text) {
        Ok(()) => Ok(copy),
        Err(_) => Err(Memory),
    }
}

// A number in decimal digits.
fn digits_of(alloc: Global, number: u16) -> Result<Text, Memory>
    ensures { IfOk result (λ text. text ≡ decimal number) }
{
    Ok(Text::from_string(format!(in alloc; "{number}")?))
}

// An entry of a script.
pub(crate) fn entry_of(alloc: Global, index: u16, tag: Tag, text: &str) -> Result<Entry, Memory>
    ensures { IfOk result (λ entry. entry ≡ entry_at index tag text.now) }
{
    Ok(Entry {
        tag,
        package: copy_of(alloc, "script")?,
        text: copy_of(alloc, text)?,
        disambiguator: digits_of(alloc, index)?,
    })
}

// Puts an entry at a free index.
pub(crate) fn put_entry(table: &mut Table, index: u16, entry: Entry) -> Result<(), Memory>
    requires { (cause : ℕ) → InsertRefused table.old.entries index entry cause → ⊥ }
    ensures ok { OnOk result (table.new.entries ≡ map.insert table.old.entries index entry) }
    ensures err { OnErr result (table.new.entries ≡ table.old.entries) }
{
    match table.insert(index, entry) {
        Ok(()) => Ok(()),
        Err(TableFault::Refused { .. }) => unreachable!(),
        Err(TableFault::Memory) => Err(Memory),
    }
}

// The same of an entry of which it is known what its text stands for.
pub(crate) fn put_parsed(
    table: &mut Table,
    index: u16,
    entry: Entry,
    parsed: Parsed,
) -> Result<(), Memory>
    requires free { (cause : ℕ) → InsertRefused table.old.entries index entry cause → ⊥ }
    requires parsed { parsed ≡ body_of table.old.entries.language entry }
    ensures ok { OnOk result (table.new.entries ≡ map.insert table.old.entries index entry) }
    ensures err { OnErr result (table.new.entries ≡ table.old.entries) }
{
    match table.insert_parsed(index, entry, parsed) {
        Ok(()) => Ok(()),
        Err(TableFault::Refused { .. }) => unreachable!(),
        Err(TableFault::Memory) => Err(Memory),
    }
}

// Whether the entry at an index is a level's or println's.
pub(crate) fn is_message(table: &Table, index: u16) -> bool
    ensures { result ≡ is_message table.now.entries index }
{
    match table.get(index) {
        Some(entry) => is_logged(&entry.tag),
        None => false,
    }
}

// Whether the message of a statement has more than 2,000 bytes.
pub(crate) fn is_long(table: &Table, settings: &Settings, stm: &Statement) -> bool
    ensures { result
        ≡ nat_lt message_limit (length (first_message table.now.entries settings.now stm.now)) }
{
    let place = first_place(settings.profile);
    defmt_encode::is_long(table, place, base_of(settings.stamp), stm)
}

// The place of the first mark.
fn first_place(profile: Profile) -> Option<u16>
    ensures { result ≡ place_in profile 0 }
{
    match profile {
        Profile::One => None,
        Profile::Two => Some(0),
    }
}

fn base_of(stamp: Option<(u64, u64)>) -> Option<u64>
    ensures { result ≡ base_of stamp }
{
    match stamp {
        Some((base, _)) => Some(base),
        None => None,
    }
}

// Whether the text of a statement has more than 65,536 bytes.
pub(crate) fn is_wide(alloc: Global, table: &Table, stm: &Statement) -> Result<bool, Memory>
    requires { Fits table.now.entries stm.now.index stm.now.args }
    ensures { IfOk result (λ wide. wide
        ≡ nat_lt printed_limit (length (eager_text table.now.entries stm.now.index stm.now.args))) }
{
    match defmt_eager::is_wide(alloc, table, stm) {
        Ok(wide) => Ok(wide),
        Err(_) => Err(Memory),
    }
}

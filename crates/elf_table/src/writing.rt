//! The file of a table.

ghost use Rattle.std.specs.Prelude.{◌≡◌, ◌≤◌, ◌+◌, ◌-◌, ◌^◌, ◌↔◌, ℕ, All, IfOk, IsTrue, None};
ghost use Rattle.std.specs.Option.{SomeIff};
ghost use Rattle.defmt_grammar.specs.declared.language.Language.{Language as AnyLanguage};
ghost use Rattle.defmt_intern.specs.Entries.{Map};
ghost use Rattle.defmt_intern.specs.Entries as map;
ghost use Rattle.defmt_intern.specs.declared.entry.Entry.{Entry as AnyEntry};
ghost use Rattle.elf_section.specs.Symbol.{plain, plain_all};
ghost use Rattle.elf_section.specs.Written.{written};
ghost use Rattle.elf_table.specs.Listed.{symbol_of, symbols_in, entry_size, size_of, AreSpelled, IsNamed};
ghost use Rattle.elf_table.specs.Names.{NamesTable};

use defmt_intern::{Entry, Table, Tag, symbol_name};
use dl_io::{Bytes, Memory};
use elf_section::{Symbol, write_symbols};
use std::alloc::Global;

// The size of a table's texts, in bytes, up to which it can be written.
const MAX_SIZE: usize = 1 << 26;

// What is left of the bytes behind those of an entry's texts, `None` where it has more.
fn left_behind(left: usize, entry: &Entry) -> Option<usize>
    ensures { SomeIff result (entry_size entry.now ≤ left) (left - entry_size entry.now) }
{
    let left = left.checked_sub(entry.package.as_str().len())?;
    let left = left.checked_sub(entry.text.as_str().len())?;
    let left = left.checked_sub(entry.disambiguator.as_str().len())?;
    match &entry.tag {
        Tag::Other(name) => left.checked_sub(name.as_str().len()),
        _ => Some(left),
    }
}

/// Whether the packages, texts, disambiguators and names of `Other` tags of all entries together have at most 64 MiB, as
/// `write_table` asks. Takes no memory.
pub fn is_writable(table: &Table) -> bool
    ensures { IsTrue result ↔ (size_of table.now.entries ≤ 2 ^ 26) }
{
    let mut left = MAX_SIZE;
    for (_, entry) in table.entries() {
        match left_behind(left, entry) {
            Some(rest) => left = rest,
            None => return false,
        }
    }
    true
}

/// An empty table of either language has no texts, and each further entry adds its own to the size that `is_writable` tests.
pub fn size_grows()
    ensures empty { (language : AnyLanguage) → size_of (map.empty_of language) ≡ 0 }
    ensures insert { (table : Map) (index : ℕ) (entry : AnyEntry) → map.get table index ≡ None
        → size_of (map.insert table index entry) ≡ size_of table + entry_size entry }
{}

// The symbol of an entry.
fn symbol_for(alloc: Global, entry: &Entry, index: u16) -> Result<Symbol, Memory>
    ensures value { IfOk result (λ symbol. plain symbol ≡ symbol_of (index, entry.now)) }
    ensures named { IfOk result (λ _. IsNamed (index, entry.now)) }
{
    let name = symbol_name(alloc, entry)?.into_string();
    Ok(Symbol {
        name: Bytes::from_vec(name.into_bytes()),
        value: u64::from(index),
    })
}

// The symbols of the entries, in the order of their indexes.
fn symbols_of(alloc: Global, table: &Table) -> Result<Vec<Symbol>, Memory>
    ensures value { IfOk result
        (λ symbols. plain_all symbols.items ≡ symbols_in table.now.entries) }
    ensures named { IfOk result (λ _. All IsNamed (map.entries table.now.entries)) }
    ensures few { IfOk result (λ _. map.len table.now.entries ≤ 65536) }
{
    let mut symbols = Vec::with_capacity(alloc, table.len() as usize)?;
    for (index, entry) in table.entries() {
        symbols.push(symbol_for(alloc, entry, index)?)?;
    }
    Ok(symbols)
}

/// The ELF32 file that names the table: one symbol for each entry, in the order of their indexes, behind the markers, which
/// say the profile.
///
/// The packages, texts, disambiguators and names of `Other` tags of all entries together have at most 64 MiB.
pub fn write_table(alloc: Global, table: &Table) -> Result<Bytes, Memory>
    requires { size_of table.now.entries ≤ 2 ^ 26 }

    // The file has just these symbols and this profile, whatever the language.
    ensures bytes { IfOk result (λ file. file.items
        ≡ written table.now.profile (symbols_in table.now.entries)) }

    // It names the table, so `read_table` gives it back, unless an `Other` spells one of the eleven tags.
    ensures read_back { IfOk result (λ file. AreSpelled table.now.entries
        → NamesTable table.now.entries.language file.items table.now) }
{
    table.lawful();
    let symbols = symbols_of(alloc, table)?;
    write_symbols(alloc, &symbols, table.profile())
}

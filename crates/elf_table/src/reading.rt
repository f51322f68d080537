//! The table that a file names.

ghost use Rattle.std.specs.Prelude.{◌≡◌, ◌<◌, ◌^◌, ℕ, List, length, Ok, Err};
ghost use Rattle.defmt_grammar.specs.declared.language.Language.TheVariants.{Base, Full};
ghost use Rattle.defmt_intern.specs.Body.{body_of};
ghost use Rattle.defmt_intern.specs.declared.parsed.Parsed.TheVariants.{Unsupported};
ghost use Rattle.defmt_intern.specs.declared.table.Table.{Table as AnyTable};
ghost use Rattle.elf_section.specs.Checks.{Refusal, Refused};
ghost use Rattle.elf_section.specs.Symbol.{plain_ref, plain_refs};
ghost use Rattle.elf_table.specs.Names.{ReadsTable, AnswersOnly, NamesTable, Reads, SymbolRefused, Steps, Makes, in_full};
ghost use Rattle.elf_table.specs.Said.{unread};
ghost use Rattle.elf_table.specs.declared.fault.LoadFault.TheVariants.{Elf as OfElf, Names as OfNames};

use crate::fault::{Cause, LoadFault, StepFault};
use crate::names::entry_of;
use defmt_grammar::{Language, Text};
use defmt_intern::{Entry, NameFault, Profile, Table, TableFault, Tag};
use elf_section::{ElfFault, SymbolRef, read_listing};
use json::Scratch;
use std::alloc::Global;

// What stands for a name that can't be read. Takes no memory.
fn unread(alloc: Global) -> Entry
    ensures { result ≡ unread }
{
    Entry {
        tag: Tag::Other(Text::new(alloc)),
        package: Text::new(alloc),
        text: Text::new(alloc),
        disambiguator: Text::new(alloc),
    }
}

// The entry that a name says in a language.
fn said(
    alloc: Global,
    scratch: &mut Scratch,
    language: Language,
    name: &[u8],
) -> Result<Entry, StepFault>
    ensures { Reads language name.now result }
{
    match entry_of(alloc, scratch, name) {
        Ok(entry) => Ok(entry),
        Err(NameFault::Memory) => Err(StepFault::Memory),
        Err(_) => match language {
            Language::Base => Err(StepFault::Refused { cause: Cause::Name }),
            Language::Full => Ok(unread(alloc)),
        },
    }
}

// Puts the entry that a symbol names into the table.
fn put_symbol(
    alloc: Global,
    scratch: &mut Scratch,
    table: &mut Table,
    symbol: &SymbolRef<'_>,
) -> Result<(), StepFault>
    ensures steps { Steps table.old.entries (plain_ref symbol.now) result table.new.entries }
    ensures profile { table.new.profile ≡ table.old.profile }
{
    let entry = said(alloc, scratch, table.language(), symbol.name)?;
    if symbol.value > 65535 {
        return Err(StepFault::Refused {
            cause: Cause::Index,
        });
    }
    match table.insert(symbol.value as u16, entry) {
        Ok(()) => Ok(()),
        Err(TableFault::Refused { cause }) => Err(StepFault::Refused {
            cause: Cause::Insert(cause),
        }),
        Err(TableFault::Memory) => Err(StepFault::Memory),
    }
}

// The table of these symbols and this profile, in a language.
fn table_of(
    alloc: Global,
    symbols: &[SymbolRef<'_>],
    profile: Profile,
    language: Language,
) -> Result<Table, LoadFault>
    requires { length symbols.now < 2 ^ 32 }
    ensures { Makes language (plain_refs symbols.now) profile result }
{
    let mut table = Table::of_language(alloc, language);
    table.set_profile(profile);
    let mut scratch = Scratch::new(alloc);
    for (p, symbol) in symbols.iter().enumerate() {
        match put_symbol(alloc, &mut scratch, &mut table, symbol) {
            Ok(()) => {}
            Err(StepFault::Refused { cause }) => {
                return Err(LoadFault::Names {
                    cause: cause.number(),
                    symbol: p as u32,
                });
            }
            Err(StepFault::Memory) => return Err(LoadFault::Memory),
        }
    }
    Ok(table)
}

fn load(alloc: Global, file: &[u8], language: Language) -> Result<Table, LoadFault>
    requires { length file.now < 2 ^ 32 }
    ensures { ReadsTable language file.now result }
{
    match read_listing(alloc, file) {
        Ok(listing) => table_of(alloc, &listing.symbols, listing.profile, language),
        Err(ElfFault::Refused { cause, part, place }) => Err(LoadFault::Elf { cause, part, place }),
        Err(ElfFault::Memory) => Err(LoadFault::Memory),
    }
}

/// The table of a language that a file names: the symbols of its section `.defmt` whose names begin with `{` are its
/// entries, each at the index that is the symbol's value (defmt book, "Interning"; ELF gABI, "Symbol Table"). Its profile is the
/// one that the file's markers say.
///
/// The file is checked first, then its symbols one after another. The first refusal is answered. In the full language a
/// symbol whose name can't be read, as linkers leave it that cut names at an `@`, is no reason to refuse: what stands at its
/// index isn't supported.
pub fn read_table(alloc: Global, file: &[u8], language: Language) -> Result<Table, LoadFault>
    requires { length file.now < 2 ^ 32 }

    // A table only where the file names it, and a refusal only where it is the first.
    ensures answer { ReadsTable language file.now result }

    // Unless memory runs out, the table that the file names is answered, and its refusal.
    ensures named { (table : AnyTable) → NamesTable language file.now table
        → AnswersOnly result (Ok table) }
    ensures elf { (refusal : Refusal) → Refused file.now refusal
        → AnswersOnly result (Err (OfElf refusal.cause refusal.part refusal.place)) }
    ensures names { (cause symbol : ℕ) → SymbolRefused language file.now cause symbol
        → AnswersOnly result (Err (OfNames cause symbol)) }
{
    load(alloc, file, language)
}

/// In the full language no symbol is refused for its name, and no frame of one that can't be read is supported. What a file names
/// in the base language it names in the full one too, with the same entries.
pub fn full_reads_more()
    ensures names { (file : List ℕ) (symbol : ℕ) → SymbolRefused Full file 3 symbol → ⊥ }
    ensures unread { body_of Full unread ≡ Unsupported }
    ensures base { (file : List ℕ) (table : AnyTable) → NamesTable Base file table
        → NamesTable Full file (in_full table) }
{}

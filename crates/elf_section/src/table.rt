//! The symbol table.

ghost use Rattle.std.specs.Prelude.{◌≡◌, ◌<◌, ◌+◌, ◌*◌, ◌^◌, ◌/◌, length, is_some, slice_index, MatchBool, IfOk, IfSome};
ghost use Rattle.std.specs.Option.{option_copied};
ghost use Rattle.elf_section.specs.File.{header, IsSymbols, symbol, symbol_name, count};
ghost use Rattle.elf_section.specs.Checks.{Passed, Goes, IsTable};
ghost use Rattle.elf_section.specs.Table.{IsOpen};

use crate::fault::{Cause, Fault, Part};
use crate::file::{RawSymbol, SHF_COMPRESSED, SHT_STRTAB, symbol_in, symbol_len};
use crate::front::header_of;
use crate::sections::{contents, fits, section};
use crate::strings::StringTable;
use byte_images::{Class, class_of};
use std::alloc::{AllocError, Global};

/// The symbol table of a file.
#[derive(Drop)]
pub struct SymbolTable<'a> {
    /// The number of its section.
    pub number: u64,
    pub class: Class,
    /// Where it begins in the file.
    pub offset: u64,
    /// How many symbols it has.
    pub count: u64,
    /// The strings in which the names stand.
    pub strings: StringTable<'a>,
}

fn is_table(file: &[u8], i: u64) -> bool
    requires passed { Passed file.now 11 }
    requires below { i < (header file.now).shnum }
    ensures { MatchBool result (IsTable file.now i) (IsTable file.now i → ⊥) }
{
    let table = section(file, i);
    let len = symbol_len(class_of(file));
    table.entry_size == len
        && table.size % len == 0
        && fits(file, &table)
        && table.link < header_of(file).shnum
        && section(file, table.link).kind == SHT_STRTAB
}

/// The section of the symbols, and that of their strings.
pub fn check_table(file: &[u8], i: u64) -> Result<(), Fault>
    requires passed { Passed file.now 11 }
    requires symbols { IsSymbols file.now i }
    requires small { i < 2 ^ 32 }
    ensures { Goes file.now 14 result }
{
    if !is_table(file, i) {
        return Err(Part::Symbols.outside(i as u32));
    }
    let link = section(file, i).link;
    let strings = section(file, link);
    if strings.flags & SHF_COMPRESSED != 0 {
        return Err(Cause::NoSymbols.alone());
    }
    if !fits(file, &strings) {
        return Err(Part::Strings.outside(link as u32));
    }
    Ok(())
}

// How many symbols there are.
fn count(file: &[u8], i: u64) -> u64
    requires passed { Passed file.now 14 }
    requires symbols { IsSymbols file.now i }
    ensures value { result ≡ count file.now i }
{
    section(file, i).size / symbol_len(class_of(file))
}

/// The symbol table in section number `i`.
pub fn open_table(alloc: Global, file: &[u8], i: u64) -> Result<SymbolTable<'_>, AllocError>
    requires short { length file.now < 2 ^ 32 }
    requires passed { Passed file.now 14 }
    requires symbols { IsSymbols file.now i }
    ensures { IfOk result (IsOpen file.now) }
{
    let table = section(file, i);
    let strings = section(file, table.link);
    Ok(SymbolTable {
        number: i,
        class: class_of(file),
        offset: table.offset,
        count: count(file, i),
        strings: StringTable::new(alloc, contents(file, &strings))?,
    })
}

/// Symbol number `k`.
pub fn symbol(file: &[u8], table: &SymbolTable<'_>, k: u64) -> RawSymbol
    requires open { IsOpen file.now table.now }
    requires below { k < table.now.count }
    ensures { result ≡ symbol file.now table.now.number k }
{
    let at = table.offset + k * symbol_len(table.class);
    symbol_in(file, table.class, at as usize)
}

/// The name of symbol number `k`.
pub fn symbol_name<'a>(file: &[u8], table: &SymbolTable<'a>, k: u64) -> Option<&'a [u8]>
    requires open { IsOpen file.now table.now }
    requires below { k < table.now.count }
    ensures { option_copied result ≡ symbol_name file.now table.now.number k }
{
    table.strings.text_at(symbol(file, table, k).name)
}

// Whether symbol number `k` has a name.
fn has_name(file: &[u8], table: &SymbolTable<'_>, k: u64) -> bool
    requires open { IsOpen file.now table.now }
    requires below { k < table.now.count }
    ensures { result ≡ is_some (symbol_name file.now table.now.number k) }
{
    table.strings.has_text_at(symbol(file, table, k).name)
}

/// The byte with which the name of symbol number `k` begins, 0 where there is none.
pub fn first_byte(file: &[u8], table: &SymbolTable<'_>, k: u64) -> u8
    requires open { IsOpen file.now table.now }
    requires below { k < table.now.count }
    ensures { IfSome (symbol_name file.now table.now.number k)
        (λ name. result ≡ slice_index name 0) }
{
    table.strings.byte_at(symbol(file, table, k).name)
}

/// The names of all symbols but the first.
pub fn check_symbol_names(file: &[u8], table: &SymbolTable<'_>) -> Result<(), Fault>
    requires { IsOpen file.now table.now }
    ensures { Goes file.now 15 result }
{
    for k in 1..table.count {
        if !has_name(file, table, k) {
            return Err(Part::SymbolName.outside(k as u32));
        }
    }
    Ok(())
}

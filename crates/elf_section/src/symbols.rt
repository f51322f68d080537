//! The symbols of `.defmt`, and the profile.

ghost use Rattle.std.specs.Prelude.{◌≡◌, ◌≤◌, ◌<◌, ◌^◌, List, length, IfOk};
ghost use Rattle.defmt_intern.specs.declared.table.Profile.{Profile as AnyProfile};
ghost use Rattle.elf_section.specs.Checks.{Passed, ProfileIs, Refusal, Refused, Tells};
ghost use Rattle.elf_section.specs.File.{IsDefmt};
ghost use Rattle.elf_section.specs.Listed.{Lists, HasProfile, Carries, Gets, ReadsSymbols, ReadsProfile, ReadsListing, GivesOnly, TellsOnly, ListsOnly, RefusesOnly, ListsAt, symbols_below};
ghost use Rattle.elf_section.specs.Symbol.{PlainSymbol, plain_all, plain_refs};
ghost use Rattle.elf_section.specs.Table.{IsOpen};

use crate::fault::{ElfFault, Fault};
use crate::front::check_front;
use crate::markers::{check_markers, check_profile};
use crate::sections::{check_names, check_section_names, find_defmt, find_symbols, names_of};
use crate::table::{SymbolTable, check_symbol_names, check_table, open_table, symbol, symbol_name};
use defmt_intern::Profile;
use dl_io::{Bytes, Memory};
use std::alloc::Global;

/// A symbol's name and value: the name that its `st_name` points to, and its `st_value`.
#[derive(Drop)]
pub struct Symbol {
    pub name: Bytes,
    pub value: u64,
}

/// A symbol's name as it stands in the file, and its value.
#[derive(Clone, Copy, Drop)]
pub struct SymbolRef<'a> {
    pub name: &'a [u8],
    pub value: u64,
}

/// What a file says: its symbols, and its profile.
#[derive(Drop)]
pub struct Listing<'a> {
    pub symbols: Vec<SymbolRef<'a>>,
    pub profile: Profile,
}

// The symbol table of a file that passes, and the file's profile.
#[derive(Drop)]
struct Checked<'a> {
    table: SymbolTable<'a>,
    profile: Profile,
}

// Symbol `k`, where it lies in section `defmt` with a name that begins with `{`.
fn listed<'a>(file: &[u8], defmt: u64, table: &SymbolTable<'a>, k: u64) -> Option<SymbolRef<'a>>
    requires open { IsOpen file.now table.now }
    requires below { k < table.now.count }
    ensures { ListsAt file.now defmt table.now.number k result }
{
    let value = symbol(file, table, k).value;
    if symbol(file, table, k).section != defmt {
        return None;
    }
    match symbol_name(file, table, k) {
        Some(name) if name.starts_with(b"{") => Some(SymbolRef { name, value }),
        _ => None,
    }
}

fn collect<'a>(
    alloc: Global,
    file: &[u8],
    defmt: u64,
    table: &SymbolTable<'a>,
) -> Result<Vec<SymbolRef<'a>>, Memory>
    requires open { IsOpen file.now table.now }
    ensures symbols { IfOk result
        (λ v. plain_refs v.items ≡ symbols_below file.now defmt table.now.number table.now.count) }
    ensures few { IfOk result (λ v. length v.items ≤ table.now.count) }
{
    let mut symbols = Vec::new(alloc);
    for k in 1..table.count {
        if let Some(symbol) = listed(file, defmt, table, k) {
            symbols.push(symbol)?;
        }
    }
    Ok(symbols)
}

// The symbols with names of their own.
fn owned(alloc: Global, symbols: &[SymbolRef<'_>]) -> Result<Vec<Symbol>, Memory>
    ensures { IfOk result (λ v. plain_all v.items ≡ plain_refs symbols.now) }
{
    let mut copies = Vec::with_capacity(alloc, symbols.len())?;
    for symbol in symbols {
        copies.push(Symbol {
            name: Bytes::from_slice(alloc, symbol.name)?,
            value: symbol.value,
        })?;
    }
    Ok(copies)
}

// The first section named `.defmt`, behind the checks in front of it.
fn defmt_of(alloc: Global, file: &[u8]) -> Result<u64, ElfFault>
    requires { length file.now < 2 ^ 32 }
    ensures { Gets file.now (λ i. IsDefmt file.now i × Passed file.now 10) result }
{
    check_front(file)?;
    check_names(file)?;
    let names = names_of(alloc, file)?;
    check_section_names(file, &names)?;
    Ok(find_defmt(file, &names)?)
}

// The profile that the symbols of an open table say, behind the checks of their names and of the markers.
fn profile_in(file: &[u8], table: &SymbolTable<'_>) -> Result<Profile, Fault>
    requires { IsOpen file.now table.now }
    ensures { Tells file.now result }
{
    check_symbol_names(file, table)?;
    check_markers(file, table)?;
    check_profile(file, table)
}

// The symbol table and the profile, behind all checks.
fn table_of(alloc: Global, file: &[u8]) -> Result<Checked<'_>, ElfFault>
    requires short { length file.now < 2 ^ 32 }
    requires passed { Passed file.now 10 }
    ensures { Gets file.now (λ checked. IsOpen file.now checked.table
        × Passed file.now 18
        × ProfileIs file.now checked.profile) result }
{
    let number = find_symbols(file)?;
    check_table(file, number)?;
    let table = open_table(alloc, file, number)?;
    let profile = profile_in(file, &table)?;
    Ok(Checked { table, profile })
}

fn profile_of(alloc: Global, file: &[u8]) -> Result<Profile, ElfFault>
    requires { length file.now < 2 ^ 32 }
    ensures { ReadsProfile file.now result }
{
    defmt_of(alloc, file)?;
    let checked = table_of(alloc, file)?;
    Ok(checked.profile)
}

fn listing_of(alloc: Global, file: &[u8]) -> Result<Listing<'_>, ElfFault>
    requires { length file.now < 2 ^ 32 }
    ensures answer { ReadsListing file.now result }
    ensures few { IfOk result (λ listing. length listing.symbols.items ≤ length file.now) }
{
    let defmt = defmt_of(alloc, file)?;
    let checked = table_of(alloc, file)?;
    let symbols = collect(alloc, file, defmt, &checked.table)?;
    Ok(Listing {
        symbols,
        profile: checked.profile,
    })
}

fn symbols_of(alloc: Global, file: &[u8]) -> Result<Vec<Symbol>, ElfFault>
    requires { length file.now < 2 ^ 32 }
    ensures answer { ReadsSymbols file.now result }
    ensures few { IfOk result (λ v. length v.items ≤ length file.now) }
{
    let listing = listing_of(alloc, file)?;
    Ok(owned(alloc, &listing.symbols)?)
}

/// The symbols of the section `.defmt` whose names begin with `{`, in the order of the symbol table,
/// of an ELF32 or ELF64 file in little-endian order (ELF gABI). The file is checked first, and the
/// first check that fails is its refusal. Time grows with the bytes of the file and of the listed
/// names, memory with the listed names and a sixteenth of the string tables.
pub fn read_symbols(alloc: Global, file: &[u8]) -> Result<Vec<Symbol>, ElfFault>
    requires { length file.now < 2 ^ 32 }

    // Symbols only where the file passes and lists them, and a refusal only where it is the first.
    ensures answer { ReadsSymbols file.now result }

    // Unless memory runs out, what the file lists is answered, and its refusal.
    ensures listed { (symbols : List PlainSymbol) → Lists file.now symbols
        → GivesOnly result symbols }
    ensures refused { (refusal : Refusal) → Refused file.now refusal → RefusesOnly result refusal }

    // There are no more symbols than bytes.
    ensures few { IfOk result (λ v. length v.items ≤ length file.now) }
{
    symbols_of(alloc, file)
}

/// The profile that the markers of a file say: the second where a symbol is `_defmt_profile_ = 2`, plain or in double
/// quotes, else the first. The file is checked as `read_symbols` checks it. Takes the memory of a sixteenth of the string
/// tables.
pub fn read_profile(alloc: Global, file: &[u8]) -> Result<Profile, ElfFault>
    requires { length file.now < 2 ^ 32 }

    // A profile only where the file passes and says it, and a refusal only where it is the first.
    ensures answer { ReadsProfile file.now result }

    // Unless memory runs out, the file's profile is answered, and its refusal.
    ensures told { (profile : AnyProfile) → HasProfile file.now profile → TellsOnly result profile }
    ensures refused { (refusal : Refusal) → Refused file.now refusal → RefusesOnly result refusal }
{
    profile_of(alloc, file)
}

/// What `read_symbols` and `read_profile` answer, from one reading of the file. The names stay where they stand in it.
pub fn read_listing(alloc: Global, file: &[u8]) -> Result<Listing<'_>, ElfFault>
    requires { length file.now < 2 ^ 32 }

    // Symbols and a profile only where the file passes, lists these and says it, and a refusal only where it is the first.
    ensures answer { ReadsListing file.now result }

    // Unless memory runs out, what the file lists and says is answered, and its refusal.
    ensures listed { (symbols : List PlainSymbol) (profile : AnyProfile)
        → Carries file.now symbols profile → ListsOnly result symbols profile }
    ensures refused { (refusal : Refusal) → Refused file.now refusal → RefusesOnly result refusal }

    // There are no more symbols than bytes.
    ensures few { IfOk result (λ listing. length listing.symbols.items ≤ length file.now) }
{
    listing_of(alloc, file)
}

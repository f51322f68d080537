//! The sections of a file.

ghost use Rattle.std.specs.Prelude.{◌≡◌, ◌<◌, ◌+◌, ◌*◌, ◌^◌, length, Some, MatchBool, IfOk, IsTrue, ◌↔◌};
ghost use Rattle.std.specs.Option.{option_copied};
ghost use Rattle.elf_section.specs.File.{header, section, Fits, contents, section_names, section_name, IsDefmt, IsSymbols, HasDefmtName, HasSymbols};
ghost use Rattle.elf_section.specs.Checks.{Holds, Passed, Goes, Finds};
ghost use Rattle.elf_section.specs.Checks as check;

use crate::fault::{Cause, Fault, Part};
use crate::file::{SHF_COMPRESSED, SHT_SYMTAB, Section, section_in, section_len};
use crate::front::header_of;
use crate::strings::StringTable;
use byte_images::class_of;
use std::alloc::{AllocError, Global};

/// Section number `i`.
pub fn section(file: &[u8], i: u64) -> Section
    requires passed { Passed file.now 7 }
    requires below { i < (header file.now).shnum }
    ensures value { result ≡ section file.now i }
    ensures link { result.link < 2 ^ 32 }
{
    let class = class_of(file);
    let at = header_of(file).shoff + i * section_len(class);
    section_in(file, class, at as usize)
}

/// Whether a section lies in the file.
pub fn fits(file: &[u8], section: &Section) -> bool
    ensures { IsTrue result ↔ Fits file.now section.now }
{
    let len = file.len() as u64;
    section.size <= len && section.offset <= len - section.size
}

/// The bytes of a section that lies in the file.
pub fn contents<'a>(file: &'a [u8], section: &Section) -> &'a [u8]
    requires { Fits file.now section.now }
    ensures { result.now ≡ contents file.now section.now }
{
    let behind = &file[section.offset as usize..];
    &behind[..section.size as usize]
}

fn has_names(file: &[u8]) -> bool
    requires { Passed file.now 7 }
    ensures { MatchBool result (Holds file.now check.has_names)
        (Holds file.now check.has_names → ⊥) }
{
    let header = header_of(file);
    header.shstrndx < header.shnum && fits(file, &section(file, header.shstrndx))
}

/// The section of the names of sections.
pub fn check_names(file: &[u8]) -> Result<(), Fault>
    requires { Passed file.now 7 }
    ensures { Goes file.now 8 result }
{
    if has_names(file) {
        Ok(())
    } else {
        Err(Part::Names.outside(header_of(file).shstrndx as u32))
    }
}

/// The names of the sections.
pub fn names_of(alloc: Global, file: &[u8]) -> Result<StringTable<'_>, AllocError>
    requires short { length file.now < 2 ^ 32 }
    requires passed { Passed file.now 8 }
    ensures { IfOk result (λ names. names ≡ section_names file.now) }
{
    let names = section(file, header_of(file).shstrndx);
    StringTable::new(alloc, contents(file, &names))
}

/// The name of section number `i`.
pub fn section_name<'a>(file: &[u8], names: &'a StringTable<'_>, i: u64) -> Option<&'a [u8]>
    requires passed { Passed file.now 8 }
    requires names { names.now ≡ section_names file.now }
    requires below { i < (header file.now).shnum }
    ensures { option_copied result ≡ section_name file.now i }
{
    names.text_at(section(file, i).name)
}

/// The names of all sections.
pub fn check_section_names(file: &[u8], names: &StringTable<'_>) -> Result<(), Fault>
    requires passed { Passed file.now 8 }
    requires names { names.now ≡ section_names file.now }
    ensures { Goes file.now 9 result }
{
    for i in 0..header_of(file).shnum {
        if section_name(file, names, i).is_none() {
            return Err(Part::SectionName.outside(i as u32));
        }
    }
    Ok(())
}

fn is_defmt(file: &[u8], names: &StringTable<'_>, i: u64) -> bool
    requires passed { Passed file.now 8 }
    requires names { names.now ≡ section_names file.now }
    requires below { i < (header file.now).shnum }
    ensures { MatchBool result (HasDefmtName file.now i) (HasDefmtName file.now i → ⊥) }
{
    match section_name(file, names, i) {
        Some(name) => name == b".defmt".as_slice(),
        None => false,
    }
}

/// The first section named `.defmt`.
pub fn find_defmt(file: &[u8], names: &StringTable<'_>) -> Result<u64, Fault>
    requires passed { Passed file.now 9 }
    requires names { names.now ≡ section_names file.now }
    ensures { Finds file.now (IsDefmt file.now) result }
{
    for i in 0..header_of(file).shnum {
        if is_defmt(file, names, i) {
            return Ok(i);
        }
    }
    Err(Cause::NoSection.alone())
}

fn is_symbols(file: &[u8], i: u64) -> bool
    requires passed { Passed file.now 7 }
    requires below { i < (header file.now).shnum }
    ensures { MatchBool result (HasSymbols file.now i) (HasSymbols file.now i → ⊥) }
{
    let section = section(file, i);
    section.kind == SHT_SYMTAB && section.flags & SHF_COMPRESSED == 0
}

/// The first section of symbols that isn't compressed.
pub fn find_symbols(file: &[u8]) -> Result<u64, Fault>
    requires { Passed file.now 10 }
    ensures first { Finds file.now (IsSymbols file.now) result }
    ensures small { IfOk result (λ i. i < 2 ^ 32) }
{
    for i in 0..header_of(file).shnum {
        if is_symbols(file, i) {
            return Ok(i);
        }
    }
    Err(Cause::NoSymbols.alone())
}

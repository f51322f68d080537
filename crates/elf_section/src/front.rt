//! The checks of the header.

ghost use Rattle.std.specs.Prelude.{◌≡◌, ◌<◌, ◌^◌, MatchBool};
ghost use Rattle.elf_section.specs.File.{header};
ghost use Rattle.elf_section.specs.Checks.{Holds, Passed, Goes};
ghost use Rattle.elf_section.specs.Checks as check;

use crate::fault::{Cause, Fault, Part};
use crate::file::{Header, header_in, section_len};
use byte_images::class_of;

fn is_elf(file: &[u8]) -> bool
    ensures { MatchBool result (Holds file.now check.is_elf) (Holds file.now check.is_elf → ⊥) }
{
    file.len() >= 16 && file.starts_with(b"\x7fELF")
}

fn has_class(file: &[u8]) -> bool
    requires { Passed file.now 1 }
    ensures { MatchBool result (Holds file.now check.has_class)
        (Holds file.now check.has_class → ⊥) }
{
    file[4] == 1 || file[4] == 2
}

fn is_little(file: &[u8]) -> bool
    requires { Passed file.now 1 }
    ensures { MatchBool result (Holds file.now check.is_little)
        (Holds file.now check.is_little → ⊥) }
{
    file[5] == 1
}

fn has_header(file: &[u8]) -> bool
    requires { Passed file.now 1 }
    ensures { MatchBool result (Holds file.now check.has_header)
        (Holds file.now check.has_header → ⊥) }
{
    class_of(file).header_len() <= file.len() as u64
}

/// What the header says.
pub fn header_of(file: &[u8]) -> Header
    requires { Passed file.now 4 }
    ensures value { result ≡ header file.now }
    ensures few { result.shnum < 2 ^ 16 }
    ensures index { result.shstrndx < 2 ^ 16 }
{
    header_in(file, class_of(file))
}

fn has_sections(file: &[u8]) -> bool
    requires { Passed file.now 4 }
    ensures { MatchBool result (Holds file.now check.has_sections)
        (Holds file.now check.has_sections → ⊥) }
{
    0 < header_of(file).shnum
}

fn has_entry_size(file: &[u8]) -> bool
    requires { Passed file.now 4 }
    ensures { MatchBool result (Holds file.now check.has_entry_size)
        (Holds file.now check.has_entry_size → ⊥) }
{
    header_of(file).shentsize == section_len(class_of(file))
}

fn has_section_headers(file: &[u8]) -> bool
    requires { Passed file.now 4 }
    ensures { MatchBool result (Holds file.now check.has_section_headers)
        (Holds file.now check.has_section_headers → ⊥) }
{
    let header = header_of(file);
    let size = header.shnum * section_len(class_of(file));
    let len = file.len() as u64;
    size <= len && header.shoff <= len - size
}

/// The checks up to that of the section headers.
pub fn check_front(file: &[u8]) -> Result<(), Fault>
    ensures { Goes file.now 7 result }
{
    if !is_elf(file) {
        return Err(Cause::Magic.alone());
    }
    if !has_class(file) {
        return Err(Cause::Class.alone());
    }
    if !is_little(file) {
        return Err(Cause::Order.alone());
    }
    if !has_header(file) {
        return Err(Part::Header.outside(0));
    }
    if !has_sections(file) {
        return Err(Cause::NoSection.alone());
    }
    if !has_entry_size(file) {
        return Err(Part::Header.outside(1));
    }
    if !has_section_headers(file) {
        return Err(Part::Sections.outside(0));
    }
    Ok(())
}

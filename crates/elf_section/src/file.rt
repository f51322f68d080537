//! The fields of a file, at the places of the ELF gABI.

ghost use Rattle.std.specs.Prelude.{◌≡◌, ◌≤◌, ◌<◌, ◌+◌, ◌^◌, length};
ghost use Rattle.byte_images.specs.Elf.{header_len};
ghost use Rattle.elf_section.specs.File.{section_len, symbol_len, header_in, section_in, symbol_in};

use byte_images::{Class, half_at, long_at, word_at};

/// The type of a symbol table.
pub const SHT_SYMTAB: u64 = 2;
/// The type of a string table.
pub const SHT_STRTAB: u64 = 3;
/// The flag of a section whose bytes are compressed.
pub const SHF_COMPRESSED: u64 = 0x800;

/// What the ELF header says of the sections.
#[derive(Clone, Copy, Drop)]
pub struct Header {
    pub shoff: u64,
    pub shentsize: u64,
    pub shnum: u64,
    pub shstrndx: u64,
}

/// What a section header says.
#[derive(Clone, Copy, Drop)]
pub struct Section {
    pub name: u64,
    pub kind: u64,
    pub flags: u64,
    pub offset: u64,
    pub size: u64,
    pub link: u64,
    pub entry_size: u64,
}

/// An entry of the symbol table: the place of its name, its value and its section.
#[derive(Clone, Copy, Drop)]
pub struct RawSymbol {
    pub name: u64,
    pub value: u64,
    pub section: u64,
}

/// The size of a section header.
pub fn section_len(class: Class) -> u64
    ensures { result ≡ section_len class }
{
    match class {
        Class::Elf32 => 40,
        Class::Elf64 => 64,
    }
}

/// The size of an entry of the symbol table.
pub fn symbol_len(class: Class) -> u64
    ensures { result ≡ symbol_len class }
{
    match class {
        Class::Elf32 => 16,
        Class::Elf64 => 24,
    }
}

#[tactic(auto, unfolding(crate::specs::File::header_in))]
pub fn header_in(file: &[u8], class: Class) -> Header
    requires { header_len class ≤ length file.now }
    ensures value { result ≡ header_in class file.now }
    ensures few { result.shnum < 2 ^ 16 }
    ensures index { result.shstrndx < 2 ^ 16 }
{
    match class {
        Class::Elf32 => Header {
            shoff: word_at(file, 32),
            shentsize: half_at(file, 46),
            shnum: half_at(file, 48),
            shstrndx: half_at(file, 50),
        },
        Class::Elf64 => Header {
            shoff: long_at(file, 40),
            shentsize: half_at(file, 58),
            shnum: half_at(file, 60),
            shstrndx: half_at(file, 62),
        },
    }
}

#[tactic(auto, unfolding(crate::specs::File::section_in))]
pub fn section_in(file: &[u8], class: Class, at: usize) -> Section
    requires { at + section_len class ≤ length file.now }
    ensures value { result ≡ section_in class at file.now }
    ensures link { result.link < 2 ^ 32 }
{
    match class {
        Class::Elf32 => Section {
            name: word_at(file, at),
            kind: word_at(file, at + 4),
            flags: word_at(file, at + 8),
            offset: word_at(file, at + 16),
            size: word_at(file, at + 20),
            link: word_at(file, at + 24),
            entry_size: word_at(file, at + 36),
        },
        Class::Elf64 => Section {
            name: word_at(file, at),
            kind: word_at(file, at + 4),
            flags: long_at(file, at + 8),
            offset: long_at(file, at + 24),
            size: long_at(file, at + 32),
            link: word_at(file, at + 40),
            entry_size: long_at(file, at + 56),
        },
    }
}

#[tactic(auto, unfolding(crate::specs::File::symbol_in))]
pub fn symbol_in(file: &[u8], class: Class, at: usize) -> RawSymbol
    requires { at + symbol_len class ≤ length file.now }
    ensures { result ≡ symbol_in class at file.now }
{
    match class {
        Class::Elf32 => RawSymbol {
            name: word_at(file, at),
            value: word_at(file, at + 4),
            section: half_at(file, at + 14),
        },
        Class::Elf64 => RawSymbol {
            name: word_at(file, at),
            value: long_at(file, at + 8),
            section: half_at(file, at + 6),
        },
    }
}

//! The fields of a file, at the places of the ELF gABI.

ghost use Rattle.std.specs.Prelude.{◌≡◌, ◌≤◌, ◌<◌, ◌+◌, ◌*◌, ◌^◌, length};
ghost use Rattle.byte_images.specs.Elf.{header_len};
ghost use Rattle.rtt_dump.specs.Elf.{IsTable, entry_len, header_in, is_elf, is_loaded, program_header, program_header_in};

use byte_images::{Class, half_at, long_at, word_at};

/// The type of a core file, `ET_CORE`.
pub const ET_CORE: u64 = 4;
/// The type of a segment to load, `PT_LOAD`.
pub const PT_LOAD: u64 = 1;

/// What the ELF header says of the program headers: `e_type`, `e_phoff`, `e_phentsize` and `e_phnum`.
#[derive(Clone, Copy)]
pub struct Header {
    pub kind: u64,
    pub offset: u64,
    pub entry_len: u64,
    pub count: u64,
}

/// What a program header says: `p_type`, `p_offset`, `p_vaddr` and `p_filesz`.
#[derive(Clone, Copy)]
pub struct ProgramHeader {
    pub kind: u64,
    pub offset: u64,
    pub address: u64,
    pub size: u64,
}

/// The table of the program headers of a file.
#[derive(Clone, Copy)]
pub struct Table {
    pub class: Class,
    pub offset: u64,
    pub count: u64,
}

/// Whether the file begins as each ELF file does, with `7f 45 4c 46`.
#[tactic(auto, unfolding(crate::specs::Elf::is_elf))]
pub fn is_elf(file: &[u8]) -> bool
    ensures { result ≡ is_elf file.now }
{
    file.starts_with(b"\x7fELF")
}

/// The size of a program header.
pub fn entry_len(class: Class) -> u64
    ensures { result ≡ entry_len class }
{
    match class {
        Class::Elf32 => 32,
        Class::Elf64 => 56,
    }
}

#[tactic(auto, unfolding(crate::specs::Elf::header_in))]
pub fn header_in(file: &[u8], class: Class) -> Header
    requires { header_len class ≤ length file.now }
    ensures value { result ≡ header_in class file.now }
    ensures few { result.count < 2 ^ 16 }
{
    match class {
        Class::Elf32 => Header {
            kind: half_at(file, 16),
            offset: word_at(file, 28),
            entry_len: half_at(file, 42),
            count: half_at(file, 44),
        },
        Class::Elf64 => Header {
            kind: half_at(file, 16),
            offset: long_at(file, 32),
            entry_len: half_at(file, 54),
            count: half_at(file, 56),
        },
    }
}

#[tactic(auto, unfolding(crate::specs::Elf::program_header_in))]
fn program_header_in(file: &[u8], class: Class, at: usize) -> ProgramHeader
    requires { at + entry_len class ≤ length file.now }
    ensures { result ≡ program_header_in class at file.now }
{
    match class {
        Class::Elf32 => ProgramHeader {
            kind: word_at(file, at),
            offset: word_at(file, at + 4),
            address: word_at(file, at + 8),
            size: word_at(file, at + 16),
        },
        Class::Elf64 => ProgramHeader {
            kind: word_at(file, at),
            offset: long_at(file, at + 8),
            address: long_at(file, at + 16),
            size: long_at(file, at + 32),
        },
    }
}

impl Table {
    /// Program header number `k`.
    pub fn entry(&self, file: &[u8], k: u64) -> ProgramHeader
        requires table { IsTable file.now self.now }
        requires below { k < self.now.count }
        ensures { result ≡ program_header file.now k }
    {
        let at = self.offset + k * entry_len(self.class);
        program_header_in(file, self.class, at as usize)
    }
}

impl ProgramHeader {
    /// Whether it is a segment to load that has bytes in the file.
    pub fn is_loaded(&self) -> bool
        ensures { result ≡ is_loaded self.now }
    {
        self.kind == PT_LOAD && 0 < self.size
    }
}

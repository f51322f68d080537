//! The checks of a core file's header.

ghost use Rattle.std.specs.Prelude.{◌≡◌, ◌≤◌, ◌<◌, ◌+◌, ◌^◌, length, None, Some, IfOk, IfErr, OnOk, IsTrue};
ghost use Rattle.byte_images.specs.Elf.{class_of};
ghost use Rattle.rtt_dump.specs.Elf.{IsTable, header};
ghost use Rattle.rtt_dump.specs.Flaws.{first_flaw, header_tests, holds};
ghost use Rattle.rtt_dump.specs.Flaws as check;

use crate::elf::{ET_CORE, Header, Table, entry_len, header_in};
use crate::fault::Flaw;
use byte_images::{Class, class_of};

fn has_class(file: &[u8]) -> bool
    ensures holds { result ≡ holds file.now check.has_class }
    ensures long { IsTrue result → 4 < length file.now }
{
    file.len() > 4 && (file[4] == 1 || file[4] == 2)
}

fn is_little(file: &[u8]) -> bool
    ensures { result ≡ holds file.now check.is_little }
{
    file.len() > 5 && file[5] == 1
}

// Whether the program headers lie in the file.
fn has_program_headers(file: &[u8], class: Class, elf_header: &Header) -> bool
    requires class { class ≡ class_of file.now }
    requires header { elf_header.now ≡ header file.now }
    requires few { elf_header.now.count < 2 ^ 16 }
    ensures { result ≡ holds file.now check.has_program_headers }
{
    let size = elf_header.count * entry_len(class);
    let len = file.len() as u64;
    size <= len && elf_header.offset <= len - size
}

/// The table of the program headers, where all checks of the header hold, or the first flaw.
pub fn table_of(file: &[u8]) -> Result<Table, Flaw>
    ensures table { IfOk result (λ table. IsTable file.now table) }
    ensures few { IfOk result (λ table. table.count < 2 ^ 16) }
    ensures passes { OnOk result (first_flaw file.now header_tests ≡ None) }
    ensures flaw { IfErr result (λ flaw. first_flaw file.now header_tests ≡ Some flaw) }
{
    if !has_class(file) {
        return Err(Flaw::Class);
    }
    if !is_little(file) {
        return Err(Flaw::Order);
    }
    let class = class_of(file);
    if (file.len() as u64) < class.header_len() {
        return Err(Flaw::Header);
    }
    let header = header_in(file, class);
    if header.kind != ET_CORE {
        return Err(Flaw::Kind);
    }
    if header.entry_len != entry_len(class) {
        return Err(Flaw::EntrySize);
    }
    if !has_program_headers(file, class, &header) {
        return Err(Flaw::ProgramHeaders);
    }
    Ok(Table {
        class,
        offset: header.offset,
        count: header.count,
    })
}

//! A string table as an ELF file: the table that a file's symbols name, and the file of a table.
//!
//! After the defmt book, "Interning": a table with the entry 1 `defmt_info` `hello` is written as 472 bytes, which read as that
//! table (elf_tests, `tables`).
#![tactic(auto)]

mod fault;
mod members;
mod names;
mod quick;
mod reading;
mod writing;

pub use fault::LoadFault;
pub use reading::{full_reads_more, read_table};
pub use writing::{is_writable, size_grows, write_table};

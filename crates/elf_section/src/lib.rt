//! The symbols of the section `.defmt` of an ELF file and the profile that its markers say, read and written.
//!
//! The file is one of 32 or 64 bits, little-endian (ELF gABI), whose markers name the version 4 and the encoding rzcobs (the defmt
//! book, "Interning"). One that is cut behind 15 bytes is refused with cause 1 (elf_tests, `symbols`).
#![tactic(auto)]

mod bytes;
mod fault;
mod file;
mod front;
mod markers;
mod sections;
mod strings;
mod symbols;
mod table;
mod writing;

pub use fault::{ElfFault, Part};
pub use symbols::{Listing, Symbol, SymbolRef, read_listing, read_profile, read_symbols};
pub use writing::write_symbols;

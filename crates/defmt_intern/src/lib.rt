//! The string table: entries by their indexes, what their texts stand for, and the symbol names that carry them.
//!
//! An entry is a symbol whose value is its index and whose name is a JSON object (the defmt book, "Interning"; RFC 8259):
//! `{"data":"hello","disambiguator":"1","package":"script","tag":"defmt_info"}`. The text `None|Some({=?})` of a `defmt_prim` stands
//! for two variants (text_tests, `intern`).
#![tactic(auto)]

mod entry;
mod keeping;
mod kept;
mod map;
mod name;
mod parsed;
mod putting;
mod table;

pub use entry::{Entry, Tag};
pub use map::Entries;
pub use name::{NameFault, NameKey, read_name, symbol_name};
pub use parsed::{Forms, Parsed, count_bars, cut_variant, pieces_are_spelled};
pub use putting::TEXT_LIMIT;
pub use table::{Profile, Table, TableFault, stamp_is_one};

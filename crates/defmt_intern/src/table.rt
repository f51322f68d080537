//! The string table.

ghost use Rattle.std.specs.Prelude.{◌≡◌, ◌≤◌, ℕ, Option, IfOk, MatchOption, None, Some, option_map};
ghost use Rattle.std.specs.Option.{option_copied};
ghost use Rattle.defmt_intern.specs.Body.{body_of};
ghost use Rattle.defmt_intern.specs.Entries as map;
ghost use Rattle.defmt_intern.specs.Stamp.{stamp_of};
ghost use Rattle.defmt_intern.specs.Table.{Map, IsLawful, StampIs, InsertRefused, AddRefused, Puts, Adds, RefusesOnly};
ghost use Rattle.defmt_intern.specs.declared.table.Profile.TheVariants.{One};

use crate::entry::Entry;
use crate::map::{Entries, EntryMap};
use crate::parsed::Parsed;
use defmt_grammar::Language;
use dl_io::Memory;
use std::alloc::{AllocFailed, Global};
use std::marker::Model;

/// Why an entry wasn't put into a table.
#[derive(Clone, Copy, Debug, Drop)]
pub enum TableFault {
    /// The first of these causes that stands: 1 the greatest index is 65,535 (`add` alone), 2 the index is taken
    /// (`insert` alone), 4 the text has more than 4,096 bytes, 5 the table has a timestamp already.
    Refused { cause: u8 },
    /// Want of memory.
    Memory,
}

impl From<Memory> for TableFault {
    ghost use Rattle.std.specs.Prelude.{◌≡◌};
    ghost use Rattle.defmt_intern.specs.declared.table.TableFault.TheVariants.{Memory as OutOfMemory};

    ghost from_gives = { λ _ e. e ≡ OutOfMemory };

    fn from(_: Memory) -> TableFault {
        TableFault::Memory
    }
}

impl<T: Drop> From<AllocFailed<T>> for TableFault {
    ghost use Rattle.std.specs.Prelude.{◌≡◌};
    ghost use Rattle.defmt_intern.specs.declared.table.TableFault.TheVariants.{Memory as OutOfMemory};

    ghost from_gives = { λ _ e. e ≡ OutOfMemory };

    fn from(_: AllocFailed<T>) -> TableFault {
        TableFault::Memory
    }
}

/// How the messages of a table are laid out.
#[derive(Clone, Copy, Debug, Drop)]
pub enum Profile {
    /// A message is its index, its stamp and its arguments.
    One,
    /// The same with the number of its mark behind the index.
    Two,
}

/// The string table: a profile, a language, and a finite map from indexes to entries. It keeps what each text stands for, as
/// the lenient reading of its language has it.
///
/// No text in it has more than 4,096 bytes, and at most one entry is a timestamp's.
pub struct Table {
    entries: EntryMap,
    profile: Profile,
}

// By hand: a derived drop is proved again in each crate that drops such a value.
impl Drop for Table {
    fn drop(self) {
        let Table {
            entries: _,
            profile: _,
        } = self;
    }
}

impl Model for Table {
    ghost use Rattle.defmt_intern.specs.Catalog.{Catalog, catalog_code};

    ghost Value = { Catalog };

    ghost coded = { catalog_code };

    ghost view = { λ t. record { entries = t.entries; profile = t.profile } };
}

impl Table {
    /// An empty table of the base language and of profile One. Takes no memory.
    pub fn new(alloc: Global) -> Table
        ensures entries { result.entries ≡ map.empty }
        ensures profile { result.profile ≡ One }
    {
        Table::of_language(alloc, Language::Base)
    }

    /// An empty table of a language and of profile One. Takes no memory.
    pub fn of_language(alloc: Global, language: Language) -> Table
        ensures entries { result.entries ≡ map.empty_of language }
        ensures profile { result.profile ≡ One }
    {
        Table {
            entries: EntryMap::new(alloc, language),
            profile: Profile::One,
        }
    }

    /// What holds of every table: indexes below 65,536, texts of at most 4,096 bytes, at most one timestamp.
    pub fn lawful(&self)
        ensures { IsLawful self.now.entries }
    {
        self.entries.lawful()
    }

    /// The table's profile. Takes no memory.
    pub fn profile(&self) -> Profile
        ensures { result ≡ self.now.profile }
    {
        self.profile
    }

    /// The language of the table's texts. Takes no memory.
    pub fn language(&self) -> Language
        ensures { result ≡ self.now.entries.language }
    {
        self.entries.language()
    }

    /// Gives the table another profile. Takes no memory.
    pub fn set_profile(&mut self, profile: Profile)
        ensures profile { self.new.profile ≡ profile }
        ensures entries { self.new.entries ≡ self.old.entries }
    {
        self.profile = profile;
    }

    /// The entry at an index. Takes no memory.
    pub fn get(&self, index: u16) -> Option<&Entry>
        ensures { option_copied result ≡ map.get self.now.entries index }
    {
        self.entries.get(index)
    }

    /// What the text of the entry at an index stands for. It was parsed when the entry was put there. Takes no memory.
    pub fn parsed(&self, index: u16) -> Option<&Parsed>
        ensures { option_copied result
            ≡ option_map (body_of self.now.entries.language) (map.get self.now.entries index) }
    {
        self.entries.parsed(index)
    }

    /// The entry at an index, and what its text stands for. Takes no memory.
    pub fn look(&self, index: u16) -> Option<(&Entry, &Parsed)>
        ensures { MatchOption result (map.get self.now.entries index ≡ None)
            (λ p. (map.get self.now.entries index ≡ Some p.0.now)
            × (p.1.now ≡ body_of self.now.entries.language p.0.now)) }
    {
        self.entries.look(index)
    }

    /// The index of the timestamp's entry. Takes no memory.
    pub fn stamp(&self) -> Option<u16>
        ensures { result ≡ stamp_of self.now.entries }
    {
        self.entries.stamp()
    }

    /// The number of entries, at most 65,536. Takes no memory.
    pub fn len(&self) -> u32
        ensures value { result ≡ map.len self.now.entries }
        ensures few { result ≤ 65536 }
    {
        self.entries.len()
    }

    /// The entries in the order of their indexes. Takes no memory.
    pub fn entries(&self) -> Entries<'_>
        ensures { result ≡ map.entries self.now.entries }
    {
        self.entries.entries()
    }

    /// Puts the entry at the index. On a fault the table is unchanged.
    pub fn insert(&mut self, index: u16, entry: Entry) -> Result<(), TableFault>
        // The map afterwards, and a cause only where it is the first that stands.
        ensures answer { Puts self.old.entries index entry
            (InsertRefused self.old.entries index entry) result self.new.entries }
        // Unless memory runs out, the first cause that stands is answered.
        ensures refused { (cause : ℕ) → InsertRefused self.old.entries index entry cause
            → RefusesOnly result cause }
        ensures profile { self.new.profile ≡ self.old.profile }
    {
        self.entries.insert(index, entry)
    }

    /// The same of an entry of which it is known what its text stands for, so that the text isn't parsed. On a fault the
    /// table is unchanged.
    pub fn insert_parsed(
        &mut self,
        index: u16,
        entry: Entry,
        parsed: Parsed,
    ) -> Result<(), TableFault>
        requires { parsed ≡ body_of self.old.entries.language entry }
        // As those of `insert`.
        ensures answer { Puts self.old.entries index entry
            (InsertRefused self.old.entries index entry) result self.new.entries }
        ensures refused { (cause : ℕ) → InsertRefused self.old.entries index entry cause
            → RefusesOnly result cause }
        ensures profile { self.new.profile ≡ self.old.profile }
    {
        self.entries.insert_parsed(index, entry, parsed)
    }

    /// Puts the entry at the greatest index plus 1, at 1 in an empty table, and answers that index. On a fault the
    /// table is unchanged.
    pub fn add(&mut self, entry: Entry) -> Result<u16, TableFault>
        // The map afterwards, and a cause only where it is the first that stands.
        ensures answer { Adds self.old.entries entry result self.new.entries }
        // Unless memory runs out, the first cause that stands is answered.
        ensures refused { (cause : ℕ) → AddRefused self.old.entries entry cause
            → RefusesOnly result cause }
        ensures profile { self.new.profile ≡ self.old.profile }
    {
        self.entries.add(entry)
    }

    /// A table of the same language with the same entries and the same profile.
    pub fn copy(&self) -> Result<Table, Memory>
        ensures { IfOk result (λ copy. copy ≡ self.now) }
    {
        Ok(Table {
            entries: self.entries.copy()?,
            profile: self.profile,
        })
    }
}

/// In a lawful table the index that `stamp` tells has the timestamp's entry, or there is none where it tells none; and no
/// other answer meets this.
pub fn stamp_is_one()
    ensures there { (table : Map) → IsLawful table → StampIs table (stamp_of table) }
    ensures one { (table : Map) (at : Option ℕ) → IsLawful table → StampIs table at
        → stamp_of table ≡ at }
{}

//! The entries of a table by their indexes.

ghost use Rattle.std.specs.Prelude.{◌≡◌, ◌≤◌, IfOk, IfSome, MatchOption, None, Some, option_map};
ghost use Rattle.std.specs.Option.{option_copied};
ghost use Rattle.defmt_intern.specs.Body.{body_of};
ghost use Rattle.defmt_intern.specs.Entries as map;
ghost use Rattle.defmt_intern.specs.Stamp.{stamp_of};
ghost use Rattle.defmt_intern.specs.Table.{IsLawful};

use crate::entry::Entry;
use crate::keeping::{copy_slots, kept_at};
use crate::kept::Kept;
use crate::parsed::Parsed;
use defmt_grammar::Language;
use dl_io::Memory;
use std::alloc::Global;
use std::marker::Model;

// A finite map from indexes to entries of a language.
//
// No text in it has more than 4,096 bytes, and at most one entry is a timestamp's.
#[derive(Drop)]
pub(crate) struct EntryMap {
    pub(crate) alloc: Global,
    pub(crate) language: Language,
    // What is kept at each index from 0 on.
    pub(crate) slots: Vec<Option<Box<Kept>>>,
    // How many entries there are.
    pub(crate) count: u32,
    pub(crate) stamp: Option<u16>,
}

impl Model for EntryMap {
    ghost use Rattle.defmt_intern.specs.Entries as map;
    ghost use Rattle.defmt_intern.specs.Table.{Map, IsWhole, map_of};

    ghost Value = { Map };

    ghost coded = { map.code };

    ghost view = { λ t. map_of t.language t.slots.items };

    ghost invariant = { λ t. IsWhole t.language t.slots.items t.count t.stamp };
}

impl EntryMap {
    /// An empty map of a language. Takes no memory.
    pub fn new(alloc: Global, language: Language) -> EntryMap
        ensures { result ≡ map.empty_of language }
    {
        EntryMap {
            alloc,
            language,
            slots: Vec::new(alloc),
            count: 0,
            stamp: None,
        }
    }

    /// What holds of every map: indexes below 65,536, texts of at most 4,096 bytes, at most one timestamp.
    pub fn lawful(&self)
        ensures { IsLawful self.now }
    {
        let _ = &self.slots;
    }

    /// The language of the texts. Takes no memory.
    pub fn language(&self) -> Language
        ensures { result ≡ self.now.language }
    {
        self.language
    }

    // What is kept at an index.
    fn kept(&self, index: u16) -> Option<&Kept>
        ensures entry { option_map (λ kept. kept.now.entry) result ≡ map.get self.now index }
        ensures read { IfSome result
            (λ kept. kept.now.parsed ≡ body_of self.now.language kept.now.entry) }
    {
        kept_at(self.slots.as_slice(), index)
    }

    /// The entry at an index. Takes no memory.
    pub fn get(&self, index: u16) -> Option<&Entry>
        ensures { option_copied result ≡ map.get self.now index }
    {
        match self.kept(index) {
            Some(kept) => Some(&kept.entry),
            None => None,
        }
    }

    /// What the text of the entry at an index stands for. It was parsed when the entry was put there. Takes no memory.
    pub fn parsed(&self, index: u16) -> Option<&Parsed>
        ensures { option_copied result
            ≡ option_map (body_of self.now.language) (map.get self.now index) }
    {
        match self.kept(index) {
            Some(kept) => Some(&kept.parsed),
            None => None,
        }
    }

    /// The entry at an index, and what its text stands for. Takes no memory.
    pub fn look(&self, index: u16) -> Option<(&Entry, &Parsed)>
        ensures { MatchOption result (map.get self.now index ≡ None)
            (λ p. (map.get self.now index ≡ Some p.0.now)
            × (p.1.now ≡ body_of self.now.language p.0.now)) }
    {
        match self.kept(index) {
            Some(kept) => Some((&kept.entry, &kept.parsed)),
            None => None,
        }
    }

    /// The index of the timestamp's entry. Takes no memory.
    pub fn stamp(&self) -> Option<u16>
        ensures { result ≡ stamp_of self.now }
    {
        self.stamp
    }

    /// The number of entries, at most 65,536. Takes no memory.
    pub fn len(&self) -> u32
        ensures value { result ≡ map.len self.now }
        ensures few { result ≤ 65536 }
    {
        self.count
    }

    /// The entries in the order of their indexes. Takes no memory.
    pub fn entries(&self) -> Entries<'_>
        ensures { result ≡ map.entries self.now }
    {
        Entries {
            slots: self.slots.as_slice(),
            index: 0,
        }
    }

    /// A map of the same language with the same entries.
    pub fn copy(&self) -> Result<EntryMap, Memory>
        ensures { IfOk result (λ copy. copy ≡ self.now) }
    {
        Ok(EntryMap {
            alloc: self.alloc,
            language: self.language,
            slots: copy_slots(self.alloc, self.slots.as_slice(), self.language)?,
            count: self.count,
            stamp: self.stamp,
        })
    }
}

/// The entries of a table that are still to come, in the order of their indexes.
#[derive(Drop)]
pub struct Entries<'a> {
    slots: &'a [Option<Box<Kept>>],
    // The index of the first of these slots.
    index: u32,
}

impl<'a> Model for Entries<'a> {
    ghost use Rattle.std.specs.Prelude.{◌+◌, ◌≤◌, ℕ, List, length};
    ghost use Rattle.defmt_intern.specs.declared.entry.Entry.{Entry as AnyEntry};
    ghost use Rattle.defmt_intern.specs.Table.{entries_in, listed};

    ghost Value = { List (ℕ × AnyEntry) };

    ghost view = { λ e. listed e.index (entries_in e.slots.now) };

    ghost invariant = { λ e. e.index + length e.slots.now ≤ 65536 };
}

impl<'a> Iterator for Entries<'a> {
    ghost use Rattle.std.specs.Iterator.{YieldsFirstBy, item_count};

    type Item = (u16, &'a Entry);

    ghost next_gives = { YieldsFirstBy (λ x. (x.0, x.1.now)) (λ s. s) };

    ghost remaining = { item_count (λ s. s) };

    fn next(&mut self) -> Option<(u16, &'a Entry)> {
        'each: while let Some((slot, rest)) = self.slots.split_first() {
            let index = self.index;
            self.slots = rest;
            self.index += 1;
            if let Some(kept) = slot {
                return Some((index as u16, &kept.entry));
            }
        }
        None
    }
}

//! Places by their indexes.
ghost use Rattle.std.specs.Prelude.{◌≡◌, ◌↔◌, IsTrue, OnOk, OnErr, is_some};
ghost use Rattle.std.specs.Option.{option_copied};
ghost use Rattle.std.specs.FinMap as map;

use crate::slots::{keep, place_at};
use defmt_grammar::Text;
use dl_io::Memory;
use std::alloc::Global;
use std::marker::Model;

/// A finite map from indexes to places in the sources.
#[derive(Drop)]
pub struct Places {
    alloc: Global,
    // The place of each index from 0 on.
    slots: Vec<Option<Text>>,
    // Whether there is none.
    none: bool,
}

impl Model for Places {
    ghost use Rattle.std.specs.Prelude.{◌≡◌, ◌↔◌, IsTrue};
    ghost use Rattle.std.specs.FinMap as map;
    ghost use Rattle.std.specs.Coded.{coded_ℕ, coded_list};
    ghost use Rattle.defmt_places.specs.Places.{Map};
    ghost use Rattle.defmt_places.specs.Slots.{map_of};

    ghost Value = { Map };

    ghost coded = { map.code coded_ℕ (coded_list coded_ℕ) };

    ghost view = { λ p. map_of p.slots.items };

    ghost invariant = { λ p. IsTrue p.none ↔ (map_of p.slots.items ≡ map.empty) };
}

impl Places {
    /// No place at all. Takes no memory.
    pub fn new(alloc: Global) -> Places
        ensures { result ≡ map.empty }
    {
        Places {
            alloc,
            slots: Vec::new(alloc),
            none: true,
        }
    }

    /// The place of an index, where it has one. Takes no memory.
    pub fn get(&self, index: u16) -> Option<&str>
        ensures { option_copied result ≡ map.get self.now index }
    {
        place_at(self.slots.as_slice(), index)
    }

    /// Whether no index has a place. Takes no memory.
    pub fn is_empty(&self) -> bool
        ensures { IsTrue result ↔ (self.now ≡ map.empty) }
    {
        self.none
    }

    // Whether the index has a place.
    pub(crate) fn has(&self, index: u16) -> bool
        ensures { result ≡ is_some (map.get self.now index) }
    {
        self.get(index).is_some()
    }

    // Gives the index this place. Where memory runs out the places are as before.
    pub(crate) fn put(&mut self, index: u16, place: &str) -> Result<(), Memory>
        ensures ok { OnOk result (self.new ≡ map.insert self.old index place.now) }
        ensures err { OnErr result (self.new ≡ self.old) }
    {
        keep(self.alloc, &mut self.slots, index, place)?;
        self.none = false;
        Ok(())
    }
}

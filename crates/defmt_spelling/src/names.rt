//! Names of entries.
ghost use Rattle.std.specs.Prelude.{◌≡◌, OnOk, OnErr};
ghost use Rattle.std.specs.Option.{option_copied};
ghost use Rattle.std.specs.FinMap as map;
ghost use Rattle.defmt_spelling.specs.Names.{comes_before, name_of};

use crate::near::{Near, keep_near, near_index};
use dl_io::Memory;
use std::alloc::Global;
use std::collections::HashMap;
use std::marker::Model;

/// Names, and the index that each stands for: a finite map from texts to indexes.
pub struct Names {
    alloc: Global,
    names: HashMap<String, u16>,
    near: Vec<Option<Near>>,
}

// By hand: a derived drop is proved again in each crate that drops such a value.
impl Drop for Names {
    fn drop(self) {
        let Names {
            alloc: _,
            names: _,
            near: _,
        } = self;
    }
}

impl Model for Names {
    ghost use Rattle.std.specs.FinMap as map;
    ghost use Rattle.std.specs.Coded.{coded_list, coded_ℕ};
    ghost use Rattle.defmt_spelling.specs.Names.{NameMap, AreNear, names_of};

    ghost Value = { NameMap };

    ghost coded = { map.code (coded_list coded_ℕ) coded_ℕ };

    ghost view = { λ n. names_of n.names.entries };

    ghost invariant = { λ n. AreNear (names_of n.names.entries) n.near.items };
}

// Whether a name is less than the least so far.
fn comes_before(name: &str, least: Option<&str>) -> bool
    ensures { result ≡ comes_before name.now (option_copied least.entry) }
{
    match least {
        None => true,
        Some(least) => name.cmp(&least).is_lt(),
    }
}

impl Names {
    /// No names. They grow by this allocator. Takes no memory.
    pub fn new(alloc: Global) -> Names
        ensures { result ≡ map.empty }
    {
        Names {
            alloc,
            names: HashMap::new(alloc),
            near: Vec::new(alloc),
        }
    }

    /// Gives the name this index, also where it had another. On `Memory` the map is unchanged.
    pub fn put(&mut self, name: &str, index: u16) -> Result<(), Memory>
        ensures ok { OnOk result (self.new ≡ map.insert self.old name.now index) }
        ensures err { OnErr result (self.new ≡ self.old) }
    {
        let key = String::from_str(self.alloc, name)?;
        let near = Near {
            name: String::from_str(self.alloc, name)?,
            index,
        };
        let known = self.names.insert(key, index)?.is_some();
        if known {
            self.near = Vec::new(self.alloc);
        } else {
            keep_near(&mut self.near, near);
        }
        Ok(())
    }

    /// The index of a name, `None` exactly where the name isn't in the map. Takes no memory.
    #[inline(always)]
    pub fn get(&self, name: &str) -> Option<u16>
        ensures { result ≡ map.get self.now name.now }
    {
        match near_index(&self.near, name) {
            Some(index) => Some(index),
            None => self.names.get(name).copied(),
        }
    }

    /// The name of an index, and of several the least in the order of bytes. `None` exactly where no name has the
    /// index. Takes no memory, and goes along the names.
    pub fn name_of(&self, index: u16) -> Option<&str>
        ensures { option_copied result ≡ name_of self.now index }
    {
        let mut least = None;
        for (name, at) in self.names.iter() {
            let name = name.as_str();
            if *at == index && comes_before(name, least) {
                least = Some(name);
            }
        }
        least
    }
}

//! Files in memory, for tests.
ghost use Rattle.std.specs.Prelude.{◌≡◌, ◌⊎◌, ◌↔◌, ◌-◌, ◌≤◌, ℕ, List, length, min, take, drop, Some, None, IsErr, IfOk, OnErr, OnOk};
ghost use Rattle.std.specs.Option.{option_copied};
ghost use Rattle.std.specs.Io.{ReadsAtMost};
ghost use Rattle.std.specs.FinMap as map;
ghost use Rattle.dl_io.specs.Outside.{Rose, FetchesFrom, IsListed, is_listed, counted, fresh};

use crate::memory::Fails;
use crate::{Bytes, Failed, Memory, Shelf};
use std::alloc::Global;
use std::collections::BTreeMap;
use std::marker::Model;

/// A shelf of files in memory, which fails at the fetches that are listed.
#[derive(Drop)]
pub struct MemShelf {
    alloc: Global,
    files: BTreeMap<String, Bytes>,
    fails: Fails,
}

impl Model for MemShelf {
    ghost use Rattle.std.specs.Prelude.{string_bytes, map};
    ghost use Rattle.std.specs.FinMap.{from_entries};
    ghost use Rattle.dl_io.specs.Cabinet.{Cabinet, cabinet_code};

    ghost Value = { Cabinet };

    ghost coded = { cabinet_code };

    ghost view = { λ s. record { files = from_entries (map (λ e. (string_bytes e.0, e.1.items)) s.files.entries); plan = s.fails } };
}

impl MemShelf {
    /// A shelf with no file yet. The bytes of `fails` are the numbers of the fetches that are to fail,
    /// of which the first is 0. Takes no memory.
    pub fn new(alloc: Global, fails: Bytes) -> Self
        ensures { result ≡ record { files = map.empty; plan = fresh fails.items } }
    {
        MemShelf {
            alloc,
            files: BTreeMap::new(alloc),
            fails: Fails::new(fails),
        }
    }

    /// Gives the name this file, also where it had another. On `Memory` the shelf is as before.
    pub fn put(&mut self, name: &str, bytes: Bytes) -> Result<(), Memory>
        ensures ok { OnOk result (self.new ≡ record { files = map.insert self.old.files name.now bytes.items; plan = self.old.plan }) }
        ensures err { OnErr result (self.new ≡ self.old) }
    {
        let key = String::from_str(self.alloc, name)?;
        self.files.insert(key, bytes)?;
        Ok(())
    }

    // The file of the name, if there is one.
    fn file(&self, name: &str) -> Option<&[u8]>
        ensures { option_copied result ≡ map.get self.now.files name.now }
    {
        match self.files.get(name) {
            Some(file) => Some(file.as_slice()),
            None => None,
        }
    }
}

impl Shelf for MemShelf {
    ghost files = { λ s. Some (λ name. map.get s.files name) };

    ghost faults = { λ s. s.plan.faults };

    fn fetch(&mut self, name: &str, at: u64, buf: &mut [u8]) -> Result<usize, Failed>
        ensures bound { ReadsAtMost result buf.new }
        ensures bytes { FetchesFrom (map.get self.old.files name.now) at result buf.new }
        ensures same { self.new.files ≡ self.old.files }
        ensures later { self.old.plan.faults ≤ self.new.plan.faults }
        ensures failed { OnErr result (Rose self.old.plan.faults self.new.plan.faults ⊎ (map.get self.old.files name.now ≡ None)) }
        ensures kept { OnErr result (buf.new ≡ buf.old) }

        // It fails exactly where it is listed or there is no such file, but a missing file is no fault. Else
        // it gives as much as there is and as fits.
        ensures listed { IsErr result ↔ (IsListed self.old.plan ⊎ (map.get self.old.files name.now ≡ None)) }
        ensures count { (file : List ℕ) → map.get self.old.files name.now ≡ Some file →
            IfOk result (λ count. count ≡ min (length file - at) (length buf.old)) }
        ensures plan { self.new.plan ≡ counted self.old.plan (is_listed self.old.plan) }
    {
        let fails = self.fails.is_next();
        self.fails.count(fails);
        if fails {
            return Err(Failed);
        }
        match self.file(name) {
            Some(file) => Ok(copy_from(file, at, buf)),
            None => Err(Failed),
        }
    }

    fn faults(&self) -> u64 {
        self.fails.faults()
    }
}

// Copies what the file has from the place on, as far as the buffer goes.
fn copy_from(file: &[u8], at: u64, buf: &mut [u8]) -> usize
    ensures count { result ≡ min (length file.now - at) (length buf.old) }
    ensures bytes { take result buf.new ≡ take result (drop at file.now) }
{
    let start = (at as usize).min(file.len());
    let left = &file[start..];
    let count = left.len().min(buf.len());
    buf[..count].copy_from_slice(&left[..count]);
    count
}

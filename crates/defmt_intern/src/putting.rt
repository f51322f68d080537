//! How entries are put into a table.

ghost use Rattle.std.specs.Prelude.{◌≡◌, ℕ, IsSome, MatchOption};
ghost use Rattle.defmt_intern.specs.Body.{body_of};
ghost use Rattle.defmt_intern.specs.Entries as map;
ghost use Rattle.defmt_intern.specs.Table.{IsGreatest, IsNext, InsertRefused, AddRefused, EntryRefused, Puts, PutsUnlessMemory, Adds, RefusesOnly, cause_number};

use crate::entry::Entry;
use crate::keeping::{keep, kept_of, last_kept};
use crate::kept::Kept;
use crate::map::EntryMap;
use crate::parsed::Parsed;
use crate::table::TableFault;

/// The most bytes of an entry's text.
pub const TEXT_LIMIT: usize = 4096;

enum Cause {
    Full,
    Double,
    Long,
    Stamps,
}

impl Cause {
    fn number(self) -> u8
        ensures { result ≡ cause_number self }
    {
        match self {
            Cause::Full => 1,
            Cause::Double => 2,
            Cause::Long => 4,
            Cause::Stamps => 5,
        }
    }
}

impl EntryMap {
    // Why an entry is refused, whatever its index.
    fn refusal(&self, entry: &Entry) -> Option<Cause>
        ensures { MatchOption result ((cause : ℕ) → EntryRefused self.now entry.now cause → ⊥)
            (λ cause. EntryRefused self.now entry.now (cause_number cause)) }
    {
        if entry.text.as_str().len() > TEXT_LIMIT {
            return Some(Cause::Long);
        }
        if entry.is_stamp() && self.stamp.is_some() {
            return Some(Cause::Stamps);
        }
        None
    }

    // Why an entry is refused at an index.
    fn refusal_at(&self, index: u16, entry: &Entry) -> Option<Cause>
        ensures { MatchOption result
            ((cause : ℕ) → InsertRefused self.now index entry.now cause → ⊥)
            (λ cause. InsertRefused self.now index entry.now (cause_number cause)) }
    {
        if self.get(index).is_some() {
            return Some(Cause::Double);
        }
        self.refusal(entry)
    }

    // Keeps an entry at a free index.
    fn put(&mut self, index: u16, kept: Kept) -> Result<(), TableFault>
        requires free { IsSome (map.get self.old index) → ⊥ }
        requires read { kept.parsed ≡ body_of self.old.language kept.entry }
        requires admitted { (cause : ℕ) → EntryRefused self.old kept.entry cause → ⊥ }
        ensures { PutsUnlessMemory self.old index kept.entry result self.new }
    {
        let is_stamp = kept.entry.is_stamp();
        keep(self.alloc, &mut self.slots, index, kept)?;
        self.count += 1;
        if is_stamp {
            self.stamp = Some(index);
        }
        Ok(())
    }

    /// Puts the entry at the index. On a fault the map is unchanged.
    pub fn insert(&mut self, index: u16, entry: Entry) -> Result<(), TableFault>
        // The map afterwards, and a cause only where it is the first that stands.
        ensures answer { Puts self.old index entry
            (InsertRefused self.old index entry) result self.new }
        // Unless memory runs out, the first cause that stands is answered.
        ensures refused { (cause : ℕ) → InsertRefused self.old index entry cause
            → RefusesOnly result cause }
    {
        if let Some(cause) = self.refusal_at(index, &entry) {
            return Err(TableFault::Refused {
                cause: cause.number(),
            });
        }
        let kept = kept_of(self.alloc, entry, self.language)?;
        self.put(index, kept)
    }

    /// The same of an entry of which it is known what its text stands for, so that the text isn't parsed.
    pub fn insert_parsed(
        &mut self,
        index: u16,
        entry: Entry,
        parsed: Parsed,
    ) -> Result<(), TableFault>
        requires { parsed ≡ body_of self.old.language entry }
        ensures answer { Puts self.old index entry
            (InsertRefused self.old index entry) result self.new }
        ensures refused { (cause : ℕ) → InsertRefused self.old index entry cause
            → RefusesOnly result cause }
    {
        if let Some(cause) = self.refusal_at(index, &entry) {
            return Err(TableFault::Refused {
                cause: cause.number(),
            });
        }
        let kept = Kept { entry, parsed };
        self.put(index, kept)
    }

    // The greatest index plus 1, or 1 in an empty map; `None` where the greatest index is 65,535.
    fn next_index(&self) -> Option<u16>
        ensures { MatchOption result (IsGreatest self.now 65535)
            (λ n. IsNext self.now n × (IsSome (map.get self.now n) → ⊥)
            × (IsGreatest self.now 65535 → ⊥)) }
    {
        match last_kept(self.slots.as_slice()) {
            None => Some(1),
            Some(greatest) => greatest.checked_add(1),
        }
    }

    /// Puts the entry at the greatest index plus 1, at 1 in an empty map, and answers that index. On a fault the
    /// map is unchanged.
    pub fn add(&mut self, entry: Entry) -> Result<u16, TableFault>
        // The map afterwards, and a cause only where it is the first that stands.
        ensures answer { Adds self.old entry result self.new }
        // Unless memory runs out, the first cause that stands is answered.
        ensures refused { (cause : ℕ) → AddRefused self.old entry cause → RefusesOnly result cause }
    {
        let Some(index) = self.next_index() else {
            return Err(TableFault::Refused {
                cause: Cause::Full.number(),
            });
        };
        if let Some(cause) = self.refusal(&entry) {
            return Err(TableFault::Refused {
                cause: cause.number(),
            });
        }
        let kept = kept_of(self.alloc, entry, self.language)?;
        self.put(index, kept)?;
        Ok(index)
    }
}

//! Sites.
ghost use Rattle.std.specs.Prelude.{◌≡◌, ◌≤◌, length, MatchOption, IfOk, IsTrue, ◌↔◌};
ghost use Rattle.defmt_intern.specs.declared.entry.Tag.{Tag as AnyTag};
ghost use Rattle.defmt_macros.specs.Sites.{found, DifferAt, Finds, Answers, GivesOnly, RefusesOnly, Refuses, IsSite};
ghost use Rattle.defmt_encode.specs.Placed.{HasPlace};
ghost use Rattle.defmt_macros.specs.Stamps.{StampSuits};
ghost use Rattle.defmt_macros.specs.declared.site.SiteFault.{SiteFault as AnyFault};

use crate::slots::Slots;
use defmt_encode::stamp_slots;
use defmt_grammar::{IntSize, Kind, Slot};
use defmt_intern::{Parsed, Table, Tag};
use defmt_values::{cut, is_logged, look_up};
use dl_io::Memory;
use std::alloc::Global;
use std::marker::Model;

/// Why there is no site.
#[derive(Clone, Copy, Debug)]
pub enum SiteFault {
    /// The index isn't in the table.
    NoEntry,
    /// The tag of the entry is no level's, and not println's.
    NotLog,
    /// The entry's text was refused.
    Unsupported,
    /// The slots of the entry's text and the given ones differ, at this position first. Where one list only goes on
    /// behind the other, the position is the length of the shorter.
    Slots { position: u8 },
    /// Want of memory.
    Memory,
}

impl From<Memory> for SiteFault {
    ghost use Rattle.std.specs.Prelude.{◌≡◌};
    ghost use Rattle.defmt_macros.specs.declared.site.SiteFault.TheVariants.{Memory as OutOfMemory};

    ghost from_gives = { λ _ fault. fault ≡ OutOfMemory };

    fn from(_: Memory) -> SiteFault {
        SiteFault::Memory
    }
}

/// A place in a program that logs: the index of its entry, the entry's tag and the slots of its text.
pub struct Site {
    index: u16,
    tag: Tag,
    slots: Slots,
}

// By hand: a derived drop is proved again in each crate that drops such a value.
impl Drop for Site {
    fn drop(self) {
        let Site {
            index: _,
            tag: _,
            slots: _,
        } = self;
    }
}

impl Model for Site {
    ghost use Rattle.defmt_macros.specs.Spot.{Spot};

    ghost Value = { Spot };

    ghost view = { λ s. record { index = s.index; tag = s.tag; slots = s.slots } };
}

// The tag of a message's entry and the slots of its text.
fn message_at(table: &Table, index: u16) -> Result<(&Tag, &[Slot]), SiteFault>
    ensures found { Finds (found table.now.entries index) result }
    ensures few { IfOk result (λ p. length p.1.now ≤ 16) }
{
    let Some((entry, body)) = look_up(table, index) else {
        return Err(SiteFault::NoEntry);
    };
    if !is_logged(&entry.tag) {
        return Err(SiteFault::NotLog);
    }
    match body {
        Parsed::One(pieces) => Ok((&entry.tag, pieces.slots())),
        _ => Err(SiteFault::Unsupported),
    }
}

// Where two lists of slots differ first.
fn difference(own: &[Slot], given: &[Slot]) -> Option<u8>
    requires { length own.now ≤ 16 }
    ensures { MatchOption result (own.now ≡ given.now)
        (λ position. DifferAt own.now given.now position × (position ≤ length own.now)) }
{
    match (cut(own), cut(given)) {
        (None, None) => None,
        (Some((a, own)), Some((b, given))) if *a == *b => Some(difference(own, given)? + 1),
        _ => Some(0),
    }
}

impl Site {
    /// The site that logs the entry at an index, whose arguments have these slots.
    ///
    /// # Errors
    /// The first that holds, in this order: `NoEntry`, `NotLog`, `Unsupported`, `Slots`. `Memory` where memory runs
    /// out.
    pub fn new(alloc: Global, table: &Table, index: u16, slots: &[Slot]) -> Result<Site, SiteFault>
        // A site is answered only where the entry is a message's and has these slots, and a fault only where it stands.
        ensures answer { Answers table.now.entries index slots.now result }
        // Unless memory runs out, the site is answered where there is one, and the fault that stands.
        ensures made { (tag : AnyTag) → IsSite table.now.entries index tag slots.now
            → GivesOnly result tag }
        ensures refused { (fault : AnyFault) → Refuses table.now.entries index slots.now fault
            → RefusesOnly result fault }
    {
        let (tag, own) = message_at(table, index)?;
        if let Some(position) = difference(own, slots) {
            return Err(SiteFault::Slots { position });
        }
        Ok(Site {
            index,
            tag: tag.copy(alloc)?,
            slots: Slots::from_slice(alloc, slots)?,
        })
    }

    /// The index of the site's entry. Takes no memory.
    pub fn index(&self) -> u16
        ensures { result ≡ self.now.index }
    {
        self.index
    }

    /// The tag of the site's entry. Takes no memory.
    pub fn tag(&self) -> &Tag
        ensures { result.now ≡ self.now.tag }
    {
        &self.tag
    }

    /// The slots of the site's text. Takes no memory.
    pub fn slots(&self) -> &[Slot]
        ensures { result.now ≡ self.now.slots }
    {
        self.slots.as_slice()
    }

    /// Asks of its caller that the site suits a message of this tag with an entry of this table, this place and this
    /// stamp, and does nothing.
    ///
    /// The site's tag is this one, its index, tag and slots are those of an entry of the table, there is a place exactly
    /// in profile Two, and the stamp is one number where the text of the table's timestamp takes one of 64 bits, and none
    /// where it takes nothing. Takes no memory.
    #[inline]
    pub fn suits(&self, table: &Table, tag: &Tag, place: Option<u16>, stamp: Option<u64>)
        requires tag { self.now.tag ≡ tag.now }
        requires entry { IsSite table.now.entries self.now.index self.now.tag self.now.slots }
        requires place { HasPlace table.now.profile place }
        requires stamp { StampSuits table.now.entries stamp }
    {
        let _ = table;
        let _ = tag;
        let _ = place;
        let _ = stamp;
    }
}

/// Whether a stamp suits a table: it is one number where the text of the table's timestamp takes one of 64 bits, and none
/// where that takes nothing or there is no timestamp. Takes no memory.
pub fn stamp_suits(table: &Table, stamp: Option<u64>) -> bool
    ensures { IsTrue result ↔ StampSuits table.now.entries stamp }
{
    let slots = stamp_slots(table);
    match stamp {
        None => slots.is_empty(),
        Some(_) => slots.len() == 1 && slots[0] == Slot::One(Kind::Uint(IntSize::W64)),
    }
}

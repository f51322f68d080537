//! Entries kept in slots, one for each index, each with what its text stands for.
ghost use Rattle.std.specs.Prelude.{◌≡◌, ◌≤◌, None, length, option_map, slice_index_or, MatchOption, OnOk, OnErr, IfOk, IfSome};
ghost use Rattle.std.specs.FinMap as map;
ghost use Rattle.defmt_grammar.specs.declared.language.Language.{Language as AnyLanguage};
ghost use Rattle.defmt_intern.specs.Body.{body_of};
ghost use Rattle.defmt_intern.specs.Table.{AreReadIn, IsGreatestIn, IsReadIn, entry_in, entries_in, kept_in};

use crate::entry::Entry;
use crate::kept::Kept;
use crate::parsed::body_of;
use defmt_grammar::Language;
use dl_io::Memory;
use std::alloc::Global;

// The entry, and what its text stands for.
pub(crate) fn kept_of(alloc: Global, entry: Entry, language: Language) -> Result<Kept, Memory>
    requires { length entry.text ≤ 4096 }
    ensures entry { IfOk result (λ kept. kept.entry ≡ entry) }
    ensures read { IfOk result (λ kept. kept.parsed ≡ body_of language kept.entry) }
{
    let parsed = body_of(alloc, &entry, language)?;
    Ok(Kept { entry, parsed })
}

// What is kept at an index.
pub(crate) fn kept_at(slots: &[Option<Box<Kept>>], index: u16) -> Option<&Kept>
    ensures entry { option_map (λ kept. kept.now.entry) result
        ≡ slice_index_or (entries_in slots.now) index None }
    ensures read { (language : AnyLanguage) → AreReadIn language slots.now
        → IfSome result (λ kept. kept.now.parsed ≡ body_of language kept.now.entry) }
{
    match slots.get(index as usize) {
        Some(Some(kept)) => Some(&**kept),
        _ => None,
    }
}

// The greatest index at which something is kept.
pub(crate) fn last_kept(slots: &[Option<Box<Kept>>]) -> Option<u16>
    requires { length slots.now ≤ 65536 }
    ensures { MatchOption result (kept_in slots.now ≡ map.empty)
        (IsGreatestIn (kept_in slots.now)) }
{
    let mut rest = slots;
    'each: while let Some((slot, front)) = rest.split_last() {
        if slot.is_some() {
            return Some(front.len() as u16);
        }
        rest = front;
    }
    None
}

// Makes empty slots until there are this many.
fn grow(slots: &mut Vec<Option<Box<Kept>>>, count: usize) -> Result<(), Memory>
    requires { (length slots.old.items ≤ 65536) × (count ≤ 65536) }
    ensures room { OnOk result (count ≤ length slots.new.items) }
    ensures kept { kept_in slots.new.items ≡ kept_in slots.old.items }
    ensures read { (language : AnyLanguage) → AreReadIn language slots.old.items
        → AreReadIn language slots.new.items }
    ensures few { length slots.new.items ≤ 65536 }
{
    'each: while slots.len() < count {
        slots.push(None)?;
    }
    Ok(())
}

// Keeps an entry at an index.
pub(crate) fn keep(
    alloc: Global,
    slots: &mut Vec<Option<Box<Kept>>>,
    index: u16,
    kept: Kept,
) -> Result<(), Memory>
    requires { length slots.old.items ≤ 65536 }
    ensures ok { OnOk result
        (kept_in slots.new.items ≡ map.insert (kept_in slots.old.items) index kept.entry) }
    ensures err { OnErr result (kept_in slots.new.items ≡ kept_in slots.old.items) }
    ensures read { (language : AnyLanguage) → AreReadIn language slots.old.items
        → kept.parsed ≡ body_of language kept.entry → AreReadIn language slots.new.items }
    ensures few { length slots.new.items ≤ 65536 }
{
    let place = index as usize;
    let boxed = Box::new(alloc, kept)?;
    grow(slots, place + 1)?;
    slots[place] = Some(boxed);
    Ok(())
}

fn copy_slot(
    alloc: Global,
    slot: &Option<Box<Kept>>,
    language: Language,
) -> Result<Option<Box<Kept>>, Memory>
    ensures entry { IfOk result (λ copy. entry_in copy ≡ entry_in slot.now) }
    ensures read { IfOk result (IsReadIn language) }
{
    match slot {
        Some(kept) => {
            let entry = kept.entry.copy(alloc)?;
            let copy = kept_of(alloc, entry, language)?;
            let boxed = Box::new(alloc, copy)?;
            Ok(Some(boxed))
        }
        None => Ok(None),
    }
}

// Slots with the same entries, read in this language.
pub(crate) fn copy_slots(
    alloc: Global,
    slots: &[Option<Box<Kept>>],
    language: Language,
) -> Result<Vec<Option<Box<Kept>>>, Memory>
    ensures entries { IfOk result (λ copy. entries_in copy.items ≡ entries_in slots.now) }
    ensures read { IfOk result (λ copy. AreReadIn language copy.items) }
{
    let mut copies = Vec::new(alloc);
    for slot in slots {
        let copy = copy_slot(alloc, slot, language)?;
        copies.push(copy)?;
    }
    Ok(copies)
}

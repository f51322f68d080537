//! Slots of places, one for each index.
ghost use Rattle.std.specs.Prelude.{◌≡◌, ◌≤◌, None, length, slice_index_or, OnOk, OnErr};
ghost use Rattle.std.specs.Option.{option_copied};
ghost use Rattle.std.specs.FinMap as map;
ghost use Rattle.defmt_places.specs.Slots.{map_of};

use defmt_grammar::Text;
use dl_io::Memory;
use std::alloc::Global;

// The place at an index.
pub(crate) fn place_at(slots: &[Option<Text>], index: u16) -> Option<&str>
    ensures { option_copied result ≡ slice_index_or slots.now index None }
{
    match slots.get(index as usize) {
        Some(Some(place)) => Some(place.as_str()),
        _ => None,
    }
}

// Makes empty slots until there are this many.
fn grow(slots: &mut Vec<Option<Text>>, count: usize) -> Result<(), Memory>
    ensures room { OnOk result (count ≤ length slots.new.items) }
    ensures kept { map_of slots.new.items ≡ map_of slots.old.items }
{
    'each: while slots.len() < count {
        slots.push(None)?;
    }
    Ok(())
}

// Keeps a place at an index.
pub(crate) fn keep(
    alloc: Global,
    slots: &mut Vec<Option<Text>>,
    index: u16,
    place: &str,
) -> Result<(), Memory>
    ensures ok { OnOk result
        (map_of slots.new.items ≡ map.insert (map_of slots.old.items) index place.now) }
    ensures err { OnErr result (map_of slots.new.items ≡ map_of slots.old.items) }
{
    let mut copy = Text::new(alloc);
    match copy.push_str(place) {
        Ok(()) => {}
        Err(_) => return Err(Memory),
    }
    let at = index as usize;
    grow(slots, at + 1)?;
    slots[at] = Some(copy);
    Ok(())
}

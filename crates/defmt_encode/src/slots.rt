//! The slots of the arguments of entries.
ghost use Rattle.std.specs.Prelude.{◌≡◌};
ghost use Rattle.defmt_encode.specs.Carry.{node_slots, own_slots, stamp_slots};
ghost use Rattle.defmt_intern.specs.Stamp.{stamp_of};

use defmt_grammar::Slot;
use defmt_intern::Table;
use defmt_values::{form_of, own_form, pick};

// The slots of the arguments of a Format value, or of an element.
pub(crate) fn node_slots(table: &Table, index: u16, variant: Option<u8>) -> &[Slot]
    ensures { result.now ≡ node_slots table.now.entries index variant }
{
    match form_of(table, index) {
        Err(_) => &[],
        Ok(form) => match pick(form, variant) {
            Err(_) => &[],
            Ok(pieces) => pieces.slots(),
        },
    }
}

// The slots of the arguments of an entry's own text.
pub(crate) fn own_slots(table: &Table, index: u16) -> &[Slot]
    ensures { result.now ≡ own_slots table.now.entries index }
{
    match own_form(table, index) {
        Err(_) => &[],
        Ok(pieces) => pieces.slots(),
    }
}

/// The slots of the stamp's arguments, none where the table has no timestamp. Takes no memory.
pub fn stamp_slots(table: &Table) -> &[Slot]
    ensures { result.now ≡ stamp_slots table.now.entries (stamp_of table.now.entries) }
{
    match table.stamp() {
        None => &[],
        Some(index) => own_slots(table, index),
    }
}

//! Lists of slots.
ghost use Rattle.std.specs.Prelude.{◌≡◌, ◌++◌, ◌∷◌, [], OnOk, OnErr, IfOk};

use defmt_grammar::Slot;
use dl_io::Memory;
use std::alloc::Global;
use std::marker::Model;

/// The slots of a format string, one for each position (defmt book, "Formatting parameters").
#[derive(Drop)]
pub struct Slots {
    slots: Vec<Slot>,
}

impl Model for Slots {
    ghost use Rattle.std.specs.Prelude.{List};
    ghost use Rattle.defmt_grammar.specs.declared.slot.Slot.{Slot as AnySlot};

    ghost Value = { List AnySlot };

    ghost view = { λ s. s.slots.items };
}

impl Slots {
    /// The empty list. It grows by this allocator. Takes no memory.
    pub fn new(alloc: Global) -> Self
        ensures { result ≡ [] }
    {
        Slots {
            slots: Vec::new(alloc),
        }
    }

    /// A list of the same slots.
    pub fn from_slice(alloc: Global, slots: &[Slot]) -> Result<Self, Memory>
        ensures { IfOk result (λ list. list ≡ slots.now) }
    {
        Ok(Slots {
            slots: slots.to_vec(alloc)?,
        })
    }

    /// Appends a slot. Where memory runs out the list is unchanged.
    pub fn push(&mut self, item: Slot) -> Result<(), Memory>
        ensures ok { OnOk result (self.new ≡ self.old ++ item ∷ []) }
        ensures err { OnErr result (self.new ≡ self.old) }
    {
        self.slots.push(item)?;
        Ok(())
    }

    /// The slots in their order. Takes no memory.
    pub fn as_slice(&self) -> &[Slot]
        ensures { result.now ≡ self.now }
    {
        self.slots.as_slice()
    }
}

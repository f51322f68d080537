//! Events.

ghost use Rattle.std.specs.Prelude.{◌≡◌, [], ◌∷◌, ◌++◌, OnOk, OnErr};

use defmt_grammar::Text;
use defmt_plan::Parts;
use dl_io::Memory;
use std::alloc::Global;
use std::marker::Model;

/// What a part of a stream of frames tells.
#[derive(Drop)]
pub enum Event {
    /// A statement was heard.
    Line {
        /// The index of its entry in the table.
        index: u16,
        /// The place of its frame, the number of its mark modulo 65,536: there is one exactly in profile Two.
        place: Option<u16>,
        /// The parts of its line.
        parts: Parts,
        /// Its printed line, without a newline.
        text: Text,
    },
    /// A piece gives no line.
    Bad {
        /// The number of the first cause that stands in the piece: it is no code, its message is
        /// refused with a cause of defmt_encode, it has more than 65,536 bytes, or the text of its
        /// stamp or of its statement has. defmt_encode has the numbers, and `fault_name` the names.
        cause: u8,
    },
    /// Bytes stand before the first zero.
    CutFront {
        /// How many; the last value of its type where there are more.
        bytes: u64,
    },
    /// Bytes stand behind the last zero.
    CutTail {
        /// How many; the last value of its type where there are more.
        bytes: u64,
    },
}

/// A list of events.
pub struct Events {
    items: Vec<Event>,
}

// By hand: a derived drop is proved again in each crate that drops such a value.
impl Drop for Events {
    fn drop(self) {
        let Events { items: _ } = self;
    }
}

impl Model for Events {
    ghost use Rattle.std.specs.Prelude.{List};
    ghost use Rattle.defmt_decode.specs.declared.event.Event.{Event as Told};

    ghost Value = { List Told };

    ghost view = { λ e. e.items.items };
}

impl Events {
    /// The empty list. It grows by this allocator. Takes no memory.
    pub fn new(alloc: Global) -> Self
        ensures { result ≡ [] }
    {
        Events {
            items: Vec::new(alloc),
        }
    }

    /// Appends an event. Where memory runs out the list is unchanged.
    pub fn push(&mut self, item: Event) -> Result<(), Memory>
        ensures ok { OnOk result (self.new ≡ self.old ++ item ∷ []) }
        ensures err { OnErr result (self.new ≡ self.old) }
    {
        self.items.push(item)?;
        Ok(())
    }

    /// The events in their order. Takes no memory.
    pub fn as_slice(&self) -> &[Event]
        ensures { result.now ≡ self.now }
    {
        &self.items
    }
}

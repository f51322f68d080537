//! Control blocks and their descriptors.
ghost use Rattle.std.specs.Prelude.{◌≡◌, ◌↔◌, [], ◌∷◌, ◌++◌, length, IsTrue, OnOk, OnErr};

use dl_io::Memory;
use std::alloc::Global;
use std::marker::Model;

/// One buffer of a control block: `SEGGER_RTT_BUFFER_UP` or `SEGGER_RTT_BUFFER_DOWN` of SEGGER RTT on a
/// target of 32 bits. All fields are as they stand in memory.
#[derive(Clone, Copy, Debug, PartialEq, Eq)]
pub struct Descriptor {
    /// The address of the buffer's name, `sName`. It isn't tested.
    pub name: u32,
    /// The address of the buffer's first byte, `pBuffer`.
    pub start: u32,
    /// The buffer's size in bytes, `SizeOfBuffer`. At most one byte less can wait in it.
    pub size: u32,
    /// The place in the buffer of the next byte that is written, `WrOff`.
    pub wr: u32,
    /// The place in the buffer of the next byte that is read, `RdOff`.
    pub rd: u32,
    /// `Flags`: bits 0 and 1 are the mode, 0 skip, 1 trim or 2 block. The other bits are kept and not
    /// tested.
    pub flags: u32,
}

/// Descriptors in order.
#[derive(Drop)]
pub struct Descriptors {
    items: Vec<Descriptor>,
}

impl Model for Descriptors {
    ghost use Rattle.std.specs.Prelude.{List};
    ghost use Rattle.rtt_control.specs.declared.block.Descriptor.{Descriptor};

    ghost Value = { List Descriptor };

    ghost view = { λ d. d.items.items };
}

impl Descriptors {
    /// No descriptors. Takes no memory.
    pub fn new(alloc: Global) -> Self
        ensures { result ≡ [] }
    {
        Descriptors {
            items: Vec::new(alloc),
        }
    }

    /// The vector's descriptors. Takes no memory.
    pub fn from_vec(items: Vec<Descriptor>) -> Self
        ensures { result ≡ items.items }
    {
        Descriptors { items }
    }

    /// The descriptors as a vector. Takes no memory.
    pub fn into_vec(self) -> Vec<Descriptor>
        ensures { result.items ≡ self }
    {
        let Descriptors { items } = self;
        items
    }

    /// Appends a descriptor.
    pub fn push(&mut self, item: Descriptor) -> Result<(), Memory>
        ensures ok { OnOk result (self.new ≡ self.old ++ item ∷ []) }
        ensures err { OnErr result (self.new ≡ self.old) }
    {
        self.items.push(item)?;
        Ok(())
    }

    /// The descriptors. Takes no memory.
    pub fn as_slice(&self) -> &[Descriptor]
        ensures { result.now ≡ self.now }
    {
        &self.items
    }

    /// How many descriptors there are.
    pub fn len(&self) -> usize
        ensures { result ≡ length self.now }
    {
        self.items.len()
    }

    /// Whether there is no descriptor.
    pub fn is_empty(&self) -> bool
        ensures { IsTrue result ↔ (self.now ≡ []) }
    {
        self.items.is_empty()
    }
}

/// The descriptors of a control block, `SEGGER_RTT_CB` of SEGGER RTT.
#[derive(Drop)]
pub struct Block {
    /// The buffers from the target to the host.
    pub up: Descriptors,
    /// The buffers from the host to the target.
    pub down: Descriptors,
}

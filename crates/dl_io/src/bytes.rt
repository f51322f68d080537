//! Lists of bytes with a reserved room.
ghost use Rattle.std.specs.Prelude.{◌≡◌, ◌↔◌, ◌+◌, ◌-◌, ◌<◌, ◌≤◌, [], ◌∷◌, ◌++◌, length, take, max, IsTrue, IsOk, IfOk, OnOk, OnErr};

use crate::Memory;
use std::alloc::Global;
use std::marker::Model;

/// A list of bytes, and a reserved room for some more.
///
/// What is appended within the room takes no memory, so a caller can reserve first and then be sure
/// that nothing is missing. Each byte that is appended lowers the room by one, down to 0.
pub struct Bytes {
    items: Vec<u8>,
    room: usize,
}

// By hand: a derived drop is proved again in each crate that drops such a value.
impl Drop for Bytes {
    fn drop(self) {
        let Bytes { items: _, room: _ } = self;
    }
}

impl Model for Bytes {
    ghost use Rattle.std.specs.Prelude.{◌+◌, ◌≤◌, vec_len, vec_capacity};
    ghost use Rattle.dl_io.specs.Buffer.{Buffer};

    ghost Value = { Buffer };

    ghost view = { λ b. record { items = b.items.items; room = b.room } };

    ghost invariant = { λ b. b.room + vec_len b.items ≤ vec_capacity b.items };
}

impl Bytes {
    /// No bytes, and no room. Takes no memory.
    pub fn new(alloc: Global) -> Self
        ensures items { result.items ≡ [] }
        ensures room { result.room ≡ 0 }
    {
        Bytes {
            items: Vec::new(alloc),
            room: 0,
        }
    }

    /// A copy of the bytes, with no room.
    pub fn from_slice(alloc: Global, bytes: &[u8]) -> Result<Self, Memory>
        ensures items { IfOk result (λ copy. copy.items ≡ bytes.now) }
        ensures room { IfOk result (λ copy. copy.room ≡ 0) }
    {
        Ok(Bytes {
            items: Vec::from_slice(alloc, bytes)?,
            room: 0,
        })
    }

    /// The vector's bytes, with no room. Takes no memory.
    pub fn from_vec(items: Vec<u8>) -> Self
        ensures items { result.items ≡ items.items }
        ensures room { result.room ≡ 0 }
    {
        Bytes { items, room: 0 }
    }

    /// The bytes as a vector. Takes no memory.
    pub fn into_vec(self) -> Vec<u8>
        ensures { result.items ≡ self.items }
    {
        let Bytes { items, room: _ } = self;
        items
    }

    /// The bytes. Takes no memory.
    pub fn as_slice(&self) -> &[u8]
        ensures { result.now ≡ self.now.items }
    {
        &self.items
    }

    /// How many bytes there are.
    pub fn len(&self) -> usize
        ensures { result ≡ length self.now.items }
    {
        self.items.len()
    }

    /// Whether there is no byte.
    pub fn is_empty(&self) -> bool
        ensures { IsTrue result ↔ (self.now.items ≡ []) }
    {
        self.items.is_empty()
    }

    /// Appends a byte. Within the room it takes no memory.
    pub fn push(&mut self, item: u8) -> Result<(), Memory>
        ensures ok { OnOk result (self.new.items ≡ self.old.items ++ item ∷ []) }
        ensures room { OnOk result (self.new.room ≡ self.old.room - 1) }
        ensures err { OnErr result (self.new ≡ self.old) }
        ensures within_room { 0 < self.old.room → IsOk result }
    {
        self.items.push(item)?;
        self.room = self.room.saturating_sub(1);
        Ok(())
    }

    /// Appends the bytes, all or none. Within the room it takes no memory.
    pub fn extend_from_slice(&mut self, more: &[u8]) -> Result<(), Memory>
        ensures ok { OnOk result (self.new.items ≡ self.old.items ++ more.now) }
        ensures room { OnOk result (self.new.room ≡ self.old.room - length more.now) }
        ensures err { OnErr result (self.new ≡ self.old) }
        ensures within_room { length more.now ≤ self.old.room → IsOk result }
    {
        self.items.extend_from_slice(more)?;
        self.room = self.room.saturating_sub(more.len());
        Ok(())
    }

    /// Makes the room at least `more`.
    pub fn reserve(&mut self, more: usize) -> Result<(), Memory>
        ensures items { self.new.items ≡ self.old.items }
        ensures room { OnOk result (self.new.room ≡ max self.old.room more) }
        ensures err { OnErr result (self.new ≡ self.old) }
        ensures within_room { more ≤ self.old.room → IsOk result }
    {
        if self.room < more {
            self.items.reserve(more)?;
            self.room = more;
        }
        Ok(())
    }

    /// The room: how many bytes can be appended without memory.
    pub fn spare(&self) -> usize
        ensures { result ≡ self.now.room }
    {
        self.room
    }

    /// Appends a byte within the room. Takes no memory.
    pub fn push_reserved(&mut self, item: u8)
        requires { 0 < self.old.room }
        ensures items { self.new.items ≡ self.old.items ++ item ∷ [] }
        ensures room { self.new.room + 1 ≡ self.old.room }
    {
        self.items.push(item).unwrap();
        self.room -= 1;
    }

    /// Appends the bytes within the room. Takes no memory.
    pub fn extend_reserved(&mut self, more: &[u8])
        requires { length more.now ≤ self.old.room }
        ensures items { self.new.items ≡ self.old.items ++ more.now }
        ensures room { self.new.room + length more.now ≡ self.old.room }
    {
        self.items.extend_from_slice(more).unwrap();
        self.room -= more.len();
    }

    /// Keeps the first `count` bytes, or all where there are fewer. The room stays.
    pub fn truncate(&mut self, count: usize)
        ensures items { self.new.items ≡ take count self.old.items }
        ensures room { self.new.room ≡ self.old.room }
    {
        self.items.truncate(count);
    }

    /// Drops all bytes. The room stays.
    pub fn clear(&mut self)
        ensures items { self.new.items ≡ [] }
        ensures room { self.new.room ≡ self.old.room }
    {
        self.items.clear();
    }
}

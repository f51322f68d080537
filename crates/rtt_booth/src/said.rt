//! The words that were said, with a reserved room.
ghost use Rattle.std.specs.Prelude.{◌≡◌, ◌+◌, ◌<◌, [], ◌∷◌, ◌++◌, length, max, OnOk, OnErr};

use boxcar::tag::{Names, Tag};
use dl_io::Memory;
use rtt_ring::UpEnd;
use std::alloc::Global;
use std::marker::Model;

/// A text that was said.
#[derive(Clone, Copy)]
pub struct Word {
    /// The number of the writer, from 0 to 7.
    pub writer: u8,
    /// The place of the text among the writer's, from 0.
    pub place: u32,
}

/// The words of the texts that were said, in the order in which their writers acquired the booth, and a reserved room for
/// some more.
///
/// Only a booth appends words. Contracts see beside them which split of a ring the booth's end is from.
#[derive(Drop)]
pub struct Said {
    words: Vec<Word>,
    room: usize,
    // It takes no bytes: contracts alone read it.
    split: Tag,
}

impl Model for Said {
    ghost use Rattle.std.specs.Prelude.{◌+◌, ◌≤◌, vec_len, vec_capacity};
    ghost use Rattle.rtt_booth.specs.Kept.{Reel};
    ghost use Rattle.rtt_booth.specs.Codes.{coded_reel};

    ghost Value = { Reel };

    ghost coded = { coded_reel };

    ghost view = { λ s. record { words = s.words.items; room = s.room; split = s.split.numbers } };

    ghost invariant = { λ s. s.room + vec_len s.words ≤ vec_capacity s.words };
}

// The name of the split that an end is from.
struct Split;

impl<U: UpEnd> Names<U> for Split {
    ghost numbers = { λ up. (U.view up).split };
}

impl Said {
    /// No words, no room and no end. Takes no memory.
    pub fn new(alloc: Global) -> Self
        ensures words { result.words ≡ [] }
        ensures room { result.room ≡ 0 }
        ensures no_end { result.split ≡ [] }
    {
        Said {
            words: Vec::new(alloc),
            room: 0,
            split: Tag::empty(),
        }
    }

    // No words and no room, for an end.
    pub(crate) fn of<U: UpEnd>(alloc: Global, up: &U) -> Self
        ensures words { result.words ≡ [] }
        ensures room { result.room ≡ 0 }
        ensures split { result.split ≡ (U.view up.now).split }
    {
        Said {
            words: Vec::new(alloc),
            room: 0,
            split: Tag::of::<U, Split>(up),
        }
    }

    /// The words in their order. Takes no memory.
    pub fn as_slice(&self) -> &[Word]
        ensures { result.now ≡ self.now.words }
    {
        &self.words
    }

    /// How many words there are. Takes no memory.
    pub fn len(&self) -> usize
        ensures { result ≡ length self.now.words }
    {
        self.words.len()
    }

    /// Makes the room at least `more`.
    ///
    /// # Errors
    /// `Memory` where there is none; words and room are then as before.
    pub fn reserve(&mut self, more: usize) -> Result<(), Memory>
        ensures words { self.new.words ≡ self.old.words }
        ensures room { OnOk result (self.new.room ≡ max self.old.room more) }
        ensures split { self.new.split ≡ self.old.split }
        ensures err { OnErr result (self.new ≡ self.old) }
    {
        if self.room < more {
            self.words.reserve(more)?;
            self.room = more;
        }
        Ok(())
    }

    /// The room: how many words can be appended without memory. Takes no memory.
    pub fn spare(&self) -> usize
        ensures { result ≡ self.now.room }
    {
        self.room
    }

    // Appends a word within the room.
    pub(crate) fn push_reserved(&mut self, item: Word)
        requires { 0 < self.old.room }
        ensures words { self.new.words ≡ self.old.words ++ item ∷ [] }
        ensures room { self.new.room + 1 ≡ self.old.room }
        ensures split { self.new.split ≡ self.old.split }
    {
        self.words.push(item).unwrap();
        self.room -= 1;
    }
}

//! A list of marks with a reserved room.
ghost use Rattle.std.specs.Prelude.{◌≡◌, ◌+◌, ◌<◌, [], ◌∷◌, ◌++◌, length, max, OnOk, OnErr};

use crate::mark::Mark;
use boxcar::tag::{Names, Tag};
use dl_io::Memory;
use rtt_ring::UpEnd;
use std::alloc::Global;
use std::marker::Model;

/// The marks of the statements that were logged, in the order in which their writers acquired the logger, and a reserved
/// room for some more.
///
/// Only a logger appends marks. Contracts see beside them which split of a ring the logger's end is from, how many looks it
/// made, and what the last look for each mark found.
#[derive(Drop)]
pub struct Tape {
    marks: Vec<Mark>,
    room: usize,
    // The two take no bytes: contracts alone read them.
    split: Tag,
    looked: Tag,
}

impl Model for Tape {
    ghost use Rattle.std.specs.Prelude.{◌+◌, ◌≤◌, drop, slice_index_or, vec_len, vec_capacity};
    ghost use Rattle.defmt_logger.specs.Kept.{Reel};
    ghost use Rattle.defmt_logger.specs.Codes.{coded_reel};

    ghost Value = { Reel };

    ghost coded = { coded_reel };

    ghost view = { λ t. record {
      marks = t.marks.items;
      room = t.room;
      split = t.split.numbers;
      looks = slice_index_or t.looked.numbers 0 0;
      found = drop 1 t.looked.numbers;
    } };

    ghost invariant = { λ t. t.room + vec_len t.marks ≤ vec_capacity t.marks };
}

// The name of the split that an end is from.
struct Split;

impl<U: UpEnd> Names<U> for Split {
    ghost numbers = { λ up. (U.view up).split };
}

// How many looks an end made.
struct Looks;

impl<U: UpEnd> Names<U> for Looks {
    ghost numbers = { λ up. (U.view up).looks ∷ [] };
}

// What was noted of the looks for the marks before, and the end that looked for one more.
#[derive(Drop)]
struct Look<'a, U: UpEnd> {
    before: &'a Tag,
    up: &'a U,
}

// How many looks the end has made by then, and for each mark what the last look found.
struct Found;

impl<U: UpEnd> Names<Look<'_, U>> for Found {
    ghost use Rattle.std.specs.Prelude.{drop};

    ghost numbers = { λ look. (U.view look.up.now).looks
        ∷ (drop 1 look.before.now.numbers ++ (U.view look.up.now).freed ∷ []) };
}

impl Tape {
    /// No marks, no room and no end. Takes no memory.
    pub fn new(alloc: Global) -> Self
        ensures marks { result.marks ≡ [] }
        ensures room { result.room ≡ 0 }
        ensures no_end { (result.split ≡ []) × (result.looks ≡ 0) × (result.found ≡ []) }
    {
        Tape {
            marks: Vec::new(alloc),
            room: 0,
            split: Tag::empty(),
            looked: Tag::empty(),
        }
    }

    // No marks and no room, for an end.
    pub(crate) fn of<U: UpEnd>(alloc: Global, up: &U) -> Self
        ensures marks { result.marks ≡ [] }
        ensures room { result.room ≡ 0 }
        ensures end { (result.split ≡ (U.view up.now).split)
            × (result.looks ≡ (U.view up.now).looks) × (result.found ≡ []) }
    {
        Tape {
            marks: Vec::new(alloc),
            room: 0,
            split: Tag::of::<U, Split>(up),
            looked: Tag::of::<U, Looks>(up),
        }
    }

    /// The marks in their order. Takes no memory.
    pub fn as_slice(&self) -> &[Mark]
        ensures { result.now ≡ self.now.marks }
    {
        &self.marks
    }

    /// How many marks there are. Takes no memory.
    pub fn len(&self) -> usize
        ensures { result ≡ length self.now.marks }
    {
        self.marks.len()
    }

    /// Makes the room at least `more`.
    ///
    /// # Errors
    /// `Memory` where there is none; the tape is then as before.
    pub fn reserve(&mut self, more: usize) -> Result<(), Memory>
        ensures marks { self.new.marks ≡ self.old.marks }
        ensures room { OnOk result (self.new.room ≡ max self.old.room more) }
        ensures end { (self.new.split ≡ self.old.split) × (self.new.looks ≡ self.old.looks)
            × (self.new.found ≡ self.old.found) }
        ensures err { OnErr result (self.new ≡ self.old) }
    {
        if self.room < more {
            self.marks.reserve(more)?;
            self.room = more;
        }
        Ok(())
    }

    /// The room: how many marks can be appended without memory. Takes no memory.
    pub fn spare(&self) -> usize
        ensures { result ≡ self.now.room }
    {
        self.room
    }

    // Appends a mark within the room, and notes the end that looked for it.
    pub(crate) fn push_reserved<U: UpEnd>(&mut self, item: Mark, up: &U)
        requires { 0 < self.old.room }
        ensures marks { self.new.marks ≡ self.old.marks ++ item ∷ [] }
        ensures room { self.new.room + 1 ≡ self.old.room }
        ensures end { (self.new.split ≡ self.old.split) × (self.new.looks ≡ (U.view up.now).looks)
            × (self.new.found ≡ self.old.found ++ (U.view up.now).freed ∷ []) }
    {
        self.marks.push(item).unwrap();
        self.room -= 1;
        self.looked = Tag::of::<Look<U>, Found>(&Look {
            before: &self.looked,
            up,
        });
    }
}

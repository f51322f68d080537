//! A list of turns with a reserved room.
ghost use Rattle.std.specs.Prelude.{◌≡◌, ◌+◌, ◌<◌, [], ◌∷◌, ◌++◌, length, max, OnOk, OnErr, nat_lt, position};
ghost use Rattle.rtt_down.specs.declared.turn.Turn.{Turn};

use crate::turn::Turn;
use boxcar::tag::{Names, Tag};
use dl_io::Memory;
use std::alloc::Global;
use std::marker::Model;

/// The turns of statements, in the order in which their writers acquired the logger, and a reserved room for some more.
///
/// Only a steered logger appends turns. Contracts also see which two rings it had, and what its looks found.
#[derive(Drop)]
pub struct Turns {
    turns: Vec<Turn>,
    room: usize,
    // The other four take no bytes: contracts alone read them.
    split: Tag,
    down: Tag,
    found: Tag,
    ahead: Tag,
}

// What the looks of some turns found, and what the next one found.
#[derive(Drop)]
struct Looks<'a> {
    before: &'a Tag,
    next: &'a Tag,
}

// Both, one behind the other.
struct Joined;

impl Names<Looks<'_>> for Joined {
    ghost use Rattle.std.specs.Prelude.{◌++◌};

    ghost numbers = { λ looks. looks.before.now.numbers ++ looks.next.now.numbers };
}

impl Model for Turns {
    ghost use Rattle.std.specs.Prelude.{◌+◌, ◌≤◌, vec_len, vec_capacity};
    ghost use Rattle.rtt_down.specs.Reel.{Reel, coded_reel};

    ghost Value = { Reel };

    ghost coded = { coded_reel };

    ghost view = { λ t. record {
      turns = t.turns.items;
      room = t.room;
      split = t.split.numbers;
      down = t.down.numbers;
      found = t.found.numbers;
      ahead = t.ahead.numbers;
    } };

    ghost invariant = { λ t. t.room + vec_len t.turns ≤ vec_capacity t.turns };
}

impl Turns {
    /// No turns, and no room. Takes no memory.
    pub fn new(alloc: Global) -> Self
        ensures turns { result.turns ≡ [] }
        ensures room { result.room ≡ 0 }
        ensures no_ends { (result.split ≡ []) × (result.down ≡ []) × (result.found ≡ [])
            × (result.ahead ≡ []) }
    {
        Turns::of_splits(alloc, Tag::empty(), Tag::empty())
    }

    // No turns, and no room, of a logger whose ends come from these two splits.
    pub(crate) fn of_splits(alloc: Global, split: Tag, down: Tag) -> Turns
        ensures { result ≡ record {
          turns = [];
          room = 0;
          split = split.numbers;
          down = down.numbers;
          found = [];
          ahead = [];
        } }
    {
        Turns {
            turns: Vec::new(alloc),
            room: 0,
            split,
            down,
            found: Tag::empty(),
            ahead: Tag::empty(),
        }
    }

    /// The turns in their order. Takes no memory.
    pub fn as_slice(&self) -> &[Turn]
        ensures { result.now ≡ self.now.turns }
    {
        &self.turns
    }

    /// How many turns there are. Takes no memory.
    pub fn len(&self) -> usize
        ensures { result ≡ length self.now.turns }
    {
        self.turns.len()
    }

    /// The number of the first turn that had heard more than this many orders; `None` exactly where there is none. Takes no
    /// memory.
    pub fn heard_at(&self, order: u32) -> Option<usize>
        ensures { result ≡ position (λ (t : Turn). nat_lt order t.seen) self.now.turns }
    {
        self.turns.iter().position(|turn| order < turn.seen)
    }

    /// Makes the room at least `more`.
    ///
    /// # Errors
    /// `Memory` where there is none; the turns are then as before.
    pub fn reserve(&mut self, more: usize) -> Result<(), Memory>
        ensures turns { self.new.turns ≡ self.old.turns }
        ensures room { OnOk result (self.new.room ≡ max self.old.room more) }
        ensures same { self.new ≡ record (self.old) { room = self.new.room } }
        ensures err { OnErr result (self.new ≡ self.old) }
    {
        if self.room < more {
            self.turns.reserve(more)?;
            self.room = more;
        }
        Ok(())
    }

    /// The room: how many turns can be appended without memory. Takes no memory.
    pub fn spare(&self) -> usize
        ensures { result ≡ self.now.room }
    {
        self.room
    }

    // Appends a turn within the room, with what its look found.
    pub(crate) fn push_reserved(&mut self, item: Turn, found: &Tag)
        requires { 0 < self.old.room }
        ensures turns { self.new.turns ≡ self.old.turns ++ item ∷ [] }
        ensures room { self.new.room + 1 ≡ self.old.room }
        ensures found { self.new.found ≡ self.old.found ++ found.now.numbers }
        ensures rings { (self.new.split ≡ self.old.split) × (self.new.down ≡ self.old.down) }
    {
        self.turns.push(item).unwrap();
        self.room -= 1;
        self.found = Tag::of::<Looks, Joined>(&Looks {
            before: &self.found,
            next: found,
        });
    }

    // Notes all bytes that had been sent down when no turn was taken yet.
    pub(crate) fn note_ahead(&mut self, ahead: Tag)
        ensures { self.new ≡ record (self.old) { ahead = ahead.numbers } }
    {
        self.ahead = ahead;
    }
}

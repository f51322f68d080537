//! The course of turns.
ghost use Rattle.std.specs.Prelude.{◌≡◌, ℕ, ◌+◌, ◌^◌, ◌<◌, ◌≤◌, List, [], ◌∷◌, ◌++◌, length, IfOk, slice_index_or};
ghost use Rattle.defmt_frames.specs.Frames.{count, stamp_number};
ghost use Rattle.defmt_script.specs.Script.{Script as AnyScript};
ghost use Rattle.rtt_down.specs.Kept.{Steers};
ghost use Rattle.rtt_down.specs.Levels.{is_sent, level_at};

use crate::level::is_sent;
use crate::order_count::OrderCount;
use crate::turn::Turn;
use crate::turns::Turns;
use boxcar::tag::Tag;
use defmt_hooks::Level;
use dl_io::Memory;
use std::alloc::Global;

// How many statements a script has at most.
const STATEMENTS: usize = 4096;

// The turns so far, how many each writer had, and what was heard.
#[derive(Drop)]
pub(crate) struct Course {
    pub(crate) turns: Turns,
    pub(crate) places: [u32; 8],
    pub(crate) heard: OrderCount,
}

impl Course {
    // No turn yet, and room for as many as a script has statements. The logger's ends come from these two splits.
    pub(crate) fn start(alloc: Global, split: Tag, down: Tag) -> Result<Course, Memory>
        ensures steers { IfOk result (λ c. (s : AnyScript)
            → Steers s [] c.turns c.places c.heard.ear c.heard.seen c.heard.floor) }
        ensures turns { IfOk result (λ c. (c.turns.turns ≡ []) × (c.turns.found ≡ [])) }
        ensures rings { IfOk result (λ c. (c.turns.split ≡ split.numbers)
            × (c.turns.down ≡ down.numbers)) }
    {
        let mut turns = Turns::of_splits(alloc, split, down);
        turns.reserve(STATEMENTS)?;
        Ok(Course {
            turns,
            places: [0; 8],
            heard: OrderCount::new(),
        })
    }

    // The next turn of a writer, whose statement has this level and this stamp: hears the bytes that were taken, and answers
    // what becomes of the statement. The tag has what the turn's look found.
    pub(crate) fn turn(
        &mut self,
        writer: u8,
        level: Option<Level>,
        stamp: u64,
        taken: &[u8],
        found: &Tag,
    ) -> Turn
        requires writer { writer < 8 }
        requires place { slice_index_or self.old.places writer 0 + 1 < 2 ^ 32 }
        requires room { 0 < self.old.turns.room }
        requires taken { self.old.heard.seen + length taken.now < 2 ^ 32 }
        ensures turn { result ≡ record {
          writer = writer;
          place = slice_index_or self.old.places writer 0;
          stamp = stamp;
          floor = self.new.heard.floor;
          seen = self.new.heard.seen;
          sent = is_sent level self.new.heard.floor;
        } }
        ensures turns { self.new.turns.turns ≡ self.old.turns.turns ++ result ∷ [] }
        ensures found { self.new.turns.found ≡ self.old.turns.found ++ found.now.numbers }
        ensures rings { (self.new.turns.split ≡ self.old.turns.split)
            × (self.new.turns.down ≡ self.old.turns.down) }
        ensures steers { (s : AnyScript) (got : List ℕ)
            → Steers s got self.old.turns self.old.places
            self.old.heard.ear self.old.heard.seen self.old.heard.floor
            → slice_index_or self.old.places writer 0 < count s writer
            → level ≡ level_at s writer (slice_index_or self.old.places writer 0)
            → stamp ≡ stamp_number s (length self.old.turns.turns)
            → length taken.now ≤ 192
            → Steers s (got ++ taken.now) self.new.turns self.new.places
            self.new.heard.ear self.new.heard.seen self.new.heard.floor }
    {
        self.heard.hear_all(taken);
        let floor = self.heard.floor();
        let place = self.places[writer as usize];
        let turn = Turn {
            writer,
            place,
            stamp,
            floor,
            seen: self.heard.seen(),
            sent: is_sent(level, floor),
        };
        self.places[writer as usize] = place + 1;
        self.turns.push_reserved(turn, found);
        turn
    }

    // How many turns there were.
    pub(crate) fn count(&self) -> usize
        ensures { result ≡ length self.now.turns.turns }
    {
        self.turns.len()
    }

    // How many turns a writer had.
    pub(crate) fn place(&self, writer: u8) -> u32
        requires { writer < 8 }
        ensures { result ≡ slice_index_or self.now.places writer 0 }
    {
        self.places[writer as usize]
    }
}

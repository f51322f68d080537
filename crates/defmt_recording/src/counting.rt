//! What a reporter in a style has counted, and its place between parts of a recording.
ghost use Rattle.std.specs.Prelude.{◌≡◌, ◌≤◌, ◌+◌, None, min};
ghost use Rattle.dl_io.specs.Outside.{last_count};
ghost use Rattle.defmt_recording.specs.Styled.{reel};

use crate::styled::Styled;
use std::alloc::Global;

impl<'a> Styled<'a> {
    /// How many lines were printed that make the program fail; the last value of its type where there are more.
    pub fn failing(&self) -> u64
        ensures { result ≡ self.now.failing }
    {
        self.failing
    }

    /// How many fronts and tails there were; the last value of its type where there are more.
    pub fn cuts(&self) -> u64
        ensures { result ≡ self.now.cuts }
    {
        self.cuts
    }

    /// A reporter by the same style, table and places, which saw no event yet. Takes no memory.
    pub fn beside(&self, alloc: Global) -> Styled<'a>
        ensures { result ≡ reel self.now.look None 0 0 }
    {
        Styled::new(alloc, self.style, self.table, self.places)
    }

    /// The place of the last line.
    pub fn last(&self) -> Option<u16>
        ensures { result ≡ self.now.last }
    {
        self.last
    }

    /// Counts anew from nothing.
    pub fn count_anew(&mut self)
        ensures { self.new ≡ reel self.old.look self.old.last 0 0 }
    {
        self.failing = 0;
        self.cuts = 0;
    }

    /// Goes on behind what another was told that began where this one stands, and counted from nothing.
    pub fn go_on_as(&mut self, other: &Styled<'_>)
        ensures behind { self.new ≡ reel self.old.look other.now.last
            (min (self.old.failing + other.now.failing) last_count)
            (min (self.old.cuts + other.now.cuts) last_count) }
        ensures small { (self.old.failing ≤ last_count) × (self.old.cuts ≤ last_count) }
    {
        self.last = other.last;
        self.failing = self.failing.saturating_add(other.failing);
        self.cuts = self.cuts.saturating_add(other.cuts);
    }
}

//! What counts orders.
ghost use Rattle.std.specs.Prelude.{◌≡◌, ℕ, ◌+◌, ◌<◌, ◌≤◌, ◌^◌, List, [], ◌∷◌, ◌++◌, length};
ghost use Rattle.rtt_down.specs.Listening.{Heard};

use crate::ear::Ear;
use defmt_hooks::Level;

// Hears bytes, counts the orders in them and keeps the last.
#[derive(Drop)]
pub(crate) struct OrderCount {
    pub(crate) ear: Ear,
    pub(crate) seen: u32,
    pub(crate) floor: Level,
}

impl OrderCount {
    // A count of nothing yet: all levels are sent.
    pub(crate) fn new() -> OrderCount
        ensures heard { Heard [] result.ear result.seen result.floor }
        ensures seen { result.seen ≡ 0 }
    {
        OrderCount {
            ear: Ear::new(),
            seen: 0,
            floor: Level::Trace,
        }
    }

    // One byte more.
    fn hear(&mut self, byte: u8)
        requires { self.old.seen + 1 < 2 ^ 32 }
        ensures few { self.new.seen ≤ self.old.seen + 1 }
        ensures heard { (heard : List ℕ) → Heard heard self.old.ear self.old.seen self.old.floor
            → Heard (heard ++ byte ∷ []) self.new.ear self.new.seen self.new.floor }
    {
        if let Some(level) = self.ear.hear(byte) {
            self.seen += 1;
            self.floor = level;
        }
    }

    // Hears more bytes.
    pub(crate) fn hear_all(&mut self, bytes: &[u8])
        requires { self.old.seen + length bytes.now < 2 ^ 32 }
        ensures few { self.new.seen ≤ self.old.seen + length bytes.now }
        ensures heard { (heard : List ℕ) → Heard heard self.old.ear self.old.seen self.old.floor
            → Heard (heard ++ bytes.now) self.new.ear self.new.seen self.new.floor }
    {
        for byte in bytes {
            self.hear(*byte);
        }
    }

    // How many orders were heard.
    pub(crate) fn seen(&self) -> u32
        ensures { result ≡ self.now.seen }
    {
        self.seen
    }

    // The last order, Trace where there was none.
    pub(crate) fn floor(&self) -> Level
        ensures { result ≡ self.now.floor }
    {
        self.floor
    }
}

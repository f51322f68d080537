//! The upper end's steps.
ghost use Rattle.std.specs.Prelude.{◌≡◌, ◌+◌, ◌*◌, ◌%◌, ◌<◌, ◌≤◌, [], length, Some};
ghost use Rattle.std.specs.Arc.{arc_value};
ghost use Rattle.rtt_words.specs.WordRule.{upper_of, holds_word, put_bytes};
ghost use Rattle.rtt_words.specs.Seats.{IsUpper};
ghost use Rattle.rtt_words.specs.declared.view.View.TheVariants.{Up};

use crate::lanes::with_lanes;
use crate::table::{
    LoadsRdOff, LoadsWord, RingRule, RingSeat, RingTable, StoresBytes, StoresWrOff, Stretch,
};
use crate::view::View;
use atomic_table::Shared;
use std::alloc::Global;
use std::marker::Brand;
use std::sync::Arc;

/// The upper end of a ring's words, which the writer has. Data words are numbered from 0 on, and a byte's lane is its place
/// in its word, 0 to 7.
#[derive(Drop)]
pub struct UpWords {
    pub(crate) table: Arc<RingTable, Global>,
    pub(crate) seat: RingSeat,
    ghost kept: { IsUpper (arc_value table).shared.table_id (arc_value table).shared.key seat.table_id seat.me },
}

// Stores a data word that was loaded, with these bytes from the lane on.
fn store_lanes<C: Stretch>(
    shared: &Shared<(), View, u32, RingRule>,
    seat: &mut RingSeat,
    word: usize,
    lane: usize,
    old: u64,
    bytes: &[u8],
)
    requires table { (seat.old.table_id ≡ shared.now.table_id) × (word + 2 < shared.now.table_id.words) × (word < 65536) }
    requires bytes { bytes.now ≡ C.bytes }
    requires seat { (seat.old.me ≡ (Up (upper_of seat.old.me.0), [])) × ((upper_of seat.old.me.0).held ≡ Some (word, old)) }
    requires place { ((length (upper_of seat.old.me.0).sent + length (upper_of seat.old.me.0).staged) % shared.now.key ≡ word * 8 + lane) × (lane + length bytes.now ≤ 8) × (lane < 8) }
    requires room { (word * 8 + lane + length bytes.now ≤ shared.now.key) × (length (upper_of seat.old.me.0).sent + length (upper_of seat.old.me.0).staged + length bytes.now + 1 ≤ (upper_of seat.old.me.0).freed + shared.now.key) }
    ensures { (seat.new.table_id ≡ seat.old.table_id) × (seat.new.me ≡ (Up (put_bytes (upper_of seat.old.me.0) bytes.now), [])) }
{
    shared.store::<StoresBytes<C>>(seat, word + 2, with_lanes(old, lane, bytes));
}

impl UpWords {
    ghost use Rattle.rtt_words.specs.Told.{FoundReleased, IsPublished, upper, upper_name};

    /// Loads RdOff, which is the look of the upper end: it finds how many bytes the lower end has released, and answers the
    /// place behind the last of them.
    #[inline(always)]
    pub fn load_rd_off(&mut self) -> u64
        ensures name { upper_name self.new ≡ upper_name self.old }
        ensures found { FoundReleased (upper self.old) result (upper self.new) }
    {
        let shared = &self.table.shared;
        shared.load::<LoadsRdOff>(&mut self.seat, 1)
    }

    /// Loads a data word of the buffer, and holds it until it is stored.
    #[inline(always)]
    pub fn load_word(&mut self, word: usize) -> u64
        requires { word * 8 < (upper self.old).size }
        ensures name { upper_name self.new ≡ upper_name self.old }
        ensures held { upper self.new ≡ holds_word (upper self.old) word result }
    {
        let shared = &self.table.shared;
        shared.load::<LoadsWord>(&mut self.seat, word + 2)
    }

    /// Stores the data word that is held, with the next bytes from the lane on. They are staged: the reader can't find them
    /// yet.
    #[inline(always)]
    pub fn store_bytes(&mut self, word: usize, lane: usize, old: u64, bytes: &[u8])
        requires held { (upper self.old).held ≡ Some (word, old) }
        requires place { ((length (upper self.old).sent + length (upper self.old).staged) % (upper self.old).size ≡ word * 8 + lane) × (lane + length bytes.now ≤ 8) × (lane < 8) }
        requires room { (word * 8 + lane + length bytes.now ≤ (upper self.old).size) × (length (upper self.old).sent + length (upper self.old).staged + length bytes.now + 1 ≤ (upper self.old).freed + (upper self.old).size) }
        ensures name { upper_name self.new ≡ upper_name self.old }
        ensures put { upper self.new ≡ put_bytes (upper self.old) bytes.now }
    {
        let shared = &self.table.shared;
        store_lanes::<Brand>(shared, &mut self.seat, word, lane, old, bytes);
    }

    /// Stores WrOff, the place behind all bytes that are staged, which publishes them.
    #[inline(always)]
    pub fn store_wr_off(&mut self, at: u32)
        requires { at ≡ (length (upper self.old).sent + length (upper self.old).staged) % (upper self.old).size }
        ensures name { upper_name self.new ≡ upper_name self.old }
        ensures published { IsPublished (upper self.old) (upper self.new) }
    {
        let shared = &self.table.shared;
        shared.store::<StoresWrOff>(&mut self.seat, 0, u64::from(at));
    }
}

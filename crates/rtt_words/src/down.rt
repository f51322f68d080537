//! The lower end's steps.
ghost use Rattle.std.specs.Prelude.{◌≡◌, ◌+◌, ◌/◌, ◌%◌, ◌<◌, ◌≤◌, [], length};
ghost use Rattle.std.specs.Arc.{arc_value};
ghost use Rattle.rtt_words.specs.WordRule.{lower_of, took_bytes, next_bytes};
ghost use Rattle.rtt_words.specs.Seats.{IsLower};
ghost use Rattle.rtt_words.specs.declared.view.View.TheVariants.{Down};

use crate::table::{Count, LoadsBytes, LoadsWrOff, RingRule, RingSeat, RingTable, StoresRdOff};
use crate::view::View;
use atomic_table::Shared;
use std::alloc::Global;
use std::marker::Brand;
use std::sync::Arc;

/// The lower end of a ring's words, which the reader has. Data words are numbered from 0 on.
#[derive(Drop)]
pub struct DownWords {
    pub(crate) table: Arc<RingTable, Global>,
    pub(crate) seat: RingSeat,
    ghost kept: { IsLower (arc_value table).shared.table_id (arc_value table).shared.key seat.table_id seat.me },
}

// Loads a data word, for so many bytes.
fn load_lanes<C: Count>(
    shared: &Shared<(), View, u32, RingRule>,
    seat: &mut RingSeat,
    word: usize,
    count: usize,
) -> u64
    requires table { (seat.old.table_id ≡ shared.now.table_id) × (word + 2 < shared.now.table_id.words) × (word < 65536) }
    requires count { count ≡ C.count }
    requires seat { (seat.old.me ≡ (Down (lower_of seat.old.me.0), [])) × ((lower_of seat.old.me.0).size ≡ shared.now.key) }
    requires place { (word ≡ length (lower_of seat.old.me.0).got % shared.now.key / 8) × (length (lower_of seat.old.me.0).got % shared.now.key % 8 + count ≤ 8) × (length (lower_of seat.old.me.0).got % shared.now.key + count ≤ shared.now.key) }
    requires found { length (lower_of seat.old.me.0).got + count ≤ (lower_of seat.old.me.0).found }
    ensures { (seat.new.table_id ≡ seat.old.table_id) × (seat.new.me ≡ (Down (took_bytes (lower_of seat.old.me.0) (next_bytes (lower_of seat.old.me.0) count result)), [])) }
{
    shared.load::<LoadsBytes<C>>(seat, word + 2)
}

impl DownWords {
    ghost use Rattle.rtt_words.specs.Told.{FoundPublished, IsReleased, lower, lower_name};

    /// Loads WrOff, which is the look of the lower end: it finds how many bytes the upper end has published, and answers the
    /// place behind the last of them.
    #[inline(always)]
    pub fn load_wr_off(&mut self) -> u64
        ensures name { lower_name self.new ≡ lower_name self.old }
        ensures found { FoundPublished (lower self.old) result (lower self.new) }
    {
        let shared = &self.table.shared;
        shared.load::<LoadsWrOff>(&mut self.seat, 0)
    }

    /// Loads the data word of the next bytes, and takes so many of them. They stay where they are until they are released.
    #[inline(always)]
    pub fn load_bytes(&mut self, word: usize, count: usize) -> u64
        requires place { (word ≡ length (lower self.old).got % (lower self.old).size / 8) × (length (lower self.old).got % (lower self.old).size % 8 + count ≤ 8) × (length (lower self.old).got % (lower self.old).size + count ≤ (lower self.old).size) }
        requires found { (0 < count) × (length (lower self.old).got + count ≤ (lower self.old).found) }
        ensures name { lower_name self.new ≡ lower_name self.old }
        ensures took { lower self.new ≡ took_bytes (lower self.old) (next_bytes (lower self.old) count result) }
    {
        let shared = &self.table.shared;
        load_lanes::<Brand>(shared, &mut self.seat, word, count)
    }

    /// Stores RdOff, the place behind all bytes that were taken, which releases them.
    #[inline(always)]
    pub fn store_rd_off(&mut self, at: u32)
        requires { at ≡ length (lower self.old).got % (lower self.old).size }
        ensures name { lower_name self.new ≡ lower_name self.old }
        ensures released { IsReleased (lower self.old) (lower self.new) }
    {
        let shared = &self.table.shared;
        shared.store::<StoresRdOff>(&mut self.seat, 1, u64::from(at));
    }
}

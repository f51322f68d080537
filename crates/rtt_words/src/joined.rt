//! How the two ends part and come together, and the step of both.
ghost use Rattle.std.specs.Prelude.{◌≡◌, ◌+◌, ◌*◌, ◌/◌, ◌<◌, ◌≤◌, None, IfOk};
ghost use Rattle.std.specs.Arc.{arc_value};
ghost use Rattle.rtt_words.specs.Seats.{IsBothEnds};

use crate::down::DownWords;
use crate::table::{Ends, LoadsRest, RingSeat, RingTable};
use crate::up::UpWords;
use std::alloc::{AllocError, Global};
use std::sync::Arc;

/// Both ends of a ring's words, once they came together.
#[derive(Drop)]
pub struct JoinedWords {
    pub(crate) table: Arc<RingTable, Global>,
    pub(crate) seat: RingSeat,
    ghost kept: { IsBothEnds (arc_value table).shared.table_id (arc_value table).shared.key seat.table_id seat.me },
}

impl JoinedWords {
    ghost use Rattle.rtt_words.specs.Told.{FoundRest, joined_lower, joined_upper, lower, lower_name, upper, upper_name};
    ghost use Rattle.rtt_words.specs.WordRule.{new_up, new_down};

    /// The two ends of the words of a new ring of `size` bytes, 2 to 65,536. An error means that there was no memory.
    pub fn split(alloc: Global, size: u32) -> Result<(UpWords, DownWords), AllocError>
        requires { (1 < size) × (size ≤ 65536) }
        ensures name { IfOk result (λ e. upper_name e.0 ≡ lower_name e.1) }
        ensures ends { IfOk result (λ e. (upper e.0 ≡ new_up size) × (lower e.1 ≡ new_down size)) }
    {
        let words = Vec::from_elem(alloc, 0u64, (size as usize + 7) / 8 + 2)?;
        let (table, mut seat): (RingTable, RingSeat) = RingTable::of_words(
            alloc,
            words.as_slice(),
            &size,
        )?;
        let lower = table.shared.split_seat::<Ends>(&mut seat);
        let table = Arc::new(alloc, table)?;
        let other = Arc::try_clone(&table)?;
        Ok((
            UpWords { table, seat },
            DownWords {
                table: other,
                seat: lower,
            },
        ))
    }

    /// Brings the two ends of one ring together. A word that the upper end held is let go.
    pub fn join(up: UpWords, down: DownWords) -> JoinedWords
        requires { upper_name up ≡ lower_name down }
        ensures { (joined_upper result ≡ record (upper up) { held = None }) × (joined_lower result ≡ lower down) }
    {
        let UpWords { table, mut seat } = up;
        let DownWords {
            table: _,
            seat: lower,
        } = down;
        table.shared.join_seat::<Ends>(&mut seat, lower);
        JoinedWords { table, seat }
    }

    /// Loads a data word. It tells how the two ends stand to each other, that both know one history of each offset, and which
    /// bytes of the word were sent and not taken.
    #[inline(always)]
    pub fn load_rest(&mut self, word: usize) -> u64
        requires { word * 8 < (joined_upper self.old).size }
        ensures same { (joined_upper self.new ≡ joined_upper self.old) × (joined_lower self.new ≡ joined_lower self.old) }
        ensures found { FoundRest (joined_upper self.old) (joined_lower self.old) word result }
    {
        let shared = &self.table.shared;
        shared.load::<LoadsRest>(&mut self.seat, word + 2)
    }
}

//! A side and its block, on their way to a thread and back.
ghost use Rattle.std.specs.Prelude.{ℕ, List, [], Option, None};
ghost use Rattle.std.proofs.Props.{props};
ghost use Rattle.defmt_blocks.specs.Blocks.{IsSaid, IsSaying, Says, SaysAs};
ghost use Rattle.defmt_decode.specs.Event.{tells};

use crate::cuts::Cuts;
use crate::side::Side;
use defmt_decode::PlannedTable;
use defmt_recording::Styled;
use dl_io::Bytes;
use std::alloc::Global;
use std::marker::{Brand, PhantomData};

/// What sides say of the bytes of a block, behind the line with a place. Whoever makes them picks it.
pub trait Kin {
    ghost says: { Option ℕ → List ℕ → Says };
}

impl Kin for Brand {
    ghost says = { λ _ _. record { lines = []; last = None; failing = 0; cuts = 0; faults = 0 } };
}

/// A side, and the block that it heard or is to hear. So of one that comes back from a thread its type tells what it told.
#[derive(Drop)]
pub(crate) struct Sent<'a, G: Kin> {
    pub(crate) side: Side<'a>,
    pub(crate) part: Bytes,
    /// The number of the block among those that were sent.
    pub(crate) number: u64,
    of: PhantomData<G>,
    ghost says: { IsSaying G.says side },
    ghost said: { IsSaid G.says part.items side } by { Prim.hlevel props },
}

impl<'a, G: Kin> Sent<'a, G> {
    /// A side of this table that prints as this reporter, and no block. Takes no memory.
    pub(crate) fn new(alloc: Global, table: &'a PlannedTable, reporter: &Styled<'a>) -> Self
        requires { SaysAs G.says reporter.now.look (tells table.now) }
    {
        Sent {
            side: Side::new(alloc, table, reporter),
            part: Bytes::new(alloc),
            number: 0,
            of: PhantomData,
        }
    }

    /// Takes a block with its number. Answers whether there was memory for it.
    pub(crate) fn take(&mut self, bytes: &[u8], number: u64) -> bool {
        self.side.forget();
        self.part.clear();
        self.number = number;
        self.part.extend_from_slice(bytes).is_ok()
    }

    /// Hears the block.
    pub(crate) fn hear(&mut self, cuts: &Cuts) {
        self.side.hear_block(self.part.as_slice(), cuts);
    }
}

//! What a logger's writers share.
ghost use Rattle.std.specs.Prelude.{◌≡◌, ℕ, Bool, true, List, []};
ghost use Rattle.defmt_frames.specs.Frames.{count};
ghost use Rattle.defmt_logger.specs.Codes.{coded_sheet};
ghost use Rattle.defmt_logger.specs.Kept.{Sheet};
ghost use Rattle.defmt_logger.specs.Tape.{marks_of};
ghost use Rattle.defmt_script.specs.Script.{Script};
ghost use Rattle.defmt_script.specs.State.{empty_script};

use crate::desk::Desk;
use defmt_hooks::Clock;
use rtt_modes::Relief;
use rtt_ring::UpEnd;
use shared_work::{Quota, Work};
use std::marker::{Brand, Model, PhantomData};
use std::sync::Wait;

/// Which script a logger has, from which split of a ring its end comes, and whether the ring tells how many bytes were released.
/// Whoever starts a logger picks them.
pub trait Naming {
    /// The script.
    ghost script: { Script };

    /// The name of the split.
    ghost split: { List ℕ };

    /// Whether the ring tells how many bytes were released.
    ghost tells: { Bool };
}

impl Naming for Brand {
    ghost script = { empty_script };

    ghost split = { [] };

    ghost tells = { true };
}

/// The quota of a logger: a writer has a step for each of its statements.
#[derive(Drop)]
pub struct EachStatement<K> {
    of: PhantomData<K>,
}

impl<K: Naming> Quota for EachStatement<K> {
    ghost quota = { λ w. count K.script w };
}

/// A desk with what its naming tells: the script is the named one, the end is from the named split, and tells what is named.
#[derive(Drop)]
pub struct Logging<K: Naming, U: UpEnd, C: Clock> {
    pub(crate) desk: Desk<U, C>,
    pub(crate) of: PhantomData<K>,
}

impl<K: Naming, U: UpEnd, C: Clock> Model for Logging<K, U, C> {
    ghost Value = { Sheet };

    ghost coded = { coded_sheet };

    ghost view = { λ l. l.desk };

    ghost invariant = { λ l. (l.desk.script ≡ K.script) × (l.desk.up.split ≡ K.split)
        × (l.desk.up.tells ≡ K.tells) };
}

impl<K: Naming, U: UpEnd, C: Clock> Work<EachStatement<K>> for Logging<K, U, C> {
    ghost done = { λ l w. marks_of w l.tape.marks };

    fn step<R: Relief, W: Wait>(&mut self, rt: &W, writer: u8, relief: &mut R) {
        self.desk.append(rt, writer, relief);
    }
}

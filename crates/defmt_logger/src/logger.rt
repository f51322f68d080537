//! The logger.
ghost use Rattle.std.specs.Prelude.{◌≡◌, ◌+◌, ◌<◌, IfOk};
ghost use Rattle.defmt_frames.specs.Frames.{pace_of};
ghost use Rattle.defmt_logger.specs.Kept.{IsKept, TellsIn};
ghost use Rattle.defmt_logger.specs.Tape.{marks_of};
ghost use Rattle.rtt_ring.specs.Views.{new_up};
ghost use Rattle.shared_work.specs.Names.{AreNamed};

use crate::desk::Desk;
use crate::logging::{EachStatement, Logging, Naming};
use crate::tape::Tape;
use defmt_frames::totals_of;
use defmt_hooks::{Clock, Stamp};
use defmt_script::Script;
use dl_io::Memory;
use rtt_modes::Relief;
use rtt_ring::UpEnd;
use shared_work::{Blanks, Books, Eight, HasBook, Names, Pen, Pens, Quota, Shared, Work};
use std::alloc::Global;
use std::marker::PhantomData;
use std::sync::Wait;
use std::sync::ledger::Ledger;

/// A desk that threads share. Each logs by its own pen.
#[derive(Drop)]
pub struct Logger<B: Books, Q: Quota, T: Work<Q>> {
    shared: Shared<B, Q, T>,
}

impl<B: Books, Q: Quota, T: Work<Q>> Logger<B, Q, T> {
    ghost use Rattle.defmt_logger.specs.Shared.{shared_of};

    /// Acquires the logger, logs the pen's next statement, of which there is one, and releases the logger. It may wait for
    /// the logger, and in blocking mode for the reader. Takes no memory.
    pub fn log<S: HasBook<B, L>, L: Ledger, R: Relief, W: Wait>(
        &self,
        rt: &W,
        pen: &mut Pen<S, L, Q>,
        relief: &mut R,
    )
        requires place { pen.old.place < pen.old.total }
        requires relief { R.kept relief.old }
        ensures total { pen.new.total ≡ pen.old.total }
        ensures place { pen.new.place ≡ pen.old.place + 1 }
        ensures relief { R.kept relief.new }
    {
        self.shared.step(rt, pen, relief)
    }

    /// The work that the pens share: a desk behind its lock. Takes no memory.
    pub fn shared(&self) -> &Shared<B, Q, T>
        ensures { result.now ≡ shared_of self.now }
    {
        &self.shared
    }
}

impl<E: Names, K: Naming, U: UpEnd + Drop, C: Clock + Drop> Logger<
    Eight<E>,
    EachStatement<K>,
    Logging<K, U, C>,
> {
    /// A logger with a desk on which nothing was logged, and the pens of the writers 0 to 7.
    ///
    /// The stamp counts as the script's stamps do, and by 0 and 0 without them. The end is as its split gave it and has the
    /// script's size; in skip and trim mode it tells how many bytes were released. Each blank is of its writer's ledger.
    ///
    /// # Errors
    /// `Memory` where there is none. Script, stamp and end are then given up.
    pub fn start(
        alloc: Global,
        blanks: Blanks,
        script: Script,
        stamp: Stamp<C>,
        up: U,
    ) -> Result<(Self, Pens<E, EachStatement<K>>), Memory>
        requires pace { stamp ≡ pace_of script.settings.stamp }
        requires fresh { U.view up
            ≡ new_up (U.view up).split script.settings.ring (U.view up).tells }
        requires told { TellsIn script.settings.mode (U.view up) }
        requires names { (K.script ≡ script) × (K.split ≡ (U.view up).split)
            × (K.tells ≡ (U.view up).tells) }
        requires ledgers { AreNamed blanks E.names }
        ensures p0 { IfOk result (λ r. r.1.p0.place ≡ 0) }
        ensures p1 { IfOk result (λ r. r.1.p1.place ≡ 0) }
        ensures p2 { IfOk result (λ r. r.1.p2.place ≡ 0) }
        ensures p3 { IfOk result (λ r. r.1.p3.place ≡ 0) }
        ensures p4 { IfOk result (λ r. r.1.p4.place ≡ 0) }
        ensures p5 { IfOk result (λ r. r.1.p5.place ≡ 0) }
        ensures p6 { IfOk result (λ r. r.1.p6.place ≡ 0) }
        ensures p7 { IfOk result (λ r. r.1.p7.place ≡ 0) }
    {
        let totals = totals_of(&script);
        let desk = Desk::start(alloc, script, stamp, up)?;
        let logging = Logging {
            desk,
            of: PhantomData,
        };
        let (shared, pens) = Shared::start(blanks, totals, logging);
        Ok((Logger { shared }, pens))
    }

    /// The tape, the end of the ring and the script, once all eight pens are back. Takes no memory.
    ///
    /// The script is the one that `start` took, and the end comes from the same split as the one that `start` took, as the tape
    /// tells. Each writer has as many marks as its pen's place.
    pub fn close(self, pens: Pens<E, EachStatement<K>>) -> (Tape, U, Script)
        ensures script { result.2 ≡ K.script }
        ensures split { (U.view result.1).split ≡ K.split }
        ensures tells { (U.view result.1).tells ≡ K.tells }
        ensures kept { IsKept
            (record { script = result.2; tape = result.0; up = U.view result.1 }) }
        ensures p0 { marks_of 0 result.0.marks ≡ pens.p0.place }
        ensures p1 { marks_of 1 result.0.marks ≡ pens.p1.place }
        ensures p2 { marks_of 2 result.0.marks ≡ pens.p2.place }
        ensures p3 { marks_of 3 result.0.marks ≡ pens.p3.place }
        ensures p4 { marks_of 4 result.0.marks ≡ pens.p4.place }
        ensures p5 { marks_of 5 result.0.marks ≡ pens.p5.place }
        ensures p6 { marks_of 6 result.0.marks ≡ pens.p6.place }
        ensures p7 { marks_of 7 result.0.marks ≡ pens.p7.place }
    {
        let Logger { shared } = self;
        let Logging { desk, of: _ } = shared.close(pens);
        desk.close()
    }
}

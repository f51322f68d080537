//! The steered logger.
ghost use Rattle.std.specs.Prelude.{◌≡◌, ◌+◌, ◌<◌, IfOk};
ghost use Rattle.defmt_frames.specs.Frames.{pace_of};
ghost use Rattle.rtt_down.specs.Kept.{IsKept};
ghost use Rattle.rtt_down.specs.Steered.{turns_of};
ghost use Rattle.rtt_ring.specs.Views.{new_down, new_up};
ghost use Rattle.shared_work.specs.Names.{AreNamed};

use crate::bridge::Bridge;
use crate::steering::{EachTurn, Naming, Steering};
use crate::turns::Turns;
use boxcar::tag::{Names as Reads, Tag};
use defmt_frames::totals_of;
use defmt_hooks::{Clock, Stamp};
use defmt_script::Script;
use dl_io::Memory;
use rtt_modes::Relief;
use rtt_ring::{DownEnd, UpEnd};
use shared_work::{Blanks, Books, Eight, HasBook, Names, Pen, Pens, Quota, Shared, Work};
use std::alloc::Global;
use std::marker::PhantomData;
use std::sync::Wait;
use std::sync::ledger::Ledger;

/// A bridge that threads share. Each takes its turns by its own helm, which is a pen.
#[derive(Drop)]
pub struct Steered<B: Books, Q: Quota, T: Work<Q>> {
    shared: Shared<B, Q, T>,
    // All bytes that had been sent down when no turn was taken yet, where this was noted. Contracts alone read it.
    ahead: Tag,
}

// All bytes that an upper end has sent.
struct Sent;

impl<V: UpEnd> Reads<V> for Sent {
    ghost numbers = { λ up. (V.view up).sent };
}

impl<B: Books, Q: Quota, T: Work<Q>> Steered<B, Q, T> {
    ghost use Rattle.rtt_down.specs.Shared.{shared_of};

    /// Acquires the logger, takes the turn of the helm's next statement, of which there is one, and releases the logger. It
    /// may wait for the logger and for the reader. Takes no memory.
    pub fn log<S: HasBook<B, L>, L: Ledger, R: Relief, W: Wait>(
        &self,
        rt: &W,
        helm: &mut Pen<S, L, Q>,
        relief: &mut R,
    )
        requires place { helm.old.place < helm.old.total }
        requires relief { R.kept relief.old }
        ensures total { helm.new.total ≡ helm.old.total }
        ensures place { helm.new.place ≡ helm.old.place + 1 }
        ensures relief { R.kept relief.new }
    {
        self.shared.step(rt, helm, relief)
    }

    /// The work that the helms share: a bridge behind its lock. Takes no memory.
    pub fn shared(&self) -> &Shared<B, Q, T>
        ensures { result.now ≡ shared_of self.now }
    {
        &self.shared
    }
}

impl<E: Names, K: Naming, U: UpEnd + Drop, D: DownEnd + Drop, C: Clock + Drop> Steered<
    Eight<E>,
    EachTurn<K>,
    Steering<K, U, D, C>,
> {
    ghost use Rattle.rtt_down.specs.Shared.{ahead_of, shared_of};

    /// A steered logger of which no turn was taken, and the helms of the writers 0 to 7.
    ///
    /// The stamp counts as the script's stamps do, and by 0 and 0 without them. Both ends are as their splits gave them.
    /// Each blank is of its writer's ledger. Whatever the script's mode is, frames are sent in blocking mode.
    ///
    /// # Errors
    /// `Memory` where there is none. Script, stamp and both ends are then given up.
    pub fn start(
        alloc: Global,
        blanks: Blanks,
        script: Script,
        stamp: Stamp<C>,
        up: U,
        down: D,
    ) -> Result<(Self, Pens<E, EachTurn<K>>), Memory>
        requires pace { stamp ≡ pace_of script.settings.stamp }
        requires up { U.view up ≡ new_up (U.view up).split (U.view up).size (U.view up).tells }
        requires down { D.view down ≡ new_down (D.view down).split (D.view down).size }
        requires names { (K.script ≡ script) × (K.up ≡ (U.view up).split)
            × (K.down ≡ (D.view down).split) }
        requires tells { K.tells ≡ (U.view up).tells }
        requires ledgers { AreNamed blanks E.names }
        ensures p0 { IfOk result (λ r. r.1.p0.place ≡ 0) }
        ensures p1 { IfOk result (λ r. r.1.p1.place ≡ 0) }
        ensures p2 { IfOk result (λ r. r.1.p2.place ≡ 0) }
        ensures p3 { IfOk result (λ r. r.1.p3.place ≡ 0) }
        ensures p4 { IfOk result (λ r. r.1.p4.place ≡ 0) }
        ensures p5 { IfOk result (λ r. r.1.p5.place ≡ 0) }
        ensures p6 { IfOk result (λ r. r.1.p6.place ≡ 0) }
        ensures p7 { IfOk result (λ r. r.1.p7.place ≡ 0) }
    {
        let totals = totals_of(&script);
        let bridge = Bridge::start(alloc, script, stamp, up, down)?;
        let steering = Steering {
            bridge,
            of: PhantomData,
        };
        let (shared, helms) = Shared::start(blanks, totals, steering);
        let steered = Steered {
            shared,
            ahead: Tag::empty(),
        };
        Ok((steered, helms))
    }

    /// Notes for the turns what the upper end of the ring that orders come down has sent so far. All helms are here, at their
    /// first places: so it was sent before any turn was taken. Takes no memory.
    pub fn note_sent<V: UpEnd>(&mut self, helms: &Pens<E, EachTurn<K>>, sends: &V)
        requires pair { (V.view sends.now).split ≡ K.down }
        requires p0 { helms.now.p0.place ≡ 0 }
        requires p1 { helms.now.p1.place ≡ 0 }
        requires p2 { helms.now.p2.place ≡ 0 }
        requires p3 { helms.now.p3.place ≡ 0 }
        requires p4 { helms.now.p4.place ≡ 0 }
        requires p5 { helms.now.p5.place ≡ 0 }
        requires p6 { helms.now.p6.place ≡ 0 }
        requires p7 { helms.now.p7.place ≡ 0 }
        ensures ahead { ahead_of self.new ≡ (V.view sends.now).sent }
        ensures shared { shared_of self.new ≡ shared_of self.old }
    {
        let _ = helms;
        self.ahead = Tag::of::<V, Sent>(sends);
    }

    /// The turns, the two ends and the script, once all eight helms are back. Takes no memory.
    ///
    /// The script is the one that `start` took, and the ends come from the same splits as those that `start` took, whose names
    /// the turns have. Each writer has as many turns as its helm's place.
    pub fn close(self, helms: Pens<E, EachTurn<K>>) -> (Turns, U, D, Script)
        ensures script { result.3 ≡ K.script }
        ensures up { (U.view result.1).split ≡ K.up }
        ensures down { (D.view result.2).split ≡ K.down }
        ensures tells { (U.view result.1).tells ≡ K.tells }
        ensures kept { IsKept (record {
          script = result.3;
          turns = result.0;
          up = U.view result.1;
          down = D.view result.2;
        }) }
        ensures ahead { result.0.ahead ≡ ahead_of self }
        ensures p0 { turns_of 0 result.0.turns ≡ helms.p0.place }
        ensures p1 { turns_of 1 result.0.turns ≡ helms.p1.place }
        ensures p2 { turns_of 2 result.0.turns ≡ helms.p2.place }
        ensures p3 { turns_of 3 result.0.turns ≡ helms.p3.place }
        ensures p4 { turns_of 4 result.0.turns ≡ helms.p4.place }
        ensures p5 { turns_of 5 result.0.turns ≡ helms.p5.place }
        ensures p6 { turns_of 6 result.0.turns ≡ helms.p6.place }
        ensures p7 { turns_of 7 result.0.turns ≡ helms.p7.place }
    {
        let Steered { shared, ahead } = self;
        let Steering { bridge, of: _ } = shared.close(helms);
        let (mut turns, up, down, script) = bridge.close();
        turns.note_ahead(ahead);
        (turns, up, down, script)
    }
}

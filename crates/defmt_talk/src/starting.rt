//! What a run with texts for terminals starts.
ghost use Rattle.std.specs.Prelude.{◌≡◌, IfOk};
ghost use Rattle.defmt_frames.specs.Frames.{pace_of};
ghost use Rattle.defmt_logger.specs.Kept.{TellsIn};
ghost use Rattle.rtt_ring.specs.Views.{new_up};
ghost use Rattle.shared_work.specs.Names.{AreNamed};

use crate::settling::both;
use defmt_hooks::{Clock, Stamp};
use defmt_logger::{EachStatement, Logger, Logging, Naming};
use defmt_script::Script;
use dl_io::Memory;
use rtt_booth::{Booth, EachText, Speaking};
use rtt_ring::UpEnd;
use rtt_terminal::Speech;
use shared_work::{Blanks, Eight, Names, Pens};
use std::alloc::Global;

// A logger of a run and its pens.
pub(crate) type Logs<E, K, U, C> = (
    Logger<Eight<E>, EachStatement<K>, Logging<K, U, C>>,
    Pens<E, EachStatement<K>>,
);

// A booth of a run and its voices.
pub(crate) type Booths<F, V, U> = (
    Booth<Eight<F>, EachText<V>, Speaking<V, U>>,
    Pens<F, EachText<V>>,
);

// Starts a logger and a booth, each over the upper end of its ring, under their names.
pub(crate) fn start_both<
    U: UpEnd + Drop,
    E: Names,
    K: Naming,
    F: Names,
    V: rtt_booth::Naming,
    C: Clock + Drop,
>(
    alloc: Global,
    blanks: Blanks,
    text_blanks: Blanks,
    script: Script,
    speech: &Speech,
    stamp: Stamp<C>,
    up: U,
    text_up: U,
) -> Result<(Logs<E, K, U, C>, Booths<F, V, U>), Memory>
    requires pace { stamp ≡ pace_of script.settings.stamp }
    requires up { U.view up ≡ new_up (U.view up).split script.settings.ring (U.view up).tells }
    requires told { TellsIn script.settings.mode (U.view up) }
    requires names { (K.script ≡ script) × (K.split ≡ (U.view up).split)
        × (K.tells ≡ (U.view up).tells) }
    requires ledgers { AreNamed blanks E.names }
    requires text_up { U.view text_up
        ≡ new_up (U.view text_up).split (U.view text_up).size (U.view text_up).tells }
    requires text_names { (V.speech ≡ speech.now) × (V.split ≡ (U.view text_up).split)
        × (V.tells ≡ (U.view text_up).tells) }
    requires text_ledgers { AreNamed text_blanks F.names }
    ensures fresh { IfOk result (λ r. (r.0.1.p0.place ≡ 0) × (r.0.1.p1.place ≡ 0)
        × (r.0.1.p2.place ≡ 0) × (r.0.1.p3.place ≡ 0) × (r.0.1.p4.place ≡ 0)
        × (r.0.1.p5.place ≡ 0) × (r.0.1.p6.place ≡ 0) × (r.0.1.p7.place ≡ 0)) }
{
    let logs = Logger::<Eight<E>, EachStatement<K>, Logging<K, U, C>>::start(
        alloc, blanks, script, stamp, up,
    );
    let booths = Booth::<Eight<F>, EachText<V>, Speaking<V, U>>::start(
        alloc,
        text_blanks,
        speech,
        text_up,
    );
    // Both results are handed on whole, so that no early exit has the other to drop.
    both(logs, booths)
}

//! What a steered logger's writers share.
use crate::bridge::Bridge;
use defmt_hooks::Clock;
use rtt_modes::Relief;
use rtt_ring::{DownEnd, UpEnd};
use shared_work::{Quota, Work};
use std::marker::{Brand, Model, PhantomData};
use std::sync::Wait;

/// Which script a steered logger has, from which splits of two rings its ends come, and whether the upper ring tells what its
/// reader released. Whoever starts it picks the four.
pub trait Naming {
    ghost use Rattle.std.specs.Prelude.{ℕ, Bool, List};
    ghost use Rattle.defmt_script.specs.Script.{Script};

    /// The script.
    ghost script: { Script };

    /// The name of the split of the ring that frames go up.
    ghost up: { List ℕ };

    /// The name of the split of the ring that orders come down.
    ghost down: { List ℕ };

    /// Whether the ring that frames go up tells how many bytes were released.
    ghost tells: { Bool };
}

impl Naming for Brand {
    ghost use Rattle.std.specs.Prelude.{[], false};
    ghost use Rattle.defmt_script.specs.State.{empty_script};

    ghost script = { empty_script };

    ghost up = { [] };

    ghost down = { [] };

    ghost tells = { false };
}

/// The quota of a steered logger: a writer has a turn for each of its statements.
#[derive(Drop)]
pub struct EachTurn<K> {
    of: PhantomData<K>,
}

impl<K: Naming> Quota for EachTurn<K> {
    ghost use Rattle.defmt_frames.specs.Frames.{count};

    ghost quota = { λ w. count K.script w };
}

/// A bridge with what its naming tells: the script is the named one, and the ends are from the named splits and tell what they
/// are named to.
#[derive(Drop)]
pub struct Steering<K: Naming, U: UpEnd, D: DownEnd, C: Clock> {
    pub(crate) bridge: Bridge<U, D, C>,
    pub(crate) of: PhantomData<K>,
}

impl<K: Naming, U: UpEnd, D: DownEnd, C: Clock> Model for Steering<K, U, D, C> {
    ghost use Rattle.std.specs.Prelude.{◌≡◌};
    ghost use Rattle.rtt_down.specs.Kept.{Sheet};
    ghost use Rattle.rtt_down.specs.Codes.{coded_sheet};

    ghost Value = { Sheet };

    ghost coded = { coded_sheet };

    ghost view = { λ s. s.bridge };

    ghost invariant = { λ s. (s.bridge.script ≡ K.script) × (s.bridge.up.split ≡ K.up)
        × (s.bridge.down.split ≡ K.down) × (s.bridge.up.tells ≡ K.tells) };
}

impl<K: Naming, U: UpEnd, D: DownEnd, C: Clock> Work<EachTurn<K>> for Steering<K, U, D, C> {
    ghost use Rattle.rtt_down.specs.Steered.{turns_of};

    ghost done = { λ s w. turns_of w s.turns.turns };

    fn step<R: Relief, W: Wait>(&mut self, rt: &W, writer: u8, relief: &mut R) {
        self.bridge.append(rt, writer, relief);
    }
}

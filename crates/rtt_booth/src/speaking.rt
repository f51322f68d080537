//! What a booth's writers share.
use crate::stand::Stand;
use rtt_modes::Relief;
use rtt_ring::UpEnd;
use shared_work::{Quota, Work};
use std::marker::{Brand, Model, PhantomData};
use std::sync::Wait;

/// What the writers of a booth have to say, from which split of a ring its end comes, and whether the ring tells how many bytes
/// were released. Whoever starts a booth picks them.
pub trait Naming {
    ghost use Rattle.std.specs.Prelude.{ℕ, Bool, List};
    ghost use Rattle.rtt_terminal.specs.Speech.{Speech as ByWriter};

    /// What the writers have to say.
    ghost speech: { ByWriter };

    /// The name of the split.
    ghost split: { List ℕ };

    /// Whether the ring tells how many bytes were released.
    ghost tells: { Bool };
}

impl Naming for Brand {
    ghost use Rattle.std.specs.Prelude.{true, []};

    ghost speech = { [] };

    ghost split = { [] };

    ghost tells = { true };
}

/// The quota of a booth: a writer has a step for each of its texts.
#[derive(Drop)]
pub struct EachText<K> {
    of: PhantomData<K>,
}

impl<K: Naming> Quota for EachText<K> {
    ghost use Rattle.rtt_terminal.specs.Speech.{count_said};

    ghost quota = { λ w. count_said K.speech w };
}

/// A stand with what its naming tells: its writers have to say what is named, the end is from the named split, and tells what is
/// named.
#[derive(Drop)]
pub struct Speaking<K: Naming, U: UpEnd> {
    pub(crate) stand: Stand<U>,
    pub(crate) of: PhantomData<K>,
}

impl<K: Naming, U: UpEnd> Model for Speaking<K, U> {
    ghost use Rattle.std.specs.Prelude.{◌≡◌};
    ghost use Rattle.rtt_booth.specs.Kept.{Sheet};
    ghost use Rattle.rtt_booth.specs.Codes.{coded_sheet};

    ghost Value = { Sheet };

    ghost coded = { coded_sheet };

    ghost view = { λ s. s.stand };

    ghost invariant = { λ s. (s.stand.speech ≡ K.speech) × (s.stand.up.split ≡ K.split)
        × (s.stand.up.tells ≡ K.tells) };
}

impl<K: Naming, U: UpEnd> Work<EachText<K>> for Speaking<K, U> {
    ghost use Rattle.rtt_booth.specs.Said.{words_of};

    ghost done = { λ s w. words_of w s.said.words };

    fn step<R: Relief, W: Wait>(&mut self, rt: &W, writer: u8, relief: &mut R) {
        self.stand.append(rt, writer, relief)
    }
}

//! The reader of the terminals' ring.
ghost use Rattle.std.specs.Prelude.{◌+◌, length};
ghost use Rattle.defmt_talk.specs.Talks.{HoldsWords};

use defmt_writers::{FromSplit, Reader};
use rtt_modes::Relief;
use rtt_ring::DownEnd;
use std::marker::PhantomData;
use writer_threads::OpenGate;

/// A reader that has room for all that the named texts speak.
#[derive(Drop)]
pub(crate) struct Listener<M: FromSplit, V: rtt_booth::Naming, D: DownEnd> {
    pub(crate) reader: Reader<'static, M, D, OpenGate>,
    pub(crate) of: PhantomData<V>,
    ghost holds: { HoldsWords V.speech (reader.captured.room + length reader.captured.items) },
}

impl<M: FromSplit, V: rtt_booth::Naming, D: DownEnd> Relief for Listener<M, V, D> {
    ghost kept = { λ _. Unit {0} };

    fn ease(&mut self) {
        self.reader.ease();
    }
}

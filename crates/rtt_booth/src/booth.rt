//! The booth.
ghost use Rattle.std.specs.Prelude.{◌≡◌, ◌+◌, ◌<◌, [], ◌∷◌, IfOk};
ghost use Rattle.rtt_booth.specs.Said.{IsLawful, spoken_by, words_of};
ghost use Rattle.rtt_ring.specs.Views.{new_up};
ghost use Rattle.rtt_terminal.specs.Speech.{count_said};
ghost use Rattle.shared_work.specs.Names.{AreNamed};

use crate::said::Said;
use crate::speaking::{EachText, Naming, Speaking};
use crate::stand::Stand;
use dl_io::Memory;
use rtt_modes::Relief;
use rtt_ring::UpEnd;
use rtt_terminal::Speech;
use shared_work::{Blanks, Books, Eight, HasBook, Names, Pen, Pens, Quota, Shared, Work};
use std::alloc::Global;
use std::marker::PhantomData;
use std::sync::Wait;
use std::sync::ledger::Ledger;

/// A stand that threads share. Each says its texts by its own voice, which is a pen.
#[derive(Drop)]
pub struct Booth<B: Books, Q: Quota, T: Work<Q>> {
    shared: Shared<B, Q, T>,
}

impl<B: Books, Q: Quota, T: Work<Q>> Booth<B, Q, T> {
    ghost use Rattle.rtt_booth.specs.Shared.{shared_of};

    /// Acquires the booth, says the voice's next text, of which there is one, and releases the booth. It may wait for the
    /// booth and for the reader. Takes no memory.
    pub fn say<S: HasBook<B, L>, L: Ledger, R: Relief, W: Wait>(
        &self,
        rt: &W,
        voice: &mut Pen<S, L, Q>,
        relief: &mut R,
    )
        requires place { voice.old.place < voice.old.total }
        requires relief { R.kept relief.old }
        ensures total { voice.new.total ≡ voice.old.total }
        ensures place { voice.new.place ≡ voice.old.place + 1 }
        ensures relief { R.kept relief.new }
    {
        self.shared.step(rt, voice, relief)
    }

    /// The work that the voices share: a stand behind its lock. Takes no memory.
    pub fn shared(&self) -> &Shared<B, Q, T>
        ensures { result.now ≡ shared_of self.now }
    {
        &self.shared
    }
}

// How many texts the writers 0 to 7 have to say.
fn totals_of(speech: &Speech) -> [u32; 8]
    ensures { result ≡ count_said speech.now 0 ∷ count_said speech.now 1 ∷ count_said speech.now 2
        ∷ count_said speech.now 3 ∷ count_said speech.now 4 ∷ count_said speech.now 5
        ∷ count_said speech.now 6 ∷ count_said speech.now 7 ∷ [] }
{
    [
        speech.count(0),
        speech.count(1),
        speech.count(2),
        speech.count(3),
        speech.count(4),
        speech.count(5),
        speech.count(6),
        speech.count(7),
    ]
}

impl<E: Names, K: Naming, U: UpEnd + Drop> Booth<Eight<E>, EachText<K>, Speaking<K, U>> {
    /// A booth with a copy of what the writers have to say, of which nothing was said, and the voices of the writers 0 to 7.
    ///
    /// The end is as its split gave it. Each blank is of its writer's ledger.
    ///
    /// # Errors
    /// `Memory` where there is none. The end is then given up.
    pub fn start(
        alloc: Global,
        blanks: Blanks,
        speech: &Speech,
        up: U,
    ) -> Result<(Self, Pens<E, EachText<K>>), Memory>
        requires fresh { U.view up ≡ new_up (U.view up).split (U.view up).size (U.view up).tells }
        requires names { (K.speech ≡ speech.now) × (K.split ≡ (U.view up).split)
            × (K.tells ≡ (U.view up).tells) }
        requires ledgers { AreNamed blanks E.names }
        ensures p0 { IfOk result (λ r. r.1.p0.place ≡ 0) }
        ensures p1 { IfOk result (λ r. r.1.p1.place ≡ 0) }
        ensures p2 { IfOk result (λ r. r.1.p2.place ≡ 0) }
        ensures p3 { IfOk result (λ r. r.1.p3.place ≡ 0) }
        ensures p4 { IfOk result (λ r. r.1.p4.place ≡ 0) }
        ensures p5 { IfOk result (λ r. r.1.p5.place ≡ 0) }
        ensures p6 { IfOk result (λ r. r.1.p6.place ≡ 0) }
        ensures p7 { IfOk result (λ r. r.1.p7.place ≡ 0) }
    {
        let totals = totals_of(speech);
        let stand = Stand::start(alloc, speech, up)?;
        let speaking = Speaking {
            stand,
            of: PhantomData,
        };
        let (shared, voices) = Shared::start(blanks, totals, speaking);
        Ok((Booth { shared }, voices))
    }

    /// The words that were said and the end of the ring, once all eight voices are back. Takes no memory.
    ///
    /// The words are lawful for what `start` took, and those of the end. This comes from the same split as the one that
    /// `start` took and was sent what the words speak, and nothing is staged. Each writer has as many words as its voice's
    /// place.
    pub fn close(self, voices: Pens<E, EachText<K>>) -> (Said, U)
        ensures lawful { IsLawful K.speech result.0.words }
        ensures split { (U.view result.1).split ≡ K.split }
        ensures tells { (U.view result.1).tells ≡ K.tells }
        ensures said { result.0.split ≡ (U.view result.1).split }
        ensures sent { (U.view result.1).sent ≡ spoken_by K.speech result.0.words }
        ensures staged { (U.view result.1).staged ≡ [] }
        ensures p0 { words_of 0 result.0.words ≡ voices.p0.place }
        ensures p1 { words_of 1 result.0.words ≡ voices.p1.place }
        ensures p2 { words_of 2 result.0.words ≡ voices.p2.place }
        ensures p3 { words_of 3 result.0.words ≡ voices.p3.place }
        ensures p4 { words_of 4 result.0.words ≡ voices.p4.place }
        ensures p5 { words_of 5 result.0.words ≡ voices.p5.place }
        ensures p6 { words_of 6 result.0.words ≡ voices.p6.place }
        ensures p7 { words_of 7 result.0.words ≡ voices.p7.place }
    {
        let Booth { shared } = self;
        let Speaking { stand, of: _ } = shared.close(voices);
        let (said, up, _) = stand.close();
        (said, up)
    }
}

//! What eight writers have to say.
ghost use Rattle.std.specs.Prelude.{◌≡◌, ◌<◌, ◌++◌, ◌∷◌, [], IfOk, OnErr, OnOk, Some, slice_get};
ghost use Rattle.std.specs.Option.{option_copied};
ghost use Rattle.rtt_terminal.specs.Speech.{CanBeSaid, IsSpeech, count_said, count_texts, said_by, saying, silence, texts_limit, with_saying};
ghost use Rattle.rtt_terminal.specs.Stream.{IsSayable};

use crate::saying::{Saying, Sayings};
use dl_io::Memory;
use std::alloc::Global;
use std::marker::Model;

/// How many writers there are.
pub const WRITERS: u8 = 8;

/// What each of eight writers has to say, seen as a list of sayings for each: at most 4,096 together.
pub struct Speech {
    alloc: Global,
    writers: Vec<Sayings>,
}

// By hand: a derived drop is proved again in each crate that drops such a value.
impl Drop for Speech {
    fn drop(self) {
        let Speech {
            alloc: _,
            writers: _,
        } = self;
    }
}

impl Model for Speech {
    ghost use Rattle.rtt_terminal.specs.Codes.{coded_speech};
    ghost use Rattle.rtt_terminal.specs.Speech.{IsSpeech as HoldsOfSpeech, Speech as ByWriter};

    ghost Value = { ByWriter };

    ghost coded = { coded_speech };

    ghost view = { λ s. s.writers.items };

    ghost invariant = { λ s. HoldsOfSpeech s.writers.items };
}

// Puts a copy of what one writer has to say behind the others.
fn push_copy(writers: &mut Vec<Sayings>, alloc: Global, sayings: &Sayings) -> Result<(), Memory>
    ensures { OnOk result (writers.new.items ≡ writers.old.items ++ sayings.now ∷ []) }
{
    let copy = sayings.copy(alloc)?;
    writers.push(copy)?;
    Ok(())
}

impl Speech {
    /// No writer has anything to say. What they have grows by this allocator.
    pub fn new(alloc: Global) -> Result<Speech, Memory>
        ensures { IfOk result (λ speech. speech ≡ silence 8) }
    {
        let mut writers = Vec::new(alloc);
        for _ in 0..WRITERS {
            writers.push(Sayings::new(alloc))?;
        }
        Ok(Speech { alloc, writers })
    }

    /// A copy, which grows by this allocator.
    pub fn copy(&self, alloc: Global) -> Result<Speech, Memory>
        ensures { IfOk result (λ copy. copy ≡ self.now) }
    {
        let mut writers = Vec::new(alloc);
        for sayings in &self.writers {
            push_copy(&mut writers, alloc, sayings)?;
        }
        Ok(Speech { alloc, writers })
    }

    /// Puts a text behind those of a writer from 0 to 7: for a terminal from 0 to 15, behind so many of the writer's
    /// statements. The text may be spoken, and there are fewer than 4,096 texts.
    ///
    /// # Errors
    /// `Memory` where there is none; all is then as before.
    pub fn push(&mut self, writer: u8, behind: u32, terminal: u8, text: &str) -> Result<(), Memory>
        requires writer { writer < 8 }
        requires terminal { terminal < 16 }
        requires text { IsSayable text.now }
        requires few { count_texts self.old < texts_limit }
        ensures ok { OnOk result (self.new ≡ with_saying self.old writer (saying behind terminal text.now)) }
        ensures err { OnErr result (self.new ≡ self.old) }
    {
        let said = Saying::new(self.alloc, behind, terminal, text)?;
        self.writers[writer as usize].push(said)
    }

    /// What holds of what eight writers have to say. Takes no memory.
    pub fn lawful(&self)
        ensures { IsSpeech self.now }
    {
        let _ = &self.writers;
    }

    /// What a writer has to say in order, nothing for a number above 7. Takes no memory.
    pub fn sayings(&self, writer: u8) -> &[Saying]
        ensures { result.now ≡ said_by self.now writer }
    {
        match self.writers.get(usize::from(writer)) {
            Some(sayings) => sayings.as_slice(),
            None => &[],
        }
    }

    /// How many texts a writer has to say, 0 for each number above 7. Takes no memory.
    pub fn count(&self, writer: u8) -> u32
        ensures { result ≡ count_said self.now writer }
    {
        // So a writer has at most 4,096.
        self.lawful();
        self.sayings(writer).len() as u32
    }

    /// How many texts all writers have together. Takes no memory.
    #[tactic(auto, using(crate::proofs::SpeechLaws::count_next, crate::proofs::SpeechLaws::count_part))]
    pub fn len(&self) -> u32
        ensures { result ≡ count_texts self.now }
    {
        self.lawful();
        let mut count = 0;
        for writer in 0..WRITERS {
            count += self.count(writer);
        }
        count
    }

    /// What a writer has to say at a place, `None` exactly where the place isn't below the writer's count. Takes no memory.
    pub fn get(&self, writer: u8, place: u32) -> Option<&Saying>
        ensures { option_copied result ≡ slice_get (said_by self.now writer) place }
    {
        self.sayings(writer).get(place as usize)
    }

    /// What a writer has to say at a place, which is below the writer's count. Takes no memory.
    pub fn saying_at(&self, writer: u8, place: u32) -> &Saying
        requires { place < count_said self.now writer }
        ensures saying { slice_get (said_by self.now writer) place ≡ Some result.now }
        ensures sayable { CanBeSaid result.now }
    {
        self.lawful();
        self.there(writer, place)
    }

    fn there(&self, writer: u8, place: u32) -> &Saying
        requires { place < count_said self.now writer }
        ensures { slice_get (said_by self.now writer) place ≡ Some result.now }
    {
        let sayings = self.sayings(writer);
        &sayings[place as usize]
    }
}

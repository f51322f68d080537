//! The stand.
ghost use Rattle.std.specs.Prelude.{◌≡◌, ◌≤◌, ◌<◌, ◌++◌, ◌∷◌, [], IfOk, length, take};
ghost use Rattle.rtt_booth.specs.Kept.{IsKept, line_from, word};
ghost use Rattle.rtt_booth.specs.Said.{words_of};
ghost use Rattle.rtt_ring.specs.Views.{UpKept, new_up};
ghost use Rattle.rtt_terminal.specs.Speech.{count_said};
ghost use Rattle.rtt_terminal.specs.Stream.{IsSayable};

use crate::said::{Said, Word};
use dl_io::Memory;
use rtt_modes::{Relief, block};
use rtt_ring::UpEnd;
use rtt_terminal::{Speech, speak};
use std::alloc::Global;
use std::marker::Model;
use std::sync::Wait;

// How many bytes a line and its switch have at most.
const LINE_SIZE: usize = 2003;

// How many texts there are at most.
const TEXTS: usize = 4096;

/// What writers have to say, the words that were said of it, and the end of a ring that they are spoken to.
///
/// Between two calls the words are lawful and those of the end, what was sent is what they speak, and nothing is staged.
#[derive(Drop)]
pub struct Stand<U: UpEnd> {
    speech: Speech,
    said: Said,
    places: [u32; 8],
    current: u8,
    line: Vec<u8>,
    up: U,
}

impl<U: UpEnd> Model for Stand<U> {
    ghost use Rattle.rtt_booth.specs.Kept.{IsWorking, Sheet};
    ghost use Rattle.rtt_booth.specs.Codes.{coded_sheet};

    ghost Value = { Sheet };

    ghost coded = { coded_sheet };

    ghost view = { λ s. record { speech = s.speech; said = s.said; up = U.view s.up } };

    ghost invariant = { λ s.
        IsWorking (record { speech = s.speech; said = s.said; up = U.view s.up })
        s.places s.current s.line.items };
}

// Writes the line of a text at the front of a buffer, where a terminal is current, and answers how many bytes it has.
fn write_line(current: u8, terminal: u8, text: &str, buffer: &mut [u8]) -> usize
    requires terminals { (current < 16) × (terminal < 16) }
    requires text { IsSayable text.now }
    requires buffer { length buffer.old ≡ 2003 }
    ensures line { take result buffer.new ≡ line_from current terminal text.now }
    ensures short { result ≤ 2003 }
{
    speak(current, terminal, text, buffer)
}

// Sends the line of a text, where a terminal is current. The buffer is for the line and its switch.
fn send_line<U: UpEnd, R: Relief, W: Wait>(
    rt: &W,
    up: &mut U,
    current: u8,
    terminal: u8,
    text: &str,
    buffer: &mut [u8],
    relief: &mut R,
)
    requires staged { (U.view up.old).staged ≡ [] }
    requires terminals { (current < 16) × (terminal < 16) }
    requires text { IsSayable text.now }
    requires buffer { length buffer.old ≡ 2003 }
    requires relief { R.kept relief.old }
    ensures sent { (U.view up.new).sent
        ≡ (U.view up.old).sent ++ line_from current terminal text.now }
    ensures kept { UpKept (U.view up.old) (U.view up.new) }
    ensures relief { R.kept relief.new }
{
    let count = write_line(current, terminal, text, buffer);
    block(rt, up, &buffer[..count], relief);
}

// No words for an end, and room for those of all texts that writers can have.
fn new_said<U: UpEnd>(alloc: Global, up: &U) -> Result<Said, Memory>
    ensures words { IfOk result (λ said. said.words ≡ []) }
    ensures room { IfOk result (λ said. said.room ≡ 4096) }
    ensures split { IfOk result (λ said. said.split ≡ (U.view up.now).split) }
{
    let mut said = Said::of(alloc, up);
    said.reserve(TEXTS)?;
    Ok(said)
}

// What a stand has of its own before anything is said.
struct Prepared {
    speech: Speech,
    said: Said,
    line: Vec<u8>,
}

// A copy of what writers have to say, no words for an end, and the buffer for a line.
fn prepare<U: UpEnd>(alloc: Global, speech: &Speech, up: &U) -> Result<Prepared, Memory>
    ensures speech { IfOk result (λ p. p.speech ≡ speech.now) }
    ensures words { IfOk result (λ p. p.said.words ≡ []) }
    ensures room { IfOk result (λ p. p.said.room ≡ 4096) }
    ensures split { IfOk result (λ p. p.said.split ≡ (U.view up.now).split) }
    ensures line { IfOk result (λ p. length p.line.items ≡ 2003) }
{
    let line = vec![in alloc; 0u8; LINE_SIZE]?;
    let said = new_said(alloc, up)?;
    let speech = speech.copy(alloc)?;
    Ok(Prepared { speech, said, line })
}

impl<U: UpEnd> Stand<U> {
    /// Says the next text of a writer that has one left: its line goes to the ring in blocking mode, and its word to those
    /// that were said. It may wait for the reader. Takes no memory.
    pub fn append<R: Relief, W: Wait>(&mut self, rt: &W, writer: u8, relief: &mut R)
        requires writer { writer < 8 }
        requires place { words_of writer self.old.said.words < count_said self.old.speech writer }
        requires relief { R.kept relief.old }
        ensures words { self.new.said.words
            ≡ self.old.said.words ++ word writer (words_of writer self.old.said.words) ∷ [] }
        ensures speech { self.new.speech ≡ self.old.speech }
        ensures split { self.new.up.split ≡ self.old.up.split }
        ensures tells { self.new.up.tells ≡ self.old.up.tells }
        ensures kept { IsKept self.new }
        ensures relief { R.kept relief.new }
    {
        self.speech.lawful();
        let place = self.places[writer as usize];
        let saying = self.speech.saying_at(writer, place);
        let terminal = saying.terminal();
        let text = saying.text();
        send_line(
            rt,
            &mut self.up,
            self.current,
            terminal,
            text,
            &mut self.line,
            relief,
        );
        self.said.push_reserved(Word { writer, place });
        self.places[writer as usize] = place + 1;
        self.current = terminal;
    }
}

impl<U: UpEnd + Drop> Stand<U> {
    // A stand at which nothing was said, with a copy of what writers have to say and room for all that will be.
    pub(crate) fn start(alloc: Global, speech: &Speech, up: U) -> Result<Stand<U>, Memory>
        requires fresh { U.view up ≡ new_up (U.view up).split (U.view up).size (U.view up).tells }
        ensures speech { IfOk result (λ stand. stand.speech ≡ speech.now) }
        ensures words { IfOk result (λ stand. stand.said.words ≡ []) }
        ensures up { IfOk result (λ stand. stand.up ≡ U.view up) }
        ensures kept { IfOk result IsKept }
    {
        let own = prepare(alloc, speech, &up)?;
        let Prepared { speech, said, line } = own;
        Ok(Stand {
            speech,
            said,
            places: [0; 8],
            current: 0,
            line,
            up,
        })
    }

    // The said words, the end of the ring and what writers had to say.
    pub(crate) fn close(self) -> (Said, U, Speech)
        ensures said { result.0 ≡ self.said }
        ensures up { U.view result.1 ≡ self.up }
        ensures speech { result.2 ≡ self.speech }
        ensures kept { IsKept
            (record { speech = result.2; said = result.0; up = U.view result.1 }) }
    {
        let Stand {
            speech,
            said,
            places: _,
            current: _,
            line: _,
            up,
        } = self;
        (said, up, speech)
    }
}

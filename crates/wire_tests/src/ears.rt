//! A listener that has a letter for each fault, and notices pieces that stand whole as lines, and who reports what it hears.
ghost use Rattle.std.specs.Prelude.{◌≡◌, ◌≤◌, ◌++◌, ◌∷◌, [], ℕ, Bool, true, false, List, length, take, drop, nat_lt, if◌then◌else◌, OnOk};
ghost use Rattle.defmt_framing.specs.Framing.{Stands};

use defmt_framing::{Framer, Notice, Teller};
use defmt_listen::{Listener, Passing, Reporter};
use dl_io::{Bytes, Memory};
use std::alloc::Global;
use std::marker::Model;

/// What a part tells: a text and a byte behind it, which are shown or not. All but pieces are faults. It is seen as what is printed
/// of it, and whether it is a fault.
#[derive(Drop)]
pub struct Told {
    text: Vec<u8>,
    last: u8,
    shown: bool,
    fault: bool,
}

impl Model for Told {
    ghost Value = { List ℕ × Bool };

    ghost view = { λ told.
        (if told.shown then told.text.items ++ told.last ∷ [] else [], told.fault) };
}

// A fault of this letter.
fn fault(alloc: Global, letter: u8) -> Told
    ensures { result ≡ (letter ∷ [], true) }
{
    Told {
        text: Vec::new(alloc),
        last: letter,
        shown: true,
        fault: true,
    }
}

// Whether a piece with so many bytes is shown.
fn is_shown(size: usize) -> bool
    ensures { result ≡ nat_lt size 3 }
{
    size < 3
}

#[derive(Drop)]
struct Letters {
    alloc: Global,
}

impl Teller for Letters {
    type Told = Told;

    ghost tells = { λ _. record {
      piece = λ piece. (if nat_lt (length piece) 3 then piece ++ 10 ∷ [] else [], false);
      long = (108 ∷ [], true);
      cut_front = λ _. (102 ∷ [], true);
      cut_tail = λ _. (116 ∷ [], true);
    } };

    fn piece(&mut self, piece: &[u8]) -> Result<Told, Memory> {
        Ok(Told {
            text: Vec::from_slice(self.alloc, piece)?,
            last: b'\n',
            shown: is_shown(piece.len()),
            fault: false,
        })
    }

    fn long(&self) -> Told {
        fault(self.alloc, b'l')
    }

    fn cut_front(&self, _bytes: u64) -> Told {
        fault(self.alloc, b'f')
    }

    fn cut_tail(&self, _bytes: u64) -> Told {
        fault(self.alloc, b't')
    }
}

/// Whether a line is shown, and whether the reporter says so before it sees the text.
#[derive(Drop)]
pub struct Manner {
    shown: bool,
    settled: bool,
}

// A piece of one byte is asked for, and another is settled.
fn manner_of(piece: &[u8]) -> Manner
    ensures { result.shown ≡ nat_lt (length piece.now) 3 }
{
    Manner {
        shown: is_shown(piece.len()),
        settled: piece.len() > 1,
    }
}

// Writes a text behind a place of a buffer, which ends with it.
fn put_behind(buffer: &mut Vec<u8>, at: usize, text: &[u8]) -> Result<(), Memory>
    requires { at ≤ length buffer.old.items }
    ensures front { take at buffer.new.items ≡ take at buffer.old.items }
    ensures behind { OnOk result (drop at buffer.new.items ≡ text.now) }
{
    buffer.truncate(at);
    buffer.extend_from_slice(text)?;
    Ok(())
}

/// Notices a piece that stands whole in bytes as a line.
#[derive(Drop)]
pub struct Ear {
    pub framer: Framer,
    letters: Letters,
}

impl Ear {
    /// An ear that heard nothing.
    pub fn new(alloc: Global) -> Self
        ensures { Stands result.framer [] }
    {
        Ear {
            framer: Framer::new(alloc),
            letters: Letters { alloc },
        }
    }
}

impl Listener for Ear {
    type Event = Told;

    type Origin = Manner;

    ghost line = { λ manner text. (if manner.shown then text ++ 10 ∷ [] else [], false) };

    ghost known = { λ _. Unit {0} };

    ghost tells = { λ _. record {
      piece = λ piece. (if nat_lt (length piece) 3 then piece ++ 10 ∷ [] else [], false);
      long = (108 ∷ [], true);
      cut_front = λ _. (102 ∷ [], true);
      cut_tail = λ _. (116 ∷ [], true);
    } };

    ghost framing = { λ ear. ear.framer };

    fn hear(
        &mut self,
        bytes: &[u8],
        text: &mut Vec<u8>,
        at: usize,
    ) -> Result<(usize, Notice<Told, Manner>), Memory> {
        if let Some((start, size)) = self.framer.whole_piece(bytes) {
            let (_, rest) = bytes.split_at(start);
            let (piece, _) = rest.split_at(size);
            put_behind(text, at, piece)?;
            self.framer.pass_piece::<Told>(bytes, start, size);
            return Ok((
                start + size + 1,
                Notice::Line(manner_of(piece), piece.len()),
            ));
        }
        let (taken, told) = self.framer.feed(&mut self.letters, bytes)?;
        match told {
            Some(told) => Ok((taken, Notice::Event(told))),
            None => Ok((taken, Notice::Nothing)),
        }
    }

    fn finish(self) -> Option<Told> {
        self.framer.finish(&self.letters)
    }
}

/// Prints what is shown.
#[derive(Drop)]
pub struct Scribe;

impl Reporter<Ear> for Scribe {
    ghost reporting = { record {
      line = λ _ told. told.0;
      after = λ scribe _. scribe;
      is_fault = λ told. told.1;
    } };

    fn add_line(&mut self, _alloc: Global, told: Told, out: &mut Bytes) -> Result<(), Memory> {
        if !told.shown {
            return Ok(());
        }
        out.reserve(told.text.len() + 1)?;
        out.extend_reserved(&told.text);
        out.push_reserved(told.last);
        Ok(())
    }

    fn add_text(
        &mut self,
        _alloc: Global,
        manner: Manner,
        text: &[u8],
        out: &mut Bytes,
    ) -> Result<(), Memory> {
        if !manner.shown {
            return Ok(());
        }
        out.reserve(text.len() + 1)?;
        out.extend_reserved(text);
        out.push_reserved(b'\n');
        Ok(())
    }

    fn passes(&mut self, manner: &Manner) -> Passing {
        if !manner.settled {
            Passing::Asked
        } else if manner.shown {
            Passing::Kept
        } else {
            Passing::LeftOut
        }
    }

    fn is_fault(&self, told: &Told) -> bool {
        told.fault
    }
}

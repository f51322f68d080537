//! The pieces of a format string.

ghost use Rattle.std.specs.Prelude.{◌≡◌, ◌<◌, ◌≤◌, ◌^◌, List, ℕ, length, All, IfOk, slice_index};
ghost use Rattle.defmt_grammar.specs.declared.fault.Cause.{Cause as Causes};
ghost use Rattle.defmt_grammar.specs.declared.piece.Piece.{Piece as AnyPiece};
ghost use Rattle.defmt_grammar.specs.declared.fault.Mode.{Mode as Modes};
ghost use Rattle.defmt_grammar.specs.declared.language.Language.{Language as Languages};
ghost use Rattle.defmt_grammar.specs.Language.{strict_of, lenient_of};
ghost use Rattle.defmt_grammar.specs.Grammar.{Spells, HasFault, IsRefused, SameFault, AreSpelled};
ghost use Rattle.defmt_grammar.specs.Pieces.{Parses, GivesOnly, RefusesOnly};
ghost use Rattle.defmt_grammar.specs.Slots.{slots_of, uses_at, IsSound, AllUsed, SlotsAreSound};

use crate::fault::{Cause, GrammarFault, Memory, Mode};
use crate::piece::Piece;
use crate::positions::{is_used_from, slots_in, table_of};
use crate::reading::read;
use crate::slot::Slot;
use std::alloc::Global;
use std::marker::Model;

/// Pieces that some text spells, seen as the list of them.
pub struct Pieces {
    pieces: Vec<Piece>,
    slots: Vec<Slot>,
    counts: Vec<usize>,
}

// By hand: a derived drop is proved again in each crate that drops such a value.
impl Drop for Pieces {
    fn drop(self) {
        let Pieces {
            pieces: _,
            slots: _,
            counts: _,
        } = self;
    }
}

impl Model for Pieces {
    ghost use Rattle.std.specs.Prelude.{List};
    ghost use Rattle.defmt_grammar.specs.declared.piece.Piece.{Piece as OnePiece};
    ghost use Rattle.defmt_grammar.specs.Whole.{IsWhole};

    ghost Value = { List OnePiece };

    ghost view = { λ p. p.pieces.items };

    ghost invariant = { λ p. IsWhole p.pieces.items p.slots.items p.counts.items };
}

impl Pieces {
    /// The pieces themselves. Takes no memory.
    pub fn as_slice(&self) -> &[Piece]
        ensures pieces { result.now ≡ self.now }
        ensures spelled { AreSpelled self.now }
    {
        self.pieces.as_slice()
    }

    /// One slot for each position, from 0 to the greatest that is used: at most 16. A window lies
    /// within 16 bytes, and each position is used. Takes no memory.
    pub fn slots(&self) -> &[Slot]
        ensures slots { result.now ≡ slots_of self.now }
        ensures few { length result.now ≤ 16 }
        ensures sound { All IsSound result.now }
        ensures used { AllUsed self.now (length result.now) }
    {
        self.slots.as_slice()
    }

    /// How many parameters use a position: 0 from the number of positions on. Takes no memory.
    pub fn uses(&self, position: u8) -> usize
        ensures { result ≡ uses_at position self.now }
    {
        count_at(&self.counts, usize::from(position))
    }

    /// The same pieces again.
    pub fn copy(&self, alloc: Global) -> Result<Pieces, Memory>
        ensures { IfOk result (λ pieces. pieces ≡ self.now) }
    {
        let pieces = copied(alloc, &self.pieces)?;
        let slots = Vec::from_slice(alloc, &self.slots)?;
        let counts = Vec::from_slice(alloc, &self.counts)?;
        Ok(Pieces {
            pieces,
            slots,
            counts,
        })
    }
}

// The count of a position, or 0 where there is none.
fn count_at(counts: &[usize], position: usize) -> usize
    ensures { result ≡ slice_index counts.now position }
{
    match counts.get(position) {
        Some(count) => *count,
        None => 0,
    }
}

// The same pieces again.
fn copied(alloc: Global, pieces: &[Piece]) -> Result<Vec<Piece>, Memory>
    ensures { IfOk result (λ copies. copies.items ≡ pieces.now) }
{
    let mut copies = Vec::new(alloc);
    for piece in pieces {
        copies.push(piece.copy()?)?;
    }
    Ok(copies)
}

// As `parse`.
fn pieces_of(alloc: Global, text: &str, mode: Mode) -> Result<Pieces, GrammarFault>
    requires { length text.now < 2 ^ 32 }
    ensures { Parses text.now mode result }
{
    let (pieces, uses) = read(alloc, text, mode)?;
    let table = match table_of(&uses) {
        Ok(table) => table,
        Err(at) => {
            return Err(GrammarFault::Refused {
                cause: Cause::Conflict.number(),
                at,
            });
        }
    };
    let (slots, counts) = slots_in(alloc, &table)?;
    if is_used_from(&table, slots.as_slice().len()) {
        return Err(GrammarFault::Refused {
            cause: Cause::Gap.number(),
            at: text.len() as u32,
        });
    }
    Ok(Pieces {
        pieces,
        slots,
        counts,
    })
}

/// The pieces that a text of fewer than 4,294,967,296 bytes spells, or the first fault for which it
/// spells none. The defmt book, "Hints" and "Bitfields", and the crate defmt-parser.
///
/// # Errors
/// `GrammarFault::Refused` where the text spells nothing: the number of the cause and its place in
/// bytes. The first fault from left to right counts; where there is none, the first conflict of
/// kinds; then a gap. `GrammarFault::Memory` where memory runs out.
pub fn parse(alloc: Global, text: &str, mode: Mode) -> Result<Pieces, GrammarFault>
    requires { length text.now < 2 ^ 32 }
    // Pieces are answered only where the text spells them, and a refusal only with its first fault.
    ensures answer { Parses text.now mode result }
    // Unless memory runs out, what the text spells is answered, and its fault.
    ensures spelled { (ps : List AnyPiece) → Spells text.now mode ps → GivesOnly result ps }
    ensures refused { (number at : ℕ) → IsRefused text.now mode number at → RefusesOnly result number at }
{
    pieces_of(alloc, text, mode)
}

/// A text spells at most one list of pieces, or has one fault and spells nothing.
pub fn one_answer()
    ensures one { (text : List ℕ) (mode : Modes) (ps qs : List AnyPiece) → Spells text mode ps → Spells text mode qs → ps ≡ qs }
    ensures never_both { (text : List ℕ) (mode : Modes) (ps : List AnyPiece) (cause : Causes) (at : ℕ) → Spells text mode ps → HasFault text mode cause at → ⊥ }
    ensures first { (text : List ℕ) (mode : Modes) (c d : Causes) (a b : ℕ) → HasFault text mode c a → HasFault text mode d b → SameFault c d a b }
{}

/// What a text spells strictly it spells leniently, in each language.
pub fn strict_is_lenient()
    ensures { (language : Languages) (text : List ℕ) (ps : List AnyPiece) → Spells text (strict_of language) ps
        → Spells text (lenient_of language) ps }
{}

/// What a text spells strictly in the base language it spells in the full one.
pub fn base_is_full()
    ensures { (text : List ℕ) (ps : List AnyPiece) → Spells text Mode.Strict ps
        → Spells text Mode.StrictFull ps }
{}

/// Pieces that some text spells have at most 16 slots. A window lies within 16 bytes and holds each
/// bit field of its position, and each position is used.
pub fn slots_are_sound()
    ensures { (ps : List AnyPiece) → AreSpelled ps → SlotsAreSound ps }
{}

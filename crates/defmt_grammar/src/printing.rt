//! The canonical spelling.

ghost use Rattle.std.specs.Prelude.{◌≡◌, ◌∷◌, [], ◌++◌, OnOk, IfOk, List, ℕ};
ghost use Rattle.defmt_grammar.specs.Print.{kind_name, kind_text, radix_text, hint_text, param_text, doubled, piece_text, printed};
ghost use Rattle.defmt_grammar.specs.Grammar.{Spells, AreSpelled};
ghost use Rattle.defmt_grammar.specs.declared.piece.Piece.{Piece as AnyPiece};
ghost use Rattle.defmt_grammar.specs.declared.fault.Mode.{Mode as Modes};
ghost use Rattle.defmt_grammar.specs.Print.{back};
ghost use Rattle.defmt_grammar.specs.Hint.{letter_of, iso_name, clock_name};

use crate::fault::{Memory, Mode};
use crate::hint::{Base, ClockUnit, Hint, IsoUnit};
use crate::kind::{FloatSize, IntSize, Kind};
use crate::param::Param;
use crate::parts::behind;
use crate::piece::Piece;
use crate::pieces::Pieces;
use crate::step::split_plain;
use crate::text::Text;
use std::alloc::Global;

// The word of a kind, or nothing where it has none.
fn kind_name(kind: Kind) -> &'static str
    ensures { result.now ≡ kind_name kind }
{
    match kind {
        Kind::Uint(IntSize::W8) => "u8",
        Kind::Uint(IntSize::W16) => "u16",
        Kind::Uint(IntSize::W32) => "u32",
        Kind::Uint(IntSize::W64) => "u64",
        Kind::Uint(IntSize::W128) => "u128",
        Kind::Uint(IntSize::Native) => "usize",
        Kind::Int(IntSize::W8) => "i8",
        Kind::Int(IntSize::W16) => "i16",
        Kind::Int(IntSize::W32) => "i32",
        Kind::Int(IntSize::W64) => "i64",
        Kind::Int(IntSize::W128) => "i128",
        Kind::Int(IntSize::Native) => "isize",
        Kind::Bool => "bool",
        Kind::Char => "char",
        Kind::Str => "str",
        Kind::Istr => "istr",
        Kind::Bytes => "[u8]",
        Kind::Format => "?",
        Kind::FormatSlice => "[?]",
        Kind::Float(FloatSize::W32) => "f32",
        Kind::Float(FloatSize::W64) => "f64",
        Kind::Debug => "__internal_Debug",
        Kind::Display => "__internal_Display",
        Kind::Sequence => "__internal_FormatSequence",
        Kind::ByteArray(_) | Kind::FormatArray(_) | Kind::Bits { .. } => "",
    }
}

// Appends a kind, with one space after a semicolon.
fn print_kind(out: &mut Text, kind: Kind) -> Result<(), Memory>
    ensures { OnOk result (out.new ≡ out.old ++ kind_text kind) }
{
    match kind {
        Kind::ByteArray(n) => {
            out.push_str("[u8; ")?;
            out.push_number(n)?;
            out.push_str("]")
        }
        Kind::FormatArray(n) => {
            out.push_str("[?; ")?;
            out.push_number(n)?;
            out.push_str("]")
        }
        Kind::Bits { lo, hi } => {
            out.push_number(u16::from(lo))?;
            out.push_str("..")?;
            out.push_number(u16::from(hi))
        }
        other => out.push_str(kind_name(other)),
    }
}

// The letter of a base.
fn base_letter(base: Base) -> &'static str
    ensures { result.now ≡ letter_of base ∷ [] }
{
    match base {
        Base::Hex => "x",
        Base::HexUpper => "X",
        Base::Binary => "b",
        Base::Octal => "o",
    }
}

// Appends the hint of a radix.
fn print_radix(out: &mut Text, base: Base, alt: bool, width: u8) -> Result<(), Memory>
    ensures { OnOk result (out.new ≡ out.old ++ radix_text base alt width) }
{
    if alt {
        out.push_str("#")?;
    }
    if width != 0 {
        out.push_str("0")?;
        out.push_number(u16::from(width))?;
    }
    out.push_str(base_letter(base))
}

// The word of a date and time.
fn iso_name(unit: IsoUnit) -> &'static str
    ensures { result.now ≡ iso_name unit }
{
    match unit {
        IsoUnit::Seconds => "iso8601s",
        IsoUnit::Millis => "iso8601ms",
    }
}

// The word of a clock.
fn clock_name(unit: ClockUnit) -> &'static str
    ensures { result.now ≡ clock_name unit }
{
    match unit {
        ClockUnit::Seconds => "ts",
        ClockUnit::Millis => "tms",
        ClockUnit::Micros => "tus",
    }
}

// Appends a hint with its colon, or nothing where it is plain.
fn print_hint(out: &mut Text, hint: Hint) -> Result<(), Memory>
    ensures { OnOk result (out.new ≡ out.old ++ hint_text hint) }
{
    match hint {
        Hint::Plain => Ok(()),
        Hint::Debug => out.push_str(":?"),
        Hint::Ascii => out.push_str(":a"),
        Hint::Micros => out.push_str(":us"),
        Hint::Millis => out.push_str(":ms"),
        Hint::Radix { base, alt, width } => {
            out.push_str(":")?;
            print_radix(out, base, alt, width)
        }
        Hint::Iso(unit) => {
            out.push_str(":")?;
            out.push_str(iso_name(unit))
        }
        Hint::Clock(unit) => {
            out.push_str(":")?;
            out.push_str(clock_name(unit))
        }
        Hint::Pad(width) => {
            out.push_str(":0")?;
            out.push_number(u16::from(width))
        }
    }
}

// Appends a parameter with all of its parts.
fn print_param(out: &mut Text, param: &Param) -> Result<(), Memory>
    ensures { OnOk result (out.new ≡ out.old ++ param_text param.now) }
{
    out.push_str("{")?;
    out.push_number(u16::from(param.position))?;
    out.push_str("=")?;
    print_kind(out, param.kind)?;
    print_hint(out, param.hint)?;
    out.push_str("}")
}

// Appends a text with its braces doubled.
fn print_literal(out: &mut Text, text: &str) -> Result<(), Memory>
    ensures { OnOk result (out.new ≡ out.old ++ doubled text.now) }
{
    let mut rest = text;
    'braces: loop {
        let (run, more) = split_plain(rest);
        out.push_str(run)?;
        if let Some(after) = behind(more, '{') {
            out.push_str("{{")?;
            rest = after;
        } else if let Some(after) = behind(more, '}') {
            out.push_str("}}")?;
            rest = after;
        } else {
            return Ok(());
        }
    }
}

// Appends a piece.
fn print_piece(out: &mut Text, piece: &Piece) -> Result<(), Memory>
    ensures { OnOk result (out.new ≡ out.old ++ piece_text piece.now) }
{
    match piece {
        Piece::Literal(text) => print_literal(out, text.as_str()),
        Piece::Param(param) => print_param(out, param),
    }
}

/// The canonical spelling: every position and kind is written, each hint in its shortest form, and
/// braces of literals are doubled.
///
/// # Errors
/// `Memory` where memory runs out.
pub fn print(alloc: Global, pieces: &Pieces) -> Result<Text, Memory>
    ensures { IfOk result (λ text. text ≡ printed pieces.now) }
{
    let mut out = Text::new(alloc);
    for piece in pieces.as_slice() {
        print_piece(&mut out, piece)?;
    }
    Ok(out)
}

/// What is printed is read back: the canonical spelling of pieces that a text spells in a mode spells
/// them in the strict mode of its language, and that of pieces that some text spells in the full one.
pub fn reads_back()
    ensures same { (text : List ℕ) (mode : Modes) (ps : List AnyPiece) → Spells text mode ps → Spells (printed ps) (back mode) ps }
    ensures full { (ps : List AnyPiece) → AreSpelled ps → Spells (printed ps) Mode.StrictFull ps }
{}

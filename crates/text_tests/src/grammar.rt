//! Format strings: their refusals, spellings, pieces and slots.
use crate::rows::Kind;
use crate::shared::pieces_of;
use defmt_grammar::{Cause, GrammarFault, Mode, Piece, Pieces, Slot, Text, print};
use std::alloc::Global;
use std::fmt::Write;
use std::test::Fail;
use test_rows::{each_line, expect, put_str};

const REFUSALS: &str = "\
strict { = cause 1 at 0
strict } = cause 1 at 0
strict {=u9} = cause 2 at 2
strict {=u8:q} = cause 3 at 5
strict {=4..4} = cause 4 at 2
strict {0=u8}{0=u16} = cause 5 at 6
strict {1=u8} = cause 6 at 6
strict {16=u8} = cause 7 at 0
strict {=f32} = cause 8 at 2
strict é{ = cause 1 at 2
strict a}b = cause 1 at 1
strict {{} = cause 1 at 2
strict {=u8 = cause 1 at 0
strict {{{ = cause 1 at 2
strict {}} = cause 1 at 2
strict ab{01=u8} = cause 1 at 3
strict {00x} = cause 1 at 1
strict {0x} = cause 1 at 2
strict { } = cause 1 at 1
strict {é} = cause 1 at 1
strict {12u8} = cause 1 at 3
strict {=} = cause 2 at 2
strict {=:x} = cause 2 at 2
strict {10=} = cause 2 at 4
strict {=[u8;]} = cause 2 at 2
strict {=[u8; 3 ]} = cause 2 at 2
strict {=[u8;+3]} = cause 2 at 2
strict {= u8} = cause 2 at 2
strict {=3..} = cause 2 at 2
strict {=0...4} = cause 2 at 2
strict {=[u8;65536]} = cause 4 at 2
strict {=[?;99999999999999999999]} = cause 4 at 2
strict {=0..129} = cause 4 at 2
strict {=5..4} = cause 4 at 2
strict {=0..340282366920938463463374607431768211456} = cause 4 at 2
strict {3=f64:q} = cause 8 at 3
strict {16=u9:q} = cause 7 at 0
strict {=u9:q} = cause 2 at 2
strict {=4..4:q} = cause 4 at 2
strict {=u8:q}{ = cause 3 at 5
strict {=u9}{=f32} = cause 2 at 2
strict {0=u8}{0=u16}} = cause 1 at 13
strict {2=u8}{2=bool} = cause 5 at 6
strict {0=u8}{1=u8}{1=u16}{0=u16} = cause 5 at 12
strict {0=0..4}{0=u8} = cause 5 at 8
strict {0=u8}{0=0..4} = cause 5 at 6
strict {0=[u8;1]}{0=[u8;2]} = cause 5 at 10
strict {}{0=u8} = cause 5 at 2
strict {0=u8}é{2=u8} = cause 6 at 14
strict {}{}{}{}{}{}{}{}{}{}{}{}{}{}{}{}{} = cause 7 at 32
strict {99999999999999999999999=u8} = cause 7 at 0";

const SPELLINGS: &str = "\
strict {:q} = cause 3 at 2
lenient {:q} = {0=?}
strict {:04} = cause 3 at 2
lenient {:04} = {0=?}
strict {:0x} = cause 3 at 2
lenient {:0x} = {0=?}
strict {:00x} = cause 3 at 2
lenient {:00x} = {0=?}
strict {:01234x} = cause 3 at 2
lenient {:01234x} = {0=?}
strict {:0256x} = cause 3 at 2
lenient {:0256x} = {0=?}
strict {:x#} = cause 3 at 2
lenient {:x#} = {0=?}
strict {:4x} = cause 3 at 2
lenient {:4x} = {0=?}
strict {: } = cause 3 at 2
lenient {: } = {0=?}
strict {:##x} = cause 3 at 2
lenient {:##x} = {0=?}
strict {:ts} = cause 3 at 2
lenient {:ts} = {0=?}
strict {:?:} = cause 3 at 2
lenient {:?:} = {0=?}
lenient {=u8:q} = {0=u8}
lenient {=u8}a = {0=u8}a
lenient {{}} = {{}}
lenient  = nothing
lenient a{{é}}{=[u8;  3]:#0008x} = a{{é}}{0=[u8; 3]}
lenient {=0..128:#010b}{0=7..8} = {0=0..128:#010b}{0=7..8}
lenient {:}{1}{:?}{0=?:a} = {0=?}{1=?}{1=?:?}{0=?:a}
lenient {=[?;00002]:us}{=[?]:ms}{=[u8]:0255X} = {0=[?; 2]:us}{1=[?]:ms}{2=[u8]:0255X}
lenient {15}{14}{}{}{}{}{}{}{}{}{}{}{}{}{}{:o} = {15=?}{14=?}{0=?}{1=?}{2=?}{3=?}{4=?}{5=?}{6=?}{7=?}{8=?}{9=?}{10=?}{11=?}{12=?}{13=?:o}";

const FULL: &str = "\
strict_full {=f32}{=f64:?} = {0=f32}{1=f64:?}
strict_full {=__internal_Debug}{=__internal_Display:a} = {0=__internal_Debug}{1=__internal_Display:a}
strict_full {=__internal_FormatSequence:#x} = {0=__internal_FormatSequence:#x}
strict_full {:iso8601s}{=u64:iso8601ms} = {0=?:iso8601s}{1=u64:iso8601ms}
strict_full {:ts}{=u32:tms}{=0..9:tus} = {0=?:ts}{1=u32:tms}{2=0..9:tus}
strict_full {=u8:01}{=i8:042}{=i16:0255} = {0=u8:01}{1=i8:042}{2=i16:0255}
strict_full {=[u8; 3]:04x}{=str:us} = {0=[u8; 3]:04x}{1=str:us}
strict_full {:0256} = cause 3 at 2
lenient_full {:0256} = {0=?}
strict_full {:0} = cause 3 at 2
strict_full {:004} = cause 3 at 2
strict_full {:#04} = cause 3 at 2
strict_full {:iso8601} = cause 3 at 2
lenient_full {=u64:iso8601us}{:tns} = {0=u64}{1=?}
lenient_full {:ts}{=f32:04} = {0=?:ts}{1=f32:04}
strict_full {=f16} = cause 2 at 2
strict_full {=__internal_debug} = cause 2 at 2
strict_full {0=f32}{0=f64} = cause 5 at 7
strict {=__internal_Debug} = cause 2 at 2
lenient {=__internal_FormatSequence} = cause 2 at 2
lenient {=f32:04} = cause 8 at 2
lenient {=u64:iso8601ms}{:tus}{:04} = {0=u64}{1=?}{2=?}";

const PIECES: &str = "\
x{{y{=u16:#06X}{0=u16}}} = literal x{y, param 0 Uint(W16) Radix { base: HexUpper, alt: true, width: 6 }, param 0 Uint(W16) Plain, literal }";

const SLOTS: &str = "\
{0=0..4} {0=8..12:#b} = Bits { first: 0, width: 2 }
{=0..1} = Bits { first: 0, width: 1 }
{=7..9} = Bits { first: 0, width: 2 }
{=8..16} = Bits { first: 1, width: 1 }
{=0..17} = Bits { first: 0, width: 4 }
{0=40..48}{0=8..9} = Bits { first: 1, width: 8 }
{=120..128} = Bits { first: 15, width: 1 }
{=104..128} = Bits { first: 12, width: 4 }
{=0..128} = Bits { first: 0, width: 16 }
{=56..128} = Bits { first: 0, width: 16 }
{0=127..128}{0=63..64} = Bits { first: 0, width: 16 }
{1=str}{0=[?; 3]}{=[?;3]:x}{2=4..9}{1=str:?} = One(FormatArray(3)), One(Str), Bits { first: 0, width: 2 }
x{{y{=u16:#06X}{0=u16}}} = One(Uint(W16))
{=u8} = One(Uint(W8))
{=u32} = One(Uint(W32))
{=u64} = One(Uint(W64))
{=u128} = One(Uint(W128))
{=usize} = One(Uint(Native))
{=i8} = One(Int(W8))
{=i16} = One(Int(W16))
{=i32} = One(Int(W32))
{=i64} = One(Int(W64))
{=i128} = One(Int(W128))
{=isize} = One(Int(Native))
{=bool} = One(Bool)
{=char} = One(Char)
{=istr} = One(Istr)
{=[u8]} = One(Bytes)
{=[u8;0]} = One(ByteArray(0))
{=[u8;65535]} = One(ByteArray(65535))
{=[?]} = One(FormatSlice)";

const USES: &str = "\
{1=str}{0=[?; 3]}{=[?;3]:x}{2=4..9}{1=str:?} = 2 2 1 0
x{{y{=u16:#06X}{0=u16}}} = 2 0 0 0";

fn put_print(alloc: Global, pieces: &Pieces, out: &mut String) -> Result<(), Fail> {
    put_str(out, print(alloc, pieces)?.as_str())
}

// Puts the canonical spelling of a text's pieces, or where it is refused.
fn put_spelling_in(alloc: Global, text: &str, mode: Mode, out: &mut String) -> Result<(), Fail> {
    match pieces_of(alloc, text, mode) {
        Ok(pieces) => put_print(alloc, &pieces, out),
        Err(GrammarFault::Refused { cause, at }) => Ok(write!(out, "cause {cause} at {at}")?),
        Err(GrammarFault::Memory) => put_str(out, "memory"),
    }
}

pub fn put_spelling(alloc: Global, input: &str, out: &mut String) -> Result<(), Fail> {
    let (mode, text) = input.split_once(' ').ok_or("no mode")?;
    let mode = match mode {
        "strict" => Mode::Strict,
        "lenient" => Mode::Lenient,
        "strict_full" => Mode::StrictFull,
        _ => Mode::LenientFull,
    };
    put_spelling_in(alloc, text, mode, out)?;
    if out.is_empty() {
        put_str(out, "nothing")?;
    }
    Ok(())
}

// A copy of the pieces of a text.
fn copied(alloc: Global, text: &str) -> Result<Pieces, Fail> {
    Ok(pieces_of(alloc, text, Mode::Strict)?.copy(alloc)?)
}

fn put_piece(piece: &Piece, out: &mut String) -> Result<(), Fail> {
    match piece {
        Piece::Literal(text) => Ok(write!(out, "literal {}", text.as_str())?),
        Piece::Param(param) => {
            Ok(write!(
                out,
                "param {} {:?} {:?}",
                param.position, param.kind, param.hint
            )?)
        }
    }
}

fn put_list(pieces: &[Piece], out: &mut String) -> Result<(), Fail> {
    let mut gap = "";
    for piece in pieces {
        put_str(out, gap)?;
        put_piece(piece, out)?;
        gap = ", ";
    }
    Ok(())
}

/// Puts the pieces of a text, as a copy has them.
pub fn put_pieces_text(alloc: Global, text: &str, out: &mut String) -> Result<(), Fail> {
    let pieces = copied(alloc, text)?;
    put_list(pieces.as_slice(), out)
}

fn put_slot_list(slots: &[Slot], out: &mut String) -> Result<(), Fail> {
    let mut gap = "";
    for slot in slots {
        write!(out, "{gap}{slot:?}")?;
        gap = ", ";
    }
    Ok(())
}

pub fn put_slots(alloc: Global, text: &str, out: &mut String) -> Result<(), Fail> {
    let pieces = copied(alloc, text)?;
    put_slot_list(pieces.slots(), out)
}

/// Puts how often each of the first four positions is used.
pub fn put_uses(alloc: Global, text: &str, out: &mut String) -> Result<(), Fail> {
    let pieces = copied(alloc, text)?;
    Ok(write!(
        out,
        "{} {} {} {}",
        pieces.uses(0),
        pieces.uses(1),
        pieces.uses(2),
        pieces.uses(3)
    )?)
}

#[test]
fn the_first_fault_counts_with_its_place_and_the_canonical_spelling_is_printed(
    rt: HostRuntime,
) -> Result<(), Fail> {
    each_line(rt.alloc(), REFUSALS, 51, &Kind::SpellingOf)?;
    each_line(rt.alloc(), SPELLINGS, 33, &Kind::SpellingOf)?;
    each_line(rt.alloc(), FULL, 22, &Kind::SpellingOf)
}

#[test]
fn pieces_tell_literals_and_parameters_and_each_position_its_slot_and_uses(
    rt: HostRuntime,
) -> Result<(), Fail> {
    each_line(rt.alloc(), PIECES, 1, &Kind::PiecesText)?;
    each_line(rt.alloc(), SLOTS, 31, &Kind::SlotsText)?;
    each_line(rt.alloc(), USES, 2, &Kind::UsesText)
}

// Puts what a text tells of itself while it grows.
fn put_grown(alloc: Global, out: &mut String) -> Result<(), Fail> {
    let mut text = Text::from_string(String::new(alloc));
    write!(out, "{}, then ", text.is_empty())?;
    text.push('é')?;
    text.push_str("ab")?;
    let copy = text.copy()?.into_string();
    Ok(write!(out, "{} bytes, {copy}", text.len())?)
}

#[test]
fn a_text_grows_and_gives_its_string_back(rt: HostRuntime) -> Result<(), Fail> {
    let mut told = String::new(rt.alloc());
    put_grown(rt.alloc(), &mut told)?;
    expect(told.as_str(), "true, then 4 bytes, éab")
}

#[test]
fn causes_have_their_numbers(rt: HostRuntime) {
    let numbers = [
        Cause::Brace.number(),
        Cause::Kind.number(),
        Cause::Hint.number(),
        Cause::Range.number(),
        Cause::Conflict.number(),
        Cause::Gap.number(),
        Cause::Many.number(),
        Cause::Float.number(),
    ];
    assert_eq!(rt; numbers.as_slice(), [1u8, 2, 3, 4, 5, 6, 7, 8].as_slice());
}

//! Values under their hints: a format string and its arguments as a script spells them, and the text.
use crate::rows;
use crate::shared::{put_visible, script_of};
use defmt_grammar::{Base, Hint, Kind, Memory, Param, Piece, Text};
use defmt_hints::{show_bool, show_bytes, show_char, show_float, show_int, show_str, show_uint};
use defmt_intern::{Parsed, Table};
use defmt_script::Script;
use defmt_values::{Args, Value, float_bits, is_of_bits, is_signed, size_bits};
use std::alloc::Global;
use std::fmt::Write;
use std::test::Fail;
use test_rows::each_line;

const NUMBERS: &str = "\
{=u128} 340282366920938463463374607431768211455 = 340282366920938463463374607431768211455
{=u128} 0 = 0
{=u128:?} 1000 = 1000
{=u128:a} 65 = 65
{=u128:#04x} 10 = 0x0a
{=u128:b} 10 = 1010
{=u128:#b} 10 = 0b1010
{=u128:#04X} 171 = 0xAB
{=u128:04X} 171 = 00AB
{=u128:#o} 8 = 0o10
{=u128:#02o} 0 = 0o0
{=u128:01x} 0 = 0
{=u128:#040x} 340282366920938463463374607431768211455 = 0x000000ffffffffffffffffffffffffffffffff
{=u128:o} 340282366920938463463374607431768211455 = 3777777777777777777777777777777777777777777
{=u128:us} 1000250 = 1.000250
{=u128:us} 0 = 0.000000
{=u128:us} 18446744073709551615 = 18446744073709.551615
{=u128:ms} 7 = 0.007
{=u128:ms} 61000 = 61.000
{=i128} -170141183460469231731687303715884105728 = -170141183460469231731687303715884105728
{=i8:?}{=i8:a}{=i16:ms}{=i32:us} -1 0 -7 1000250 = -10-71000250
{=i8:x} -1 = ff
{=i16:#010b} -1 = 0b1111111111111111
{=isize:X} -1 = FFFFFFFF
{=i128:#x} -170141183460469231731687303715884105728 = 0x80000000000000000000000000000000
{=i64:o} -2 = 1777777777777777777776
{=i8:04x} 127 = 007f";

const TEXTS: &str = r#"{=char:?} 'a' = 'a'
{=char:?} '\'' = '\''
{=char:?} '"' = '"'
{=char:?} '\n' = '\n'
{=char:?} '€' = '€'
{=char} '\n' = <0a>
{=char:#09x} 'a' = a
{=str:?} "a\"b" = "a\"b"
{=str:?} "\\é'\"\r\n\t\u{7f}\u{0}z" = "\\é'\"\r\n\t<7f><00>z"
{=str:?} "" = ""
{=str:a} "a\"\t" = a"<09>
{=str:us} "€" = €
{=[u8]:02x} #0aff = [0a, ff]
{=[u8]} #0aff = [10, 255]
{=[u8]:us} #010203 = [1, 2, 3]
{=[u8]:?} #07 = [7]
{=[u8]:ms} # = []
{=[u8]:a} #410a2280 = b"A\n\"\x80"
{=[u8]:a} #5c270d09201f7e7f00 = b"\\'\r\t \x1f~\x7f\x00"
{=[u8]:a} # = b""
{=str}{=u8}{=bool}{=bool} "at " 12 true false = at 12truefalse"#;

const WIDTHS: &str = "\
3 = 256 widths
5 0b = 256 widths";

fn push_int(value: i128, param: &Param, out: &mut Text) -> Result<(), Memory> {
    match param.kind {
        Kind::Int(size) if is_signed(value, size_bits(size)) => {
            show_int(value, size, &param.hint, out)
        }
        _ => out.push_str("no signed kind"),
    }
}

fn push_float(bits: u64, param: &Param, out: &mut Text) -> Result<(), Memory> {
    match param.kind {
        Kind::Float(size) if is_of_bits(u128::from(bits), float_bits(size)) => {
            show_float(bits, size, out)
        }
        _ => out.push_str("no float's kind"),
    }
}

/// Appends the text of a value that stands alone where this parameter is.
pub fn push_value(value: &Value, param: &Param, out: &mut Text) -> Result<(), Memory> {
    match value {
        Value::Uint(number) => show_uint(*number, &param.hint, out),
        Value::Int(number) => push_int(*number, param, out),
        Value::Bool(flag) => show_bool(*flag, out),
        Value::Char(character) => show_char(*character, &param.hint, out),
        Value::Str(text) => show_str(text.as_str(), &param.hint, out),
        Value::Bytes(bytes) => show_bytes(bytes.as_slice(), &param.hint, out),
        Value::Float(bits) => push_float(*bits, param, out),
        _ => out.push_str("no plain value"),
    }
}

fn push_piece(piece: &Piece, args: &Args, out: &mut Text) -> Result<(), Memory> {
    let Piece::Param(param) = piece else {
        return out.push_str("a literal");
    };
    match args.get(param.position) {
        Some(value) => push_value(value, param, out),
        None => out.push_str("no value"),
    }
}

/// The pieces of a script's first string.
pub fn first_pieces(table: &Table) -> &[Piece] {
    match table.parsed(1) {
        Some(Parsed::One(pieces)) => pieces.as_slice(),
        _ => &[],
    }
}

fn shown_in(alloc: Global, script: &Script) -> Result<Text, Memory> {
    let mut out = Text::new(alloc);
    let Some(statement) = script.statement(0, 0) else {
        return Ok(out);
    };
    for piece in first_pieces(script.table()) {
        push_piece(piece, &statement.args, &mut out)?;
    }
    Ok(out)
}

fn put_shown_in(alloc: Global, text: &str, out: &mut String) -> Result<(), Fail> {
    let script = script_of(alloc, text)?;
    put_visible(shown_in(alloc, &script)?.as_str(), out)
}

pub fn put_shown(alloc: Global, input: &str, out: &mut String) -> Result<(), Fail> {
    let (format, args) = input.split_once(' ').ok_or("no arguments")?;
    let text = format!(in alloc; "s v defmt_info {format}\nw 0 v {args}")?;
    put_shown_in(alloc, text.as_str(), out)
}

// Whether 5 in binary has this front at a width, and as many digits as are due.
fn is_filled(alloc: Global, least: u8, front: &str, width: u8) -> Result<bool, Memory> {
    let hint = Hint::Radix {
        base: Base::Binary,
        alt: !front.is_empty(),
        width,
    };
    let mut out = Text::new(alloc);
    show_uint(5, &hint, &mut out)?;
    let text = out.as_str();
    Ok(
        text.len() == usize::from(width.max(least))
            && text.starts_with(front)
            && text.ends_with("101"),
    )
}

/// Puts at how many widths 5 in binary is filled up, where its least width and its front are told.
pub fn put_filled(alloc: Global, input: &str, out: &mut String) -> Result<(), Fail> {
    let (least, front) = input.split_once(' ').unwrap_or((input, ""));
    let least = least.parse::<u8>()?;
    let mut count = 0u16;
    for width in 0..=255u8 {
        if is_filled(alloc, least, front, width)? {
            count = count.saturating_add(1);
        }
    }
    Ok(write!(out, "{count} widths")?)
}

#[test]
fn numbers_follow_their_hint_in_their_own_width_and_every_width_is_filled(
    rt: HostRuntime,
) -> Result<(), Fail> {
    each_line(rt.alloc(), NUMBERS, 27, &rows::Kind::HintShown)?;
    each_line(rt.alloc(), WIDTHS, 2, &rows::Kind::Filled)
}

#[test]
fn texts_are_quoted_for_debugging_alone_and_bytes_a_list_or_a_byte_text(
    rt: HostRuntime,
) -> Result<(), Fail> {
    each_line(rt.alloc(), TEXTS, 21, &rows::Kind::HintShown)
}

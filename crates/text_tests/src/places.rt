//! Values that are written into a room at a place, beside the same values appended to a text.
ghost use Rattle.std.specs.Prelude.{◌≤◌, length};

use crate::hints::{first_pieces, push_value};
use crate::rows;
use crate::shared::{head_of, language_of, put_visible, script_of};
use defmt_grammar::{Base, Hint, Kind, Param, Piece, Text};
use defmt_hints::{
    put_bool, put_bytes, put_char, put_float, put_int, put_str, put_uint, put_wide_uint, show_uint,
};
use defmt_script::Script;
use defmt_values::{Value, float_bits, is_of_bits, is_signed, size_bits};
use std::alloc::Global;
use std::fmt::Write;
use std::test::Fail;
use test_rows::{PLACE, each_line, put_told, room_of, told_of};

// A format string with a value, what becomes of it in a room, and its text.
const NUMBERS: &str = "\
{=u8}, 0 = placed 0
{=u8}, 9 = placed 9
{=u8}, 10 = placed 10
{=u8}, 99 = placed 99
{=u8}, 255 = placed 255
{=u16}, 1000 = placed 1000
{=u16}, 9999 = placed 9999
{=u16}, 10000 = placed 10000
{=u32}, 4294967295 = placed 4294967295
{=usize:?}, 4294967295 = placed 4294967295
{=u64}, 9999999999999999999 = placed 9999999999999999999
{=u64:a}, 18446744073709551615 = placed 18446744073709551615
{=u8:x}, 0 = placed 0
{=u8:02x}, 10 = placed 0a
{=u8:02X}, 171 = placed AB
{=u16:02x}, 256 = placed 100
{=u8:#04x}, 10 = placed 0x0a
{=u8:#02x}, 0 = placed 0x0
{=u8:#01X}, 255 = placed 0xFF
{=u64:#018X}, 171 = placed 0x00000000000000AB
{=u64:x}, 18446744073709551615 = placed ffffffffffffffff
{=u64:o}, 18446744073709551615 = placed 1777777777777777777777
{=u8:#o}, 8 = placed 0o10
{=u8:#b}, 10 = placed 0b1010
{=u8:010b}, 255 = placed 0011111111
{=u64:us}, 0 = placed 0.000000
{=u64:us}, 999999 = placed 0.999999
{=u64:us}, 9999999 = placed 9.999999
{=u64:us}, 10000000 = placed 10.000000
{=u64:us}, 18446744073709551615 = placed 18446744073709.551615
{=u64:ms}, 7 = placed 0.007
{=u64:ms}, 61000 = placed 61.000
{=u64:ms}, 18446744073709551615 = placed 18446744073709551.615
{=i8}, 127 = placed 127
{=i8}, -128 = placed -128
{=i16:?}, -1 = placed -1
{=i32:a}, -2147483648 = placed -2147483648
{=isize:us}, 1000250 = placed 1000250
{=i64:ms}, -9223372036854775808 = placed -9223372036854775808
{=i64}, 9223372036854775807 = placed 9223372036854775807
{=i8:x}, -1 = placed ff
{=i8:#06x}, 127 = placed 0x007f
{=i16:#010b}, -1 = placed 0b1111111111111111
{=isize:X}, -1 = placed FFFFFFFF
{=i64:o}, -2 = placed 1777777777777777777776
{=i128}, 1 = placed 1
{=i128:x}, -1 = placed ffffffffffffffffffffffffffffffff
{=u128}, 18446744073709551615 = placed 18446744073709551615
{=u128}, 18446744073709551616 = placed 18446744073709551616";

const TEXTS: &str = r#"{=bool}, true = placed true
{=bool:x}, false = placed false
{=char}, 'a' = placed a
{=char:#09x}, 'ä' = placed ä
{=char:a}, '€' = placed €
{=char:us}, '𝄞' = placed 𝄞
{=char}, '\n' = placed <0a>
{=char:?}, 'a' = placed 'a'
{=char:?}, '\'' = placed '\''
{=str}, "" = placed
{=str}, "aä€𝄞" = placed aä€𝄞
{=str:x}, "a\"b\n" = placed a"b<0a>
{=str:?}, "" = placed ""
{=str:?}, "aä€𝄞" = placed "aä€𝄞"
{=str:?}, "it's \u{0}\u{7f}" = placed "it's <00><7f>"
{=str:?}, "a\"b" = placed "a\"b"
{=str:?}, "a\\b" = placed "a\\b"
{=str:?}, "a\n" = placed "a\n"
{=str:?}, "\r" = placed "\r"
{=str:?}, "\tb" = placed "\tb"
{=[u8]}, # = placed []
{=[u8]}, #07 = placed [7]
{=[u8]:?}, #0aff = placed [10, 255]
{=[u8]:us}, #010203 = placed [1, 2, 3]
{=[u8; 2]:ms}, #0000 = placed [0, 0]
{=[u8]:02x}, #0aff = placed [0a, ff]
{=[u8]:#X}, #0aff = placed [0xA, 0xFF]
{=[u8]}, #000102030405060708090a0b0c0d0e0f = placed [0, 1, 2, 3, 4, 5, 6, 7, 8, 9, 10, 11, 12, 13, 14, 15]
{=[u8]:a}, # = placed b""
{=[u8]:a}, #410a2280 = placed b"A\n\"\x80""#;

// A base, with `#` in front of one that has its prefix, and a number: at how many widths it is placed as it is appended.
const WIDTHS: &str = "\
x 0 = 256
x 18446744073709551615 = 256
#x 171 = 256
X 171 = 256
#X 18446744073709551615 = 256
b 18446744073709551615 = 256
#b 5 = 256
o 8 = 256
#o 18446744073709551615 = 256";

fn put_signed(out: &mut [u8], at: usize, number: i128, param: &Param) -> Option<usize>
    requires { at ≤ length out.old }
{
    let Kind::Int(size) = param.kind else {
        return None;
    };
    if !is_signed(number, size_bits(size)) {
        return None;
    }
    put_int(out, at, number, size, param.hint)
}

fn put_bits_of(out: &mut [u8], at: usize, bits: u64, param: &Param) -> Option<usize>
    requires { at ≤ length out.old }
{
    let Kind::Float(size) = param.kind else {
        return None;
    };
    if !is_of_bits(u128::from(bits), float_bits(size)) {
        return None;
    }
    put_float(out, at, bits, size)
}

// Writes a value at a place, as `put` calls do.
fn put_value(out: &mut [u8], at: usize, value: &Value, param: &Param) -> Option<usize>
    requires { at ≤ length out.old }
{
    match value {
        Value::Uint(number) => put_wide_uint(out, at, *number, param.hint),
        Value::Int(number) => put_signed(out, at, *number, param),
        Value::Bool(flag) => put_bool(out, at, *flag),
        Value::Char(character) => put_char(out, at, *character, param.hint),
        Value::Str(text) => put_str(out, at, text.as_str(), param.hint),
        Value::Bytes(bytes) => put_bytes(out, at, bytes.as_slice(), param.hint),
        Value::Float(bits) => put_bits_of(out, at, *bits, param),
        _ => None,
    }
}

// What becomes of a value in a room of a size, where this is its text.
fn told_in(
    alloc: Global,
    value: &Value,
    param: &Param,
    text: &str,
    size: usize,
) -> Result<&'static str, Fail> {
    let mut room = room_of(alloc, size)?;
    if room.len() < PLACE {
        return Err(Fail::new("no place"));
    }
    let end = put_value(&mut room, PLACE, value, param);
    Ok(told_of(&room, end, text))
}

// Puts what becomes of a value in rooms, and its text.
fn put_in_rooms(
    alloc: Global,
    value: &Value,
    param: &Param,
    text: &str,
    out: &mut String,
) -> Result<(), Fail> {
    let size = text.len();
    let wide = told_in(alloc, value, param, text, size.saturating_add(9))?;
    let exact = told_in(alloc, value, param, text, size)?;
    let less = match size.checked_sub(1) {
        Some(size) => told_in(alloc, value, param, text, size)?,
        None => "left",
    };
    put_told(out, wide, exact, less)?;
    if !text.is_empty() {
        out.push(' ')?;
    }
    put_visible(text, out)
}

fn put_param(alloc: Global, value: &Value, param: &Param, out: &mut String) -> Result<(), Fail> {
    let mut text = Text::new(alloc);
    push_value(value, param, &mut text)?;
    put_in_rooms(alloc, value, param, text.as_str(), out)
}

fn put_placed_in(alloc: Global, script: &Script, out: &mut String) -> Result<(), Fail> {
    let statement = script.statement(0, 0).ok_or("no statement")?;
    let value = statement.args.get(0).ok_or("no value")?;
    match first_pieces(script.table()).first() {
        Some(Piece::Param(param)) => put_param(alloc, value, param, out),
        _ => Err(Fail::new("no parameter")),
    }
}

/// Puts what becomes of a value that is to be placed, and its text as it is appended.
pub fn put_placed(alloc: Global, input: &str, out: &mut String) -> Result<(), Fail> {
    let (language, input) = language_of(input);
    let head = head_of(language);
    let (format, args) = input.split_once(", ").ok_or("no arguments")?;
    let text = format!(in alloc; "{head}s v defmt_info {format}\nw 0 v {args}")?;
    let script = script_of(alloc, text.as_str())?;
    put_placed_in(alloc, &script, out)
}

fn base_of(word: &str) -> Option<Base> {
    match word {
        "x" => Some(Base::Hex),
        "X" => Some(Base::HexUpper),
        "b" => Some(Base::Binary),
        "o" => Some(Base::Octal),
        _ => None,
    }
}

// Whether a number is placed under a hint as it is appended.
fn is_placed(alloc: Global, number: u64, hint: Hint) -> Result<bool, Fail> {
    let mut text = Text::new(alloc);
    show_uint(u128::from(number), &hint, &mut text)?;
    let mut room = room_of(alloc, 300)?;
    if room.len() < PLACE {
        return Ok(false);
    }
    let end = put_uint(&mut room, PLACE, number, hint);
    Ok(told_of(&room, end, text.as_str()) == "placed")
}

fn count_of_widths(alloc: Global, number: u64, base: Base, alt: bool) -> Result<u16, Fail> {
    let mut count = 0u16;
    for width in 0..=255u8 {
        if is_placed(alloc, number, Hint::Radix { base, alt, width })? {
            count = count.saturating_add(1);
        }
    }
    Ok(count)
}

/// Puts at how many widths a number in a base is placed as it is appended.
pub fn put_widths(alloc: Global, input: &str, out: &mut String) -> Result<(), Fail> {
    let (word, number) = input.split_once(' ').ok_or("no number")?;
    let number = number.parse::<u64>()?;
    let (alt, word) = match word.strip_prefix('#') {
        Some(word) => (true, word),
        None => (false, word),
    };
    let base = base_of(word).ok_or("no base")?;
    Ok(write!(out, "{}", count_of_widths(alloc, number, base, alt)?)?)
}

#[test]
fn numbers_are_placed_as_they_are_appended(rt: HostRuntime) -> Result<(), Fail> {
    each_line(rt.alloc(), NUMBERS, 49, &rows::Kind::Placed)?;
    each_line(rt.alloc(), WIDTHS, 9, &rows::Kind::Widths)
}

#[test]
fn texts_and_bytes_are_placed_as_they_are_appended_unless_escaped(
    rt: HostRuntime,
) -> Result<(), Fail> {
    each_line(rt.alloc(), TEXTS, 30, &rows::Kind::Placed)
}

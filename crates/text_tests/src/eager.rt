//! Lines and texts of scripts, and of tables by hand.
ghost use Rattle.std.specs.Prelude.{OnOk};
ghost use Rattle.defmt_values.specs.Fits.{IsLogged};

use crate::rows::Kind;
use crate::shared::{script_of, table_of};
use defmt_eager::{EagerFault, is_wide, line, text_of};
use defmt_grammar::Text;
use defmt_intern::Table;
use defmt_script::Script;
use defmt_values::{Args, Statement, Value, check, is_logged, look_up};
use dl_io::Bytes;
use std::alloc::Global;
use std::fmt::Write;
use std::test::Fail;
use test_rows::{each_block, each_line, expect, put_str};

const TEXTS: &str = r#"{=u8:#04x} {0=u8:b}, 10 = 0x0a 1010
{0=0..4} {0=8..12:#b}, 0x0a05 = 5 0b1010
{=i8:x}, -1 = ff
{=i16:#010b}, -1 = 0b1111111111111111
{=u64:us}, 1000250 = 1.000250
{=u16:ms}, 7 = 0.007
{=char:?}, 'a' = 'a'
{=bool:x} {{}}, true = true {}
{=[u8]:02x}, #0aff = [0a, ff]
{=[u8; 4]:a}, #410a2280 = b"A\n\"\x80"
{=str:?}, "a\"b" = "a\"b"
{=istr}, @word = {word|
{=[?]:x}, [] = []
{=[?]:x}, k[(255)] = [kff]
{=[?]:x}, k[(255) (255)] = [kff, kff]"#;

const LINES: &str = "\
s optional defmt_prim None|Some({=?})
s number defmt_prim {=u8}
s point defmt_derived Pt {{ x: {=?}, y: {=?} }}
s v defmt_debug at {} {:x}
w 0 v point(number(3) number(255)) optional:1(number(255))
=
DEBUG at Pt { x: 3, y: 255 } Some(ff)

stamp 1000 0
s v defmt_info hello
w 0 v
=
0.001000 INFO  hello

stamp 1250 0
s v defmt_info hello
w 0 v
=
0.001250 INFO  hello

stamp 0 0
s v defmt_error no
w 0 v
=
0.000000 ERROR no

stamp 1500 0
s v defmt_println bare
w 0 v
=
bare";

const WIDE: &str = "\
1 = 257 bytes, wide false
255 = 65535 bytes, wide false
256 = wide, wide true";

const WIDE_STAMP: &str = "\
1 defmt_println bare
2 defmt_timestamp {=[u8]:#0255b}";

fn logged(table: &Table, index: u16) -> Result<(), &'static str>
    ensures { OnOk result (IsLogged table.now.entries index) }
{
    match look_up(table, index) {
        Some((entry, _)) if is_logged(&entry.tag) => Ok(()),
        _ => Err("no level and not println"),
    }
}

// A text, or the word for why there is none.
fn told(text: &Result<Text, EagerFault>) -> &str {
    match text {
        Ok(text) => text.as_str(),
        Err(EagerFault::Wide) => "wide",
        Err(EagerFault::Memory) => "memory",
    }
}

fn put_told(text: &Result<Text, EagerFault>, out: &mut String) -> Result<(), Fail> {
    put_str(out, told(text))
}

// Puts the line of a statement, with a stamp of these arguments where the table has a timestamp's entry.
fn put_line(
    alloc: Global,
    table: &Table,
    stamp: Args,
    statement: &Statement,
    out: &mut String,
) -> Result<(), Fail> {
    check(table, statement)?;
    logged(table, statement.index)?;
    match table.stamp() {
        None => put_told(&line(alloc, table, &Args::new(alloc), statement), out),
        Some(index) => {
            let stamp = Statement { index, args: stamp };
            check(table, &stamp)?;
            put_told(&line(alloc, table, &stamp.args, statement), out)
        }
    }
}

fn one(alloc: Global, value: Value) -> Result<Args, Fail> {
    let mut args = Args::new(alloc);
    args.push(value)?;
    Ok(args)
}

/// Puts the line of a script's first statement with its first stamp.
pub fn put_first_line(alloc: Global, script: &Script, out: &mut String) -> Result<(), Fail> {
    let statement = script.statement(0, 0).ok_or("no statement")?;
    let stamp = script.stamp().map_or(0, |(base, _)| base);
    let stamp = one(alloc, Value::Uint(u128::from(stamp)))?;
    put_line(alloc, script.table(), stamp, statement, out)
}

/// Puts the line of a statement, with this number as its stamp where the table has a timestamp's entry.
pub fn put_stamped_line(
    alloc: Global,
    table: &Table,
    number: u64,
    statement: &Statement,
    out: &mut String,
) -> Result<(), Fail> {
    let stamp = one(alloc, Value::Uint(u128::from(number)))?;
    put_line(alloc, table, stamp, statement, out)
}

/// Puts the line of the first statement of a script's text.
pub fn put_line_in(alloc: Global, text: &str, out: &mut String) -> Result<(), Fail> {
    let script = script_of(alloc, text)?;
    put_first_line(alloc, &script, out)
}

fn put_first_text(alloc: Global, script: &Script, out: &mut String) -> Result<(), Fail> {
    let statement = script.statement(0, 0).ok_or("no statement")?;
    check(script.table(), statement)?;
    put_told(&text_of(alloc, script.table(), statement), out)
}

fn put_text_in(alloc: Global, text: &str, out: &mut String) -> Result<(), Fail> {
    let script = script_of(alloc, text)?;
    put_first_text(alloc, &script, out)
}

/// Puts the text of a statement of this format string, behind which its arguments stand.
pub fn put_shown(alloc: Global, input: &str, out: &mut String) -> Result<(), Fail> {
    let (format, args) = input.split_once(", ").ok_or("no arguments")?;
    let text = format!(in alloc;
        "s v defmt_info {format}\ns k defmt_prim k{{=u8}}\ns word defmt_str {{word|\nw 0 v {args}"
    )?;
    put_text_in(alloc, text.as_str(), out)
}

// So many bytes of 1.
fn ones(alloc: Global, count: u16) -> Result<Args, Fail> {
    let mut bytes = Bytes::new(alloc);
    for _ in 0..count {
        bytes.push(1)?;
    }
    one(alloc, Value::Bytes(bytes))
}

fn put_size(text: &Result<Text, EagerFault>, out: &mut String) -> Result<(), Fail> {
    match text {
        Ok(text) => Ok(write!(out, "{} bytes", text.len())?),
        Err(_) => put_told(text, out),
    }
}

fn put_length(
    alloc: Global,
    table: &Table,
    statement: &Statement,
    out: &mut String,
) -> Result<(), Fail> {
    check(table, statement)?;
    let wide = is_wide(alloc, table, statement)?;
    put_size(&text_of(alloc, table, statement), out)?;
    Ok(write!(out, ", wide {wide}")?)
}

/// Puts how long the text of so many bytes is, each of which fills 255 places.
pub fn put_length_for(alloc: Global, count: &str, out: &mut String) -> Result<(), Fail> {
    let args = ones(alloc, count.parse::<u16>()?)?;
    let table = table_of(alloc, "1 defmt_info {=[u8]:#0255b}")?;
    put_length(alloc, &table, &Statement { index: 1, args }, out)
}

// Puts the line of a statement without a stamp, where so many bytes stand for it.
fn put_bare_line(alloc: Global, count: u16, out: &mut String) -> Result<(), Fail> {
    let stamp = ones(alloc, count)?;
    let table = table_of(alloc, WIDE_STAMP)?;
    let args = Args::new(alloc);
    put_line(alloc, &table, stamp, &Statement { index: 1, args }, out)
}

#[test]
fn values_print_under_their_hints_and_lists_between_brackets(rt: HostRuntime) -> Result<(), Fail> {
    each_line(rt.alloc(), TEXTS, 15, &Kind::EagerShown)
}

#[test]
fn lines_take_hints_inwards_and_stamps_in_front_of_levels_alone(
    rt: HostRuntime,
) -> Result<(), Fail> {
    each_block(rt.alloc(), LINES, 5, &Kind::LineIn)
}

#[test]
fn texts_of_too_many_bytes_are_wide_and_a_stamp_refuses_a_line_that_does_not_show_it(
    rt: HostRuntime,
) -> Result<(), Fail> {
    each_line(rt.alloc(), WIDE, 3, &Kind::LengthFor)?;
    let mut line = String::new(rt.alloc());
    put_bare_line(rt.alloc(), 256, &mut line)?;
    expect(line.as_str(), "wide")
}

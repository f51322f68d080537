//! Lines of statements that are written into a room at a place, beside the same lines as texts of their own.
use crate::eager::{put_first_line, put_stamped_line};
use crate::rows::Kind;
use crate::shared::{head_of, language_of, script_of, table_of};
use defmt_eager::put_line;
use defmt_grammar::Language;
use defmt_script::Script;
use defmt_values::{Args, Statement, Value};
use std::alloc::Global;
use std::test::Fail;
use test_rows::{PLACE, each_block, each_line, put_str, put_told, room_of, told_of};

// The strings that the arguments of a format string name.
const STRINGS: &str = "\
s z defmt_prim z
s k defmt_prim k{=u8}
s n defmt_derived <{=?}>
s opt defmt_prim None|Some({=?})
s two defmt_write {1=?}{0=?}
s c defmt_prim {=char:?}
s word defmt_str {word|";

// Those behind them in a script of the full language.
const FULL_STRINGS: &str = "\
s seq defmt_derived {=__internal_FormatSequence}
s fl defmt_prim {=f64}
";

// A format string with its arguments, what becomes of its line in a room, and the line.
const SHOWN: &str = r#"hello {{}} = placed INFO  hello {}
{=u8} {=u16} {=u32} {=usize}, 0 65535 1000000 4294967295 = placed INFO  0 65535 1000000 4294967295
{=u64} {=u128}, 18446744073709551615 18446744073709551615 = placed INFO  18446744073709551615 18446744073709551615
{=u128}, 18446744073709551616 = placed INFO  18446744073709551616
{=u128:#x}, 340282366920938463463374607431768211455 = placed INFO  0xffffffffffffffffffffffffffffffff
{=u64:us} {=u64:ms} {=u8:?} {=u8:a}, 1000250 7 65 65 = placed INFO  1.000250 0.007 65 65
{=u128:us}, 18446744073709551616 = placed INFO  18446744073709.551616
{=u8:#04x} {=u8:02X} {=u8:#b} {=u8:o}, 10 171 5 8 = placed INFO  0x0a AB 0b101 10
{=i8} {=i16} {=i32} {=isize}, -128 -32768 2147483647 -2147483648 = placed INFO  -128 -32768 2147483647 -2147483648
{=i64} {=i64:us} {=i64:ms} {=i64:?}, -9223372036854775808 -1 -7 0 = placed INFO  -9223372036854775808 -1 -7 0
{=i64:x} {=i32:#X} {=i16:#010b} {=i8:o}, -1 -1 -1 -1 = placed INFO  ffffffffffffffff 0xFFFFFFFF 0b1111111111111111 377
{=i128} {=i128:x}, -18446744073709551615 18446744073709551615 = placed INFO  -18446744073709551615 ffffffffffffffff
{=i128}, -18446744073709551616 = placed INFO  -18446744073709551616
{=i128}, 18446744073709551616 = placed INFO  18446744073709551616
{=i128:x}, -1 = placed INFO  ffffffffffffffffffffffffffffffff
{1=u8} {0=u8} {1=u8:x}, 7 255 = placed INFO  255 7 ff
{0=0..4} {0=4..8:x} {0=0..8:#b}, 0xa5 = placed INFO  5 a 0b10100101
{0=8..12:#b} {0=12..16}, 0x5a00 = placed INFO  0b1010 5
{0=0..1} {0=1..64}, 18446744073709551615 = placed INFO  1 9223372036854775807
{0=0..64} {0=64..128}, 18446744073709551615 = placed INFO  18446744073709551615 0
{0=0..128}, 18446744073709551616 = placed INFO  18446744073709551616
{=bool} {=bool:x} {=char} {=char:x}, true false 'ä' '𝄞' = placed INFO  true false ä 𝄞
{=char:?}, 'a' = placed INFO  'a'
{=str} {=str:x} {=str:?}, "aä€𝄞" "" "aä€𝄞" = placed INFO  aä€𝄞  "aä€𝄞"
{=str:?}, "a\"b" = placed INFO  "a\"b"
{=istr} {=istr:?}, @word @word = placed INFO  {word| "{word|"
{=[u8]} {=[u8]:02x} {=[u8; 2]:#X}, # #0aff #0aff = placed INFO  [] [0a, ff] [0xA, 0xFF]
{=[u8]:a}, #410a = placed INFO  b"A\n"
{=?} {=?:x} {=?:#x}, z() k(255) n(k(10)) = placed INFO  z kff <k0xa>
{=?} {=?}, opt:0() opt:1(k(7)) = placed INFO  None Some(k7)
{=?}, two(k(1) z()) = placed INFO  zk1
{=?}, n(n(n(k(7)))) = placed INFO  <<<k7>>>
{=?}, n(n(n(n(n(n(n(n(n(n(n(n(n(n(n(k(7)))))))))))))))) = placed INFO  <<<<<<<<<<<<<<<k7>>>>>>>>>>>>>>>
{=?}, n(n(n(n(n(n(n(n(n(n(n(n(n(n(n(c('a')))))))))))))))) = placed INFO  <<<<<<<<<<<<<<<'a'>>>>>>>>>>>>>>>
{=[?]} {=[?; 0]}, [] [] = placed INFO  [] []
{=[?]:x} {=[?; 1]}, k[(255)] z[()] = placed INFO  [kff] [z]
{=[?; 3]}, opt[0() 1(k(10)) 1(opt:0())] = placed INFO  [None, Some(k10), Some(None)]
{=[?]}, k[(0) (1) (2) (3) (4) (5) (6) (7) (8) (9) (10) (11) (12) (13) (14) (15)] = placed INFO  [k0, k1, k2, k3, k4, k5, k6, k7, k8, k9, k10, k11, k12, k13, k14, k15]
{=[?]}, c[('a')] = placed INFO  ['a']"#;

// Scripts of a statement, whether its line is placed or left, and the line by both.
const LINES: &str = "\
s v defmt_trace t
w 0 v
=
placed TRACE t

s v defmt_debug d {=u8}
w 0 v 1
=
placed DEBUG d 1

s v defmt_warn w
w 0 v
=
placed WARN  w

s v defmt_error {}
s z defmt_prim z
w 0 v z()
=
placed ERROR z

s v defmt_println p {=u8}
w 0 v 1
=
placed p 1

stamp 1000 0
s v defmt_info {=u8} a
w 0 v 7
=
placed 0.001000 INFO  7 a

stamp 281474976710656 0
s v defmt_warn a
w 0 v
=
placed 281474976.710656 WARN  a

stamp 9999999 0
s v defmt_error {=char:?}
w 0 v 'a'
=
placed 9.999999 ERROR 'a'

stamp 1500 0
s v defmt_println bare
w 0 v
=
placed bare";

// Tables, and what becomes of the line of the statement 1 with the argument 7 at the stamp 7 in a room that has more bytes than it.
const WIDE: &str = "\
1 defmt_println {0=u64:#0255b}*257
=
placed

1 defmt_println {0=u64:#0255b}*258
=
left, wide

1 defmt_info {0=u64:#0255b}*258
2 defmt_timestamp {=u64}
=
left, wide

1 defmt_info {=u64}
2 defmt_timestamp {0=u64:#0255b}*257
=
placed

1 defmt_info {=u64}
2 defmt_timestamp {0=u64:#0255b}*258
=
left, wide

1 defmt_println {=u64}
2 defmt_timestamp {0=u64:#0255b}*257
=
placed

1 defmt_println {=u64}
2 defmt_timestamp {0=u64:#0255b}*258
=
left, wide";

// More bytes than each of these lines has.
const GREAT_ROOM: usize = 66_000;

// What becomes of a script's first line in a room of a size, where this is the line.
fn told_in(alloc: Global, script: &Script, line: &str, size: usize) -> Result<&'static str, Fail> {
    let statement = script.statement(0, 0).ok_or("no statement")?;
    let stamp = script.stamp().map(|(base, _)| base);
    let mut room = room_of(alloc, size)?;
    if room.len() < PLACE {
        return Err(Fail::new("no place"));
    }
    let end = put_line(script.table(), stamp, statement, &mut room, PLACE);
    Ok(told_of(&room, end, line))
}

// Puts what becomes of a script's first line in rooms, and the line.
fn put_in_rooms(alloc: Global, script: &Script, line: &str, out: &mut String) -> Result<(), Fail> {
    let size = line.len();
    let wide = told_in(alloc, script, line, size.saturating_add(9))?;
    let exact = told_in(alloc, script, line, size)?;
    let less = told_in(alloc, script, line, size.saturating_sub(1))?;
    put_told(out, wide, exact, less)?;
    out.push(' ')?;
    put_str(out, line)
}

/// Puts what becomes of the line of a script's first statement, and the line as a text of its own.
pub fn put_flat_in(alloc: Global, text: &str, out: &mut String) -> Result<(), Fail> {
    let script = script_of(alloc, text)?;
    let mut line = String::new(alloc);
    put_first_line(alloc, &script, &mut line)?;
    put_in_rooms(alloc, &script, line.as_str(), out)
}

/// The same of a format string, behind which its arguments stand.
pub fn put_flat_shown(alloc: Global, input: &str, out: &mut String) -> Result<(), Fail> {
    let (language, input) = language_of(input);
    let head = head_of(language);
    let (format, args) = input.split_once(", ").unwrap_or((input, ""));
    let further = match language {
        Language::Base => "",
        Language::Full => FULL_STRINGS,
    };
    let text = format!(in alloc;
        "{head}s v defmt_info {format}\n{STRINGS}\n{further}w 0 v {args}"
    )?;
    put_flat_in(alloc, text.as_str(), out)
}

/// Puts what becomes of the line of a table's statement 1, of the argument 7, at the stamp 7 in a room that takes each line, and
/// whether it is too wide.
pub fn put_flat_wide(alloc: Global, lines: &str, out: &mut String) -> Result<(), Fail> {
    let table = table_of(alloc, lines)?;
    let mut args = Args::new(alloc);
    args.push(Value::Uint(7))?;
    let statement = Statement { index: 1, args };
    let mut line = String::new(alloc);
    put_stamped_line(alloc, &table, 7, &statement, &mut line)?;
    let mut room = room_of(alloc, GREAT_ROOM)?;
    if room.len() < PLACE {
        return Err(Fail::new("no place"));
    }
    let end = put_line(&table, Some(7), &statement, &mut room, PLACE);
    put_str(out, told_of(&room, end, line.as_str()))?;
    if line.as_str() == "wide" {
        put_str(out, ", wide")?;
    }
    Ok(())
}

#[test]
fn lines_of_all_values_are_placed_as_they_are_printed(rt: HostRuntime) -> Result<(), Fail> {
    each_line(rt.alloc(), SHOWN, 39, &Kind::FlatShown)
}

#[test]
fn lines_that_are_too_wide_are_placed_nowhere(rt: HostRuntime) -> Result<(), Fail> {
    each_block(rt.alloc(), WIDE, 7, &Kind::FlatWide)
}

#[test]
fn levels_and_stamps_are_placed_as_they_are_printed(rt: HostRuntime) -> Result<(), Fail> {
    each_block(rt.alloc(), LINES, 9, &Kind::FlatIn)
}

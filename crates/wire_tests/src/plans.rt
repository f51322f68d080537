//! Messages that are told by the plans of a table, beside what they are read and printed as in the general way.
use crate::both::put_both;
use crate::messages::first_stamp;
use crate::rows::Kind;
use crate::runs::bytes_of;
use crate::strings::{end_line, script_of, table_of};
use defmt_encode::{MESSAGE_LIMIT, message, place_suits};
use defmt_intern::Table;
use defmt_plan::PlannedTable;
use defmt_script::Script;
use defmt_values::Statement;
use std::alloc::Global;
use std::test::Fail;
use test_rows::{each_block, each_line};

// The strings that the arguments of a format string name.
const STRINGS: &str = "\
s z defmt_prim z
s k defmt_prim k{=u8}
s n defmt_derived <{=?}>
s opt defmt_prim None|Some({=?})
s two defmt_write {1=?}{0=?}
s f defmt_prim {0=0..4}/{0=4..8:x}
s c defmt_prim {=char:?}
s word defmt_str {word|";

// A format string with its arguments, whether the line of their message is placed by a plan or left, and what it's read and printed as.
const SENT: &str = r#"hello {{}} = placed 1: INFO  hello {}
{=u8}, 255 = placed 1: INFO  255
{=u64:#x}, 18446744073709551615 = placed 1: INFO  0xffffffffffffffff
{=u8} {=u16} {=u32} {=usize}, 0 65535 1000000 4294967295 = placed 1: INFO  0 65535 1000000 4294967295
{=u64:us} {=u64:ms} {=u8:?} {=u8:a}, 1000250 7 65 65 = placed 1: INFO  1.000250 0.007 65 65
{=u8:#04x} {=u8:02X} {=u8:#b} {=u8:o}, 10 171 5 8 = placed 1: INFO  0x0a AB 0b101 10
{=u128}, 7 = left 1: INFO  7
{=i8} {=i16} {=i32} {=isize}, -128 -32768 2147483647 -2147483648 = placed 1: INFO  -128 -32768 2147483647 -2147483648
{=i64} {=i64:us} {=i64:ms} {=i64:?}, -9223372036854775808 -1 -7 0 = placed 1: INFO  -9223372036854775808 -1 -7 0
{=i64:x} {=i32:#X} {=i16:#010b} {=i8:o}, -1 -1 -1 -1 = placed 1: INFO  ffffffffffffffff 0xFFFFFFFF 0b1111111111111111 377
{=i128}, 7 = left 1: INFO  7
{=bool} {=bool:x} {=char} {=char:x}, true false 'ä' '𝄞' = placed 1: INFO  true false ä 𝄞
{=char:?}, 'a' = placed 1: INFO  'a'
{=str} {=str:x} {=str:?}, "aä€𝄞" "" "aä€𝄞" = placed 1: INFO  aä€𝄞  "aä€𝄞"
{=str:?}, "a\"b" = placed 1: INFO  "a\"b"
{=istr}, @word = left 1: INFO  {word|
{=[u8]} {=[u8]:02x} {=[u8; 2]:#X}, # #0aff #0aff = placed 1: INFO  [] [0a, ff] [0xA, 0xFF]
{=[u8]:a}, #410a = placed 1: INFO  b"A\n"
{0=u8} {1=u8}, 1 2 = placed 1: INFO  1 2
{1=u8} {0=u8}, 1 2 = left 1: INFO  2 1
{0=u8} {0=u8:x}, 255 = left 1: INFO  255 ff
{0=0..4} {0=4..8:x} {0=0..8:#b}, 0xa5 = placed 1: INFO  5 a 0b10100101
{0=0..4} {1=u8} {0=4..8}, 0xa5 7 = left 1: INFO  5 7 10
{0=8..12:#b} {0=12..16} {1=u8}, 0x5a00 7 = placed 1: INFO  0b1010 5 7
{0=0..20}, 0xffffffff = placed 1: INFO  1048575
{0=0..32} {1=0..1} {1=1..64}, 4294967295 18446744073709551615 = placed 1: INFO  4294967295 1 9223372036854775807
{0=60..64} {1=64..72}, 0xf000000000000000 0xff0000000000000000 = placed 1: INFO  15 255
{0=0..65}, 18446744073709551616 = left 1: INFO  18446744073709551616
{=?} {=?:x} {=?:#x}, z() k(255) n(k(10)) = placed 1: INFO  z kff <k0xa>
{=?} {=?}, opt:0() opt:1(k(7)) = placed 1: INFO  None Some(k7)
{=?} {=[?]}, f(0xa5) f[(0x5a) (0xff)] = placed 1: INFO  5/a [10/5, 15/f]
{=?}, two(k(1) z()) = left 1: INFO  zk1
{=?}, c('a') = placed 1: INFO  'a'
{=?}, n(n(n(k(7)))) = placed 1: INFO  <<<k7>>>
{=?}, n(n(n(n(n(n(n(n(n(n(n(n(n(n(n(k(7)))))))))))))))) = placed 1: INFO  <<<<<<<<<<<<<<<k7>>>>>>>>>>>>>>>
{=?}, n(n(n(n(n(n(n(n(n(n(n(n(n(n(n(c('a')))))))))))))))) = placed 1: INFO  <<<<<<<<<<<<<<<'a'>>>>>>>>>>>>>>>
{=[?]} {=[?; 0]}, [] [] = placed 1: INFO  [] []
{=[?]:x} {=[?; 1]}, k[(255)] z[()] = placed 1: INFO  [kff] [z]
{=[?; 3]}, opt[0() 1(k(10)) 1(opt:0())] = placed 1: INFO  [None, Some(k10), Some(None)]
{=[?]}, k[(0) (1) (2) (3) (4) (5) (6) (7) (8) (9) (10) (11) (12) (13) (14) (15)] = placed 1: INFO  [k0, k1, k2, k3, k4, k5, k6, k7, k8, k9, k10, k11, k12, k13, k14, k15]
{=[?]}, two[(k(1) z())] = left 1: INFO  [zk1]
{=[?]}, c[('a')] = placed 1: INFO  ['a']"#;

// The strings of a script, messages, and what becomes of each. Behind a stamp a bare line needs room for the stamp's text too.
const READ: &str = "\
s hello defmt_info hello
read 01 00
read 01 00 00 00 00 00 00 00
read 01 00 00 00 00 00 00 00 00
read 01 00 05
read nothing
read 02 00
=
placed 1: INFO  hello
placed 1: INFO  hello
left cause 11
left cause 11
left cause 5
left cause 2

s a defmt_trace a
s b defmt_debug b {=u8}
s c defmt_warn {=u8} c
s d defmt_error {=u16}
s e defmt_println e {=u8}
s f defmt_prim f
read 01 00
read 02 00 07
read 03 00 07 00
read 04 00 07 01
read 05 00 07
read 06 00
=
placed 1: TRACE a
placed 2: DEBUG b 7
placed 3: WARN  7 c
placed 4: ERROR 263
placed 5: e 7
left cause 3

stamp 1000 250
s hello defmt_info hello
s bare defmt_println bare
read 01 00 e8 03 00 00 00 00 00 00
read 01 00 ff ff ff ff ff ff ff ff
read 02 00 e8 03 00 00 00 00 00 00
read 01 00 e8 03 00 00 00 00 00
=
placed 1: 0.001000 INFO  hello
placed 1: 18446744073709.551615 INFO  hello
placed, exact left, less left 2: bare
left cause 5

s truth defmt_info {=bool}
s letter defmt_info {=char}
s say defmt_info {=str}
read 01 00 02
read 02 00 00 d8 00 00
read 03 00 01 00 00 00 ff
read 03 00 02 00 00 00 61
read 03 00 01 00 00 00 61 00 00 00
=
left cause 6
left cause 7
left cause 8
left cause 5
placed 3: INFO  a

s list defmt_info {=[?]}
s k defmt_prim k
read 01 00 00 00 00 00
read 01 00 00 00 00 00 02 00
read 01 00 10 00 00 00 02 00
read 01 00 00 20 00 00 02 00
read 01 00 01 20 00 00 02 00
read 01 00 ff ff ff ff 02 00
=
placed 1: INFO  []
left cause 11
placed 1: INFO  [k, k, k, k, k, k, k, k, k, k, k, k, k, k, k, k]
placed 1: 24582 bytes
left cause 12
left cause 12

s log defmt_info {=?}
s choice defmt_prim a|b
s nested defmt_prim {=?}
read 01 00 01 00
read 01 00 02 00 01
read 01 00 02 00 02
read 01 00 09 00
read 01 00 03 00 03 00 03 00 03 00 03 00 03 00 03 00 03 00 03 00 03 00 03 00 03 00 03 00 03 00 03 00 02 00 01
read 01 00 03 00 03 00 03 00 03 00 03 00 03 00 03 00 03 00 03 00 03 00 03 00 03 00 03 00 03 00 03 00 03 00 02 00 01
=
left cause 3
placed 1: INFO  b
left cause 9
left cause 2
placed 1: INFO  b
left cause 10

s dump defmt_info {=[u8]:#0255b}
read 01 00 c8 00 00 00 ff*200
read 01 00 ff 00 00 00 ff*255
=
placed 1: 51406 bytes
left 1: 65541 bytes";

// The same of tables that no script has.
const READ_BY_TABLES: &str = "\
two
defmt_info hello {=u8}
read 01 00 03 01 07
read 01 00 ff ff 07 00 00 00 00 00 00
read 01 00 03
=
placed 1 place 259: INFO  hello 7
placed 1 place 65535: INFO  hello 7
left cause 5

defmt_info hello
defmt_timestamp {=u8}-{=u16:x}
defmt_println bare
read 01 00 07 ff 00
read 03 00 07 ff 00
=
placed 1: 7-ff INFO  hello
placed 3: bare

defmt_info hello
defmt_timestamp {=u128}
read 01 00 07 00*15
=
left 1: 7 INFO  hello

defmt_info hello
defmt_timestamp {0=u8}{0=u8}
read 01 00 07
=
left 1: 77 INFO  hello

defmt_info {=f32}
defmt_bitflags x
read 01 00
read 02 00
=
left cause 4
left cause 4";

// Puts what becomes of the message of a statement.
fn put_statement(
    alloc: Global,
    script: &Script,
    stm: &Statement,
    out: &mut String,
) -> Result<(), Fail> {
    let planned = PlannedTable::new(alloc, script.table().copy()?)?;
    if !place_suits(script.table(), None) {
        return Err(Fail::new("no place"));
    }
    let mut bytes = [0u8; MESSAGE_LIMIT];
    match message(script.table(), None, first_stamp(script), stm, &mut bytes) {
        Ok(count) if count <= MESSAGE_LIMIT => put_both(alloc, &planned, &bytes[..count], out),
        _ => Err(Fail::new("long")),
    }
}

fn put_first(alloc: Global, script: &Script, out: &mut String) -> Result<(), Fail> {
    match script.statement(0, 0) {
        Some(stm) => put_statement(alloc, script, stm, out),
        None => Err(Fail::new("no statement")),
    }
}

/// Puts what becomes of the message of a format string, behind which its arguments stand.
pub fn put_sent(alloc: Global, input: &str, out: &mut String) -> Result<(), Fail> {
    let (format, args) = input.split_once(", ").unwrap_or((input, ""));
    let text = format!(in alloc; "s v defmt_info {format}\n{STRINGS}\nw 0 v {args}")?;
    let script = script_of(alloc, text.as_str())?;
    put_first(alloc, &script, out)
}

fn put_words(
    alloc: Global,
    planned: &PlannedTable,
    words: &str,
    out: &mut String,
) -> Result<(), Fail> {
    let bytes = bytes_of(alloc, words)?;
    put_both(alloc, planned, &bytes, out)
}

fn put_each(alloc: Global, table: &Table, rows: &str, out: &mut String) -> Result<(), Fail> {
    let planned = PlannedTable::new(alloc, table.copy()?)?;
    for words in rows.split("\nread ") {
        end_line(out)?;
        put_words(alloc, &planned, words, out)?;
    }
    Ok(())
}

/// Puts what becomes of messages, in front of which the strings of a script stand.
pub fn put_by_script(alloc: Global, block: &str, out: &mut String) -> Result<(), Fail> {
    let Some((strings, rows)) = block.split_once("\nread ") else {
        return Err(Fail::new("no message"));
    };
    let script = script_of(alloc, strings)?;
    put_each(alloc, script.table(), rows, out)
}

/// The same of a table's strings.
pub fn put_by_table(alloc: Global, block: &str, out: &mut String) -> Result<(), Fail> {
    let Some((strings, rows)) = block.split_once("\nread ") else {
        return Err(Fail::new("no message"));
    };
    let table = table_of(alloc, strings)?;
    put_each(alloc, &table, rows, out)
}

#[test]
fn messages_of_statements_are_told_as_they_are_read(rt: HostRuntime) -> Result<(), Fail> {
    each_line(rt.alloc(), SENT, 42, &Kind::PlannedSent)
}

#[test]
fn other_messages_are_told_as_they_are_read_and_none_where_they_are_refused(
    rt: HostRuntime,
) -> Result<(), Fail> {
    each_block(rt.alloc(), READ, 7, &Kind::PlannedByScript)?;
    each_block(rt.alloc(), READ_BY_TABLES, 5, &Kind::PlannedByTable)
}

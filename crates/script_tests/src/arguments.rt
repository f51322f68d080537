//! What texts of arguments read as, and how arguments are written.
use crate::rows::Kind;
use crate::shapes::language_of;
use crate::texts::{inside_of, put_args, script_of};
use defmt_grammar::{Language, Text};
use defmt_intern::{Entry, Table, Tag};
use defmt_spelling::{ArgFault, Names, read_args};
use defmt_values::Statement;
use std::alloc::Global;
use std::fmt::Write;
use std::test::Fail;
use test_rows::{each_block, each_line, put_str};

// The word of the language where it is Full, a format string and a text of arguments; how they are written, or the cause for which they aren't read.
const KINDS: &str = r#"{=u8} <255> = <255>
{=u8} < 0x1f  > = <31>
{=u8} <x(> = cause 1
{=u8} <> = cause 2
{=u8} <1 2> = cause 2
{=u8} <1 ]> = cause 2
{=u8} <true> = cause 3
{=u8} <-5> = cause 3
{=u8} <256> = cause 4
{=u8} <340282366920938463463374607431768211456> = cause 4
{=u8} < 0x10 > = <16>
{=i8} <-0> = <0>
{=i8} <-128> = <-128>
{=i8} <0x10> = cause 3
{=i8} <128> = cause 4
{=i8} <-007> = <-7>
{=bool} <true> = <true>
{=char} <'\u{e4}'> = <'ä'>
{=char} <'\''> = <'\''>
{=str} <"a\"\'\n"> = <"a\"'\n">
{=[u8]} <#00Ff> = <#00ff>
{=0..8} <0xff> = <255>
{=[?]} <[]> = <[]>
{=[?]} <z[()  ()]> = <z[() ()]>
{=u64} <18446744073709551615> = <18446744073709551615>
{=u64} <18446744073709551616> = cause 4
{=u128} <18446744073709551616> = <18446744073709551616>
{=u16} <007 > = <7>
{=i64} <-9223372036854775808> = <-9223372036854775808>
{=i16} <-> = cause 1
{=bool} <falsey> = cause 1
{=str} <"port7"> = <"port7">
{=str} <"a"b> = cause 1
{=str} <"ä\\ö"> = <"ä\\ö">
{=[u8]} <#> = <#>
{=[u8]} <#0g> = cause 1
{=[u8]} <"a"> = cause 3
{=u8} <1.5> = cause 1
full {=u8} <1.5> = cause 3
full {=i8} <-1.5> = cause 3
full {=f32} <1.5> = <1.5>
full {=f64} <1> = <1.0>
full {=f32} <-0> = <-0.0>
full {=f32} <16777217> = <16777216.0>
full {=f32} <0.1e-3> = <0.0001>
full {=f32} <0x3f800000> = <1.0>
full {=f32} <0x7fc00001> = <0x7fc00001>
full {=f64} <0x7ff8000000000000> = <NaN>
full {=f64} <NaN> = <NaN>
full {=f64} <1e400> = <inf>
full {=f32} <-inf> = <-inf>
full {=f32} <340282366920938463463374607431768211456> = <inf>
full {=f32} <0x100000000> = cause 4
full {=f32} <true> = cause 3
full {=f32} <1.> = cause 1
full {=__internal_Debug} <"a"> = <"a">
full {=__internal_Display} <"ä"> = <"ä">
full {=__internal_FormatSequence} << z()   z() >> = <<z() z()>>
full {=__internal_FormatSequence} <<>> = <<>>
full {=__internal_FormatSequence} <<z()z()>> = cause 1
full {=__internal_FormatSequence} <<y()>> = cause 5
full {=__internal_FormatSequence} <1> = cause 3
full {=?} <<z()>> = cause 3"#;

// The strings of a script, texts of arguments of the first, and how they are written or why they aren't read.
const BY_SCRIPTS: &str = "\
s log defmt_info {=?}
s k defmt_prim None|Some({=u8})
s word defmt_str hello
args <k:0()>
args <k:1( 7 )>
args <k:01(1)>
args <k:1(x()>
args <k:1(>
args <k:1()>
args <k:1(true)>
args <k()>
args <k:2()>
args <k:256()>
args <nobody()>
args <word()>
=
<k:0()>
<k:1(7)>
cause 1
cause 1
cause 1
cause 2
cause 3
cause 4
cause 4
cause 4
cause 5
cause 5

s log defmt_info {}
s n defmt_prim {}
s z defmt_prim z
args <n(n(n(n(n(n(n(n(n(n(n(n(n(n(n(z())))))))))))))))>
args <n(n(n(n(n(n(n(n(n(n(n(n(n(n(n(n(z()))))))))))))))))>
=
<n(n(n(n(n(n(n(n(n(n(n(n(n(n(n(z())))))))))))))))>
cause 6

s log defmt_info at {} {:x}
s opt defmt_prim None|Some({=?})
s num defmt_prim {=u8}
s pt defmt_derived Pt {{ x: {=?}, y: {=?} }}
args <pt(num(3) num(255)) opt:1(num(255))>
=
<pt(num(3) num(255)) opt:1(num(255))>

s log defmt_info {=?} {=?}
s pair defmt_prim {=str}{=?}
s num defmt_prim {=u8}
s z defmt_prim z
args <num(1) num(2)>
args <num(1)  num( 2 ) >
args <z() pair(\")\" z())>
args <z() pair(\"(\" pair(\"\" z()))>
args <num(1) num(2) num(3)>
args <num(1) num(2)) num(3)>
args <num(1) z(2)>
args <num(1) num(300)>
args <num(1) num(2>
args <num(1) num 2)>
args <num(1) mun(2)>
=
<num(1) num(2)>
<num(1) num(2)>
<z() pair(\")\" z())>
<z() pair(\"(\" pair(\"\" z()))>
cause 2
cause 1
cause 2
cause 4
cause 1
cause 1
cause 5";

// The same of strings that no script has, and of names that are given beside them.
const BY_LINES: &str = "\
string log defmt_info {=?}
string float defmt_prim {=f32}
args <float()>
=
cause 8

string log defmt_info {=istr}
string word defmt_str hello
name b 2
name a 9
name a 2
get a
get c
args <@word>
=
2
none
<@a>

name axz 1
name ayz 2
get axz
get ayz
name axz 3
get axz
get ayz
get az
get z
=
1
2
3
2
none
none";

// Strings with their names.
#[derive(Drop)]
struct Strings {
    table: Table,
    names: Names,
}

fn text_of(alloc: Global, text: &str) -> Result<Text, Fail> {
    Ok(Text::from_string(String::from_str(alloc, text)?))
}

fn entry_of(alloc: Global, tag: &str, text: &str) -> Result<Entry, Fail> {
    Ok(Entry {
        tag: Tag::of_name(alloc, tag)?,
        package: text_of(alloc, "script")?,
        text: text_of(alloc, text)?,
        disambiguator: text_of(alloc, "")?,
    })
}

fn add_string(alloc: Global, strings: &mut Strings, name: &str, entry: &str) -> Result<(), Fail> {
    let (tag, text) = entry.split_once(' ').unwrap_or((entry, ""));
    let index = strings.table.add(entry_of(alloc, tag, text)?)?;
    strings.names.put(name, index)?;
    Ok(())
}

/// Puts how the arguments of the string at index 1 are written that are read from a text.
pub fn put_written(
    alloc: Global,
    names: &Names,
    table: &Table,
    row: &str,
    out: &mut String,
) -> Result<(), Fail> {
    match read_args(alloc, names, table, 1, inside_of(row)?) {
        Ok(args) => put_args(alloc, names, table, &Statement { index: 1, args }, out),
        Err(ArgFault::Refused { cause }) => Ok(write!(out, "cause {cause}")?),
        Err(ArgFault::Memory) => put_str(out, "memory"),
    }
}

// The same of texts, each on a line of its own.
fn put_written_each(
    alloc: Global,
    names: &Names,
    table: &Table,
    rows: &str,
    out: &mut String,
) -> Result<(), Fail> {
    for row in rows.split("\nargs ") {
        put_gap(out)?;
        put_written(alloc, names, table, row, out)?;
    }
    Ok(())
}

fn put_gap(out: &mut String) -> Result<(), Fail> {
    if !out.is_empty() {
        out.push('\n')?;
    }
    Ok(())
}

fn put_index(names: &Names, name: &str, out: &mut String) -> Result<(), Fail> {
    put_gap(out)?;
    match names.get(name) {
        Some(index) => Ok(write!(out, "{index}")?),
        None => put_str(out, "none"),
    }
}

// Takes a line, and puts its answer, nothing where it asks for nothing.
fn put_answer_of(
    alloc: Global,
    strings: &mut Strings,
    line: &str,
    out: &mut String,
) -> Result<(), Fail> {
    let (word, rest) = line.split_once(' ').unwrap_or((line, ""));
    let (name, more) = rest.split_once(' ').unwrap_or((rest, ""));
    match word {
        "string" => add_string(alloc, strings, name, more),
        "name" => Ok(strings.names.put(name, more.parse()?)?),
        "get" => put_index(&strings.names, name, out),
        "args" => put_written_each(alloc, &strings.names, &strings.table, rest, out),
        _ => Err(Fail::new("no line")),
    }
}

pub fn put_answers_of(alloc: Global, block: &str, out: &mut String) -> Result<(), Fail> {
    let mut strings = Strings {
        table: Table::new(alloc),
        names: Names::new(alloc),
    };
    for line in block.lines() {
        put_answer_of(alloc, &mut strings, line, out)?;
    }
    Ok(())
}

fn put_by_strings(alloc: Global, strings: &str, rows: &str, out: &mut String) -> Result<(), Fail> {
    let script = script_of(alloc, strings)?;
    put_written_each(alloc, script.names(), script.table(), rows, out)
}

pub fn put_written_by_script(alloc: Global, block: &str, out: &mut String) -> Result<(), Fail> {
    match block.split_once("\nargs ") {
        Some((strings, rows)) => put_by_strings(alloc, strings, rows, out),
        None => Err(Fail::new("no arguments")),
    }
}

pub fn put_written_of_kind(alloc: Global, row: &str, out: &mut String) -> Result<(), Fail> {
    let (language, row) = language_of(row);
    let head = match language {
        Language::Base => "",
        Language::Full => "language full\n",
    };
    let (form, args) = row.split_once(' ').unwrap_or((row, ""));
    let strings = format!(in alloc; "{head}s log defmt_info {form}\ns z defmt_prim z")?;
    put_by_strings(alloc, strings.as_str(), args, out)
}

#[test]
fn each_kind_has_its_spelling_and_its_causes(rt: HostRuntime) -> Result<(), Fail> {
    each_line(rt.alloc(), KINDS, 63, &Kind::WrittenOfKind)
}

#[test]
fn strings_are_found_by_their_names_and_the_least_is_written(rt: HostRuntime) -> Result<(), Fail> {
    each_block(rt.alloc(), BY_SCRIPTS, 4, &Kind::WrittenByScript)?;
    each_block(rt.alloc(), BY_LINES, 3, &Kind::AnswersOf)
}

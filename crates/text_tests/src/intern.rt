//! Tables, and what their texts stand for.
use crate::rows;
use crate::shared::{entry_of, language_of, pieces_of, put, table_in, table_of};
use defmt_grammar::{Kind, Language, Mode, Param, Piece};
use defmt_intern::{Forms, Parsed, Profile, Table, TableFault};
use std::alloc::Global;
use std::fmt::Write;
use std::test::Fail;
use test_rows::{each_block, each_line, expect, put_str};

const ENTRIES: &str = "\
- defmt_info a*5
1 defmt_info a*6
1 defmt_info a*4097
- defmt_timestamp a*4097
- defmt_warn a*4096
9 defmt_timestamp a*8
- defmt_timestamp a*5
65535 defmt_info a
- defmt_info a
=
at 1, stamp None
cause 2, stamp None
cause 2, stamp None
cause 4, stamp None
at 2, stamp None
at 9, stamp Some(9)
cause 5, stamp Some(9)
at 65535, stamp Some(9)
cause 1, stamp Some(9)
length 4, profile One
1 is aaaaa
3 is nothing";

const PARSED: &str = "\
none = nothing
1 defmt_info n {=u8:q} = n <uint>
1 defmt_str {=u9} = raw
1 defmt_prim None|Some({=?}) = |None|Some(<format>)
1 defmt_info a|b = a|b
1 defmt_bitflags x = unsupported
1 defmt_info {=f32} = unsupported
1 defmt_write a|{=u9} = unsupported
1 defmt_derived || = |||
1 defmt_derived Pt {{ x: {=?} }} = Pt { x: <format> }
1 defmt_info {=__internal_Debug} = unsupported
full 1 defmt_info {=f32} {=f64} = <float> <float>
full 1 defmt_derived {=__internal_Debug:?}{=__internal_Display} = <text><text>
full 1 defmt_write a|{=__internal_FormatSequence} = |a|<sequence>
full 1 defmt_info {=u9} = unsupported
full 1 defmt_bitflags x = unsupported";

const VARIANTS: &str = "\
1 defmt_prim |*1 = 2
1 defmt_prim |*254 = 255
1 defmt_prim |*255 = 0";

const COPIED: &str = "\
700 defmt_timestamp {=u64}
3 x t
40 defmt_prim a|{=f32}";

const IN_THE_COPY: &str = "\
length 3, of the copy 4
profile Two, language Full
stamp Some(700)
40 is |a|<float>
3 x t
40 defmt_prim a|{=f32}
700 defmt_timestamp {=u64}
701 defmt_info new
";

fn put_entry(alloc: Global, table: &mut Table, line: &str, out: &mut String) -> Result<(), Fail> {
    match put(alloc, table, line)? {
        Ok(index) => write!(out, "at {index}")?,
        Err(TableFault::Refused { cause }) => write!(out, "cause {cause}")?,
        Err(TableFault::Memory) => put_str(out, "memory")?,
    }
    Ok(write!(out, ", stamp {:?}\n", table.stamp())?)
}

fn text_at(table: &Table, index: u16) -> &str {
    match table.get(index) {
        Some(entry) => entry.text.as_str(),
        None => "nothing",
    }
}

fn put_table(table: &Table, out: &mut String) -> Result<(), Fail> {
    let (first, third) = (text_at(table, 1), text_at(table, 3));
    write!(
        out,
        "length {}, profile {:?}\n",
        table.len(),
        table.profile()
    )?;
    Ok(write!(out, "1 is {first}\n3 is {third}")?)
}

/// Puts what each entry is answered that is put into one table, and then the table.
pub fn put_answers(alloc: Global, lines: &str, out: &mut String) -> Result<(), Fail> {
    let mut table = Table::new(alloc);
    for line in lines.lines() {
        put_entry(alloc, &mut table, line, out)?;
    }
    put_table(&table, out)
}

fn kind_text(param: &Param) -> &'static str {
    match param.kind {
        Kind::Uint(_) => "<uint>",
        Kind::Format => "<format>",
        Kind::Float(_) => "<float>",
        Kind::Debug | Kind::Display => "<text>",
        Kind::Sequence => "<sequence>",
        _ => "<other>",
    }
}

// Puts the literals of some pieces, and the kinds of the parameters.
fn put_shape(pieces: &[Piece], out: &mut String) -> Result<(), Fail> {
    for piece in pieces {
        put_str(
            out,
            match piece {
                Piece::Literal(text) => text.as_str(),
                Piece::Param(param) => kind_text(param),
            },
        )?;
    }
    Ok(())
}

fn put_forms(forms: &Forms, out: &mut String) -> Result<(), Fail> {
    for pieces in forms.as_slice() {
        put_str(out, "|")?;
        put_shape(pieces.as_slice(), out)?;
    }
    Ok(())
}

// Puts what a text stands for, with `|` in front of each variant.
fn put_body(parsed: Option<&Parsed>, out: &mut String) -> Result<(), Fail> {
    match parsed {
        None => put_str(out, "nothing"),
        Some(Parsed::Unsupported) => put_str(out, "unsupported"),
        Some(Parsed::Raw) => put_str(out, "raw"),
        Some(Parsed::One(pieces)) => put_shape(pieces.as_slice(), out),
        Some(Parsed::Variants(forms)) => put_forms(forms, out),
    }
}

pub fn put_parsed(alloc: Global, line: &str, out: &mut String) -> Result<(), Fail> {
    let (language, line) = language_of(line);
    let lines = if line == "none" { "" } else { line };
    let table = table_in(alloc, language, lines)?;
    put_body(table.parsed(1), out)
}

fn count_in(table: &Table) -> usize {
    match table.parsed(1) {
        Some(Parsed::Variants(forms)) => forms.as_slice().len(),
        _ => 0,
    }
}

pub fn put_count_of_variants(alloc: Global, line: &str, out: &mut String) -> Result<(), Fail> {
    let count = count_in(&table_of(alloc, line)?);
    Ok(write!(out, "{count}")?)
}

// Puts the text of an enum of one variant.
fn put_pushed(alloc: Global, out: &mut String) -> Result<(), Fail> {
    let mut forms = Forms::new(alloc);
    forms.push(pieces_of(alloc, "b {=u8}", Mode::Lenient)?)?;
    put_body(Some(&Parsed::Variants(forms)), out)
}

// A copy of a table, with one more entry that is a copy itself.
fn copy_with_more(alloc: Global, table: &Table) -> Result<Table, Fail> {
    let mut copy = table.copy()?;
    copy.add(entry_of(alloc, "defmt_info", "new")?.copy(alloc)?)?;
    Ok(copy)
}

fn put_entries(table: &Table, out: &mut String) -> Result<(), Fail> {
    for (index, entry) in table.entries() {
        write!(
            out,
            "{index} {} {}\n",
            entry.tag.name(),
            entry.text.as_str()
        )?;
    }
    Ok(())
}

fn put_copy(table: &Table, copy: &Table, out: &mut String) -> Result<(), Fail> {
    let (profile, stamp) = (copy.profile(), copy.stamp());
    write!(
        out,
        "length {}, of the copy {}\nprofile {profile:?}, language {:?}\nstamp {stamp:?}\n40 is ",
        table.len(),
        copy.len(),
        copy.language()
    )?;
    put_body(copy.parsed(40), out)?;
    out.push('\n')?;
    put_entries(copy, out)
}

fn put_copied(alloc: Global, lines: &str, out: &mut String) -> Result<(), Fail> {
    let mut table = table_in(alloc, Language::Full, lines)?;
    table.set_profile(Profile::Two);
    let copy = copy_with_more(alloc, &table)?;
    put_copy(&table, &copy, out)
}

#[test]
fn entries_are_put_behind_the_greatest_index_and_refusals_leave_the_table(
    rt: HostRuntime,
) -> Result<(), Fail> {
    each_block(rt.alloc(), ENTRIES, 1, &rows::Kind::Answers)
}

#[test]
fn texts_are_parsed_by_their_tags_and_variants_listed_up_to_255(
    rt: HostRuntime,
) -> Result<(), Fail> {
    each_line(rt.alloc(), PARSED, 16, &rows::Kind::ParsedText)?;
    each_line(rt.alloc(), VARIANTS, 3, &rows::Kind::CountOfVariants)
}

#[test]
fn variants_are_pushed_and_a_copy_has_the_same_entries_in_order(
    rt: HostRuntime,
) -> Result<(), Fail> {
    let mut form = String::new(rt.alloc());
    put_pushed(rt.alloc(), &mut form)?;
    expect(form.as_str(), "|b <uint>")?;
    let mut copy = String::new(rt.alloc());
    put_copied(rt.alloc(), COPIED, &mut copy)?;
    expect(copy.as_str(), IN_THE_COPY)
}

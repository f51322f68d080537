//! Tables that are written and read back, and refusals.
use crate::files::{REFUSED, damage};
use crate::rows::Kind;
use defmt_grammar::{Language, Text};
use defmt_intern::{Entry, Profile, Table, Tag};
use dl_io::Bytes;
use elf_table::{LoadFault, is_writable, read_table, write_table};
use std::alloc::Global;
use std::fmt::Write;
use std::test::Fail;
use test_rows::{each_block, each_line, expect, parted, put_str};

fn put_word(word: &str, out: &mut String) -> Result<(), Fail> {
    put_str(out, " ")?;
    put_str(out, word)
}

// An entry without a tag stands for a name that can't be read.
fn put_entry(index: u16, entry: &Entry, out: &mut String) -> Result<(), Fail> {
    write!(out, "; {index}")?;
    if entry.tag.name().is_empty() {
        return put_word("unread", out);
    }
    put_word(entry.tag.name(), out)?;
    put_word(entry.package.as_str(), out)?;
    put_word(entry.disambiguator.as_str(), out)?;
    put_word(entry.text.as_str(), out)
}

// How many entries there are, the profile where it is the second, the index of the timestamp, and each entry's index, tag,
// package, disambiguator and text.
fn put_listing(table: &Table, out: &mut String) -> Result<(), Fail> {
    write!(out, "{} entries", table.len())?;
    if let Profile::Two = table.profile() {
        put_str(out, " of profile Two")?;
    }
    if let Some(index) = table.stamp() {
        write!(out, ", stamp {index}")?;
    }
    for (index, entry) in table.entries() {
        put_entry(index, entry, out)?;
    }
    Ok(())
}

fn put_refusal(fault: LoadFault, out: &mut String) -> Result<(), Fail> {
    match fault {
        LoadFault::Elf { cause, part, place } => {
            Ok(write!(out, "cause {cause} {part:?} {place}")?)
        }
        LoadFault::Names { cause, symbol } => Ok(write!(out, "cause {cause} symbol {symbol}")?),
        LoadFault::Memory => put_str(out, "memory"),
    }
}

/// Puts the table of a language that a file names, or its refusal.
pub fn put_table(
    alloc: Global,
    file: &[u8],
    language: Language,
    out: &mut String,
) -> Result<(), Fail> {
    if file.len() >= 1 << 32 {
        return Err(Fail::new("the file is too long"));
    }
    match read_table(alloc, file, language) {
        Ok(table) => put_listing(&table, out),
        Err(fault) => put_refusal(fault, out),
    }
}

fn put_texts(entry: &mut Entry, text: &str) -> Result<(), Fail> {
    entry.package.push_str("script")?;
    entry.text.push_str(text)?;
    Ok(entry.disambiguator.push_str("1")?)
}

fn entry_of(alloc: Global, tag: &str, text: &str) -> Result<Entry, Fail> {
    let mut entry = Entry {
        tag: Tag::of_name(alloc, tag)?,
        package: Text::new(alloc),
        text: Text::new(alloc),
        disambiguator: Text::new(alloc),
    };
    put_texts(&mut entry, text)?;
    Ok(entry)
}

// Puts the entry of a line, which has its index, tag and text, into a table.
fn insert_line(alloc: Global, line: &str, table: &mut Table) -> Result<(), Fail> {
    let (index, rest) = parted(line, ' ');
    let (tag, text) = parted(rest, ' ');
    Ok(table.insert(index.parse::<u16>()?, entry_of(alloc, tag, text)?)?)
}

fn insert_lines(alloc: Global, lines: &str, table: &mut Table) -> Result<(), Fail> {
    for line in lines.lines() {
        insert_line(alloc, line, table)?;
    }
    Ok(())
}

fn file_of(alloc: Global, table: &Table) -> Result<Bytes, Fail> {
    if !is_writable(table) {
        return Err(Fail::new("the table is too large"));
    }
    Ok(write_table(alloc, table)?)
}

// The lines of a table, in the second profile where it is said first.
fn written(alloc: Global, text: &str) -> Result<Bytes, Fail> {
    let mut table = Table::new(alloc);
    let lines = match text.strip_prefix("two\n") {
        Some(lines) => {
            table.set_profile(Profile::Two);
            lines
        }
        None => text,
    };
    insert_lines(alloc, lines, &mut table)?;
    file_of(alloc, &table)
}

// Tables that are written, and what is read back.
const WRITTEN: &str = "\
1 defmt_info hello
=
1 entries; 1 defmt_info script 1 hello

65535 defmt_timestamp {=u64:us}
0 defmt_bitflags a\"b\\é\u{1}
700 defmt_prim None|Some({=?})
=
3 entries, stamp 65535; 0 defmt_bitflags script 1 a\"b\\é\u{1}; 700 defmt_prim script 1 None|Some({=?}); \
65535 defmt_timestamp script 1 {=u64:us}

two
1 defmt_info hello
=
1 entries of profile Two; 1 defmt_info script 1 hello

two
65535 defmt_timestamp {=u64:us}
=
1 entries of profile Two, stamp 65535; 65535 defmt_timestamp script 1 {=u64:us}";

pub fn put_read_back(alloc: Global, lines: &str, out: &mut String) -> Result<(), Fail> {
    let file = written(alloc, lines)?;
    put_table(alloc, file.as_slice(), Language::Base, out)
}

#[test]
fn one_entry_makes_472_bytes_and_36_more_in_the_second_profile(
    rt: HostRuntime,
) -> Result<(), Fail> {
    let file = written(rt.alloc(), "1 defmt_info hello")?;
    assert_eq!(rt; file.len(), 472);
    let of_two = written(rt.alloc(), "two\n1 defmt_info hello")?;
    assert_eq!(rt; of_two.len(), 508);
    Ok(())
}

#[test]
fn a_table_reads_back_with_its_indexes(rt: HostRuntime) -> Result<(), Fail> {
    each_block(rt.alloc(), WRITTEN, 4, &Kind::TableReadBack)?;
    let mut none = String::new(rt.alloc());
    put_read_back(rt.alloc(), "", &mut none)?;
    expect(none.as_str(), "0 entries")
}

// Damages of the file's symbol. Without its brace the name isn't listed.
const NAMES: &str = "\
at 164 20 = cause 3 symbol 0
at 106 01 = cause 6 symbol 0
at 163 78 = 0 entries";

pub fn put_answer_to_damage(alloc: Global, text: &str, out: &mut String) -> Result<(), Fail> {
    let mut file = written(alloc, "1 defmt_info hello")?.into_vec();
    damage(alloc, &mut file, text)?;
    put_table(alloc, &file, Language::Base, out)
}

#[test]
fn a_damaged_file_is_refused_with_its_cause_and_place(rt: HostRuntime) -> Result<(), Fail> {
    each_line(rt.alloc(), REFUSED, 16, &Kind::TableAnswerToDamage)?;
    each_line(rt.alloc(), NAMES, 3, &Kind::TableAnswerToDamage)
}

//! Sites that are made and refused, and lists of slots.
use crate::rows::{Kind, each_line};
use defmt_grammar::{Mode, Pieces, Slot, Text, parse};
use defmt_intern::{Entry, Table, Tag};
use defmt_macros::{Site, Slots};
use std::alloc::Global;
use std::fmt::Write;
use std::test::Fail;
use test_rows::parted;

// An index and a text with slots: the site's index, tag and slots, or why there is none.
const SITES: &str = "\
1 {=u8} = 1 Info One(Uint(W8))
1 {=u16} = Slots { position: 0 }
1 {=u8} {=u8} = Slots { position: 1 }
9 {=u8} = NoEntry
2 {=u8} = NotLog
3 {=u8} = Unsupported";

// A text with slots: the list to which they were appended one by one.
const LISTS: &str = "{=bool} {1=0..16} = One(Bool) Bits { first: 0, width: 2 }";

fn add(alloc: Global, table: &mut Table, tag: Tag, text: &str) -> Result<(), Fail> {
    let text = Text::from_string(String::from_str(alloc, text)?);
    table.add(Entry {
        tag,
        package: Text::new(alloc),
        text,
        disambiguator: Text::new(alloc),
    })?;
    Ok(())
}

// Adds the entries 1, 2 and 3 to an empty table.
fn fill(alloc: Global, table: &mut Table) -> Result<(), Fail> {
    add(alloc, table, Tag::Info, "{=u8:#04x} {0=u8:b}")?;
    add(alloc, table, Tag::Prim, "{=u8}")?;
    add(alloc, table, Tag::Info, "{=f32}")
}

fn pieces_of(alloc: Global, text: &str) -> Result<Pieces, Fail> {
    if text.len() > 10_000 {
        return Err(Fail::new("a long text"));
    }
    Ok(parse(alloc, text, Mode::Strict)?)
}

fn put_slots(out: &mut String, slots: &[Slot]) -> Result<(), Fail> {
    let mut gap = "";
    for slot in slots {
        write!(out, "{gap}{slot:?}")?;
        gap = " ";
    }
    Ok(())
}

fn put_made(site: &Site, out: &mut String) -> Result<(), Fail> {
    let (index, tag) = (site.index(), site.tag());
    write!(out, "{index} {tag:?} ")?;
    put_slots(out, site.slots())
}

fn put_site_of(
    alloc: Global,
    table: &Table,
    index: u16,
    slots: &[Slot],
    out: &mut String,
) -> Result<(), Fail> {
    match Site::new(alloc, table, index, slots) {
        Ok(site) => put_made(&site, out),
        Err(fault) => Ok(write!(out, "{fault:?}")?),
    }
}

fn put_site_in(alloc: Global, table: &mut Table, row: &str, out: &mut String) -> Result<(), Fail> {
    fill(alloc, table)?;
    let (index, text) = parted(row, ' ');
    let index = u16::from_str_radix(index, 10)?;
    let pieces = pieces_of(alloc, text)?;
    put_site_of(alloc, table, index, pieces.slots(), out)
}

pub(crate) fn put_site(alloc: Global, row: &str, out: &mut String) -> Result<(), Fail> {
    let mut table = Table::new(alloc);
    put_site_in(alloc, &mut table, row, out)
}

fn put_appended(alloc: Global, given: &[Slot], out: &mut String) -> Result<(), Fail> {
    let mut slots = Slots::new(alloc);
    for slot in given {
        slots.push(*slot)?;
    }
    put_slots(out, slots.as_slice())
}

pub(crate) fn put_list(alloc: Global, text: &str, out: &mut String) -> Result<(), Fail> {
    let pieces = pieces_of(alloc, text)?;
    put_appended(alloc, pieces.slots(), out)
}

#[test]
fn sites_are_checked_against_the_table_and_slots_keep_their_order(
    rt: HostRuntime,
) -> Result<(), Fail> {
    each_line(&rt, rt.alloc(), SITES, 6, &Kind::Site)?;
    each_line(&rt, rt.alloc(), LISTS, 1, &Kind::List)
}

//! Messages that macros put of arguments one by one.
ghost use Rattle.std.specs.Prelude.{◌≡◌};
ghost use Rattle.defmt_encode.specs.Placed.{HasPlace};
ghost use Rattle.defmt_intern.specs.declared.entry.Tag.TheVariants as tags;
ghost use Rattle.defmt_macros.specs.Sites.{IsSite};
ghost use Rattle.defmt_macros.specs.Stamps.{StampSuits};

use crate::forms::{with_debug, with_info, with_trace, with_warn};
use crate::rows::{self, each_block};
use crate::scripts::{script_of, site_at};
use defmt_encode::{MESSAGE_LIMIT, place_suits};
use defmt_grammar::{IntSize, Kind, Slot};
use defmt_intern::{Table, Tag};
use defmt_macros::{Site, stamp_suits};
use std::alloc::Global;
use std::test::Fail;
use test_rows::{bytes_of, parted, put_digits};

// A script of a string with two slots, and its arguments: a number and a truth value, a number and the digits of bytes, a text and the number of a character,
// and two numbers. What is due is the message.
const FORMS: &str = "\
s v defmt_trace {=u8} {=bool}
7 true
=
01 00 07 01

s v defmt_trace {=u8} {=bool}
255 false
=
01 00 ff 00

s v defmt_debug {=i128} {=[u8]}
-2 0a ff
=
01 00 fe ff ff ff ff ff ff ff ff ff ff ff ff ff ff ff 02 00 00 00 0a ff

s v defmt_info {=str} {=char}
hi 8364
=
01 00 02 00 00 00 68 69 ac 20 00 00

s v defmt_warn {=u128} {=usize}
258 7
=
01 00 02 01 00 00 00 00 00 00 00 00 00 00 00 00 00 00 07 00 00 00";

// Puts the digits of the first bytes of a buffer.
fn put_front(buf: &[u8], count: usize, out: &mut String) -> Result<(), Fail> {
    if count > buf.len() {
        return Err(Fail::new("a long message"));
    }
    put_digits(out, &buf[..count])
}

fn put_trace(table: &Table, site: &Site, a: &str, b: &str, out: &mut String) -> Result<(), Fail>
    requires tag { site.now.tag ≡ tags.Trace }
    requires entry { IsSite table.now.entries site.now.index site.now.tag site.now.slots }
    requires place { HasPlace table.now.profile None }
    requires stamp { StampSuits table.now.entries None }
{
    let [Slot::One(Kind::Uint(IntSize::W8)), Slot::One(Kind::Bool)] = site.slots() else {
        return Err(Fail::new("other slots"));
    };
    let a = u8::from_str_radix(a, 10)?;
    let mut buf = [0; MESSAGE_LIMIT];
    let count = with_trace(&mut buf, table, site, None, None, a, b == "true");
    put_front(&buf, count, out)
}

fn put_debug(
    table: &Table,
    site: &Site,
    a: &str,
    bytes: &[u8],
    out: &mut String,
) -> Result<(), Fail>
    requires tag { site.now.tag ≡ tags.Debug }
    requires entry { IsSite table.now.entries site.now.index site.now.tag site.now.slots }
    requires place { HasPlace table.now.profile None }
    requires stamp { StampSuits table.now.entries None }
{
    let [Slot::One(Kind::Int(IntSize::W128)), Slot::One(Kind::Bytes)] = site.slots() else {
        return Err(Fail::new("other slots"));
    };
    let a = i128::from_str_radix(a, 10)?;
    if bytes.len() > 1000 {
        return Err(Fail::new("many bytes"));
    }
    let mut buf = [0; MESSAGE_LIMIT];
    let count = with_debug(&mut buf, table, site, None, None, a, bytes);
    put_front(&buf, count, out)
}

fn put_info(table: &Table, site: &Site, a: &str, b: &str, out: &mut String) -> Result<(), Fail>
    requires tag { site.now.tag ≡ tags.Info }
    requires entry { IsSite table.now.entries site.now.index site.now.tag site.now.slots }
    requires place { HasPlace table.now.profile None }
    requires stamp { StampSuits table.now.entries None }
{
    let [Slot::One(Kind::Str), Slot::One(Kind::Char)] = site.slots() else {
        return Err(Fail::new("other slots"));
    };
    let Some(b) = char::from_u32(u32::from_str_radix(b, 10)?) else {
        return Err(Fail::new("no character"));
    };
    if a.len() > 1000 {
        return Err(Fail::new("a long text"));
    }
    let mut buf = [0; MESSAGE_LIMIT];
    let count = with_info(&mut buf, table, site, None, None, a, b);
    put_front(&buf, count, out)
}

fn put_warn(table: &Table, site: &Site, a: &str, b: &str, out: &mut String) -> Result<(), Fail>
    requires tag { site.now.tag ≡ tags.Warn }
    requires entry { IsSite table.now.entries site.now.index site.now.tag site.now.slots }
    requires place { HasPlace table.now.profile None }
    requires stamp { StampSuits table.now.entries None }
{
    let [
        Slot::One(Kind::Uint(IntSize::W128)),
        Slot::One(Kind::Uint(IntSize::Native)),
    ] = site.slots()
    else {
        return Err(Fail::new("other slots"));
    };
    let a = u128::from_str_radix(a, 10)?;
    let b = u32::from_str_radix(b, 10)?;
    let mut buf = [0; MESSAGE_LIMIT];
    let count = with_warn(&mut buf, table, site, None, None, a, b as usize);
    put_front(&buf, count, out)
}

// Puts the message of two arguments, by the macro of the site's tag.
fn put_by_tag(
    alloc: Global,
    table: &Table,
    site: &Site,
    row: &str,
    out: &mut String,
) -> Result<(), Fail>
    requires entry { IsSite table.now.entries site.now.index site.now.tag site.now.slots }
    requires place { HasPlace table.now.profile None }
    requires stamp { StampSuits table.now.entries None }
{
    let (a, b) = parted(row, ' ');
    match site.tag() {
        Tag::Trace => put_trace(table, site, a, b, out),
        Tag::Debug => put_debug(table, site, a, &bytes_of(alloc, b)?, out),
        Tag::Info => put_info(table, site, a, b, out),
        Tag::Warn => put_warn(table, site, a, b, out),
        _ => Err(Fail::new("another tag")),
    }
}

// The same of the first string of a table, where no message has a stamp.
fn put_by_table(alloc: Global, table: &Table, row: &str, out: &mut String) -> Result<(), Fail> {
    if !place_suits(table, None) {
        return Err(Fail::new("a place"));
    }
    if !stamp_suits(table, None) {
        return Err(Fail::new("a stamp"));
    }
    let site = site_at(alloc, table, 1)?;
    put_by_tag(alloc, table, &site, row, out)
}

// The same of the first string of a script, which the row begins with.
pub(crate) fn put_form(alloc: Global, row: &str, out: &mut String) -> Result<(), Fail> {
    let (script, row) = parted(row, '\n');
    let script = script_of(alloc, script)?;
    put_by_table(alloc, script.table(), row, out)
}

#[test]
fn trace_debug_info_and_warn_put_their_arguments(rt: HostRuntime) -> Result<(), Fail> {
    each_block(&rt, rt.alloc(), FORMS, 5, &rows::Kind::Form)
}

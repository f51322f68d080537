//! The messages that the macros put.
ghost use Rattle.defmt_macros.specs.Sites.{IsSite};

use crate::rows::{Kind, each_block};
use crate::scripts::{script_of, site_at};
use defmt_encode::{MESSAGE_LIMIT, message, place_suits};
use defmt_intern::{Profile, Table};
use defmt_macros::{Site, log, stamp_suits};
use defmt_script::Script;
use defmt_values::{Statement, check};
use std::alloc::Global;
use std::test::Fail;
use test_rows::put_digits;

// A script, in the second profile where that is said first: the message of its statement, with the script's first stamp, by the
// macro of the string's tag with all arguments.
const MESSAGES: &str = "\
s v defmt_trace {=u8}
w 0 v 7
=
01 00 07

s v defmt_debug {=u8}
w 0 v 7
=
01 00 07

s v defmt_info {=u8}
w 0 v 7
=
01 00 07

s v defmt_warn {=u8}
w 0 v 7
=
01 00 07

s v defmt_error {=u8}
w 0 v 7
=
01 00 07

s v defmt_println {=u8}
w 0 v 7
=
01 00 07

stamp 1000 1
s hello defmt_warn hello
w 0 hello
=
01 00 e8 03 00 00 00 00 00 00

s optional defmt_prim None|Some({=?})
s number defmt_prim {=u8}
s point defmt_derived Pt {{ x: {=?}, y: {=?} }}
s at defmt_debug at {} {:x}
w 0 at point(number(3) number(255)) optional:1(number(255))
=
04 00 03 00 02 00 03 02 00 ff 01 00 01 02 00 ff

two
s v defmt_info {=u8}
w 0 v 7
=
01 00 03 01 07

two
stamp 1000 1
s hello defmt_warn hello
w 0 hello
=
01 00 03 01 e8 03 00 00 00 00 00 00";

// Puts the message of the macro of the site's tag.
fn put_by_macro(
    table: &Table,
    site: &Site,
    place: Option<u16>,
    stamp: Option<u64>,
    statement: &Statement,
    out: &mut String,
) -> Result<(), Fail>
    requires { IsSite table.now.entries site.now.index site.now.tag site.now.slots }
{
    if site.index() != statement.index {
        return Err(Fail::new("another site"));
    }
    if check(table, statement).is_err() {
        return Err(Fail::new("the statement doesn't fit"));
    }
    if !place_suits(table, place) {
        return Err(Fail::new("the place doesn't suit"));
    }
    let mut whole = [0; MESSAGE_LIMIT];
    if message(table, place, stamp, statement, &mut whole).is_err() {
        return Err(Fail::new("the message is too long"));
    }
    if !stamp_suits(table, stamp) {
        return Err(Fail::new("the stamp doesn't suit"));
    }
    let mut buf = [0; MESSAGE_LIMIT];
    let count = log(&mut buf, table, site, place, stamp, &statement.args);
    put_digits(out, &buf[..count])
}

fn first_stamp(script: &Script) -> Option<u64> {
    match script.stamp() {
        Some((base, _)) => Some(base),
        None => None,
    }
}

// A place where there has to be one.
fn first_place(profile: Profile) -> Option<u16> {
    match profile {
        Profile::One => None,
        Profile::Two => Some(259),
    }
}

fn put_first_message(
    alloc: Global,
    profile: Profile,
    script: &Script,
    out: &mut String,
) -> Result<(), Fail> {
    let Some(statement) = script.statement(0, 0) else {
        return Err(Fail::new("no statement"));
    };
    let mut table = script.table().copy()?;
    table.set_profile(profile);
    let site = site_at(alloc, &table, statement.index)?;
    let (place, stamp) = (first_place(profile), first_stamp(script));
    put_by_macro(&table, &site, place, stamp, statement, out)
}

pub(crate) fn put_message(alloc: Global, text: &str, out: &mut String) -> Result<(), Fail> {
    let (profile, lines) = match text.strip_prefix("two\n") {
        Some(lines) => (Profile::Two, lines),
        None => (Profile::One, text),
    };
    let script = script_of(alloc, lines)?;
    put_first_message(alloc, profile, &script, out)
}

#[test]
fn each_tag_has_its_macro(rt: HostRuntime) -> Result<(), Fail> {
    each_block(&rt, rt.alloc(), MESSAGES, 10, &Kind::Message)
}

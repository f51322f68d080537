//! The parts of lines, as they are told of frames that are fed and of frames that are heard.
use crate::rows::Kind;
use crate::runs::bytes_of;
use crate::strings::{end_line, table_of};
use defmt_decode::{Event, Host, Parts, PlannedTable};
use defmt_framing::Notice;
use defmt_intern::Table;
use std::alloc::Global;
use std::fmt::Write;
use std::test::Fail;
use test_rows::{each_block, put_str};

// The entries of a table, frames, and of the line of each how many bytes its piece and its stamp have and where its text begins.
// Those whose positions stand out of order have no plan.
const PARTS: &str = "\
defmt_info hello
defmt_debug x {=u8}
defmt_println hi {=u8}
defmt_warn {1=u8} {0=u8}
hear 00 01 7e 00
hear 00 02 05 7a 00
hear 00 03 05 7a 00
hear 00 04 05 06 72 00
=
fed 2 0 6 heard 2 0 6
fed 3 0 6 heard 3 0 6
fed 3 0 0 heard 3 0 0
fed 4 0 6 heard 4 0 6

defmt_timestamp {=u8}
defmt_info hello
defmt_println hi {=u8}
defmt_warn {1=u8} {0=u8}
hear 00 02 0c 7a 00
hear 00 03 0c 05 72 00
hear 00 04 0c 05 06 62 00
=
fed 3 2 9 heard 3 2 9
fed 4 0 0 heard 4 0 0
fed 5 2 9 heard 5 2 9

defmt_timestamp {=u8}.{=u8}
defmt_info {1=u8} {0=u8}
defmt_println {1=u8} {0=u8}
hear 00 02 01 02 05 06 42 00
hear 00 03 01 02 05 06 42 00
=
fed 6 3 10 heard 6 3 10
fed 6 0 0 heard 6 0 0

two
defmt_info hello
hear 00 01 03 7a 00
hear 00 7f 00
=
fed 3 0 6 heard 3 0 6
fed no line heard no line";

fn put_parts(out: &mut String, parts: Parts) -> Result<(), Fail> {
    Ok(write!(out, "{} {} {}", parts.bytes, parts.stamp, parts.front)?)
}

fn put_event(out: &mut String, event: Option<Event>) -> Result<(), Fail> {
    match event {
        Some(Event::Line { parts, .. }) => put_parts(out, parts),
        _ => put_str(out, "no line"),
    }
}

fn put_fed(host: &mut Host, bytes: &[u8], out: &mut String) -> Result<(), Fail> {
    let (_, event) = host.feed(bytes)?;
    put_event(out, event)
}

fn put_heard(alloc: Global, host: &mut Host, bytes: &[u8], out: &mut String) -> Result<(), Fail> {
    let mut text = Vec::new(alloc);
    let (_, notice) = host.hear(bytes, &mut text, 0)?;
    match notice {
        Notice::Line(origin, _) => put_parts(out, origin.parts),
        Notice::Event(event) => put_event(out, Some(event)),
        Notice::Nothing => put_event(out, None),
    }
}

fn put_frame(alloc: Global, table: &Table, bytes: &[u8], out: &mut String) -> Result<(), Fail> {
    put_str(out, "fed ")?;
    let planned = PlannedTable::new(alloc, table.copy()?)?;
    put_fed(&mut Host::new(alloc, &planned), bytes, out)?;
    put_str(out, " heard ")?;
    put_heard(alloc, &mut Host::new(alloc, &planned), bytes, out)
}

fn put_frames(alloc: Global, table: &Table, rows: &str, out: &mut String) -> Result<(), Fail> {
    for words in rows.split("\nhear ") {
        end_line(out)?;
        let bytes = bytes_of(alloc, words)?;
        put_frame(alloc, table, &bytes, out)?;
    }
    Ok(())
}

pub fn put_line_parts(alloc: Global, block: &str, out: &mut String) -> Result<(), Fail> {
    let Some((strings, rows)) = block.split_once("\nhear ") else {
        return Err(Fail::new("no stream"));
    };
    let table = table_of(alloc, strings)?;
    put_frames(alloc, &table, rows, out)
}

#[test]
fn lines_have_parts_by_a_plan_and_without(rt: HostRuntime) -> Result<(), Fail> {
    each_block(rt.alloc(), PARTS, 4, &Kind::LineParts)
}

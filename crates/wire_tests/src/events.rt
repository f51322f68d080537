//! The events of streams: lines, faults, and fronts and tails that are cut off.
use crate::rows::Kind;
use crate::runs::{bytes_of, put_count};
use crate::strings::{end_line, script_of, table_of};
use defmt_decode::{Event, Host, PlannedTable};
use defmt_grammar::Text;
use defmt_intern::Table;
use std::alloc::Global;
use std::fmt::Write;
use std::test::Fail;
use test_rows::{each_block, each_line, put_str};

const HELLO: &str = "s hello defmt_info hello";

// Streams, and their events by the strings of the script above.
const STREAMS: &str = "\
7e 00 00 01 7e 00 09 = front 1; 1: INFO  hello; tail 1
01 7e = front 2
nothing = nothing
00 01 00 00 01 7e 00 = E1; 1: INFO  hello
00 01 7f 00 = E1
00 7f 00 = E2
00 41 7e 00 = E2
00 01 05 7a 00 = E11
00 01 7e 7f 00 = E11
00 01*65537 00 = E13";

// Where a stream of two frames is cut, and the events in front of the place and behind it.
const CUTS: &str = "\
0 = nothing | 1: INFO  hello; 1: INFO  hello
1 = nothing | front 2; 1: INFO  hello
2 = tail 1 | front 1; 1: INFO  hello
3 = tail 2 | 1: INFO  hello
4 = 1: INFO  hello | 1: INFO  hello
5 = 1: INFO  hello | front 2
6 = 1: INFO  hello; tail 1 | front 1
7 = 1: INFO  hello; tail 2 | nothing
8 = 1: INFO  hello; 1: INFO  hello | nothing";

// What each call of a few takes and tells, and then how many bytes were heard, and what the end tells.
const CALLS: &str = "\
00 01 | 7e 00 00 | 00 = took 2: nothing; took 2: 1: INFO  hello; took 1: nothing; heard 5: nothing";

// The strings of a script, streams, and the events of each.
const BY_SCRIPTS: &str = "\
s wide defmt_info {=u128}
hear 00 01 7e 00
=
E5

s truth defmt_info {=bool}
hear 00 01 02 7a 00
=
E6

s letter defmt_info {=char}
hear 00 01 d8 76 00
=
E7

s say defmt_info {=str}
hear 00 01 01 ff 3a 00
=
E8

s log defmt_info {=?}
s choice defmt_prim a|b
hear 00 01 02 02 6a 00
=
E9

s log defmt_info {=?}
s nested defmt_prim {=?}
hear 00 01 02 02 02 2a 02 02 02 55 02 02 02 02 2a 02 02 02 55 02 02 02 6a 00
=
E10

s dump defmt_info {=[u8]:#0255b}
hear 00 01 01 01 36 01*134 ff 01*121 f2 00
=
E14

s list defmt_info {=[?]}
s k defmt_prim k
hear 00 01 7e 00 00 01 01 02 3a 7f 00 00 01 01 20 02 32 7f 00
hear 00 01 20 02 36 7f 00
=
1: INFO  []; 1: INFO  [k]; E12
1: 24582 bytes";

// The same of tables that no script has.
const BY_TABLES: &str = "\
defmt_info hello
defmt_prim p
defmt_info {=f32}
hear 00 09 7e 00 00 02 7e 00 00 03 7e 00 00 01 7e 00
=
E2; E3; E4; 1: INFO  hello

defmt_bitflags x
hear 00 01 7e 00
=
E4

two
defmt_info hello
hear 00 01 7e 00 00 01 03 7a 00
hear 00 01 ff ff 72 00 00 01 01 7a 00
hear 00 01 7e 00 00 7f 00 00 01 03 7a 00
=
1 place 0: INFO  hello; 1 place 3: INFO  hello
1 place 65535: INFO  hello; 1 place 1: INFO  hello
1 place 0: INFO  hello; E2; 1 place 3: INFO  hello";

fn put_line(out: &mut String, index: u16, place: Option<u16>, line: &Text) -> Result<(), Fail> {
    write!(out, "{index}")?;
    if let Some(place) = place {
        write!(out, " place {place}")?;
    }
    if line.len() > 100 {
        return Ok(write!(out, ": {} bytes", line.len())?);
    }
    Ok(write!(out, ": {}", line.as_str())?)
}

fn put_event(out: &mut String, event: &Event) -> Result<(), Fail> {
    match event {
        Event::Line {
            index,
            place,
            text,
            ..
        } => put_line(out, *index, *place, text),
        Event::Bad { cause } => Ok(write!(out, "E{cause}")?),
        Event::CutFront { bytes } => Ok(write!(out, "front {bytes}")?),
        Event::CutTail { bytes } => Ok(write!(out, "tail {bytes}")?),
    }
}

fn put_behind(out: &mut String, start: usize, event: &Event) -> Result<(), Fail> {
    if out.len() > start {
        put_str(out, "; ")?;
    }
    put_event(out, event)
}

// Puts what a call tells, behind what those before told from the start on.
fn put_told(out: &mut String, start: usize, event: Option<Event>) -> Result<(), Fail> {
    match event {
        Some(event) => put_behind(out, start, &event),
        None => Ok(()),
    }
}

// Feeds all the bytes.
fn put_all(host: &mut Host, bytes: &[u8], start: usize, out: &mut String) -> Result<(), Fail> {
    let mut rest = bytes;
    for _ in 0..bytes.len() {
        if rest.is_empty() {
            break;
        }
        let (taken, event) = host.feed(rest)?;
        put_told(out, start, event)?;
        let (_, behind) = rest.split_at(taken);
        rest = behind;
    }
    Ok(())
}

// Puts what the end tells; that nothing was told, where nothing was.
fn put_end(out: &mut String, start: usize, event: Option<Event>) -> Result<(), Fail> {
    match event {
        Some(event) => put_behind(out, start, &event),
        None if out.len() == start => put_str(out, "nothing"),
        None => Ok(()),
    }
}

// The events of a stream.
fn put_stream(alloc: Global, table: &Table, bytes: &[u8], out: &mut String) -> Result<(), Fail> {
    let start = out.len();
    let planned = PlannedTable::new(alloc, table.copy()?)?;
    let mut host = Host::new(alloc, &planned);
    put_all(&mut host, bytes, start, out)?;
    put_end(out, start, host.finish())
}

fn put_words_told(alloc: Global, table: &Table, words: &str, out: &mut String) -> Result<(), Fail> {
    let bytes = bytes_of(alloc, words)?;
    put_stream(alloc, table, &bytes, out)
}

pub fn put_told_of_words(alloc: Global, words: &str, out: &mut String) -> Result<(), Fail> {
    let script = script_of(alloc, HELLO)?;
    put_words_told(alloc, script.table(), words, out)
}

fn put_both(alloc: Global, table: &Table, place: &str, out: &mut String) -> Result<(), Fail> {
    let place = place.parse::<usize>()?;
    let stream = [0u8, 1, 0x7e, 0, 0, 1, 0x7e, 0];
    if place > stream.len() {
        return Err(Fail::new("no place"));
    }
    let (front, behind) = stream.split_at(place);
    put_stream(alloc, table, front, out)?;
    put_str(out, " | ")?;
    put_stream(alloc, table, behind, out)
}

/// What two frames tell that are cut at a place.
pub fn put_told_of_both(alloc: Global, place: &str, out: &mut String) -> Result<(), Fail> {
    let script = script_of(alloc, HELLO)?;
    put_both(alloc, script.table(), place, out)
}

fn put_told_of_each(
    alloc: Global,
    table: &Table,
    rows: &str,
    out: &mut String,
) -> Result<(), Fail> {
    for words in rows.split("\nhear ") {
        end_line(out)?;
        put_words_told(alloc, table, words, out)?;
    }
    Ok(())
}

pub fn put_told_by_script(alloc: Global, block: &str, out: &mut String) -> Result<(), Fail> {
    let Some((strings, rows)) = block.split_once("\nhear ") else {
        return Err(Fail::new("no stream"));
    };
    let script = script_of(alloc, strings)?;
    put_told_of_each(alloc, script.table(), rows, out)
}

pub fn put_told_by_table(alloc: Global, block: &str, out: &mut String) -> Result<(), Fail> {
    let Some((strings, rows)) = block.split_once("\nhear ") else {
        return Err(Fail::new("no stream"));
    };
    let table = table_of(alloc, strings)?;
    put_told_of_each(alloc, &table, rows, out)
}

fn put_call(host: &mut Host, bytes: &[u8], out: &mut String) -> Result<(), Fail> {
    let (taken, event) = host.feed(bytes)?;
    put_taken(out, taken, event)
}

fn put_taken(out: &mut String, taken: usize, event: Option<Event>) -> Result<(), Fail> {
    put_count(out, taken)?;
    let start = out.len();
    put_end(out, start, event)?;
    put_str(out, "; ")
}

fn put_call_of(alloc: Global, host: &mut Host, words: &str, out: &mut String) -> Result<(), Fail> {
    let bytes = bytes_of(alloc, words)?;
    put_call(host, &bytes, out)
}

fn put_calls(alloc: Global, host: &mut Host, stream: &str, out: &mut String) -> Result<(), Fail> {
    for words in stream.split(" | ") {
        put_call_of(alloc, host, words, out)?;
    }
    Ok(write!(out, "heard {}: ", host.heard_len())?)
}

fn put_calls_by(alloc: Global, table: &Table, stream: &str, out: &mut String) -> Result<(), Fail> {
    let planned = PlannedTable::new(alloc, table.copy()?)?;
    let mut host = Host::new(alloc, &planned);
    put_calls(alloc, &mut host, stream, out)?;
    let start = out.len();
    put_end(out, start, host.finish())
}

pub fn put_calls_of(alloc: Global, stream: &str, out: &mut String) -> Result<(), Fail> {
    let script = script_of(alloc, HELLO)?;
    put_calls_by(alloc, script.table(), stream, out)
}

#[test]
fn parts_and_faults_are_told_in_their_order(rt: HostRuntime) -> Result<(), Fail> {
    each_line(rt.alloc(), STREAMS, 10, &Kind::ToldOfWords)
}

#[test]
fn streams_are_heard_by_calls_and_cut_at_any_place(rt: HostRuntime) -> Result<(), Fail> {
    each_line(rt.alloc(), CUTS, 9, &Kind::ToldOfBoth)?;
    each_line(rt.alloc(), CALLS, 1, &Kind::EventCallsOf)
}

#[test]
fn strings_of_scripts_and_others_have_lines_and_faults(rt: HostRuntime) -> Result<(), Fail> {
    each_block(rt.alloc(), BY_SCRIPTS, 8, &Kind::ToldByScript)?;
    each_block(rt.alloc(), BY_TABLES, 3, &Kind::ToldByTable)
}

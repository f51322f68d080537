//! Recordings that are decoded. A row is the words and the digits of the recording, and the status and the lines.
use crate::full::FULL;
use crate::rows::{Kind, each_block};
use crate::sessions::{Stage, add_table, put_session, set_stage, written_of};
use defmt_run::OpenGate;
use dl_io::{Bytes, MemShelf};
use std::alloc::Global;
use std::sync::Wait;
use std::test::Fail;
use std::thread::Threads;
use test_rows::{bytes_of, changed_of, number_of, parted};

// A script that logs one string.
pub(crate) const HI: &str = "s hi defmt_info hello\nw 0 hi";

// The same in profile Two.
const HI_AT: &str = "profile 2\ns hi defmt_info hello\nw 0 hi";

pub(crate) const RECORDINGS: &str = "\
defmtl decode --table hi.elf
00 01 7e 00
=
status 0 fine
INFO  hello

defmtl decode --table hi.elf
7e 00 00 01 7e 00
=
status 9 events with faults 1
-- front 1
INFO  hello

defmtl decode --table hi.elf
00 01 00 00 01 7e 00
=
status 9 events with faults 1
-- E1 Cobs
INFO  hello

defmtl decode --table hi.elf
01 7e
=
status 9 events with faults 1
-- front 2

defmtl decode --table hi-at.elf
00 01 7e 00 00 01 03 7a 00
=
status 0 fine
INFO  hello
-- gap 2
INFO  hello

defmtl decode --table hi-at.elf
00 01 ff ff 72 00 00 01 01 7a 00
=
status 0 fine
INFO  hello
-- gap 1
INFO  hello

defmtl decode --table hi-at.elf
00 01 7e 00 7f 00 01 03 7a 00
=
status 9 events with faults 1
INFO  hello
-- E2 NoEntry
-- gap 2
INFO  hello

defmtl decode --table hi-at.elf
00 01 7e 00 00 01 7e 00
=
status 0 fine
INFO  hello
-- gap 65535
INFO  hello

defmtl decode --table hi.elf
00 01 7e 00 00 01 01 7a 00
=
status 9 events with faults 1
INFO  hello
-- E11 Trailing

defmtl decode --table hi-at.elf --only off
00 01 7e 00 00 01 03 7a 00
=
status 0 fine
-- gap 2

defmtl decode --table hi.elf --only off
00 01 00 00 01 7e 00
=
status 9 events with faults 1
-- E1 Cobs

defmtl decode --table hi.elf --only off,script=info
00 01 7e 00
=
status 0 fine
INFO  hello

defmtl decode --table hi.elf
=
status 0 fine

defmtl decode
=
status 2 words

defmtl decode --table no.elf
=
status 6 table elf cause 1 place 0

defmtl decode --table other.elf
=
status 7 shelf";

// The places of the string, and a text that tells it twice.
const PLACES: &str = "# places\n\n1 src/main.rs:12\r\n";

const TWICE: &str = "1 a\n1 b";

fn put_file(alloc: Global, name: &str, text: &str, shelf: &mut MemShelf) -> Result<(), Fail> {
    let file = Bytes::from_slice(alloc, text.as_bytes())?;
    Ok(shelf.put(name, file)?)
}

// Puts the tables of `HI`, `HI_AT` and `FULL` on the shelf, places, and files that are no table and no places.
pub(crate) fn add_files<R: Threads + Wait + Sync>(
    rt: &R,
    alloc: Global,
    shelf: &mut MemShelf,
) -> Result<(), Fail> {
    add_table(rt, alloc, "hi.elf", HI, shelf)?;
    add_table(rt, alloc, "hi-at.elf", HI_AT, shelf)?;
    add_table(rt, alloc, "full.elf", FULL, shelf)?;
    put_file(alloc, "hi.places", PLACES, shelf)?;
    put_file(alloc, "no.places", TWICE, shelf)?;
    put_file(alloc, "no.elf", "hello", shelf)
}

// Puts what is told of a session whose source gives these bytes, with the files on the shelf.
pub(crate) fn put_recording<R: Threads + Wait + Sync>(
    rt: &R,
    alloc: Global,
    line: &str,
    recording: &[u8],
    stage: &mut Stage,
    out: &mut String,
) -> Result<(), Fail> {
    set_stage(alloc, recording, "".as_bytes(), stage)?;
    add_files(rt, alloc, &mut stage.shelf)?;
    put_session(rt, alloc, &Kind::Decoded, line, stage, &OpenGate, out)
}

// Puts what is told of a decoding: its words and the digits of the recording.
pub(crate) fn put_decoded<R: Threads + Wait + Sync>(
    rt: &R,
    alloc: Global,
    row: &str,
    stage: &mut Stage,
    out: &mut String,
) -> Result<(), Fail> {
    let (line, digits) = parted(row, '\n');
    let recording = bytes_of(alloc, digits)?;
    put_recording(rt, alloc, line, &recording, stage, out)
}

// Tables with a byte that was changed: the byte's place, the byte that is put there and the digits of a recording, and the script of the table, and the
// status and the lines. The second table is one of profile Two, and the third has a string with `{=f32}`.
const CHANGES: &str = "\
120 \x01
s a defmt_info a
s b defmt_info b
=
status 6 table name cause 2 symbol 1

197 3
profile 2
s hi defmt_info hello
=
status 6 table elf cause 9 place 0

352 f/00 09 7e 00 00 02 7e 00 00 03 7e 00 00 01 7e 00
s hi defmt_info hello
s p defmt_prim p
s f defmt_info {=u32}
=
status 9 events with faults 3
-- E2 NoEntry
-- E3 Tag
-- E4 Unsupported
INFO  hello";

fn add_changed<R: Threads + Wait + Sync>(
    rt: &R,
    alloc: Global,
    change: &str,
    script: &str,
    shelf: &mut MemShelf,
) -> Result<(), Fail> {
    let (place, text) = parted(change, ' ');
    let place = number_of(place)?;
    let table = written_of(rt, alloc, "defmtl table", script)?;
    let changed = changed_of(alloc, table.as_slice(), place, text)?;
    Ok(shelf.put("changed.elf", Bytes::from_vec(changed))?)
}

fn put_by_changed<R: Threads + Wait + Sync>(
    rt: &R,
    alloc: Global,
    change: &str,
    script: &str,
    recording: &[u8],
    stage: &mut Stage,
    out: &mut String,
) -> Result<(), Fail> {
    let line = "defmtl decode --table changed.elf";
    set_stage(alloc, recording, "".as_bytes(), stage)?;
    add_changed(rt, alloc, change, script, &mut stage.shelf)?;
    put_session(rt, alloc, &Kind::Changed, line, stage, &OpenGate, out)
}

// Puts what is told of a decoding by a changed table: the byte's place, the byte and the digits of the recording, and the script.
pub(crate) fn put_changed<R: Threads + Wait + Sync>(
    rt: &R,
    alloc: Global,
    row: &str,
    stage: &mut Stage,
    out: &mut String,
) -> Result<(), Fail> {
    let (head, script) = parted(row, '\n');
    let (change, digits) = parted(head, '/');
    let recording = bytes_of(alloc, digits)?;
    put_by_changed(rt, alloc, change, script, &recording, stage, out)
}

#[test]
fn a_recording_is_decoded_unless_its_table_is_refused(rt: HostRuntime) -> Result<(), Fail> {
    each_block(&rt, rt.alloc(), RECORDINGS, 16, &Kind::Decoded)?;
    each_block(&rt, rt.alloc(), CHANGES, 3, &Kind::Changed)
}

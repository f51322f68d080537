//! Scripts of the full language, and recordings and images that are decoded by their tables. A row is the words and the script, the recording or the image, and
//! what is told of the session.
use crate::rows::{Kind, each_block};
use std::test::Fail;

// A script of the full language, whose table is `full.elf`.
pub(crate) const FULL: &str =
    "language full\ns n defmt_prim {=u8}\ns log defmt_info {=f32} {=__internal_FormatSequence:02x} {=__internal_Debug}";

// Dates, clocks, zeros in front, floats, foreign texts and sequences.
const LINES: &str = r#"defmtl print
# everything
language full
s at defmt_info {=u64:iso8601s} {=u32:tms} {=i16:05}
s x defmt_warn {=f64} {=f32} {=__internal_Display:x}
w 0 at 1796040000 83045006 -7
w 0 x -0 1e-7 "a b"
=
status 0 fine
INFO  2026-11-30T12:00:00Z 23:04:05.006 -0007
WARN  -0.0 1e-7 a b

defmtl run
language full
ring 64
stamp 7 1
s n defmt_prim {=u8}
s log defmt_info {=f32} {=__internal_FormatSequence:02x} {=__internal_Debug}
w 0 log 1.5 <n(1) n(255)> "ok"
w 0 log NaN <> "."
=
status 0 fine
0.000007 INFO  1.5 01ff ok
0.000008 INFO  NaN  .

defmtl run
ring 64
language full
=
status 5 script line 2 cause 1 inner 0

defmtl run
s v defmt_info {=f32}
=
status 5 script line 1 cause 10 inner 8

defmtl term
language full
s v defmt_info {=u8:03}
w 0 v 7
t 0 0 tick
=
status 0 fine
INFO  007
== terminal 0
tick"#;

const RECORDINGS: &str = r#"defmtl record
language full
s n defmt_prim {=u8}
s log defmt_info {=f32} {=__internal_FormatSequence} {=__internal_Debug}
w 0 log 1.5 <n(1) n(255)> "ok"
=
status 0 fine
00 02 c0 3f 01 0e 01 01 ff 69 6f 6b ff 78 00"#;

// A table's file doesn't tell its language.
const TABLES: &str = "\
defmtl table
language full
s hi defmt_info hello
w 0 hi
=
status 0 fine, 472 bytes";

// With the option and without it; a foreign text that doesn't end.
pub(crate) const DECODED: &str = "\
defmtl decode --full --table full.elf
00 02 c0 3f 01 0e 01 01 ff 69 6f 6b ff 78 00
=
status 0 fine
INFO  1.5 01ff ok

defmtl decode --table full.elf
00 02 c0 3f 01 0e 01 01 ff 69 6f 6b ff 78 00
=
status 9 events with faults 1
-- E4 Unsupported

defmtl decode --table full.elf --full
00 02 c0 3f 4e 6f 7d 00
=
status 9 events with faults 1
-- E5 Short

defmtl decode --table hi.elf --full
00 01 7e 00
=
status 0 fine
INFO  hello";

const DUMPED: &str = "\
defmtl dump --table full.elf --full
ring 00 02 c0 3f 01 0e 01 01 ff 69 6f 6b ff 78 00
=
status 0 fine
INFO  1.5 01ff ok

defmtl dump --table full.elf
ring 00 02 c0 3f 01 0e 01 01 ff 69 6f 6b ff 78 00
=
status 9 events with faults 1
-- E4 Unsupported";

#[test]
fn scripts_of_the_full_language_are_printed_run_and_recorded(rt: HostRuntime) -> Result<(), Fail> {
    each_block(&rt, rt.alloc(), LINES, 5, &Kind::Lines)?;
    each_block(&rt, rt.alloc(), RECORDINGS, 1, &Kind::Digits)?;
    each_block(&rt, rt.alloc(), TABLES, 1, &Kind::Length)
}

#[test]
fn recordings_and_images_are_decoded_by_the_language_that_the_words_name(
    rt: HostRuntime,
) -> Result<(), Fail> {
    each_block(&rt, rt.alloc(), DECODED, 4, &Kind::Decoded)?;
    each_block(&rt, rt.alloc(), DUMPED, 2, &Kind::Dumped)
}

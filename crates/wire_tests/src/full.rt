//! Messages of tables of the full language: the bytes of floats, of texts of Debug and Display and of sequences, each cause for which they are none, and
//! what plans make of them.
use crate::rows::Kind;
use std::test::Fail;
use test_rows::{each_block, each_line};

// A script with a statement; its message, its frame, and what is read from the message.
const SENT: &str = r#"language full
s f defmt_info {=f32} {=f64}
w 0 f 1.5 -inf
=
01 00 00 00 c0 3f 00 00 00 00 00 00 f0 ff
00 01 c0 3f 4e f0 ff 1f 00
1 1.5 -inf

language full
s d defmt_info {=__internal_Debug} {=__internal_Display} {=u8}
w 0 d "" "aß" 7
=
01 00 ff 61 c3 9f ff 07
00 01 ff 61 c3 9f ff 02 07 7e 00
1 "" "aß" 7

language full
s all defmt_info {=__internal_FormatSequence} {=u8}
s num defmt_prim {=u8}
s opt defmt_prim None|Some({=?})
w 0 all <num(3) opt:1(num(4)) opt:0()> 9
=
01 00 02 00 03 03 00 01 02 00 04 03 00 00 00 00 09
00 01 02 03 03 4a 01 02 04 03 64 09 7b 00
1 <num(3) opt:1(num(4)) opt:0()> 9

language full
s all defmt_info {=__internal_FormatSequence} {=u8}
w 0 all <> 9
=
01 00 00 00 09
00 01 09 6e 00
1 <> 9"#;

// The strings of a script, messages, and what is read from each.
const READ: &str = r#"language full
s f defmt_info {=f32} {=f64}
read 01 00 00 00 c0 7f 00 00 00 00 00 00 f0
read 01 00 00 00 80
read 01 00 01 00 c0 7f 00 00 00 00 00 00 00 80
=
cause 5
cause 5
1 0x7fc00001 -0.0

language full
s d defmt_info {=__internal_Debug}
s p defmt_info {=__internal_Display}
read 01 00 61 ff 00
read 01 00 61 62 00
read 02 00 61 62
read 01 00 c3 ff
read 02 00 c3
read 02 00 c3 9f ff
read 01 00 ff ff
=
1 "a"
cause 5
cause 5
cause 8
cause 5
2 "ß"
cause 11

language full
s all defmt_info {=__internal_FormatSequence}
s num defmt_prim {=u8}
s two defmt_prim a|b
read 01 00 02 00 07 00 00
read 01 00 02 00 07 00
read 01 00
read 01 00 09 00
read 01 00 01 00
read 01 00 02 00
read 01 00 03 00 02
read 01 00*10
=
1 <num(7)>
cause 5
cause 5
cause 2
cause 3
cause 5
cause 9
cause 11

language full
s once defmt_info {=__internal_FormatSequence}
s twice defmt_info {0=__internal_FormatSequence} {0=__internal_FormatSequence}
s box defmt_prim {=[?]}
s k defmt_prim k
read 01 00 03 00 ff 1f 00 00 04 00 00 00
read 01 00 03 00 ff 1f 00 00 04 00 04 00
read 01 00 03 00 00 20 00 00 04 00
read 02 00 03 00 ff 0f 00 00 04 00 00 00
read 02 00 03 00 00 10 00 00 04 00
=
1 24582 bytes
cause 12
cause 12
2 12294 bytes
cause 12

language full
s top defmt_info {=__internal_FormatSequence}
s in defmt_prim {=__internal_FormatSequence}
read 01 00 02 00 02 00 02 00 02 00 02 00 02 00 02 00 02 00 02 00 02 00 02 00 02 00 02 00 02 00 02 00 02 00 00*34
read 01 00 02 00 02 00 02 00 02 00 02 00 02 00 02 00 02 00 02 00 02 00 02 00 02 00 02 00 02 00 02 00 02 00 09 00
read 01 00 02 00 02 00 02 00 02 00 02 00 02 00 02 00 02 00 02 00 02 00 02 00 02 00 02 00 02 00 02 00 02 00 02
=
1 <in(<in(<in(<in(<in(<in(<in(<in(<in(<in(<in(<in(<in(<in(<in(<in(<>)>)>)>)>)>)>)>)>)>)>)>)>)>)>)>)>
cause 10
cause 5"#;

// How many letters a text of Debug has whose statement is written; whether its message is long, and the buffer's first byte, which was 9.
const LONG: &str = "\
debug 1998 = long true first 9
debug 1997 = size 2000 long false first 1";

// The strings of a script, messages, and what becomes of each by the plans of its table and without.
const PLANNED: &str = r#"language full
s f defmt_info {=f32} {=f64:x}
s d defmt_info {=__internal_Debug}/{=__internal_Display:?}
s all defmt_info {=__internal_FormatSequence:x}
s num defmt_prim {=u8}.
s h defmt_info {=u64:iso8601s} {=u32:ts} {=u8:04}
read 01 00 00 00 c0 3f 00 00 00 00 00 00 f0 ff
read 02 00 61 22 ff c3 9f ff
read 03 00 04 00 ff 04 00 0a 00 00
read 05 00 00 00 00 00 00 00 00 00 3c 00 00 00 07
read 01 00 00 00 c0
read 02 00 61
read 02 00 c3 ff ff
read 03 00 04 00
=
placed 1: INFO  1.5 -inf
placed 2: INFO  a"/ß
left 3: INFO  ff.a.
placed 5: INFO  1970-01-01T00:00:00Z 00:01:00 0007
left cause 5
left cause 5
left cause 8
left cause 5

language full
s d defmt_info {=__internal_Debug} {=__internal_Display:x} {=u8}
s q defmt_info {=__internal_FormatSequence}
s k defmt_prim k
read 01 00 ff 61 c3 9f ff 07
read 01 00 61 62 00
read 01 00 c3 ff ff 07
read 02 00 03 00 00 00
=
placed 1: INFO   aß 7
left cause 5
left cause 8
left 2: INFO  k"#;

#[test]
fn messages_of_the_full_language_are_written_and_read(rt: HostRuntime) -> Result<(), Fail> {
    each_block(rt.alloc(), SENT, 4, &Kind::Sent)?;
    each_block(rt.alloc(), READ, 5, &Kind::ReadByScript)?;
    each_block(rt.alloc(), PLANNED, 2, &Kind::PlannedByScript)?;
    each_line(rt.alloc(), LONG, 2, &Kind::WrittenOfLetters)
}

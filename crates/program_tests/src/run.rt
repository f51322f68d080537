//! Scripts that are run. A row is the words and the script, and the status and the lines that are written.
use crate::rows::{Kind, each_block};
use std::test::Fail;

const RUNS: &str = r#"defmtl run
s hi defmt_info hello
w 0 hi
=
status 0 fine
INFO  hello

defmtl run
s opt defmt_prim None|Some({=?})
s num defmt_prim {=u8}
s pt defmt_derived Pt {{ x: {=?}, y: {=?} }}
s log defmt_debug at {} {:x}
w 0 log pt(num(3) num(255)) opt:1(num(255))
=
status 0 fine
DEBUG at Pt { x: 3, y: 255 } Some(ff)

defmtl run
=
status 0 fine

defmtl run
ring 16
s say defmt_info {=str}
w 0 say "abcdefghijklmnopqrstuvwxyzabcdefgh"
=
status 0 fine
INFO  abcdefghijklmnopqrstuvwxyzabcdefgh

defmtl run
ring 16
mode skip
reader late
s hi defmt_info hello
w 0 hi
w 0 hi
w 0 hi
w 0 hi
w 0 hi
=
status 0 fine
INFO  hello
INFO  hello
INFO  hello
-- dropped writer 0 statement 3 need 4 room 3
-- dropped writer 0 statement 4 need 4 room 3

defmtl run
ring 16
mode trim
reader late
s hi defmt_info hello
w 0 hi
w 0 hi
w 0 hi
w 0 hi
w 0 hi
=
status 0 fine
INFO  hello
INFO  hello
INFO  hello
-- tail 2
-- cut writer 0 statement 3 need 4 room 3
-- cut writer 0 statement 4 need 4 room 0

defmtl run
ring 16
mode skip
reader late
s say defmt_info {=str}
w 0 say "abcdefghijklmnopqrstuvwxyzabcdefgh"
=
status 0 fine
-- dropped writer 0 statement 0 need 40 room 15

defmtl run
ring 16
mode trim
reader late
s say defmt_info {=str}
w 0 say "abcdefghijklmnopqrstuvwxyzabcdefgh"
=
status 0 fine
-- tail 14
-- cut writer 0 statement 0 need 40 room 15

defmtl run
ring 16
mode skip
reader late
profile 2
s hi defmt_info hello
w 0 hi
w 0 hi
w 0 hi
w 0 hi
w 0 hi
=
status 0 fine
INFO  hello
INFO  hello
INFO  hello
-- dropped writer 0 statement 3 need 5 room 1
-- dropped writer 0 statement 4 need 5 room 1

defmtl run
ring 16
mode skip
reader late
profile 2
s hi defmt_info hello
s say defmt_info {=str}
w 0 hi
w 0 say "0123456789abcdef"
w 0 hi
=
status 0 fine
INFO  hello
-- gap 1
INFO  hello
-- dropped writer 0 statement 1 need 24 room 11

defmtl run --group
ring 16
mode skip
reader late
profile 2
s hi defmt_info hello
s say defmt_info {=str}
w 0 hi
w 0 say "0123456789abcdef"
w 0 hi
=
status 0 fine
INFO  hello
INFO  hello
-- dropped writer 0 statement 1 need 24 room 11

defmtl frob
w 0 hi
=
status 2 words

defmtl run
w 0 hi
=
status 5 script line 1 cause 2 inner 0

defmtl run
reader late
=
status 5 script line 1 cause 8 inner 0"#;

#[test]
fn a_run_prints_what_was_sent_and_reports_what_was_not_unless_it_is_refused(
    rt: HostRuntime,
) -> Result<(), Fail> {
    each_block(&rt, rt.alloc(), RUNS, 14, &Kind::Lines)
}

//! Lines in the forms of JSON and of a terminal, with places in the sources, and what makes the program fail. A row is the words and the
//! digits of the recording, or the script, and the status and the lines.
use crate::rows::{Kind, each_block};
use std::test::Fail;

// What they print, with options of printing, and what makes the program fail.
pub(crate) const FORMS: &str = "\
defmtl decode --table hi.elf --json
00 01 7e 00
=
status 0 fine
{\"event\":\"line\",\"index\":1,\"bytes\":2,\"level\":\"INFO\",\"package\":\"script\",\"data\":\"hello\"}

defmtl decode --table hi-at.elf --json
7e 00 00 01 7e 00 7f 00 01 03 7a 00 09
=
status 9 events with faults 3
{\"event\":\"front\",\"bytes\":1}
{\"event\":\"line\",\"index\":1,\"bytes\":2,\"level\":\"INFO\",\"package\":\"script\",\"data\":\"hello\"}
{\"event\":\"fault\",\"cause\":2,\"name\":\"NoEntry\"}
{\"event\":\"gap\",\"frames\":2}
{\"event\":\"line\",\"index\":1,\"bytes\":3,\"level\":\"INFO\",\"package\":\"script\",\"data\":\"hello\"}
{\"event\":\"tail\",\"bytes\":1}

defmtl decode --table hi-at.elf --color
7e 00 00 01 7e 00 7f 00 01 03 7a 00 09
=
status 9 events with faults 3
\x1b[31m-- front 1\x1b[0m
\x1b[32mINFO\x1b[0m  hello
\x1b[31m-- E2 NoEntry\x1b[0m
\x1b[33m-- gap 2\x1b[0m
\x1b[32mINFO\x1b[0m  hello
\x1b[31m-- tail 1\x1b[0m

defmtl decode --table hi-at.elf --live
7e 00 00 01 7e 00 7f 00 09
=
status 9 events with faults 1
-- front 1
INFO  hello
-- E2 NoEntry
-- tail 1

defmtl decode --table hi.elf --live --places hi.places
7e 00 00 01 7e 00 09
=
status 0 fine
-- front 1
INFO  hello (src/main.rs:12)
-- tail 1

defmtl decode --table hi.elf --json --places hi.places
00 01 7e 00
=
status 0 fine
{\"event\":\"line\",\"index\":1,\"bytes\":2,\"level\":\"INFO\",\"package\":\"script\",\"data\":\"hello\",\"place\":\"src/main.rs:12\"}

defmtl decode --table hi.elf --places no.places
00 01 7e 00
=
status 6 places line 2 cause 3

defmtl decode --table hi.elf --places other.places
00 01 7e 00
=
status 7 shelf

defmtl decode --table no.elf --places no.places
00 01 7e 00
=
status 6 table elf cause 1 place 0

defmtl decode --table hi.elf --fail-on warn
00 01 7e 00
=
status 0 fine
INFO  hello

defmtl decode --table hi.elf --fail-on info
00 01 7e 00 7f 00 00 01 7e 00
=
status 11 lines at info 2
INFO  hello
-- E2 NoEntry
INFO  hello

defmtl decode --table hi.elf --fail-on debug --only off
00 01 7e 00
=
status 0 fine";

// The same of runs.
const RUNS: &str = "\
defmtl run --json
stamp 1 1
s a defmt_warn a\tb
s p defmt_println p
w 0 a
w 0 p
=
status 0 fine
{\"event\":\"line\",\"index\":1,\"bytes\":4,\"target_timestamp\":\"0.000001\",\"level\":\"WARN\",\"package\":\"script\",\"data\":\"a\\tb\"}
{\"event\":\"line\",\"index\":2,\"bytes\":4,\"package\":\"script\",\"data\":\"p\"}

defmtl run --json
ring 16
mode skip
reader late
s a defmt_warn a
s d defmt_debug d
w 0 a
w 0 d
w 0 a
w 0 a
w 0 a
=
status 0 fine
{\"event\":\"line\",\"index\":1,\"bytes\":2,\"level\":\"WARN\",\"package\":\"script\",\"data\":\"a\"}
{\"event\":\"line\",\"index\":2,\"bytes\":2,\"level\":\"DEBUG\",\"package\":\"script\",\"data\":\"d\"}
{\"event\":\"line\",\"index\":1,\"bytes\":2,\"level\":\"WARN\",\"package\":\"script\",\"data\":\"a\"}
{\"event\":\"dropped\",\"writer\":0,\"statement\":3,\"need\":4,\"room\":3}
{\"event\":\"dropped\",\"writer\":0,\"statement\":4,\"need\":4,\"room\":3}

defmtl run --color
ring 16
mode skip
reader late
s a defmt_warn a
s d defmt_debug d
w 0 a
w 0 d
w 0 a
w 0 a
w 0 a
=
status 0 fine
\x1b[33mWARN\x1b[0m  a
\x1b[36mDEBUG\x1b[0m d
\x1b[33mWARN\x1b[0m  a
\x1b[33m-- dropped writer 0 statement 3 need 4 room 3\x1b[0m
\x1b[33m-- dropped writer 0 statement 4 need 4 room 3\x1b[0m

defmtl run --group --color
ring 16
mode skip
reader late
s a defmt_warn a
s d defmt_debug d
w 0 a
w 0 d
w 0 a
w 0 a
w 0 a
=
status 0 fine
\x1b[33mWARN\x1b[0m  a
\x1b[36mDEBUG\x1b[0m d
\x1b[33mWARN\x1b[0m  a
\x1b[33m-- dropped writer 0 statement 3 need 4 room 3\x1b[0m
\x1b[33m-- dropped writer 0 statement 4 need 4 room 3\x1b[0m

defmtl run --group --json --fail-on warn
ring 16
mode skip
reader late
s a defmt_warn a
s d defmt_debug d
w 0 a
w 0 d
w 0 a
w 0 a
w 0 a
=
status 11 lines at warn 2
{\"event\":\"line\",\"index\":1,\"bytes\":2,\"level\":\"WARN\",\"package\":\"script\",\"data\":\"a\"}
{\"event\":\"line\",\"index\":2,\"bytes\":2,\"level\":\"DEBUG\",\"package\":\"script\",\"data\":\"d\"}
{\"event\":\"line\",\"index\":1,\"bytes\":2,\"level\":\"WARN\",\"package\":\"script\",\"data\":\"a\"}
{\"event\":\"dropped\",\"writer\":0,\"statement\":3,\"need\":4,\"room\":3}
{\"event\":\"dropped\",\"writer\":0,\"statement\":4,\"need\":4,\"room\":3}

defmtl run --only off --fail-on trace
ring 16
mode skip
reader late
s a defmt_warn a
s d defmt_debug d
w 0 a
w 0 d
w 0 a
w 0 a
w 0 a
=
status 0 fine
-- dropped writer 0 statement 3 need 4 room 3
-- dropped writer 0 statement 4 need 4 room 3";

#[test]
fn lines_have_the_form_that_is_asked_for(rt: HostRuntime) -> Result<(), Fail> {
    each_block(&rt, rt.alloc(), FORMS, 12, &Kind::Decoded)?;
    each_block(&rt, rt.alloc(), RUNS, 6, &Kind::Lines)
}

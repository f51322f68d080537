//! Runs under orders. A row is the words and the script, and the status and the lines that are written.
use crate::rows::{Kind, each_block};
use crate::sessions::put_status;
use defmt_run::Outcome;
use std::alloc::Global;
use std::test::Fail;
use test_rows::{count_of, put, put_number, text_of};

// Orders that are heard at the first turn, and one that comes too late; lines that are muted, of which gaps tell; other commands.
const STEERED: &str = "\
defmtl steer
d 0 warn
s a defmt_info a
s b defmt_warn b
w 0 a
w 0 b
=
status 0 fine
WARN  b
-- level warn from turn 0

defmtl steer
d 4000 error
s a defmt_info a
s b defmt_warn b
w 0 a
w 0 b
=
status 0 fine
INFO  a
WARN  b
-- level error unheard

defmtl steer
d 0 error
d 0 info
mode block
s a defmt_info a
s c defmt_debug c
t 0 3 left out
w 0 a
w 0 c
=
status 5 script line 3 cause 1 inner 0

defmtl steer
mode block
d 0 error
d 0 info
s a defmt_info a
s c defmt_debug c
t 0 3 left out
w 0 a
w 0 c
=
status 0 fine
INFO  a
-- level error from turn 0
-- level info from turn 0

defmtl steer
d 0 error
s a defmt_info a
s p defmt_println done
s e defmt_error e
w 0 a
w 0 p
w 0 e
=
status 0 fine
done
ERROR e
-- level error from turn 0

defmtl steer
profile 2
d 0 warn
s a defmt_info a
s b defmt_warn b
w 0 b
w 0 a
w 0 b
=
status 0 fine
WARN  b
-- gap 1
WARN  b
-- level warn from turn 0

defmtl steer
d 0 warn
=
status 0 fine
-- level warn unheard

defmtl run
d 0 error
s a defmt_info a
w 0 a
=
status 0 fine
INFO  a

defmtl steer
mode skip
d 0 warn
s a defmt_info a
s b defmt_warn b
w 0 a
w 0 b
=
status 5 script line 1 cause 18 inner 0

defmtl steer
ring 64
# lines of the device
mode trim
w 0 a
=
status 5 script line 4 cause 2 inner 0

defmtl steer
ring 64
# lines of the device
mode trim
=
status 5 script line 3 cause 18 inner 0

defmtl steer
d 0 loud
=
status 5 script line 1 cause 19 inner 0";

// What is told of a run beside its lines.
const ACCOUNTS: &str = "\
defmtl steer
d 0 warn
s a defmt_info a
s b defmt_warn b
w 0 a
w 0 b
=
status 0 fine
0 marks
word ring, 4 bytes sent
word ring, 3 bytes ordered, 2 turns
event 2 WARN  b";

// Four writers that log so many statements each, every other an error, under 64 orders.
const ORDERED: &str = "\
defmtl steer
d 0 trace
d 4 debug
d 8 info
d 12 warn
d 16 error
d 20 trace
d 24 debug
d 28 info
d 32 warn
d 36 error
d 40 trace
d 44 debug
d 48 info
d 52 warn
d 56 error
d 60 trace
d 64 debug
d 68 info
d 72 warn
d 76 error
d 80 trace
d 84 debug
d 88 info
d 92 warn
d 96 error
d 100 trace
d 104 debug
d 108 info
d 112 warn
d 116 error
d 120 trace
d 124 debug
d 128 info
d 132 warn
d 136 error
d 140 trace
d 144 debug
d 148 info
d 152 warn
d 156 error
d 160 trace
d 164 debug
d 168 info
d 172 warn
d 176 error
d 180 trace
d 184 debug
d 188 info
d 192 warn
d 196 error
d 200 trace
d 204 debug
d 208 info
d 212 warn
d 216 error
d 220 trace
d 224 debug
d 228 info
d 232 warn
d 236 error
d 240 trace
d 244 debug
d 248 info
d 252 warn
s a defmt_trace a
s e defmt_error e
repeat 0 50
w 0 a
w 1 a
w 2 a
w 3 a
w 0 e
w 1 e
w 2 e
w 3 e
=
status 0 fine, 400 turns
64 lines -- level
200 lines ERROR e";

// Puts how many lines begin so.
fn put_count(lines: &str, front: &str, out: &mut String) {
    put(out, "\n");
    put_number(out, count_of(lines, front));
    put(out, " lines ");
    put(out, front);
}

// Puts how many turns there are, and how many lines are of orders and how many of errors.
pub(crate) fn put_heard(
    alloc: Global,
    outcome: &Outcome,
    written: &[u8],
    out: &mut String,
) -> Result<(), Fail> {
    put_status(alloc, outcome, out)?;
    put(out, ", ");
    put_number(out, outcome.turns.len() as u64);
    put(out, " turns");
    put_count(text_of(written), "-- level", out);
    put_count(text_of(written), "ERROR e", out);
    Ok(())
}

#[test]
fn orders_are_heard_from_a_turn_on_and_mute_what_is_below_their_level(
    rt: HostRuntime,
) -> Result<(), Fail> {
    each_block(&rt, rt.alloc(), STEERED, 12, &Kind::Lines)?;
    each_block(&rt, rt.alloc(), ACCOUNTS, 1, &Kind::Account)?;
    each_block(&rt, rt.alloc(), ORDERED, 1, &Kind::Ordered)
}

//! Texts for terminals beside the log. A row is the words and the script, and the status and the lines that are written.
use crate::rows::{Kind, each_block};
use crate::sessions::put_status;
use defmt_run::Outcome;
use std::alloc::Global;
use std::test::Fail;
use test_rows::{count_in_order, put, put_number, text_of};

const TERMINALS: &str = "\
defmtl term
s hi defmt_info hello
w 0 hi
t 0 0 ready
t 0 A tick
t 0 0 done
=
status 0 fine
INFO  hello
== terminal 0
ready
done
== terminal A
tick

defmtl term
s hi defmt_info hello
w 0 hi
=
status 0 fine
INFO  hello

defmtl term
t 7 F last
t 7 1 a b
t 7 1 c
=
status 0 fine
== terminal 1
a b
c
== terminal F
last

defmtl term
ring 16
mode skip
reader late
s hi defmt_info hello
w 0 hi
w 0 hi
w 0 hi
w 0 hi
t 0 3 after
=
status 0 fine
INFO  hello
INFO  hello
INFO  hello
-- dropped writer 0 statement 3 need 4 room 3
== terminal 3
after

defmtl run
s hi defmt_info hello
t 0 0 ready
w 0 hi
=
status 0 fine
INFO  hello

defmtl term
t 0 G x
=
status 5 script line 1 cause 16 inner 0

defmtl term
t 0 0 \u{7f}
=
status 5 script line 1 cause 17 inner 0";

// What is told of a run beside its lines.
const ACCOUNTS: &str = "\
defmtl term
s hi defmt_info hello
w 0 hi
t 0 0 ready
t 0 A tick
t 0 0 done
=
status 0 fine
1 marks, at least as many looks
word ring, 4 bytes sent
word ring, 20 bytes spoken, 3 words
event 1 INFO  hello

defmtl run
s hi defmt_info hello
w 0 hi
t 0 0 ready
=
status 0 fine
1 marks, at least as many looks
word ring, 4 bytes sent
event 1 INFO  hello";

// Two writers that log and say so many texts each on one terminal, over rings that have no room for all.
const TALKERS: &str = "\
defmtl term
ring 16
s hi defmt_info hello
repeat 0 100
w 0 hi
t 0 3 0 %
w 1 hi
t 1 3 1 %
=
status 0 fine, 200 marks, 200 words
writer 0 said 100 in order
writer 1 said 100 in order";

// Puts how many lines there are with this front and the places from 0 on, one after the other.
fn put_writer(alloc: Global, lines: &str, front: &str, out: &mut String) {
    put(out, "\nwriter ");
    put(out, front);
    put(out, "said ");
    put_number(out, count_in_order(alloc, lines, front));
    put(out, " in order");
}

// Puts how many marks and words there are, and how many lines of the writers 0 and 1 stand in their order.
pub(crate) fn put_order(
    alloc: Global,
    outcome: &Outcome,
    written: &[u8],
    out: &mut String,
) -> Result<(), Fail> {
    put_status(alloc, outcome, out)?;
    put(out, ", ");
    put_number(out, outcome.tape.len() as u64);
    put(out, " marks, ");
    put_number(out, outcome.said.len() as u64);
    put(out, " words");
    put_writer(alloc, text_of(written), "0 ", out);
    put_writer(alloc, text_of(written), "1 ", out);
    Ok(())
}

#[test]
fn texts_are_printed_terminal_by_terminal_behind_the_lines_of_the_run(
    rt: HostRuntime,
) -> Result<(), Fail> {
    each_block(&rt, rt.alloc(), TERMINALS, 7, &Kind::Lines)?;
    each_block(&rt, rt.alloc(), ACCOUNTS, 2, &Kind::Account)?;
    each_block(&rt, rt.alloc(), TALKERS, 1, &Kind::Talkers)
}

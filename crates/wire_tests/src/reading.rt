//! What messages are read as, and each cause for which bytes are none.
use crate::rows::Kind;
use crate::runs::bytes_of;
use crate::strings::{end_line, script_of, table_of};
use defmt_encode::{Heard, ReadCause, read_message};
use defmt_grammar::Text;
use defmt_intern::Table;
use defmt_spelling::{Names, print_args};
use defmt_values::{Args, Statement, Value};
use std::alloc::Global;
use std::fmt::Write;
use std::test::Fail;
use test_rows::{each_block, put_str};

// The strings of a script, messages, and what is read from each.
const READ: &str = "\
s hello defmt_info hello
read 01 00 00 00 00 00 00 00
read 01 00 00 00 00 00 00 00 00
read 01 00 05 00 00 00 00
read 02 00
=
1
cause 11
cause 11
cause 2

stamp 1000 250
s hello defmt_info hello
read 01 00 e8 03 00 00 00 00 00
=
cause 5

s list defmt_info {=[?]}
s k defmt_prim k
read 01 00 00 00 00 00 02 00
read 01 00 01 00 00 00 02 00
read 01 00 00 20 00 00 02 00
read 01 00 01 20 00 00 02 00
read 01 00 00 00 00 00
read 01 00 ff ff ff ff 02 00
=
cause 11
1 k[()]
1 24578 bytes
cause 12
1 []
cause 12

s wide defmt_info {=u128}
read 01 00 00 00 00 00 00
=
cause 5

s truth defmt_info {=bool}
read 01 00 02 00 00 00 00
=
cause 6

s letter defmt_info {=char}
read 01 00 00 d8 00 00 00
=
cause 7

s say defmt_info {=str}
read 01 00 01 00 00 00 ff
=
cause 8

s log defmt_info {=?}
s choice defmt_prim a|b
s nested defmt_prim {=?}
read 02 00
read 01 00 01 00
read 01 00 02 00 01
read 01 00 02 00 02 00 00
read 01 00 03 00 03 00 03 00 03 00 03 00 03 00 03 00 03 00 03 00 03 00 03 00 03 00 03 00 03 00 03 00 03 00 03 00
=
cause 3
cause 3
1 choice:1()
cause 9
cause 10";

// The same of tables that no script has.
const READ_BY_TABLES: &str = "\
defmt_info {=f32}
read 01 00
=
cause 4

defmt_info {=?}
defmt_prim a|b
defmt_prim {=?}
defmt_bitflags
read 04 00
=
cause 4

two
defmt_info hello
defmt_info {=f32}
read 01 00
read 01 00 01
read 01 00 03 01
read 01 00 ff ff 00 00 00 00 00 00
read 01 00 03 01 00 00 00 00 00 00 00
read 09 00
read 02 00
=
cause 5
cause 5
1 place 259
1 place 65535
cause 11
cause 2
cause 4";

fn put_stamp(out: &mut String, stamp: &Args) -> Result<(), Fail> {
    for value in stamp.as_slice() {
        match value {
            Value::Uint(stamp) => write!(out, " at {stamp}")?,
            _ => put_str(out, " at another")?,
        }
    }
    Ok(())
}

/// Puts a place, where there is one.
pub fn put_place(out: &mut String, place: Option<u16>) -> Result<(), Fail> {
    match place {
        Some(place) => Ok(write!(out, " place {place}")?),
        None => Ok(()),
    }
}

fn put_text(out: &mut String, text: &Text) -> Result<(), Fail> {
    if text.len() > 100 {
        return Ok(write!(out, " {} bytes", text.len())?);
    }
    if text.len() > 0 {
        out.push(' ')?;
    }
    put_str(out, text.as_str())
}

fn put_args(
    alloc: Global,
    names: &Names,
    table: &Table,
    stm: &Statement,
    out: &mut String,
) -> Result<(), Fail> {
    let args = print_args(alloc, names, table, stm)?;
    put_text(out, &args)
}

/// Puts the index, the place, the arguments as they are spelled, and the stamp.
pub fn put_spelled(
    alloc: Global,
    names: &Names,
    table: &Table,
    heard: &Heard,
    out: &mut String,
) -> Result<(), Fail> {
    write!(out, "{}", heard.stm.index)?;
    put_place(out, heard.place)?;
    put_args(alloc, names, table, &heard.stm, out)?;
    put_stamp(out, &heard.stamp)
}

/// Puts the cause for which bytes are no message.
pub fn put_cause(out: &mut String, cause: ReadCause) -> Result<(), Fail> {
    match cause {
        ReadCause::Bad { cause } => Ok(write!(out, "cause {cause}")?),
        ReadCause::Memory => put_str(out, "memory"),
    }
}

fn put_read(
    alloc: Global,
    names: &Names,
    table: &Table,
    bytes: &[u8],
    out: &mut String,
) -> Result<(), Fail> {
    match read_message(alloc, table, bytes) {
        Ok(heard) => put_spelled(alloc, names, table, &heard, out),
        Err(cause) => put_cause(out, cause),
    }
}

// What a message is read as.
fn put_read_as(
    alloc: Global,
    names: &Names,
    table: &Table,
    words: &str,
    out: &mut String,
) -> Result<(), Fail> {
    let bytes = bytes_of(alloc, words)?;
    put_read(alloc, names, table, &bytes, out)
}

fn put_read_each(
    alloc: Global,
    names: &Names,
    table: &Table,
    rows: &str,
    out: &mut String,
) -> Result<(), Fail> {
    for words in rows.split("\nread ") {
        end_line(out)?;
        put_read_as(alloc, names, table, words, out)?;
    }
    Ok(())
}

pub fn put_read_by_script(alloc: Global, block: &str, out: &mut String) -> Result<(), Fail> {
    let Some((strings, rows)) = block.split_once("\nread ") else {
        return Err(Fail::new("no message"));
    };
    let script = script_of(alloc, strings)?;
    put_read_each(alloc, script.names(), script.table(), rows, out)
}

pub fn put_read_by_table(alloc: Global, block: &str, out: &mut String) -> Result<(), Fail> {
    let Some((strings, rows)) = block.split_once("\nread ") else {
        return Err(Fail::new("no message"));
    };
    let table = table_of(alloc, strings)?;
    put_read_each(alloc, &Names::new(alloc), &table, rows, out)
}

#[test]
fn messages_are_read_or_refused_with_their_causes(rt: HostRuntime) -> Result<(), Fail> {
    each_block(rt.alloc(), READ, 8, &Kind::ReadByScript)?;
    each_block(rt.alloc(), READ_BY_TABLES, 3, &Kind::ReadByTable)
}

//! Lists of bytes and their room.
use crate::rows::Kind;
use crate::words::part;
use dl_io::Bytes;
use std::alloc::Global;
use std::fmt::Write;
use std::mem;
use std::test::Fail;
use test_rows::{bytes_of, each_line, parted, put_digits, put_str};

// Steps, the list that is made first, and the list behind each: its length, bytes and room.
const LISTS: &str = "\
of |push 01|add 02 03 = empty; 1: 01; 3: 01 02 03
of 01 02 03|cut 2|again|clear = 3: 01 02 03; 2: 01 02; 2: 01 02; empty
of |reserve 6|reserve 4|put 01|put 02 03|add 04 05 06 07 = empty; empty, room 6; empty, room 6; 1: 01, room 5; 3: 01 02 03, room 3; 7: 01 02 03 04 05 06 07";

fn put_list(list: &Bytes, out: &mut String) -> Result<(), Fail> {
    if list.is_empty() {
        put_str(out, "empty")?;
    } else {
        write!(out, "{}: ", list.len())?;
        put_digits(out, list.as_slice())?;
    }
    match list.spare() {
        0 => Ok(()),
        room => Ok(write!(out, ", room {room}")?),
    }
}

// Appends within the room, a single byte by the call for one.
fn put_reserved(list: &mut Bytes, bytes: &[u8]) -> Result<(), Fail> {
    if list.spare() < bytes.len() {
        return Err(Fail::new("too little room"));
    }
    match bytes {
        [byte] => list.push_reserved(*byte),
        _ => list.extend_reserved(bytes),
    }
    Ok(())
}

fn append(list: &mut Bytes, bytes: &[u8]) -> Result<(), Fail> {
    match bytes {
        [byte] => list.push(*byte)?,
        _ => list.extend_from_slice(bytes)?,
    }
    Ok(())
}

fn add(list: &mut Bytes, what: &str, bytes: &[u8]) -> Result<(), Fail> {
    match what {
        "put" => put_reserved(list, bytes),
        _ => append(list, bytes),
    }
}

fn change(alloc: Global, list: &mut Bytes, step: &str) -> Result<(), Fail> {
    let (what, rest) = parted(step, ' ');
    match what {
        "of" => *list = Bytes::from_slice(alloc, &bytes_of(alloc, rest)?)?,
        "again" => *list = Bytes::from_vec(mem::replace(list, Bytes::new(alloc)).into_vec()),
        "push" | "add" | "put" => add(list, what, &bytes_of(alloc, rest)?)?,
        "reserve" => list.reserve(rest.parse::<usize>()?)?,
        "cut" => list.truncate(rest.parse::<usize>()?),
        "clear" => list.clear(),
        _ => return Err(Fail::new("no step")),
    }
    Ok(())
}

fn put_changes(alloc: Global, list: &mut Bytes, steps: &str, out: &mut String) -> Result<(), Fail> {
    for step in steps.split('|') {
        part(out)?;
        change(alloc, list, step)?;
        put_list(list, out)?;
    }
    Ok(())
}

pub fn put_lists(alloc: Global, steps: &str, out: &mut String) -> Result<(), Fail> {
    put_changes(alloc, &mut Bytes::new(alloc), steps, out)
}

#[test]
fn a_list_and_its_room_grow_and_shrink(rt: HostRuntime) -> Result<(), Fail> {
    each_line(rt.alloc(), LISTS, 3, &Kind::Lists)
}

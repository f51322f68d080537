//! Shelves in memory, and folders as shelves.
use crate::rows::Kind;
use crate::streams::put_input;
use crate::words::part;
use dl_io::{Bytes, DirShelf, Failed, MemShelf, Shelf, fetch_all};
use std::alloc::Global;
use std::fmt::Write;
use std::test::Fail;
use std::{fs, process};
use std_outside::Folder;
use test_rows::{each_line, expect, parted, put_digits, put_str};

// Steps with a shelf whose call 2 is to fail: a file is put, fetched whole with a limit, or fetched from a place into three bytes.
const SHELVES: &str = "\
put a first|all a 5|faults = put; first; 0 faults
put a first|all a 4 = put; long 5
put a first|at a 3|at a 6 = put; 2: 73 74 00; 0: 00 00 00
put a first|put a second|all a 9 = put; put; second
put a |all b 9|all a 0|faults|all a 0|faults = put; failed; nothing; 0 faults; failed; 1 faults";

fn put_file(alloc: Global, shelf: &mut MemShelf, name: &str, file: &str) -> Result<(), Fail> {
    shelf.put(name, Bytes::from_slice(alloc, file.as_bytes())?)?;
    Ok(())
}

fn put_at<F: Shelf>(shelf: &mut F, name: &str, at: &str, out: &mut String) -> Result<(), Fail> {
    let mut buf = [0; 3];
    match shelf.fetch(name, at.parse::<u64>()?, &mut buf) {
        Ok(count) => {
            write!(out, "{count}: ")?;
            put_digits(out, &buf)
        }
        Err(Failed) => put_str(out, "failed"),
    }
}

fn put_whole<F: Shelf>(
    alloc: Global,
    shelf: &mut F,
    name: &str,
    limit: &str,
    out: &mut String,
) -> Result<(), Fail> {
    let limit = limit.parse::<u32>()? as usize;
    put_input(fetch_all(alloc, shelf, name, limit), out)
}

fn put_step(alloc: Global, shelf: &mut MemShelf, step: &str, out: &mut String) -> Result<(), Fail> {
    let (what, rest) = parted(step, ' ');
    let (name, rest) = parted(rest, ' ');
    match what {
        "put" => {
            put_file(alloc, shelf, name, rest)?;
            put_str(out, "put")
        }
        "all" => put_whole(alloc, shelf, name, rest, out),
        "at" => put_at(shelf, name, rest, out),
        "faults" => Ok(write!(out, "{} faults", shelf.faults())?),
        _ => Err(Fail::new("no step")),
    }
}

fn put_steps(
    alloc: Global,
    shelf: &mut MemShelf,
    steps: &str,
    out: &mut String,
) -> Result<(), Fail> {
    for step in steps.split('|') {
        part(out)?;
        put_step(alloc, shelf, step, out)?;
    }
    Ok(())
}

pub fn put_shelves(alloc: Global, steps: &str, out: &mut String) -> Result<(), Fail> {
    let mut shelf = MemShelf::new(alloc, Bytes::from_slice(alloc, &[2])?);
    put_steps(alloc, &mut shelf, steps, out)
}

#[test]
fn a_file_is_fetched_unless_it_is_missing_or_too_long_or_a_fetch_fails(
    rt: HostRuntime,
) -> Result<(), Fail> {
    each_line(rt.alloc(), SHELVES, 5, &Kind::Shelves)
}

// Writes a file of a folder and fetches it.
fn put_there<F: Shelf>(
    rt: &HostRuntime,
    shelf: &mut F,
    name: &str,
    out: &mut String,
) -> Result<(), Fail> {
    fs::write(rt, name, b"hello".as_slice())?;
    put_whole(rt.alloc(), shelf, name, "9", out)
}

// The same, and whatever came of it removes the file.
fn put_once_there<F: Shelf>(
    rt: &HostRuntime,
    shelf: &mut F,
    name: &str,
    out: &mut String,
) -> Result<(), Fail> {
    let there = put_there(rt, shelf, name, out);
    let removed = fs::remove_file(rt, name);
    there?;
    Ok(removed?)
}

// The same, and fetches it again when it is gone.
fn put_fetches<F: Shelf>(
    rt: &HostRuntime,
    shelf: &mut F,
    name: &str,
    out: &mut String,
) -> Result<(), Fail> {
    put_once_there(rt, shelf, name, out)?;
    put_str(out, "; ")?;
    put_whole(rt.alloc(), shelf, name, "9", out)?;
    Ok(write!(out, "; {} faults", shelf.faults())?)
}

// The name of the file begins so, and ends with the number of the process.
fn expect_fetches<F: Shelf>(rt: &HostRuntime, shelf: &mut F, front: &str) -> Result<(), Fail> {
    let name = format!(in rt.alloc(); "{front}-{}", process::id(rt.process()))?;
    let mut told = String::new(rt.alloc());
    put_fetches(rt, shelf, name.as_str(), &mut told)?;
    expect(told.as_str(), "hello; failed; 1 faults")
}

#[test]
fn a_folder_is_a_shelf(rt: HostRuntime) -> Result<(), Fail> {
    expect_fetches(&rt, &mut DirShelf::new(&rt), "/tmp/dl_io")
}

#[test]
fn the_folder_of_the_program_is_a_shelf(rt: HostRuntime) -> Result<(), Fail> {
    expect_fetches(&rt, &mut Folder::new(rt.alloc(), &rt)?, "/tmp/std_outside")
}

//! Images, their blocks and the bytes that wait, and each refusal.
use crate::rows::Kind;
use crate::words::put_digits_or_nothing;
use rtt_control::{Block, Cause, ControlFault, Descriptor, Descriptors, find, read, unread, write};
use std::alloc::Global;
use std::fmt::Write;
use std::test::Fail;
use test_rows::{each_block, each_line, image_of, parted, put_digits, put_str};

const BASE: u32 = 0x2000_0000;

fn put_fault(fault: ControlFault, out: &mut String) -> Result<(), Fail> {
    match fault {
        ControlFault::Refused { cause, place } => Ok(write!(out, "cause {cause} at {place}")?),
        ControlFault::Memory => put_str(out, "memory"),
    }
}

// Images and the place of the one ID; the last has a second one.
const IDS: &str = "\
image = found 0
bytes 53 45 47 47 45 52 20 52 54 54 53 45 47 47 45 52 20 52 54 54 00 00 00 00 00 00 = found 10
zeros 64 = cause 1 at 0
zeros 0 = cause 1 at 0
image|cut 15 = cause 1 at 0
image|48 53 45 47 47 45 52 20 52 54 54 00 00 00 00 00 00 = cause 5 at 48";

pub fn put_found(image: &[u8], out: &mut String) -> Result<(), Fail> {
    if image.len() >= 1 << 32 {
        return Err(Fail::new("the image is too long"));
    }
    match find(image) {
        Ok(at) => Ok(write!(out, "found {at}")?),
        Err(fault) => put_fault(fault, out),
    }
}

pub fn put_ids(alloc: Global, steps: &str, out: &mut String) -> Result<(), Fail> {
    put_found(&image_of(alloc, steps)?, out)
}

#[test]
fn the_only_id_is_found_and_else_the_image_is_refused(rt: HostRuntime) -> Result<(), Fail> {
    each_line(rt.alloc(), IDS, 6, &Kind::Ids)
}

// Places and images, and the block there: each descriptor's name, start, size, offsets and flags, all hexadecimal.
const BLOCKS: &str = "\
0 image|cut 15 = cause 1 at 0
60 image = cause 1 at 60
100 image = cause 1 at 100
0 image|cut 23 = cause 2 at 0
0 image|16 02 = cause 2 at 0
0 image|40 10 = cause 3 at 0
0 image|44 03 = cause 4 at 0
0 image|44 07 = cause 4 at 0
0 image = up 0 20000030 10 2 e 2
0 image|44 fc = up 0 20000030 10 2 e fc
5 zeros 70|5 53 45 47 47 45 52 20 52 54 54|25 01|50 01 = down 0 0 0 0 0 100";

// Puts a descriptor, behind a semicolon where there is something before it.
fn put_descriptor(side: &str, d: &Descriptor, out: &mut String) -> Result<(), Fail> {
    let gap = if out.is_empty() { "" } else { "; " };
    let (name, start, size) = (d.name, d.start, d.size);
    let (wr, rd, flags) = (d.wr, d.rd, d.flags);
    Ok(write!(
        out,
        "{gap}{side} {name:x} {start:x} {size:x} {wr:x} {rd:x} {flags:x}"
    )?)
}

fn put_side(side: &str, list: &Descriptors, out: &mut String) -> Result<(), Fail> {
    for descriptor in list.as_slice() {
        put_descriptor(side, descriptor, out)?;
    }
    Ok(())
}

fn put_block(block: &Block, out: &mut String) -> Result<(), Fail> {
    put_side("up", &block.up, out)?;
    put_side("down", &block.down, out)
}

/// Puts the descriptors of the block at a place, or the refusal.
pub fn put_read(alloc: Global, image: &[u8], at: u32, out: &mut String) -> Result<(), Fail> {
    if image.len() >= 1 << 32 {
        return Err(Fail::new("the image is too long"));
    }
    match read(alloc, image, BASE, at) {
        Ok(block) => put_block(&block, out),
        Err(fault) => put_fault(fault, out),
    }
}

pub fn put_blocks(alloc: Global, row: &str, out: &mut String) -> Result<(), Fail> {
    let (at, steps) = parted(row, ' ');
    let at = at.parse::<u32>()?;
    put_read(alloc, &image_of(alloc, steps)?, at, out)
}

#[test]
fn a_block_is_read_or_refused_by_its_first_fault(rt: HostRuntime) -> Result<(), Fail> {
    each_line(rt.alloc(), BLOCKS, 11, &Kind::Blocks)
}

// The image's base and a descriptor, and the bytes that wait in its buffer.
const WAITING: &str = "\
20000000 0 20000030 10 2 e 2 = 00 01 7e 00
20000000 0 20000030 10 2 0 2 = 7e 00
20000000 0 20000030 10 2 2 2 = nothing
20000000 0 7 0 0 0 2 = nothing
20000000 0 20000030 10 10 e 2 = cause 3 at 0
20000000 0 7 0 1 0 2 = cause 3 at 0
20000000 0 20000031 10 2 e 2 = cause 2 at 0
20000000 0 1fffffff 10 2 e 2 = cause 2 at 0
fffffff6 0 ffffffff ffffffff 2 e 2 = cause 2 at 0";

fn number(text: &str) -> Result<u32, Fail> {
    Ok(u32::from_str_radix(text, 16)?)
}

// The descriptor of six hexadecimal numbers.
fn descriptor_of(text: &str) -> Result<Descriptor, Fail> {
    let (name, rest) = parted(text, ' ');
    let (start, rest) = parted(rest, ' ');
    let (size, rest) = parted(rest, ' ');
    let (wr, rest) = parted(rest, ' ');
    let (rd, flags) = parted(rest, ' ');
    Ok(Descriptor {
        name: number(name)?,
        start: number(start)?,
        size: number(size)?,
        wr: number(wr)?,
        rd: number(rd)?,
        flags: number(flags)?,
    })
}

pub fn put_unread(
    alloc: Global,
    image: &[u8],
    base: u32,
    descriptor: &Descriptor,
    out: &mut String,
) -> Result<(), Fail> {
    if image.len() >= 1 << 32 {
        return Err(Fail::new("the image is too long"));
    }
    match unread(alloc, image, base, descriptor) {
        Ok(bytes) => put_digits_or_nothing(bytes.as_slice(), out),
        Err(fault) => put_fault(fault, out),
    }
}

pub fn put_waiting(alloc: Global, row: &str, out: &mut String) -> Result<(), Fail> {
    let (base, rest) = parted(row, ' ');
    let base = number(base)?;
    let descriptor = descriptor_of(rest)?;
    put_unread(alloc, &image_of(alloc, "image")?, base, &descriptor, out)
}

#[test]
fn the_waiting_bytes_go_round_the_end_up_to_the_write_offset(rt: HostRuntime) -> Result<(), Fail> {
    each_line(rt.alloc(), WAITING, 9, &Kind::Waiting)
}

// A place and the length of an image of bytes aa, the descriptors of the block that is written there, and the image afterwards.
const WRITTEN: &str = "\
0 64
up 0 20000030 10 2 e 2
=
53 45 47 47 45 52 20 52 54 54 00 00 00 00 00 00 01 00 00 00 00 00 00 00 \
00 00 00 00 30 00 00 20 10 00 00 00 02 00 00 00 0e 00 00 00 02 00 00 00 \
aa aa aa aa aa aa aa aa aa aa aa aa aa aa aa aa

0 72
up 0 20000030 10 2 e 2
down 0 0 10 2 e 2
=
cause 2 at 1, untouched

25 72
up 0 20000030 10 2 e 2
=
cause 2 at 25, untouched";

fn push_line(block: &mut Block, line: &str) -> Result<(), Fail> {
    let (side, rest) = parted(line, ' ');
    let descriptor = descriptor_of(rest)?;
    match side {
        "up" => block.up.push(descriptor)?,
        "down" => block.down.push(descriptor)?,
        _ => return Err(Fail::new("no descriptor")),
    }
    Ok(())
}

fn block_of(alloc: Global, lines: &str) -> Result<Block, Fail> {
    let mut block = Block {
        up: Descriptors::new(alloc),
        down: Descriptors::from_vec(Vec::new(alloc)),
    };
    for line in lines.lines() {
        push_line(&mut block, line)?;
    }
    Ok(block)
}

// Puts the image that is written, or the refusal and whether the image is as before.
fn put_image(block: &Block, len: u8, at: u32, out: &mut String) -> Result<(), Fail> {
    let mut image = [0xaa; 255];
    let image = &mut image[..usize::from(len)];
    match write(block, image, BASE, at) {
        Ok(()) => put_digits(out, image),
        Err(fault) => {
            put_fault(fault, out)?;
            let same = image.iter().all(|byte| *byte == 0xaa);
            let left = if same { ", untouched" } else { ", changed" };
            put_str(out, left)
        }
    }
}

pub fn put_written(alloc: Global, row: &str, out: &mut String) -> Result<(), Fail> {
    let Some((sizes, lines)) = row.split_once('\n') else {
        return Err(Fail::new("no block"));
    };
    let (at, len) = parted(sizes, ' ');
    let (at, len) = (at.parse::<u32>()?, len.parse::<u8>()?);
    put_image(&block_of(alloc, lines)?, len, at, out)
}

#[test]
fn a_block_is_written_and_every_other_byte_stays(rt: HostRuntime) -> Result<(), Fail> {
    each_block(rt.alloc(), WRITTEN, 3, &Kind::Written)
}

#[test]
fn descriptors_are_a_list(rt: HostRuntime) -> Result<(), Fail> {
    let block = block_of(rt.alloc(), "up 1 2 3 4 5 6")?;
    assert_eq!(rt; (block.up.len(), block.down.is_empty()), (1, true));
    let Block { up, down: _ } = block;
    let back = up.into_vec();
    assert_eq!(rt; back.as_slice(), [descriptor_of("1 2 3 4 5 6")?].as_slice());
    Ok(())
}

#[test]
fn causes_have_their_numbers(rt: HostRuntime) {
    let numbers = [
        Cause::NoId.number(),
        Cause::Bounds.number(),
        Cause::Offset.number(),
        Cause::Flags.number(),
        Cause::TwoIds.number(),
    ];
    assert_eq!(rt; numbers.as_slice(), [1u8, 2, 3, 4, 5].as_slice());
}

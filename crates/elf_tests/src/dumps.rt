//! Images of memory, bare and in core files, their segments and the bytes of a buffer, and each refusal.
use crate::rows::Kind;
use rtt_dump::{Cause, DumpFault, Flaw, dumped, segments};
use std::alloc::Global;
use std::fmt::Write;
use std::test::Fail;
use test_rows::{each_line, image_of, parted, put_digits, put_str};

fn put_fault(fault: DumpFault, out: &mut String) -> Result<(), Fail> {
    match fault {
        DumpFault::Refused { cause, place } => Ok(write!(out, "cause {cause} at {place}")?),
        DumpFault::Memory => put_str(out, "memory"),
    }
}

// The base of an image, and what it and the core files give as segments, each with its address and its bytes.
const SEGMENTS: &str = "\
fffffffe bytes 01 02 = fffffffe 01 02
ffffffff bytes 01 02 = cause 8 at 0
0 bytes 01 02|core 32|100 02 = 20000000 01 02
0 bytes 01 02|core 32|100 02|52 01|68 01|60 40 = 20000040 01; 20000000 01 02
0 bytes 01 02|core 64|96 02 = 20000000 01 02
0 bytes 01 02|core 32|100 00 = nothing
0 bytes 01 02|core 32|44 00 = nothing
0 bytes 7f 45 4c = 0 7f 45 4c";

// Puts the segments of a file, or the refusal.
fn put_parts(alloc: Global, file: &[u8], base: u32, out: &mut String) -> Result<(), Fail> {
    if file.len() >= 1 << 32 {
        return Err(Fail::new("the file is too long"));
    }
    match segments(alloc, file, base) {
        Ok(list) if list.is_empty() => put_str(out, "nothing"),
        Ok(list) => {
            for segment in &list {
                let gap = if out.is_empty() { "" } else { "; " };
                write!(out, "{gap}{:x} ", segment.base)?;
                put_digits(out, segment.bytes.as_slice())?;
            }
            Ok(())
        }
        Err(fault) => put_fault(fault, out),
    }
}

pub fn put_segments(alloc: Global, row: &str, out: &mut String) -> Result<(), Fail> {
    let (base, steps) = parted(row, ' ');
    let base = u32::from_str_radix(base, 16)?;
    put_parts(alloc, &image_of(alloc, steps)?, base, out)
}

#[test]
fn an_image_has_its_segments_or_is_refused(rt: HostRuntime) -> Result<(), Fail> {
    each_line(rt.alloc(), SEGMENTS, 8, &Kind::Segments)
}

/// Puts the bytes of an up-buffer, or the refusal.
pub fn put_dumped(
    alloc: Global,
    file: &[u8],
    base: u32,
    up: u32,
    old: bool,
    out: &mut String,
) -> Result<(), Fail> {
    if file.len() >= 1 << 32 {
        return Err(Fail::new("the file is too long"));
    }
    match dumped(alloc, file, base, up, old) {
        Ok(bytes) if bytes.as_slice().is_empty() => put_str(out, "nothing"),
        Ok(bytes) => put_digits(out, bytes.as_slice()),
        Err(fault) => put_fault(fault, out),
    }
}

// The base of an image, the number of an up-buffer, which of its bytes are asked for, and these.
const DUMPS: &str = "\
20000000 0 waiting image = 00 01 7e 00
20000000 0 all image|58 00 01 7e 00 = 00 00 00 00 00 00 00 00 00 01 7e 00 00 01 7e 00
20000000 0 waiting image|40 02 = nothing
20000000 0 all image|40 02 = 00 00 00 00 00 00 00 00 00 00 00 00 00 01 7e 00
20000000 0 all image|32 00|36 00|40 00 = nothing
20000000 0 waiting zeros 8|image = 00 00 0e 00
0 0 waiting image|core 32 = 00 01 7e 00
0 0 all image|58 00 01 7e 00|core 32 = 00 00 00 00 00 00 00 00 00 01 7e 00 00 01 7e 00
0 0 waiting image|core 64 = 00 01 7e 00
0 0 all image|58 00 01 7e 00|core 64 = 00 00 00 00 00 00 00 00 00 01 7e 00 00 01 7e 00";

// Their refusals: of the file, of the ID, of the block, of the channel, and which of two comes first.
const REFUSED: &str = "\
ffffffc1 0 waiting image = cause 8 at 0
20000000 0 waiting zeros 64 = cause 1 at 0
20000000 0 waiting image|cut 15 = cause 1 at 0
0 0 waiting image|core 32|100 00 = cause 1 at 0
0 0 waiting image|core 32|52 01|68 0a|88 7e|100 36 = cause 1 at 0
20000000 0 waiting image|48 53 45 47 47 45 52 20 52 54 54 00 00 00 00 00 00 = cause 5 at 0
0 0 waiting image|core 32|52 01 = cause 5 at 1
ffffffc0 0 waiting image = cause 2 at 0
20000000 0 waiting zeros 8|image|cut 31 = cause 2 at 8
0 0 waiting image|core 32|100 30 = cause 2 at 0
20000000 0 waiting image|40 10 = cause 3 at 0
20000000 0 waiting image|44 03 = cause 4 at 0
20000000 1 waiting image = cause 6 at 1
20000000 4294967295 all image = cause 6 at 4294967295
ffffffc1 1 waiting zeros 64 = cause 8 at 0
20000000 1 waiting zeros 64 = cause 1 at 0
20000000 1 all image|40 10 = cause 3 at 0
0 0 waiting image|core 32|4 00 = cause 7 at 1
0 0 waiting image|core 32|4 03 = cause 7 at 1
0 0 waiting image|core 32|5 02 = cause 7 at 2
0 0 waiting image|core 32|16 02 = cause 7 at 4
0 0 waiting image|core 32|42 38 = cause 7 at 5
0 0 waiting image|core 32|44 05 = cause 7 at 6
0 0 waiting image|core 32|28 ff ff ff ff = cause 7 at 6
0 0 waiting image|core 32|100 41 = cause 7 at 7
0 0 waiting image|core 32|52 01|68 41 = cause 7 at 7
0 0 waiting image|core 32|92 c1 ff ff ff = cause 7 at 8
0 0 waiting image|core 32|92 c0 ff ff ff = cause 2 at 0
0 0 waiting image|core 64|16 03 = cause 7 at 4
0 0 waiting image|core 64|54 20 = cause 7 at 5
0 0 waiting image|core 64|56 03 = cause 7 at 6
0 0 waiting image|core 64|32 ff ff ff ff ff ff ff ff = cause 7 at 6
0 0 waiting image|core 64|96 ff ff ff ff ff ff ff ff = cause 7 at 7
0 0 waiting image|core 64|84 01 = cause 7 at 8";

pub fn put_dumps(alloc: Global, row: &str, out: &mut String) -> Result<(), Fail> {
    let (base, rest) = parted(row, ' ');
    let (up, rest) = parted(rest, ' ');
    let (which, steps) = parted(rest, ' ');
    let base = u32::from_str_radix(base, 16)?;
    let up = up.parse::<u32>()?;
    put_dumped(
        alloc,
        &image_of(alloc, steps)?,
        base,
        up,
        which == "all",
        out,
    )
}

#[test]
fn the_bytes_of_a_buffer_are_dumped(rt: HostRuntime) -> Result<(), Fail> {
    each_line(rt.alloc(), DUMPS, 10, &Kind::Dumps)
}

#[test]
fn an_image_is_refused_by_its_first_fault(rt: HostRuntime) -> Result<(), Fail> {
    each_line(rt.alloc(), REFUSED, 34, &Kind::Dumps)
}

// The lengths at which the answer to a core file that is cut there becomes another one.
const CUTS: &str = "\
image|core 32 = 0 cause 1 at 0; 4 cause 7 at 1; 5 cause 7 at 2; 6 cause 7 at 3; 52 cause 7 at 6; 116 cause 7 at 7; 180 00 01 7e 00
image|core 64 = 0 cause 1 at 0; 4 cause 7 at 1; 5 cause 7 at 2; 6 cause 7 at 3; 64 cause 7 at 6; 120 cause 7 at 7; 184 00 01 7e 00";

pub fn put_cuts(alloc: Global, steps: &str, out: &mut String) -> Result<(), Fail> {
    let file = image_of(alloc, steps)?;
    let mut last = String::new(alloc);
    for len in 0..=file.len() {
        let mut answer = String::new(alloc);
        put_dumped(alloc, &file[..len], 0, 0, false, &mut answer)?;
        if answer != last {
            let gap = if out.is_empty() { "" } else { "; " };
            write!(out, "{gap}{len} {answer}")?;
            last = answer;
        }
    }
    Ok(())
}

#[test]
fn a_core_file_that_is_cut_anywhere_is_refused(rt: HostRuntime) -> Result<(), Fail> {
    each_line(rt.alloc(), CUTS, 2, &Kind::Cuts)
}

#[test]
fn causes_and_flaws_have_their_numbers(rt: HostRuntime) {
    let causes = [
        Cause::NoId.number(),
        Cause::Bounds.number(),
        Cause::Offset.number(),
        Cause::Flags.number(),
        Cause::TwoIds.number(),
        Cause::NoChannel.number(),
        Cause::Core.number(),
        Cause::Base.number(),
    ];
    assert_eq!(rt; causes.as_slice(), [1u8, 2, 3, 4, 5, 6, 7, 8].as_slice());
    let flaws = [
        Flaw::Class.number(),
        Flaw::Order.number(),
        Flaw::Header.number(),
        Flaw::Kind.number(),
        Flaw::EntrySize.number(),
        Flaw::ProgramHeaders.number(),
        Flaw::Bytes.number(),
        Flaw::Addresses.number(),
    ];
    assert_eq!(rt; flaws.as_slice(), [1u8, 2, 3, 4, 5, 6, 7, 8].as_slice());
}

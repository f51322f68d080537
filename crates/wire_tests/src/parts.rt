//! The parts of streams of bytes: what comes before the first zero, the pieces between zeros, and what follows the last.
ghost use Rattle.std.specs.Prelude.{length};
ghost use Rattle.wire_tests.specs.declared.parts.Part.TheVariants.{Front, Piece, Long, Tail};

use crate::rows::Kind;
use crate::runs::{bytes_of, put_count, put_words};
use defmt_framing::{Framer, Teller, decode_piece};
use dl_io::Memory;
use std::alloc::Global;
use std::fmt::Write;
use std::test::Fail;
use test_rows::{each_line, expect, put_str};

// A part, with how many bytes it has.
#[derive(Clone, Copy)]
enum Part {
    Front(u64),
    Piece(u64),
    Long,
    Tail(u64),
}

#[derive(Drop)]
struct Sizes;

impl Teller for Sizes {
    type Told = Part;

    ghost tells = { λ _. record {
      piece = λ piece. Piece (length piece);
      long = Long;
      cut_front = λ n. Front n;
      cut_tail = λ n. Tail n;
    } };

    fn piece(&mut self, piece: &[u8]) -> Result<Part, Memory> {
        Ok(Part::Piece(piece.len() as u64))
    }

    fn long(&self) -> Part {
        Part::Long
    }

    fn cut_front(&self, bytes: u64) -> Part {
        Part::Front(bytes)
    }

    fn cut_tail(&self, bytes: u64) -> Part {
        Part::Tail(bytes)
    }
}

// The parts of a stream that is fed in parts, each of them to its end.
const STREAMS: &str = "\
07 08 00 01 00 00 02 03 04 00 09 = front 2, piece 1, piece 3, tail 1
01 | 7e = front 2
nothing | nothing = nothing
00 00 | 00 = nothing
00 01*65535 | 01 00 = piece 65536
00 01*65535 | 01 01 00 05 00 07 = long, piece 1, tail 1
00 01*65537 00 = long";

// What each call of a few takes and tells, and then how many bytes were heard, and what the end tells.
const CALLS: &str = "\
00 01 | 7e 00 00 | 00 = took 2: nothing, took 2: piece 2, took 1: nothing, heard 5: nothing";

// What a piece stands for.
const PIECES: &str = "\
01 7e = 01 00 00 00 00 00 00
01 = none";

fn put_part(out: &mut String, part: Option<Part>) -> Result<(), Fail> {
    match part {
        Some(Part::Front(bytes)) => Ok(write!(out, "front {bytes}")?),
        Some(Part::Piece(bytes)) => Ok(write!(out, "piece {bytes}")?),
        Some(Part::Long) => put_str(out, "long"),
        Some(Part::Tail(bytes)) => Ok(write!(out, "tail {bytes}")?),
        None => put_str(out, "nothing"),
    }
}

// Puts what a call tells, behind what those before told from the start on.
fn put_told(out: &mut String, start: usize, part: Option<Part>) -> Result<(), Fail> {
    if part.is_none() {
        return Ok(());
    }
    if out.len() > start {
        put_str(out, ", ")?;
    }
    put_part(out, part)
}

// Feeds all the bytes, and puts what they tell.
fn put_all(framer: &mut Framer, bytes: &[u8], start: usize, out: &mut String) -> Result<(), Fail> {
    let mut rest = bytes;
    for _ in 0..bytes.len() {
        if rest.is_empty() {
            break;
        }
        let (taken, part) = framer.feed(&mut Sizes, rest)?;
        put_told(out, start, part)?;
        let (_, behind) = rest.split_at(taken);
        rest = behind;
    }
    Ok(())
}

// Puts what the end tells; that nothing was told, where nothing was.
fn put_end(out: &mut String, start: usize, part: Option<Part>) -> Result<(), Fail> {
    if out.len() == start {
        return put_part(out, part);
    }
    put_told(out, start, part)
}

// What a stream tells that is fed in two parts.
fn put_in_two(alloc: Global, first: &[u8], second: &[u8], out: &mut String) -> Result<(), Fail> {
    let start = out.len();
    let mut framer = Framer::new(alloc);
    put_all(&mut framer, first, start, out)?;
    put_all(&mut framer, second, start, out)?;
    put_end(out, start, framer.finish(&Sizes))
}

pub fn put_parts_of(alloc: Global, stream: &str, out: &mut String) -> Result<(), Fail> {
    let (first, second) = stream.split_once(" | ").unwrap_or((stream, "nothing"));
    let first = bytes_of(alloc, first)?;
    let second = bytes_of(alloc, second)?;
    put_in_two(alloc, &first, &second, out)
}

// Whether a stream that is fed in two parts tells this.
fn tells(alloc: Global, first: &[u8], second: &[u8], due: &str) -> Result<bool, Fail> {
    let mut told = String::new(alloc);
    put_in_two(alloc, first, second, &mut told)?;
    Ok(told.as_str() == due)
}

// What the stream tells at the first place where it tells not this when it is cut there; this where there is none.
fn put_cut(alloc: Global, stream: &[u8], whole: &str, out: &mut String) -> Result<(), Fail> {
    for place in 0..stream.len() {
        let (first, second) = stream.split_at(place);
        if !tells(alloc, first, second, whole)? {
            write!(out, "cut at {place}: ")?;
            return put_in_two(alloc, first, second, out);
        }
    }
    put_str(out, whole)
}

fn put_cuts(alloc: Global, stream: &[u8], out: &mut String) -> Result<(), Fail> {
    let mut whole = String::new(alloc);
    put_in_two(alloc, stream, &[], &mut whole)?;
    put_cut(alloc, stream, whole.as_str(), out)
}

// What the stream tells wherever it is cut in two; what it tells otherwise at the first place where it does.
fn put_parts_at_each_cut(alloc: Global, stream: &str, out: &mut String) -> Result<(), Fail> {
    let stream = bytes_of(alloc, stream)?;
    put_cuts(alloc, &stream, out)
}

fn put_call(framer: &mut Framer, bytes: &[u8], out: &mut String) -> Result<(), Fail> {
    let (taken, part) = framer.feed(&mut Sizes, bytes)?;
    put_count(out, taken)?;
    put_part(out, part)?;
    put_str(out, ", ")
}

fn put_call_of(
    alloc: Global,
    framer: &mut Framer,
    words: &str,
    out: &mut String,
) -> Result<(), Fail> {
    let bytes = bytes_of(alloc, words)?;
    put_call(framer, &bytes, out)
}

fn put_calls(
    alloc: Global,
    framer: &mut Framer,
    stream: &str,
    out: &mut String,
) -> Result<(), Fail> {
    for words in stream.split(" | ") {
        put_call_of(alloc, framer, words, out)?;
    }
    Ok(write!(out, "heard {}: ", framer.heard_len())?)
}

pub fn put_calls_of(alloc: Global, stream: &str, out: &mut String) -> Result<(), Fail> {
    let mut framer = Framer::new(alloc);
    put_calls(alloc, &mut framer, stream, out)?;
    put_part(out, framer.finish(&Sizes))
}

fn put_message(piece: &[u8], out: &mut String) -> Result<(), Fail> {
    if piece.len() > 2 {
        return Err(Fail::new("long"));
    }
    let mut room = [9u8; 14];
    match decode_piece(piece, &mut room) {
        Some(count) if count <= 14 => put_words(out, &room[..count]),
        Some(_) => Err(Fail::new("beyond the buffer")),
        None => put_str(out, "none"),
    }
}

pub fn put_piece_of(alloc: Global, words: &str, out: &mut String) -> Result<(), Fail> {
    let piece = bytes_of(alloc, words)?;
    put_message(&piece, out)
}

#[test]
fn each_part_is_told_in_its_place(rt: HostRuntime) -> Result<(), Fail> {
    each_line(rt.alloc(), STREAMS, 7, &Kind::PartsOf)?;
    each_line(rt.alloc(), PIECES, 2, &Kind::PieceOf)
}

#[test]
fn calls_and_every_cut_in_two_tell_the_same(rt: HostRuntime) -> Result<(), Fail> {
    each_line(rt.alloc(), CALLS, 1, &Kind::PartCallsOf)?;
    let mut told = String::new(rt.alloc());
    put_parts_at_each_cut(rt.alloc(), "07 08 00 01 00 00 02 03 04 00 09", &mut told)?;
    expect(told.as_str(), "front 2, piece 1, piece 3, tail 1")
}

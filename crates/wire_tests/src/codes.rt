//! Codes: what messages are written as, and what pieces stand for.
use crate::rows::Kind;
use crate::runs::{bytes_of, put_words};
use defmt_encode::MESSAGE_LIMIT;
use rzcobs_core::{bound, decode, encode};
use std::alloc::Global;
use std::fmt::Write;
use std::test::Fail;
use test_rows::{each_line, expect, put_str};

// How many bytes the code of a message has at most.
const CODE_SIZE: usize = 2286;

// A message, and its code.
const CODES: &str = "\
01 02 03 04 05 06 07 = 01 02 03 04 05 06 07 80
01*134 = 01*134 ff
01*133 = 01*133 fe
00 00 00 00 00 00 00 = 7f
nothing = nothing
01 00 = 01 7e
01 02 03 04 05 06 07 08 00 09 = 01 02 03 04 05 06 07 08 81 09 7e
01 00 00 01 00 00 01*256 = 01 01 01 36 01*134 ff 01*121 f2";

// A piece, and what it stands for.
const PIECES: &str = "\
01 02 03 04 05 06 07 80 = 01 02 03 04 05 06 07 00
7f = 00 00 00 00 00 00 00
nothing = nothing
01 7e = 01 00 00 00 00 00 00
01 02 03 04 05 06 07 08 81 09 7e = 01 02 03 04 05 06 07 08 00 09 00 00 00 00 00 00
01*133 ff = malformed
01*132 fe = malformed
01 01 01 01 01 01 80 = malformed
01 01 01 01 01 01 = malformed
ff = malformed
00 = malformed
7f 00 = malformed
00 01 7e = malformed
09 01 7e = malformed
7f*65536 = 00*458752";

// A message, and what its code stands for.
const EDGES: &str = "\
05*6 = 05 05 05 05 05 05 00
05*7 = 05 05 05 05 05 05 05 00
05*8 = 05 05 05 05 05 05 05 05 00
05*133 = 05*133 00
05*134 = 05*134
05*135 = 05*135 00 00 00 00 00 00";

// The bytes of a message, and the most that its code has.
const BOUNDS: &str = "\
0 = 0
1 = 2
7 = 8
8 = 10
2000 = 2286";

fn put_code(message: &[u8], out: &mut String) -> Result<(), Fail> {
    if message.len() > MESSAGE_LIMIT {
        return Err(Fail::new("long"));
    }
    let mut code = [9u8; CODE_SIZE];
    let size = encode(message, &mut code);
    put_words(out, &code[..size])
}

fn put_piece(alloc: Global, piece: &[u8], out: &mut String) -> Result<(), Fail> {
    if piece.len() > 65536 {
        return Err(Fail::new("long"));
    }
    let mut room = vec![in alloc; 9u8; 7 * piece.len()]?;
    match decode(piece, &mut room) {
        Ok(size) => put_words(out, &room[..size]),
        Err(_) => put_str(out, "malformed"),
    }
}

fn put_back(alloc: Global, message: &[u8], out: &mut String) -> Result<(), Fail> {
    if message.len() > MESSAGE_LIMIT {
        return Err(Fail::new("long"));
    }
    let mut code = [9u8; CODE_SIZE];
    let size = encode(message, &mut code);
    put_piece(alloc, &code[..size], out)
}

pub fn put_encoded(alloc: Global, words: &str, out: &mut String) -> Result<(), Fail> {
    let message = bytes_of(alloc, words)?;
    put_code(&message, out)
}

pub fn put_decoded(alloc: Global, words: &str, out: &mut String) -> Result<(), Fail> {
    let piece = bytes_of(alloc, words)?;
    put_piece(alloc, &piece, out)
}

pub fn put_back_again(alloc: Global, words: &str, out: &mut String) -> Result<(), Fail> {
    let message = bytes_of(alloc, words)?;
    put_back(alloc, &message, out)
}

pub fn put_bound_of(count: &str, out: &mut String) -> Result<(), Fail> {
    let count = count.parse::<u16>()?;
    Ok(write!(out, "{}", bound(usize::from(count)))?)
}

#[test]
fn messages_have_their_codes_within_the_bound(rt: HostRuntime) -> Result<(), Fail> {
    each_line(rt.alloc(), CODES, 8, &Kind::Encoded)?;
    each_line(rt.alloc(), BOUNDS, 5, &Kind::BoundOf)
}

#[test]
fn pieces_stand_for_bytes_or_are_malformed(rt: HostRuntime) -> Result<(), Fail> {
    each_line(rt.alloc(), PIECES, 15, &Kind::Decoded)?;
    each_line(rt.alloc(), EDGES, 6, &Kind::BackAgain)
}

#[test]
fn what_lies_behind_the_code_is_left(rt: HostRuntime) -> Result<(), Fail> {
    let mut out = [9u8; 12];
    assert_eq!(rt; encode(&[1, 0, 3], &mut out), 3);
    let mut words = String::new(rt.alloc());
    put_words(&mut words, &out)?;
    expect(words.as_str(), "01 03 7a 09*9")
}

//! Texts that tell where in the sources statements stand, and each refusal. In a row `|` stands for a newline, `^` for a carriage
//! return and `~` for the byte ff.
use crate::rows::Kind;
use defmt_places::{Places, PlacesFault, read_places};
use std::alloc::Global;
use std::fmt::Write;
use std::test::Fail;
use test_rows::{each_line, put_str};

const PLACES: &str = "\
| = nothing
#|^|# a| = nothing
1 src/main.rs:12 = 1 src/main.rs:12
1 src/main.rs:12| = 1 src/main.rs:12
#||7 x|1 y| = 1 y; 7 x
0 x|65535 y| = 0 x; 65535 y
1  a b| = 1  a b
1 #| = 1 #
# n^|^|1 x^| = 1 x
1 x^ = 1 x^
1 x^^| = 1 x^
1 a^b| = 1 a^b";

const REFUSALS: &str = "\
1 = line 1 cause 1
1 | = line 1 cause 1
1 ^| = line 1 cause 1
1^| = line 1 cause 1
 1 x = line 1 cause 1
 | = line 1 cause 1
x y = line 1 cause 1
01 x = line 1 cause 1
+1 x = line 1 cause 1
-1 x = line 1 cause 1
65536 = line 1 cause 1
#~ = line 1 cause 1
65536 ~ = line 1 cause 1
1 x|1 ~ = line 2 cause 1
65536 x = line 1 cause 2
99999999999999999999 x = line 1 cause 2
1 x|65536 x = line 2 cause 2
1 x||#|1 y = line 4 cause 3
2 x^|2 y^| = line 2 cause 3
2 x|3|2 x = line 2 cause 1";

// The bytes that a row stands for.
fn text_of(alloc: Global, row: &str) -> Result<Vec<u8>, Fail> {
    let mut text = Vec::new(alloc);
    for byte in row.bytes() {
        let byte = match byte {
            b'|' => b'\n',
            b'^' => b'\r',
            b'~' => 0xff,
            _ => byte,
        };
        text.push(byte)?;
    }
    Ok(text)
}

fn put_place(place: &str, out: &mut String) -> Result<(), Fail> {
    for character in place.chars() {
        out.push(if character == '\r' { '^' } else { character })?;
    }
    Ok(())
}

fn put_found(places: &Places, out: &mut String) -> Result<(), Fail> {
    for index in [0u16, 1, 2, 7, 65_535] {
        if let Some(place) = places.get(index) {
            let gap = if out.is_empty() { "" } else { "; " };
            write!(out, "{gap}{index} ")?;
            put_place(place, out)?;
        }
    }
    if out.is_empty() {
        put_str(out, "nothing")?;
    }
    Ok(())
}

/// Puts the places that a text tells, or the refusal.
pub fn put_places(alloc: Global, row: &str, out: &mut String) -> Result<(), Fail> {
    let text = text_of(alloc, row)?;
    if text.len() >= 1 << 32 {
        return Err(Fail::new("the file is too long"));
    }
    match read_places(alloc, &text) {
        Ok(places) => put_found(&places, out),
        Err(PlacesFault::Refused { line, cause }) => Ok(write!(out, "line {line} cause {cause}")?),
        Err(PlacesFault::Memory) => put_str(out, "memory"),
    }
}

#[test]
fn a_text_tells_places_or_is_refused(rt: HostRuntime) -> Result<(), Fail> {
    each_line(rt.alloc(), PLACES, 12, &Kind::Places)?;
    each_line(rt.alloc(), REFUSALS, 20, &Kind::Places)
}

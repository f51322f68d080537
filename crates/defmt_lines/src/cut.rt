//! A text cut into lines.

ghost use Rattle.std.specs.Prelude.{◌≡◌, ◌<◌, ◌+◌, ◌∷◌, length, slice_index, take, drop};
ghost use Rattle.std.specs.Str.{IsUtf8};
ghost use Rattle.std.specs.Str.Lines.{lines, strip_carriage_return};
ghost use Rattle.defmt_lines.specs.Cut.{up_to, from_mark};

use memchr::memchr;

// The bytes before the first `mark`, and the bytes from that one on.
fn split_at_mark(bytes: &[u8], mark: u8) -> (&[u8], &[u8])
    ensures front { result.0.now ≡ up_to mark bytes.now }
    ensures rest { result.1.now ≡ from_mark mark bytes.now }
    ensures lengths { length result.0.now + length result.1.now ≡ length bytes.now }
{
    match memchr(mark, bytes) {
        Some(place) => bytes.split_at(place),
        None => (bytes, &[]),
    }
}

/// The first line of a text, and what comes after it.
///
/// A line ends with a newline, and one carriage return before it is passed over. The last line may lack its newline; it
/// then keeps a carriage return.
pub fn next_line(text: &[u8]) -> (&[u8], &[u8])
    requires { 0 < length text.now }
    ensures lines { lines text.now ≡ result.0.now ∷ lines result.1.now }
    ensures shorter { length result.1.now < length text.now }
{
    let (line, behind) = split_at_mark(text, b'\n');
    match behind {
        [] => (line, behind),
        [_, after @ ..] => (strip_carriage_return(line), after),
    }
}

// What stands before a newline of a text, and behind it.
fn cut_at(text: &str, place: usize) -> (&str, &str)
    requires within { place < length text.now }
    requires newline { slice_index text.now place ≡ 10 }
    ensures front { result.0.now ≡ take place text.now }
    ensures back { result.1.now ≡ drop (place + 1) text.now }
{
    let (front, _) = text.split_at(place);
    let (_, back) = text.split_at(place + 1);
    (front, back)
}

/// What `next_line` answers, of a text that is UTF-8.
pub fn next_text_line(text: &str) -> (&str, &str)
    requires { 0 < length text.now }
    ensures lines { lines text.now ≡ result.0.now ∷ lines result.1.now }
    ensures shorter { length result.1.now < length text.now }
    ensures utf8 { IsUtf8 result.1.now }
{
    match memchr(b'\n', text.as_bytes()) {
        Some(place) => {
            let (line, after) = cut_at(text, place);
            (strip_return(line), after)
        }
        None => text.split_at(text.len()),
    }
}

// A line without the carriage return at its end.
fn strip_return(line: &str) -> &str
    ensures { result.now ≡ strip_carriage_return line.now }
{
    let kept = strip_carriage_return(line.as_bytes()).len();
    let (front, _) = line.split_at(kept);
    front
}

fn strip_carriage_return(line: &[u8]) -> &[u8]
    ensures { result.now ≡ strip_carriage_return line.now }
{
    match line {
        [front @ .., b'\r'] => front,
        _ => line,
    }
}

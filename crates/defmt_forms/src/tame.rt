//! Texts that can't steer a terminal.
ghost use Rattle.std.specs.Prelude.{◌≡◌, ◌≤◌, ◌<◌, ◌++◌, ◌∷◌, [], ℕ, List, length, take, drop, OnOk, IfOk};
ghost use Rattle.std.specs.Char.{digit_char};
ghost use Rattle.std.specs.List.{list_all};
ghost use Rattle.defmt_forms.specs.Terminal.{HasNoControls, is_control, is_upper_control, tame, tame_byte, tamed};
ghost use Rattle.defmt_forms.specs.Tamed.{Tames, begins_upper, is_plain};

use dl_io::{Bytes, Memory};

/// Appends a text, in which each control character but newline and tab is written as its number.
pub fn add_tame(text: &[u8], out: &mut Bytes) -> Result<(), Memory>
    ensures { OnOk result (out.new.items ≡ out.old.items ++ tame text.now) }
{
    if is_all_plain(text) {
        return out.extend_from_slice(text);
    }
    add_runs(text, out)
}

// Whether each byte stands for itself, whatever is behind it. Each is looked at, so that the compiler can test many at once.
fn is_all_plain(text: &[u8]) -> bool
    ensures { result ≡ list_all is_plain text.now }
{
    let mut plain = true;
    for byte in text {
        plain &= is_plain(*byte);
    }
    plain
}

// The same of any text: what stands for itself up to the next character that may not, and then that.
fn add_runs(text: &[u8], out: &mut Bytes) -> Result<(), Memory>
    ensures { OnOk result (out.new.items ≡ out.old.items ++ tame text.now) }
{
    let mut rest = text;
    'runs: loop {
        let run = plain_run(rest);
        out.extend_from_slice(&rest[..run])?;
        rest = &rest[run..];
        if rest.len() == 0 {
            return Ok(());
        }
        let taken = add_next(rest, out)?;
        rest = &rest[taken..];
    }
}

/// What is written for a terminal has no control character but newline and tab, whatever the bytes of the text.
pub fn tame_has_no_controls()
    ensures { (text : List ℕ) → HasNoControls (tame text) }
{}

// How many bytes at the front stand for themselves, whatever is behind them.
fn plain_run(text: &[u8]) -> usize
    ensures within { result ≤ length text.now }
    ensures plain { tame text.now ≡ take result text.now ++ tame (drop result text.now) }
{
    for (i, byte) in text.iter().enumerate() {
        if !is_plain(*byte) {
            return i;
        }
    }
    text.len()
}

// Whether a byte stands for itself, whatever is behind it.
#[inline(always)]
fn is_plain(byte: u8) -> bool
    ensures { result ≡ is_plain byte }
{
    !is_control(byte) && !(byte == 0xc2)
}

// Appends what stands for the first character of a text, or for its first byte, and answers how many bytes those are.
#[inline(never)]
fn add_next(text: &[u8], out: &mut Bytes) -> Result<usize, Memory>
    requires { 0 < length text.now }
    ensures { IfOk result (λ count. Tames out.old.items out.new.items text.now count) }
{
    if begins_upper(text) {
        add_number(text[1], out)?;
        return Ok(2);
    }
    add_byte(text[0], out)?;
    Ok(1)
}

// Whether a text begins with one of the characters 80 to 9f.
fn begins_upper(text: &[u8]) -> bool
    ensures { result ≡ begins_upper text.now }
{
    text.len() >= 2 && is_upper_control(text[0], text[1])
}

// Whether these bytes are one of the characters 80 to 9f.
fn is_upper_control(lead: u8, byte: u8) -> bool
    ensures { result ≡ is_upper_control lead byte }
{
    lead == 0xc2 && (byte >= 0x80 && byte <= 0x9f)
}

// Appends a byte, or its number where it is a control character.
fn add_byte(byte: u8, out: &mut Bytes) -> Result<(), Memory>
    ensures { OnOk result (out.new.items ≡ out.old.items ++ tame_byte byte) }
{
    if is_control(byte) {
        return add_number(byte, out);
    }
    out.push(byte)
}

fn is_control(byte: u8) -> bool
    ensures { result ≡ is_control byte }
{
    (byte < 0x20 && !(byte == b'\t' || byte == b'\n')) || byte == 0x7f
}

// Appends what stands for a character with this number.
fn add_number(number: u8, out: &mut Bytes) -> Result<(), Memory>
    ensures { OnOk result (out.new.items ≡ out.old.items ++ tamed number) }
{
    if number < 16 {
        return out.extend_from_slice(&[b'\\', b'u', b'{', digit(number), b'}']);
    }
    let text = [
        b'\\',
        b'u',
        b'{',
        digit(number / 16),
        digit(number % 16),
        b'}',
    ];
    out.extend_from_slice(&text)
}

/// The lower-case hexadecimal digit of a number below 16.
pub(crate) fn digit(value: u8) -> u8
    requires { value < 16 }
    ensures { result ≡ digit_char value }
{
    if value < 10 {
        b'0' + value
    } else {
        b'a' + (value - 10)
    }
}

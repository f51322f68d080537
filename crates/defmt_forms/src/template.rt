//! What the lines of one statement have in common.
ghost use Rattle.std.specs.Prelude.{◌≡◌, ◌≤◌, ◌+◌, ◌*◌, ◌++◌, length, true, OnOk, OnErr, if◌then◌else◌};
ghost use Rattle.std.specs.Fmt.{decimal};
ghost use Rattle.defmt_forms.specs.Template.{IsSized, color_by, json_by, plain_by};
ghost use Rattle.defmt_forms.specs.Terminal.{tame};
ghost use Rattle.json.specs.Print.{escape};

use crate::pieces::Blocks;
use crate::quoted::put_escaped;
use dl_io::{Bytes, Memory};
use itoa::Buffer;

/// The bytes of a statement's lines that are the same in each of them, in one form.
#[derive(Drop)]
pub struct Template {
    /// Whether a line has a stamp.
    pub stamped: bool,
    // In an object what stands in front of the number of its piece's bytes, and what between that and the stamp.
    pub(crate) head: Bytes,
    pub(crate) between: Bytes,
    // What stands between the stamp and the text, and what behind the text.
    pub(crate) before: Bytes,
    pub(crate) behind: Bytes,
    // How many bytes these are together.
    pub(crate) size: usize,
    // The same pieces in blocks, where each is short.
    pub(crate) blocks: Option<Blocks>,
}

impl Template {
    /// Appends a plain line: its text and what stands behind it. On want of memory nothing was appended.
    pub fn add_plain(&self, text: &[u8], out: &mut Bytes) -> Result<(), Memory>
        requires sized { IsSized self.now }
        requires short { length text.now ≤ 65536 }
        ensures ok { OnOk result (out.new.items ≡ out.old.items ++ plain_by self.now text.now) }
        ensures err { OnErr result (out.new.items ≡ out.old.items) }
    {
        out.reserve(self.size + text.len())?;
        out.extend_reserved(text);
        put_end(self.behind.as_slice(), out);
        Ok(())
    }

    /// Appends a line with colors, whose stamp and text are the same for a terminal. On want of memory nothing was appended.
    pub fn add_color(&self, stamp: &[u8], own: &[u8], out: &mut Bytes) -> Result<(), Memory>
        requires sized { IsSized self.now }
        requires short { length stamp.now + length own.now ≤ 131072 }
        requires quiet { tame stamp.now ≡ stamp.now }
        requires tame { tame own.now ≡ own.now }
        ensures ok { OnOk result (out.new.items
            ≡ out.old.items ++ color_by self.now stamp.now own.now) }
        ensures err { OnErr result (out.new.items ≡ out.old.items) }
    {
        out.reserve(self.size + stamp.len() + own.len())?;
        out.extend_reserved(stamp);
        out.extend_reserved(self.before.as_slice());
        out.extend_reserved(own);
        put_end(self.behind.as_slice(), out);
        Ok(())
    }

    /// Appends an object with the number of the bytes of its piece. Where it is said so, its stamp and its text need no escape. On want
    /// of memory nothing was appended.
    pub fn add_json(
        &self,
        bytes: u32,
        bare: bool,
        stamp: &[u8],
        own: &[u8],
        out: &mut Bytes,
    ) -> Result<(), Memory>
        requires sized { IsSized self.now }
        requires short { length stamp.now + length own.now ≤ 131072 }
        requires stamp { bare ≡ true → escape stamp.now ≡ stamp.now }
        requires own { bare ≡ true → escape own.now ≡ own.now }
        ensures ok { OnOk result (out.new.items
            ≡ out.old.items ++ json_by self.now bytes stamp.now own.now) }
        ensures err { OnErr result (out.new.items ≡ out.old.items) }
    {
        let texts = stamp.len() + own.len();
        let most = if bare { texts } else { 6 * texts };
        out.reserve(self.size + 40 + most)?;
        out.extend_reserved(self.head.as_slice());
        put_number(bytes, out);
        out.extend_reserved(self.between.as_slice());
        put_shown(bare, stamp, out);
        out.extend_reserved(self.before.as_slice());
        put_shown(bare, own, out);
        out.extend_reserved(self.behind.as_slice());
        Ok(())
    }
}

// Appends the end of a line, which mostly is a newline alone, within the room.
#[inline(always)]
fn put_end(end: &[u8], out: &mut Bytes)
    requires { length end.now ≤ out.old.room }
    ensures { out.new.items ≡ out.old.items ++ end.now }
{
    match end {
        [only] => out.push_reserved(*only),
        _ => out.extend_reserved(end),
    }
}

// Appends a number in decimal digits, where there is room for forty bytes.
fn put_number(number: u32, out: &mut Bytes)
    requires { 40 ≤ out.old.room }
    ensures items { out.new.items ≡ out.old.items ++ decimal number }
    ensures room { out.old.room ≤ out.new.room + 40 }
{
    if number < 10 {
        return out.push_reserved(b'0' + number as u8);
    }
    if number < 100 {
        let digits = [b'0' + (number / 10) as u8, b'0' + (number % 10) as u8];
        return out.extend_reserved(&digits);
    }
    put_digits(number, out);
}

// The same, of any number. It stands apart, since most have one digit or two.
#[inline(never)]
fn put_digits(number: u32, out: &mut Bytes)
    requires { 40 ≤ out.old.room }
    ensures items { out.new.items ≡ out.old.items ++ decimal number }
    ensures room { out.old.room ≤ out.new.room + 40 }
{
    let mut digits = Buffer::new();
    out.extend_reserved(digits.format(number).as_bytes());
}

// Appends a text with its escapes, where there is room for six times as many bytes, or for as many where it needs none.
#[inline(always)]
fn put_shown(bare: bool, text: &[u8], out: &mut Bytes)
    requires bare { bare ≡ true → escape text.now ≡ text.now }
    requires room { (if bare then length text.now else 6 * length text.now) ≤ out.old.room }
    ensures items { out.new.items ≡ out.old.items ++ escape text.now }
    ensures room { out.old.room
        ≤ out.new.room + (if bare then length text.now else 6 * length text.now) }
{
    if bare {
        out.extend_reserved(text);
    } else {
        put_escaped(text, out);
    }
}

//! Texts.

ghost use Rattle.std.specs.Prelude.{◌≡◌, [], ◌++◌, ◌==◌, length, OnOk, OnErr, IfOk, encode_utf8};
ghost use Rattle.std.specs.Fmt.{decimal};
ghost use Rattle.std.specs.Str.{IsUtf8};
ghost use Rattle.std.specs.String.{string_bytes};

use crate::fault::Memory;
use std::alloc::Global;
use std::fmt::Write;
use std::marker::Model;

/// A text that grows, seen as the list of its bytes.
#[derive(Debug)]
pub struct Text {
    text: String,
}

// By hand: a derived drop is proved again in each crate that drops such a value.
impl Drop for Text {
    fn drop(self) {
        let Text { text: _ } = self;
    }
}

impl Model for Text {
    ghost use Rattle.std.specs.Prelude.{List, ℕ};
    ghost use Rattle.std.specs.String.{string_bytes};

    ghost Value = { List ℕ };

    ghost view = { λ t. string_bytes t.text };
}

impl Text {
    /// The empty text. It grows by this allocator. Takes no memory.
    pub fn new(alloc: Global) -> Self
        ensures { result ≡ [] }
    {
        Text {
            text: String::new(alloc),
        }
    }

    /// This string as a text. Takes no memory.
    pub fn from_string(text: String) -> Self
        ensures { result ≡ string_bytes text }
    {
        Text { text }
    }

    /// This text as a string. Takes no memory.
    pub fn into_string(self) -> String
        ensures { string_bytes result ≡ self }
    {
        let Text { text } = self;
        text
    }

    /// Appends a text. Where memory runs out the text is unchanged.
    pub fn push_str(&mut self, text: &str) -> Result<(), Memory>
        ensures ok { OnOk result (self.new ≡ self.old ++ text.now) }
        ensures err { OnErr result (self.new ≡ self.old) }
    {
        match self.text.push_str(text) {
            Ok(()) => Ok(()),
            Err(_) => Err(Memory),
        }
    }

    /// Appends a character. Where memory runs out the text is unchanged.
    pub fn push(&mut self, character: char) -> Result<(), Memory>
        ensures ok { OnOk result (self.new ≡ self.old ++ encode_utf8 character) }
        ensures err { OnErr result (self.new ≡ self.old) }
    {
        match self.text.push(character) {
            Ok(()) => Ok(()),
            Err(_) => Err(Memory),
        }
    }

    /// The text itself. Takes no memory.
    pub fn as_str(&self) -> &str
        ensures text { result.now ≡ self.now }
        ensures utf8 { IsUtf8 self.now }
    {
        self.text.as_str()
    }

    /// The allocator by which it grows.
    pub fn allocator(&self) -> Global {
        *self.text.allocator()
    }

    /// The number of bytes.
    pub fn len(&self) -> usize
        ensures { result ≡ length self.now }
    {
        self.text.len()
    }

    /// Whether the text has no bytes.
    pub fn is_empty(&self) -> bool
        ensures { result ≡ (length self.now == 0) }
    {
        self.text.is_empty()
    }

    /// Another text of the same bytes.
    pub fn copy(&self) -> Result<Text, Memory>
        ensures { IfOk result (λ text. text ≡ self.now) }
    {
        Ok(Text {
            text: self.text.clone()?,
        })
    }

    // Appends a number in decimal digits.
    pub(crate) fn push_number(&mut self, number: u16) -> Result<(), Memory>
        ensures { OnOk result (self.new ≡ self.old ++ decimal number) }
    {
        write!(self.text, "{number}")?;
        Ok(())
    }
}

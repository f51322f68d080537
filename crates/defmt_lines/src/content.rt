//! What a line of a script says.

ghost use Rattle.std.specs.Prelude.{◌≡◌, ◌<◌, true, unwrap_or};
ghost use Rattle.defmt_lines.specs.Line.{is_string_tag};

use crate::form::Form;
use defmt_intern::Tag;

/// A string of the table: `s NAME TAG TEXT`.
#[derive(Drop)]
pub struct EntryLine<'a> {
    /// The name, which may be spelled wrongly.
    pub name: &'a str,
    /// One of the ten tags that strings may have.
    pub tag: Tag,
    /// The text, which may be refused.
    pub text: &'a str,
    ghost of_string: { is_string_tag tag ≡ true },
}

/// What a writer does: the name and the arguments of its statement in `w WRITER NAME ARGS`, or a terminal and a text for it
/// in `t WRITER TERM TEXT`.
#[derive(Clone, Copy)]
pub struct ActionLine<'a> {
    /// The writer from 0 to 7, `None` for a number above 7.
    pub writer: Option<u8>,
    /// The field behind the writer.
    pub field: &'a str,
    /// The rest of the line.
    pub rest: &'a str,
    ghost of_eight: { unwrap_or writer 0 < 8 },
}

/// The words behind the first of a line that sets something.
#[derive(Clone, Copy)]
pub enum Words<'a> {
    /// One word.
    One(&'a str),
    /// Two words.
    Two(&'a str, &'a str),
}

/// What a line says.
#[derive(Drop)]
pub enum Line<'a> {
    /// Nothing: it is empty or a comment.
    Blank,
    /// A form of settings, and as many words as it has.
    Head(Form, Words<'a>),
    /// A string of the table.
    Entry(EntryLine<'a>),
    /// A form of actions, and what the writer does.
    Act(Form, ActionLine<'a>),
    /// It has no form of a line.
    Other,
}

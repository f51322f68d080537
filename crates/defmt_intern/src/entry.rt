//! Entries of a table.

ghost use Rattle.std.specs.Prelude.{◌≡◌, IfOk, MatchBool};
ghost use Rattle.defmt_intern.specs.Name.{tag_name, tag_of};

use defmt_grammar::Text;
use dl_io::Memory;
use std::alloc::Global;

/// What an entry's text is for.
///
/// A symbol name says it by one of eleven words (defmt book, "Interning"); every other word is `Other`.
#[derive(Debug, Drop)]
pub enum Tag {
    /// `defmt_trace`, a message of this level.
    Trace,
    /// `defmt_debug`, a message of this level.
    Debug,
    /// `defmt_info`, a message of this level.
    Info,
    /// `defmt_warn`, a message of this level.
    Warn,
    /// `defmt_error`, a message of this level.
    Error,
    /// `defmt_println`, a message without a level.
    Println,
    /// `defmt_prim`, the format of a primitive type.
    Prim,
    /// `defmt_derived`, the format of a type that derives it.
    Derived,
    /// `defmt_write`, the format that a body writes by itself.
    Write,
    /// `defmt_str`, an interned string.
    Interned,
    /// `defmt_timestamp`, the format of the time in front of each message.
    Timestamp,
    /// Any other word, kept as it is.
    Other(Text),
}

impl Tag {
    /// The word that stands for the tag in a symbol name.
    pub fn name(&self) -> &str
        ensures { result.now ≡ tag_name self.now }
    {
        match self {
            Tag::Trace => "defmt_trace",
            Tag::Debug => "defmt_debug",
            Tag::Info => "defmt_info",
            Tag::Warn => "defmt_warn",
            Tag::Error => "defmt_error",
            Tag::Println => "defmt_println",
            Tag::Prim => "defmt_prim",
            Tag::Derived => "defmt_derived",
            Tag::Write => "defmt_write",
            Tag::Interned => "defmt_str",
            Tag::Timestamp => "defmt_timestamp",
            Tag::Other(name) => name.as_str(),
        }
    }

    /// The tag that a word stands for. It is never an `Other` of one of the eleven words.
    #[tactic(auto, unfolding(crate::specs::Name::tag_of))]
    pub fn of_name(alloc: Global, name: &str) -> Result<Tag, Memory>
        ensures { IfOk result (λ tag. tag ≡ tag_of name.now) }
    {
        Ok(match name {
            "defmt_trace" => Tag::Trace,
            "defmt_debug" => Tag::Debug,
            "defmt_info" => Tag::Info,
            "defmt_warn" => Tag::Warn,
            "defmt_error" => Tag::Error,
            "defmt_println" => Tag::Println,
            "defmt_prim" => Tag::Prim,
            "defmt_derived" => Tag::Derived,
            "defmt_write" => Tag::Write,
            "defmt_str" => Tag::Interned,
            "defmt_timestamp" => Tag::Timestamp,
            _ => return Ok(Tag::Other(copy_of(alloc, name)?)),
        })
    }

    /// The same tag.
    pub fn copy(&self, alloc: Global) -> Result<Tag, Memory>
        ensures { IfOk result (λ tag. tag ≡ self.now) }
    {
        Ok(match self {
            Tag::Trace => Tag::Trace,
            Tag::Debug => Tag::Debug,
            Tag::Info => Tag::Info,
            Tag::Warn => Tag::Warn,
            Tag::Error => Tag::Error,
            Tag::Println => Tag::Println,
            Tag::Prim => Tag::Prim,
            Tag::Derived => Tag::Derived,
            Tag::Write => Tag::Write,
            Tag::Interned => Tag::Interned,
            Tag::Timestamp => Tag::Timestamp,
            Tag::Other(name) => return Ok(Tag::Other(copy_of(alloc, name.as_str())?)),
        })
    }
}

/// One entry of a table.
pub struct Entry {
    /// What the text is for.
    pub tag: Tag,
    /// The name of the package that has the text.
    pub package: Text,
    /// The format string, or the interned string.
    pub text: Text,
    /// What tells two entries apart that are alike otherwise.
    pub disambiguator: Text,
}

// By hand: a derived drop is proved again in each crate that drops such a value.
impl Drop for Entry {
    fn drop(self) {
        let Entry {
            tag: _,
            package: _,
            text: _,
            disambiguator: _,
        } = self;
    }
}

impl Entry {
    /// Whether the entry is a timestamp's.
    pub fn is_stamp(&self) -> bool
        ensures { MatchBool result (self.now.tag ≡ Tag.Timestamp)
            (self.now.tag ≡ Tag.Timestamp → ⊥) }
    {
        matches!(self.tag, Tag::Timestamp)
    }

    /// The same entry.
    pub fn copy(&self, alloc: Global) -> Result<Entry, Memory>
        ensures { IfOk result (λ entry. entry ≡ self.now) }
    {
        let tag = self.tag.copy(alloc)?;
        entry_of(
            alloc,
            tag,
            self.package.as_str(),
            self.text.as_str(),
            self.disambiguator.as_str(),
        )
    }
}

/// A text of its own with the same characters.
pub fn copy_of(alloc: Global, text: &str) -> Result<Text, Memory>
    ensures { IfOk result (λ copy. copy ≡ text.now) }
{
    let mut copy = Text::new(alloc);
    match copy.push_str(text) {
        Ok(()) => Ok(copy),
        Err(_) => Err(Memory),
    }
}

/// The entry of a tag and these strings.
pub fn entry_of(
    alloc: Global,
    tag: Tag,
    owner: &str,
    text: &str,
    disambiguator: &str,
) -> Result<Entry, Memory>
    ensures tag { IfOk result (λ entry. entry.tag ≡ tag) }
    ensures owner { IfOk result (λ entry. entry.«package» ≡ owner.now) }
    ensures text { IfOk result (λ entry. entry.text ≡ text.now) }
    ensures disambiguator { IfOk result (λ entry. entry.disambiguator ≡ disambiguator.now) }
{
    Ok(Entry {
        tag,
        package: copy_of(alloc, owner)?,
        text: copy_of(alloc, text)?,
        disambiguator: copy_of(alloc, disambiguator)?,
    })
}

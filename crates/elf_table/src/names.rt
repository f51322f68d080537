//! Names whose members are all strings, as `symbol_name` and defmt's macros write them, are read with no tree of them: at once where they
//! have no spaces and escapes, else a token at a time. Every other name is read by `read_name`.

ghost use Rattle.std.specs.Prelude.{◌≡◌, ℕ, List, IfOk, IfSome};
ghost use Rattle.std.specs.Str.{IsUtf8};
ghost use Rattle.json.specs.Lex.{tokens};
ghost use Rattle.elf_table.specs.Members.{IsObjectOf};
ghost use Rattle.defmt_intern.specs.Name.{Names, ReadsName};

use crate::members::{Texts, object_texts};
use crate::quick::quick_texts;
use defmt_grammar::Text;
use defmt_intern::{Entry, NameFault, Tag, read_name};
use dl_io::Memory;
use json::{Reader, Scratch};
use std::alloc::Global;

// A text of its own with the same characters.
fn copy_of(alloc: Global, text: &str) -> Result<Text, Memory>
    ensures { IfOk result (λ copy. copy ≡ text.now) }
{
    let mut copy = Text::new(alloc);
    match copy.push_str(text) {
        Ok(()) => Ok(copy),
        Err(_) => Err(Memory),
    }
}

// The entry of an object's texts, where none of the four is missing.
fn entry_with(alloc: Global, texts: Texts<'_>) -> Result<Option<Entry>, Memory>
    ensures { IfOk result (λ r. IfSome r (λ entry. (name : List ℕ) → IsUtf8 name
        → IsObjectOf (tokens name) texts.entry → Names name entry)) }
{
    let Texts {
        package: Some(package),
        tag: Some(tag),
        text: Some(text),
        disambiguator: Some(disambiguator),
    } = texts
    else {
        return Ok(None);
    };
    Ok(Some(Entry {
        tag: Tag::of_name(alloc, tag)?,
        package: copy_of(alloc, package)?,
        text: copy_of(alloc, text)?,
        disambiguator: copy_of(alloc, disambiguator)?,
    }))
}

// The entry that a name says whose members are all strings.
fn plain_entry(alloc: Global, scratch: &mut Scratch, name: &[u8]) -> Result<Option<Entry>, Memory>
    ensures { IfOk result (λ r. IfSome r (Names name.now)) }
{
    let Ok(name) = str::from_utf8(name) else {
        return Ok(None);
    };
    if let Some(texts) = quick_texts(name) {
        return entry_with(alloc, texts);
    }
    let mut reader = Reader::new(name, scratch)?;
    match object_texts(&mut reader) {
        Some(texts) => entry_with(alloc, texts),
        None => Ok(None),
    }
}

/// The entry that a name says, as [`read_name`] answers.
pub fn entry_of(alloc: Global, scratch: &mut Scratch, name: &[u8]) -> Result<Entry, NameFault>
    ensures { ReadsName name.now result }
{
    match plain_entry(alloc, scratch, name)? {
        Some(entry) => Ok(entry),
        None => read_name(alloc, name),
    }
}

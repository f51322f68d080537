//! Symbol names, which are JSON objects.

ghost use Rattle.std.specs.Prelude.{◌≡◌, IfOk, Some, option_and_then, option_map};
ghost use Rattle.defmt_intern.specs.Name.{HoldsObject, IsSpelled, Names, IsNoObject, LacksKey, ReadsName, ReadsObject, GivesOnly, GivesJson, GivesKey, object_with, written};
ghost use Rattle.defmt_intern.specs.declared.entry.Entry.{Entry as AnyEntry};
ghost use Rattle.defmt_intern.specs.declared.name.NameKey.{NameKey as AnyKey};
ghost use Rattle.serde_json.specs.Find.{get, as_str};
ghost use Rattle.serde_json.specs.View.{view};
ghost use Rattle.serde_json.specs.Written.{compact_text};

use crate::entry::{Entry, Tag, entry_of};
use defmt_grammar::Text;
use dl_io::Memory;
use serde_json::{Value, json};
use std::alloc::{AllocError, Global};

/// A key that a symbol name must have, with a string.
#[derive(Clone, Copy, Debug, Drop)]
pub enum NameKey {
    /// `package`
    Package,
    /// `tag`
    Tag,
    /// `data`, the format string
    Data,
    /// `disambiguator`
    Disambiguator,
}

/// Why a symbol name doesn't read as an entry.
#[derive(Clone, Copy, Debug, Drop)]
pub enum NameFault {
    /// The bytes aren't one JSON object.
    Json,
    /// The first of `package`, `tag`, `data` and `disambiguator` that is missing or isn't a string.
    Key { key: NameKey },
    /// Want of memory.
    Memory,
}

impl From<Memory> for NameFault {
    ghost use Rattle.std.specs.Prelude.{◌≡◌};
    ghost use Rattle.defmt_intern.specs.declared.name.NameFault.TheVariants.{Memory as OutOfMemory};

    ghost from_gives = { λ _ e. e ≡ OutOfMemory };

    fn from(_: Memory) -> NameFault {
        NameFault::Memory
    }
}

// The object of these four strings.
fn object_with(
    alloc: Global,
    owner: &str,
    tag: &str,
    text: &str,
    disambiguator: &str,
) -> Result<Value, AllocError>
    ensures { IfOk result (λ v. view v ≡ object_with owner.now tag.now text.now disambiguator.now) }
{
    json!(in alloc; {"package": owner, "tag": tag, "data": text, "disambiguator": disambiguator})
}

/// The symbol name of an entry: compact JSON with the keys `data`, `disambiguator`, `package` and `tag`, in this order.
pub fn symbol_name(alloc: Global, entry: &Entry) -> Result<Text, Memory>
    ensures text { IfOk result (λ name. name ≡ compact_text (written entry.now)) }
    // What was written reads back, unless an `Other` spells one of the eleven tags.
    ensures read_back { IfOk result (λ name. IsSpelled entry.now.tag → Names name entry.now) }
{
    let value = object_with(
        alloc,
        entry.package.as_str(),
        entry.tag.name(),
        entry.text.as_str(),
        entry.disambiguator.as_str(),
    )?;
    let text = value.to_string(alloc)?;
    Ok(Text::from_string(text))
}

// The string at a key.
fn text_at<'a>(value: &'a Value, key: &str) -> Option<&'a str>
    ensures { option_map (λ s. s.now) result
        ≡ option_and_then as_str (get key.now (view value.now)) }
{
    value.get(key).and_then(Value::as_str)
}

// The value that the bytes are as JSON, where it is an object.
fn object_of(alloc: Global, name: &[u8]) -> Result<Value, NameFault>
    ensures { ReadsObject name.now result }
{
    let value = match Value::from_slice(alloc, name) {
        Ok(value) => value,
        Err(error) => {
            return Err(if error.is_memory() {
                NameFault::Memory
            } else {
                NameFault::Json
            });
        }
    };
    if !value.is_object() {
        return Err(NameFault::Json);
    }
    Ok(value)
}

// The entry that a name says whose object is at hand.
fn entry_in(alloc: Global, name: &[u8], value: &Value) -> Result<Entry, NameFault>
    requires { HoldsObject name.now (view value.now) }
    ensures { ReadsName name.now result }
{
    let _ = name;
    let Some(package) = text_at(value, "package") else {
        return Err(NameFault::Key {
            key: NameKey::Package,
        });
    };
    let Some(tag) = text_at(value, "tag") else {
        return Err(NameFault::Key { key: NameKey::Tag });
    };
    let Some(data) = text_at(value, "data") else {
        return Err(NameFault::Key { key: NameKey::Data });
    };
    let Some(disambiguator) = text_at(value, "disambiguator") else {
        return Err(NameFault::Key {
            key: NameKey::Disambiguator,
        });
    };
    let tag = Tag::of_name(alloc, tag)?;
    Ok(entry_of(alloc, tag, package, data, disambiguator)?)
}

/// The entry that a symbol name says: one JSON object with the four keys of [`NameKey`].
///
/// Further keys are passed over, whatever their values, and of equal keys the last counts. JSON is what `serde_json`
/// reads: up to 127 arrays and objects in one another.
pub fn read_name(alloc: Global, name: &[u8]) -> Result<Entry, NameFault>
    // An entry only where the bytes name it, and a fault only where it stands.
    ensures answer { ReadsName name.now result }
    // Unless memory runs out, what is named is answered, and each fault.
    ensures named { (entry : AnyEntry) → Names name.now entry → GivesOnly result entry }
    ensures no_object { IsNoObject name.now → GivesJson result }
    ensures lacks { (key : AnyKey) → LacksKey name.now key → GivesKey result key }
{
    let value = object_of(alloc, name)?;
    entry_in(alloc, name, &value)
}

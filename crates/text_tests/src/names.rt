//! Symbol names: what an entry's is, and what names read as.
use crate::rows;
use crate::shared::{entry_of, put_visible};
use defmt_grammar::Text;
use defmt_intern::{Entry, NameFault, NameKey, Tag, read_name, symbol_name};
use std::alloc::Global;
use std::fmt::Write;
use std::test::Fail;
use test_rows::{bytes_of, each_line, put_str};

const WRITTEN: &str =
    r#"defmt_info 68 65 6c 6c 6f = 74 bytes {"data":"hello","disambiguator":"1","package":"script","tag":"defmt_info"}
defmt_str 61 22 62 5c 0a 01 c3 a9 = 84 bytes {"data":"a\"b\\\n\u0001é","disambiguator":"1","package":"script","tag":"defmt_str"}"#;

const READ: &str =
    r#"{"data":"a\"b\\\n\u0001é","disambiguator":"1","package":"script","tag":"defmt_str"} = defmt_str, script, 1, a"b\<0a><01>é
{"package":"p","crate_name":"c","tag":"defmt_warn","x":{"tag":[1,{"data":2}]},"data":"first","disambiguator":"9","data":"last"} = defmt_warn, p, 9, last
{"package":"p","tag":"defmt_bitflags","data":"d","disambiguator":"9"} = other defmt_bitflags, p, 9, d
{ = no object
[] = no object
{}{} = no object
hex 7b 22 61 22 3a 22 ff 22 7d = no object
{"tag":"defmt_info"} = no package
{"package":"p","tag":7} = no tag
{"package":"p","tag":"t"} = no data
{"package":"p","tag":"t","data":"","disambiguator":null} = no disambiguator"#;

fn name_of(alloc: Global, tag: &str, text: &str) -> Result<Text, Fail> {
    let entry = entry_of(alloc, tag, text)?;
    Ok(symbol_name(alloc, &entry)?)
}

fn put_name(alloc: Global, tag: &str, text: &str, out: &mut String) -> Result<(), Fail> {
    let name = name_of(alloc, tag, text)?;
    Ok(write!(out, "{} bytes {}", name.len(), name.as_str())?)
}

/// Puts the symbol name of an entry of this tag, whose text's bytes are given.
pub fn put_written(alloc: Global, input: &str, out: &mut String) -> Result<(), Fail> {
    let (tag, digits) = input.split_once(' ').ok_or("no text")?;
    let bytes = bytes_of(alloc, digits)?;
    put_name(alloc, tag, str::from_utf8(bytes.as_slice())?, out)
}

fn put_read_entry(entry: &Entry, out: &mut String) -> Result<(), Fail> {
    let front = match entry.tag {
        Tag::Other(_) => "other ",
        _ => "",
    };
    write!(
        out,
        "{front}{}, {}, {}, ",
        entry.tag.name(),
        entry.package.as_str(),
        entry.disambiguator.as_str()
    )?;
    put_visible(entry.text.as_str(), out)
}

fn fault_text(fault: NameFault) -> &'static str {
    match fault {
        NameFault::Json => "no object",
        NameFault::Key {
            key: NameKey::Package,
        } => "no package",
        NameFault::Key { key: NameKey::Tag } => "no tag",
        NameFault::Key { key: NameKey::Data } => "no data",
        NameFault::Key {
            key: NameKey::Disambiguator,
        } => "no disambiguator",
        NameFault::Memory => "memory",
    }
}

fn put_read(alloc: Global, name: &[u8], out: &mut String) -> Result<(), Fail> {
    match read_name(alloc, name) {
        Ok(entry) => put_read_entry(&entry, out),
        Err(fault) => put_str(out, fault_text(fault)),
    }
}

/// Puts what a name reads as, which stands as it is or as `hex` and the digits of its bytes.
pub fn put_name_text(alloc: Global, input: &str, out: &mut String) -> Result<(), Fail> {
    match input.strip_prefix("hex ") {
        Some(digits) => put_read(alloc, bytes_of(alloc, digits)?.as_slice(), out),
        None => put_read(alloc, input.as_bytes(), out),
    }
}

#[test]
fn names_are_compact_json_and_read_or_refused_and_the_last_of_equal_keys_counts(
    rt: HostRuntime,
) -> Result<(), Fail> {
    each_line(rt.alloc(), WRITTEN, 2, &rows::Kind::Written)?;
    each_line(rt.alloc(), READ, 11, &rows::Kind::NameText)
}

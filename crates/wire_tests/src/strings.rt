//! The strings that rows of messages and events are told by.
use defmt_grammar::Text;
use defmt_intern::{Entry, Profile, Table, Tag};
use defmt_script::{Script, read};
use std::alloc::Global;
use std::test::Fail;

pub fn script_of(alloc: Global, text: &str) -> Result<Script, Fail> {
    if text.len() > 100_000 {
        return Err(Fail::new("long"));
    }
    Ok(read(alloc, text.as_bytes())?)
}

fn text_of(alloc: Global, text: &str) -> Result<Text, Fail> {
    Ok(Text::from_string(String::from_str(alloc, text)?))
}

fn entry_of(alloc: Global, tag: &str, text: &str) -> Result<Entry, Fail> {
    Ok(Entry {
        tag: Tag::of_name(alloc, tag)?,
        package: text_of(alloc, "script")?,
        text: text_of(alloc, text)?,
        disambiguator: text_of(alloc, "1")?,
    })
}

/// A table of lines `TAG TEXT` from the index 1 on, also one that no script has; in the second profile where a line says so.
pub fn table_of(alloc: Global, lines: &str) -> Result<Table, Fail> {
    let mut table = Table::new(alloc);
    for line in lines.lines() {
        if line == "two" {
            table.set_profile(Profile::Two);
        } else {
            let (tag, text) = line.split_once(' ').unwrap_or((line, ""));
            table.add(entry_of(alloc, tag, text)?)?;
        }
    }
    Ok(table)
}

/// Puts a newline, where something stands before it.
pub fn end_line(out: &mut String) -> Result<(), Fail> {
    if !out.is_empty() {
        out.push('\n')?;
    }
    Ok(())
}

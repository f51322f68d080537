//! Scripts, tables and printed texts of rows.
use defmt_grammar::{GrammarFault, Language, Mode, Pieces, Text, parse};
use defmt_intern::{Entry, Table, TableFault, Tag};
use defmt_script::{Script, ScriptFault, read};
use std::alloc::Global;
use std::fmt::Write;
use std::test::Fail;

// How many bytes a text has at most whose pieces a row asks for.
const LONGEST_TEXT: usize = 4096;

/// The pieces of a text that is short.
pub fn pieces_of(alloc: Global, text: &str, mode: Mode) -> Result<Pieces, GrammarFault> {
    if text.len() > LONGEST_TEXT {
        return Err(GrammarFault::Memory);
    }
    parse(alloc, text, mode)
}

/// The script of a text that is short.
pub fn script_of(alloc: Global, text: &str) -> Result<Script, ScriptFault> {
    if text.len() > 100_000 {
        return Err(ScriptFault::Memory);
    }
    read(alloc, text.as_bytes())
}

/// The language of a row's table or script, and the rest of its input: the full one where `full` stands in front.
pub fn language_of(input: &str) -> (Language, &str) {
    match input.strip_prefix("full ") {
        Some(rest) => (Language::Full, rest),
        None => (Language::Base, input),
    }
}

/// What a script of a language begins with.
pub fn head_of(language: Language) -> &'static str {
    match language {
        Language::Base => "",
        Language::Full => "language full\n",
    }
}

/// Puts a text, with each control character as `<0a>`.
pub fn put_visible(text: &str, out: &mut String) -> Result<(), Fail> {
    for character in text.chars() {
        if character.is_control() {
            write!(out, "<{:02x}>", u32::from(character))?;
        } else {
            out.push(character)?;
        }
    }
    Ok(())
}

fn push_repeated(text: &mut Text, part: &str, count: u16) -> Result<(), Fail> {
    for _ in 0..count {
        text.push_str(part)?;
    }
    Ok(())
}

// Appends the text itself, or of `a*3` the part in front so many times.
fn push_spelled(text: &mut Text, spelled: &str) -> Result<(), Fail> {
    match spelled.split_once('*') {
        Some((part, count)) => push_repeated(text, part, count.parse::<u16>()?),
        None => push_repeated(text, spelled, 1),
    }
}

/// The text itself, or of `a*3` the part in front so many times.
pub fn text_of(alloc: Global, spelled: &str) -> Result<Text, Fail> {
    let mut text = Text::new(alloc);
    push_spelled(&mut text, spelled)?;
    Ok(text)
}

fn fill(entry: &mut Entry, text: &str) -> Result<(), Fail> {
    entry.package.push_str("script")?;
    entry.disambiguator.push_str("1")?;
    push_spelled(&mut entry.text, text)
}

/// The entry of a tag and a text, of the package `script`.
pub fn entry_of(alloc: Global, tag: &str, text: &str) -> Result<Entry, Fail> {
    let mut entry = Entry {
        tag: Tag::of_name(alloc, tag)?,
        package: Text::new(alloc),
        text: Text::new(alloc),
        disambiguator: Text::new(alloc),
    };
    fill(&mut entry, text)?;
    Ok(entry)
}

fn put_at(table: &mut Table, index: u16, entry: Entry) -> Result<u16, TableFault> {
    match table.insert(index, entry) {
        Ok(()) => Ok(index),
        Err(fault) => Err(fault),
    }
}

/// Puts the entry of a line `INDEX TAG TEXT` into the table, behind the others where the index is `-`, and answers where it is.
pub fn put(alloc: Global, table: &mut Table, line: &str) -> Result<Result<u16, TableFault>, Fail> {
    let (index, rest) = line.split_once(' ').ok_or("no tag")?;
    let (tag, text) = rest.split_once(' ').ok_or("no text")?;
    if index == "-" {
        return Ok(table.add(entry_of(alloc, tag, text)?));
    }
    let index = index.parse::<u16>()?;
    Ok(put_at(table, index, entry_of(alloc, tag, text)?))
}

/// The table of such lines, of a language.
pub fn table_in(alloc: Global, language: Language, lines: &str) -> Result<Table, Fail> {
    let mut table = Table::of_language(alloc, language);
    for line in lines.lines() {
        put(alloc, &mut table, line)??;
    }
    Ok(table)
}

/// The table of such lines, of the base language.
pub fn table_of(alloc: Global, lines: &str) -> Result<Table, Fail> {
    table_in(alloc, Language::Base, lines)
}

//! The lines of statements, and the templates of these lines, in each form.
ghost use Rattle.std.specs.Prelude.{◌≡◌, ◌++◌, ◌&&◌, true, drop, take, is_some, IfOk, IfSome, OnOk};
ghost use Rattle.std.specs.Option.{option_copied};
ghost use Rattle.defmt_forms.specs.Json.{line_object};
ghost use Rattle.defmt_forms.specs.Terminal.{color_line};
ghost use Rattle.defmt_recording.specs.Output.{ended};
ghost use Rattle.defmt_recording.specs.Styled.{IsWhole, level_at, package_at, stamp_in, statement_text};
ghost use Rattle.defmt_recording.specs.Templates.{IsTemplate};

use defmt_decode::Parts;
use defmt_forms::{
    Template, add_color_line, add_json_line, add_plain_line, color_template, json_template,
    plain_template,
};
use defmt_hooks::{Level, level_of};
use defmt_intern::Table;
use defmt_places::Places;
use defmt_words::{Form, Style};
use dl_io::{Bytes, Memory};
use std::alloc::Global;

// A statement with a longer package or place has no template.
const NAME_LIMIT: usize = 1_024;

/// Appends the line of a statement and a newline, by the parts of its text. On want of memory it isn't said what was appended.
pub fn add_statement(
    style: &Style,
    table: &Table,
    places: &Places,
    index: u16,
    parts: &Parts,
    text: &[u8],
    out: &mut Bytes,
) -> Result<(), Memory>
    ensures { OnOk result (out.new.items ≡ out.old.items ++ ended
        (statement_text style.now table.now.entries places.now index parts.now text.now)) }
{
    let place = places.get(index);
    match style.form {
        Form::Plain => add_plain_line(text, place, out),
        Form::Color => add_color(table, index, parts, text, place, out),
        Form::Json => add_json(table, index, parts, text, place, out),
    }
}

/// Whether of each line that is printed its text and a newline are, and none is counted.
pub fn is_whole(style: &Style, places: &Places) -> bool
    ensures { result ≡ true → IsWhole style.now places.now }
{
    matches!(style.form, Form::Plain) && style.fail_on.is_none() && places.is_empty()
}

/// The template by which the lines of an index are printed. There is none where it would be long.
pub fn template_of(
    alloc: Global,
    style: &Style,
    table: &Table,
    places: &Places,
    index: u16,
) -> Result<Option<Template>, Memory>
    ensures { IfOk result (λ made. IfSome made
        (λ t. IsTemplate style.now table.now.entries places.now index t)) }
{
    let place = places.get(index);
    let owner = package_at(table, index);
    if owner.len() > NAME_LIMIT || is_long(place) {
        return Ok(None);
    }
    let level = level_at(table, index);
    let stamped = is_stamped(table.stamp(), level);
    match style.form {
        Form::Plain => plain_template(alloc, place),
        Form::Color => color_template(alloc, stamped, level, place),
        Form::Json => json_template(alloc, index, stamped, level, owner, place),
    }
}

fn is_long(place: Option<&str>) -> bool {
    match place {
        Some(place) => place.len() > NAME_LIMIT,
        None => false,
    }
}

// Whether the lines of a level are printed with a stamp by a table with this stamp's entry.
fn is_stamped(stamp: Option<u16>, level: Option<Level>) -> bool
    ensures { result ≡ (is_some stamp && is_some level) }
{
    stamp.is_some() && level.is_some()
}

fn add_color(
    table: &Table,
    index: u16,
    parts: &Parts,
    text: &[u8],
    place: Option<&str>,
    out: &mut Bytes,
) -> Result<(), Memory>
    ensures { OnOk result (out.new.items ≡ out.old.items ++ ended (color_line
        (stamp_in table.now.entries index parts.now text.now) (level_at table.now.entries index)
        (drop parts.now.front text.now) (option_copied place.entry))) }
{
    let stamp = stamp_of(table, index, parts, text);
    let own = behind(text, parts.front);
    add_color_line(stamp, level_at(table, index), own, place, out)
}

fn add_json(
    table: &Table,
    index: u16,
    parts: &Parts,
    text: &[u8],
    place: Option<&str>,
    out: &mut Bytes,
) -> Result<(), Memory>
    ensures { OnOk result (out.new.items ≡ out.old.items ++ ended (line_object
        index parts.now.bytes (stamp_in table.now.entries index parts.now text.now)
        (level_at table.now.entries index) (package_at table.now.entries index)
        (drop parts.now.front text.now) (option_copied place.entry))) }
{
    let stamp = stamp_of(table, index, parts, text);
    let level = level_at(table, index);
    let owner = package_at(table, index);
    let own = behind(text, parts.front);
    add_json_line(index, parts.bytes, stamp, level, owner, own, place, out)
}

/// The level of the entry at an index.
pub fn level_at(table: &Table, index: u16) -> Option<Level>
    ensures { result ≡ level_at table.now.entries index }
{
    match table.get(index) {
        Some(entry) => level_of(&entry.tag),
        None => None,
    }
}

/// The package of the entry at an index.
pub fn package_at(table: &Table, index: u16) -> &str
    ensures { result.now ≡ package_at table.now.entries index }
{
    match table.get(index) {
        Some(entry) => entry.package.as_str(),
        None => "",
    }
}

// The stamp's text of a line, where it is printed with one.
fn stamp_of<'a>(table: &Table, index: u16, parts: &Parts, text: &'a [u8]) -> Option<&'a [u8]>
    ensures { option_copied result ≡ stamp_in table.now.entries index parts.now text.now }
{
    match (table.stamp(), level_at(table, index)) {
        (Some(_), Some(_)) => Some(front(text, parts.stamp)),
        _ => None,
    }
}

/// So many bytes at the front, or all.
pub fn front(text: &[u8], count: u32) -> &[u8]
    ensures { result.now ≡ take count text.now }
{
    &text[..(count as usize).min(text.len())]
}

/// What stands behind so many bytes.
pub fn behind(text: &[u8], count: u32) -> &[u8]
    ensures { result.now ≡ drop count text.now }
{
    &text[(count as usize).min(text.len())..]
}

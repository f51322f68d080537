//! The lines of statements by their templates.
ghost use Rattle.std.specs.Prelude.{◌≡◌, ◌≤◌, ◌+◌, ◌++◌, None, false, true, length, take, drop, slice_index_or, IfNone, IfOk, IfSome, OnOk, OnErr, if◌then◌else◌};
ghost use Rattle.std.specs.Option.{option_copied};
ghost use Rattle.defmt_forms.specs.Placed.{Placed};
ghost use Rattle.defmt_forms.specs.Template.{IsSized};
ghost use Rattle.defmt_recording.specs.Templates.{AreTemplates, SameSlots, filled};
ghost use Rattle.defmt_words.specs.declared.style.Form.TheVariants.{Color, Json};

use crate::statement::{behind, front, template_of};
use defmt_decode::Parts;
use defmt_forms::{Template, is_bare_text, is_quiet_text, place_color, place_json, place_plain};
use defmt_intern::Table;
use defmt_places::Places;
use defmt_words::{Form, Style};
use dl_io::{Bytes, Memory};
use std::alloc::Global;

// The indexes below this have templates, so that what they take is bounded.
const INDEXES: usize = 4_096;

// A longer text goes into none.
const TEXT_LIMIT: usize = 65_536;

/// The template of an index, where there is one.
pub fn template_at(templates: &[Option<Template>], index: u16) -> Option<&Template>
    ensures { option_copied result ≡ slice_index_or templates.now index None }
{
    match templates.get(index as usize) {
        Some(Some(template)) => Some(template),
        _ => None,
    }
}

/// Makes the template of an index, where there is none and it may have one. On want of memory those that were there still are.
#[inline(never)]
pub fn learn(
    alloc: Global,
    style: &Style,
    table: &Table,
    places: &Places,
    templates: &mut Vec<Option<Template>>,
    index: u16,
) -> Result<(), Memory>
    requires { AreTemplates style.now table.now.entries places.now templates.old.items }
    ensures { AreTemplates style.now table.now.entries places.now templates.new.items }
{
    let at = index as usize;
    if at >= INDEXES || template_at(templates, index).is_some() {
        return Ok(());
    }
    let made = template_of(alloc, style, table, places, index)?;
    grow(templates, at + 1)?;
    templates[at] = made;
    Ok(())
}

// Makes empty slots until there are this many.
fn grow(templates: &mut Vec<Option<Template>>, count: usize) -> Result<(), Memory>
    ensures room { OnOk result (count ≤ length templates.new.items) }
    ensures same { SameSlots templates.old.items templates.new.items }
{
    'each: while templates.len() < count {
        templates.push(None)?;
    }
    Ok(())
}

/// Appends the line of a statement and a newline by its template, and answers whether it did. Where it didn't, nothing was appended, nor
/// on want of memory.
pub fn add_by_template(
    form: Form,
    template: &Template,
    parts: &Parts,
    text: &[u8],
    out: &mut Bytes,
) -> Result<bool, Memory>
    requires { IsSized template.now }
    ensures done { IfOk result (λ so. so ≡ true → out.new.items
        ≡ out.old.items ++ filled form template.now parts.now text.now) }
    ensures same { IfOk result (λ so. so ≡ false → out.new.items ≡ out.old.items) }
    ensures err { OnErr result (out.new.items ≡ out.old.items) }
{
    if text.len() > TEXT_LIMIT {
        return Ok(false);
    }
    match form {
        Form::Plain => {
            template.add_plain(text, out)?;
            Ok(true)
        }
        Form::Color => add_color(template, parts, text, out),
        Form::Json => add_json(template, parts, text, out),
    }
}

/// Makes the line of a statement and a newline by its template of its text, which stands behind a place of a buffer, there, and answers where
/// that ends. Where it doesn't, the buffer is as before.
#[inline(always)]
pub fn place_by_template(
    form: Form,
    template: &Template,
    parts: &Parts,
    text: &mut [u8],
    at: usize,
    size: usize,
) -> Option<usize>
    requires sized { IsSized template.now }
    requires within { at + size ≤ length text.old }
    ensures some { IfSome result (λ end. Placed text.old at text.new end
        (filled form template.now parts.now (take size (drop at text.old)))) }
    ensures none { IfNone result (text.new ≡ text.old) }
{
    let stamp = stamp_size(template, parts) as usize;
    let front = parts.front as usize;
    match form {
        Form::Plain => place_plain(template, text, at, size),
        Form::Color => place_color(template, text, at, size, stamp, front),
        Form::Json => place_json(template, parts.bytes, text, at, size, stamp, front),
    }
}

fn add_color(
    template: &Template,
    parts: &Parts,
    text: &[u8],
    out: &mut Bytes,
) -> Result<bool, Memory>
    requires sized { IsSized template.now }
    requires short { length text.now ≤ 65536 }
    ensures done { IfOk result (λ so. so ≡ true → out.new.items
        ≡ out.old.items ++ filled Color template.now parts.now text.now) }
    ensures same { IfOk result (λ so. so ≡ false → out.new.items ≡ out.old.items) }
    ensures err { OnErr result (out.new.items ≡ out.old.items) }
{
    if !is_quiet_text(text) {
        return Ok(false);
    }
    let stamp = front(text, stamp_size(template, parts));
    let own = behind(text, parts.front);
    template.add_color(stamp, own, out)?;
    Ok(true)
}

fn add_json(
    template: &Template,
    parts: &Parts,
    text: &[u8],
    out: &mut Bytes,
) -> Result<bool, Memory>
    requires sized { IsSized template.now }
    requires short { length text.now ≤ 65536 }
    ensures done { IfOk result (λ so. so ≡ true → out.new.items
        ≡ out.old.items ++ filled Json template.now parts.now text.now) }
    ensures same { IfOk result (λ so. so ≡ false → out.new.items ≡ out.old.items) }
    ensures err { OnErr result (out.new.items ≡ out.old.items) }
{
    let bare = is_bare_text(text);
    let stamp = front(text, stamp_size(template, parts));
    let own = behind(text, parts.front);
    template.add_json(parts.bytes, bare, stamp, own, out)?;
    Ok(true)
}

// How many bytes at the front of a text are its stamp's.
fn stamp_size(template: &Template, parts: &Parts) -> u32
    ensures { result ≡ (if template.now.stamped then parts.now.stamp else 0) }
{
    if template.stamped { parts.stamp } else { 0 }
}

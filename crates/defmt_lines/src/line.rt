//! The reading of a line.

ghost use Rattle.std.specs.Prelude.{◌≡◌, ◌<◌, ◌++◌, ℕ, List, true, IfSome, codes, option_copied, option_map};
ghost use Rattle.std.specs.Fmt.{decimal};
ghost use Rattle.defmt_grammar.specs.Cut.{cut, parts_of};
ghost use Rattle.defmt_lines.specs.Line.{Line as Said, Says, act, act_of, by_form, entry_of, field_and_rest, is_blank, is_string_tag, line_of, line_of_text, one_field, one_word, tag_of, text_of, two_fields, two_words, line_by_word};
ghost use Rattle.defmt_lines.specs.LineView.{line_view};
ghost use Rattle.defmt_lines.specs.declared.form.Form.TheVariants.{Statement as StatementForm};

use crate::content::{ActionLine, EntryLine, Line, Words};
use crate::form::{Form, form_of};
use crate::number::writer_of;
use defmt_intern::Tag;

/// What a line says.
#[inline(never)]
pub fn read_line(line: &[u8]) -> Line<'_>
    ensures { Says line.now (line_view result) }
{
    line_of(line)
}

/// The same of a line that is known to be UTF-8.
pub fn read_text_line(line: &str) -> Line<'_>
    ensures { Says line.now (line_view result) }
{
    line_of_text(line)
}

/// A line says one thing.
pub fn one_line()
    ensures { (bytes : List ℕ) (line other : Said) → Says bytes line → Says bytes other
        → line ≡ other }
{}

#[tactic(auto, unfolding(crate::specs::Line::line_of))]
fn line_of(line: &[u8]) -> Line<'_>
    ensures { line_view result ≡ line_of line.now }
{
    let Some(text) = text_of(line) else {
        return Line::Other;
    };
    line_of_text(text)
}

/// The statement that a line is, where its front tells, as that of most lines does. Of other lines nothing is said.
#[inline(always)]
pub fn read_statement(line: &str) -> Option<ActionLine<'_>>
    ensures { IfSome result
        (λ a. Says line.now (act StatementForm a.writer a.field.now a.rest.now)) }
{
    let Some((writer, behind)) = statement_front(line) else {
        return None;
    };
    let (field, rest) = field_and_rest(behind);
    Some(ActionLine {
        writer: Some(writer),
        field,
        rest,
    })
}

// What a line says that is a text.
fn line_of_text(text: &str) -> Line<'_>
    ensures { line_view result ≡ line_of_text text.now }
{
    if is_blank(text.as_bytes()) {
        return Line::Blank;
    }
    match line_by_word(text) {
        Some(line) => line,
        None => Line::Other,
    }
}

// The bytes as a text, where these are UTF-8.
fn text_of(bytes: &[u8]) -> Option<&str>
    ensures { option_copied result ≡ text_of bytes.now }
{
    match str::from_utf8(bytes) {
        Ok(text) => Some(text),
        Err(_) => None,
    }
}

fn is_blank(line: &[u8]) -> bool
    ensures { result ≡ is_blank line.now }
{
    match line {
        [] => true,
        [first, ..] => *first == b'#',
    }
}

// The writer of a statement, where it is one digit from 0 to 7, and what follows it.
fn statement_front(text: &str) -> Option<(u8, &str)>
    ensures text { IfSome result (λ p.
        text.now ≡ codes "w " ++ (decimal p.0 ++ (codes " " ++ p.1.now))) }
    ensures of_eight { IfSome result (λ p. p.0 < 8) }
{
    let [b'w', b' ', digit, b' ', ..] = text.as_bytes() else {
        return None;
    };
    let digit = *digit;
    if digit < b'0' || b'7' < digit {
        return None;
    }
    let (_, behind) = text.split_at(4);
    Some((digit - b'0', behind))
}

// A line by its first word.
#[tactic(auto, unfolding(crate::specs::Line::line_by_word))]
fn line_by_word(text: &str) -> Option<Line<'_>>
    ensures { option_map line_view result ≡ line_by_word text.now }
{
    let (word, rest) = cut(text)?;
    let form = form_of(word)?;
    by_form(form, rest)
}

fn by_form(form: Form, rest: &str) -> Option<Line<'_>>
    ensures { option_map line_view result ≡ by_form form rest.now }
{
    match form {
        Form::Language => one_word(Form::Language, rest),
        Form::Ring => one_word(Form::Ring, rest),
        Form::Mode => one_word(Form::Mode, rest),
        Form::Reader => one_word(Form::Reader, rest),
        Form::Stamp => two_words(Form::Stamp, rest),
        Form::Profile => one_word(Form::Profile, rest),
        Form::Order => two_words(Form::Order, rest),
        Form::Entry => entry_of(rest),
        Form::Statement => act_of(Form::Statement, rest),
        Form::Say => act_of(Form::Say, rest),
    }
}

fn one_word(form: Form, rest: &str) -> Option<Line<'_>>
    ensures { option_map line_view result ≡ one_word form rest.now }
{
    Some(Line::Head(form, Words::One(one_field(rest)?)))
}

fn two_words(form: Form, rest: &str) -> Option<Line<'_>>
    ensures { option_map line_view result ≡ two_words form rest.now }
{
    let (first, second) = two_fields(rest)?;
    Some(Line::Head(form, Words::Two(first, second)))
}

// What stands before and after the first space.
fn cut(text: &str) -> Option<(&str, &str)>
    ensures { parts_of result ≡ cut 32 text.now }
{
    for (i, byte) in text.as_bytes().iter().enumerate() {
        if *byte == b' ' {
            return Some((&text[..i], &text[i + 1..]));
        }
    }
    None
}

// The text, where it is one field.
#[tactic(auto, unfolding(crate::specs::Line::one_field))]
fn one_field(text: &str) -> Option<&str>
    ensures { option_copied result ≡ one_field text.now }
{
    match cut(text) {
        Some(_) => None,
        None => Some(text),
    }
}

#[tactic(auto, unfolding(crate::specs::Line::two_fields))]
fn two_fields(text: &str) -> Option<(&str, &str)>
    ensures { parts_of result ≡ two_fields text.now }
{
    let (first, rest) = cut(text)?;
    Some((first, one_field(rest)?))
}

// A field and what follows it: where nothing follows, the space may be missing.
#[tactic(auto, unfolding(crate::specs::Line::field_and_rest))]
fn field_and_rest(text: &str) -> (&str, &str)
    ensures field { result.0.now ≡ (field_and_rest text.now).0 }
    ensures rest { result.1.now ≡ (field_and_rest text.now).1 }
{
    match cut(text) {
        Some(parts) => parts,
        None => (text, ""),
    }
}

// The tag of a word, of which an `s` line has ten.
fn tag_of(word: &str) -> Option<Tag>
    ensures value { result ≡ tag_of word.now }
    ensures of_string { IfSome result (λ tag. is_string_tag tag ≡ true) }
{
    match word {
        "defmt_trace" => Some(Tag::Trace),
        "defmt_debug" => Some(Tag::Debug),
        "defmt_info" => Some(Tag::Info),
        "defmt_warn" => Some(Tag::Warn),
        "defmt_error" => Some(Tag::Error),
        "defmt_println" => Some(Tag::Println),
        "defmt_prim" => Some(Tag::Prim),
        "defmt_derived" => Some(Tag::Derived),
        "defmt_write" => Some(Tag::Write),
        "defmt_str" => Some(Tag::Interned),
        _ => None,
    }
}

// The string of a line `s NAME TAG TEXT`, behind its `s`.
#[tactic(auto, unfolding(crate::specs::Line::entry_of))]
fn entry_of(text: &str) -> Option<Line<'_>>
    ensures { option_map line_view result ≡ entry_of text.now }
{
    let (name, rest) = cut(text)?;
    let (word, text) = field_and_rest(rest);
    let tag = tag_of(word)?;
    Some(Line::Entry(EntryLine { name, tag, text }))
}

// What a writer does, behind the first word of a line of this form.
#[tactic(auto, unfolding(crate::specs::Line::act_of))]
fn act_of(form: Form, text: &str) -> Option<Line<'_>>
    ensures { option_map line_view result ≡ act_of form text.now }
{
    let (digits, behind) = cut(text)?;
    let writer = writer_of(digits)?;
    let (field, rest) = field_and_rest(behind);
    Some(Line::Act(
        form,
        ActionLine {
            writer,
            field,
            rest,
        },
    ))
}

//! The lines of scripts: where they are cut, what each says, and what the first lines set.
use crate::rows::Kind;
use crate::texts::{inside_of, put_digits_or_nothing, put_language, put_profile, put_settings};
use defmt_grammar::Language;
use defmt_intern::Tag;
use defmt_lines::{
    ActionLine, Cause, EntryLine, Form, Line, Settings, Words, judge, next_line, read_line,
};
use defmt_shapes::is_name;
use std::alloc::Global;
use std::fmt::Write;
use std::test::Fail;
use test_rows::{bytes_of, each_line, put_str};

// A text; its first line, and what comes after it.
const CUTS: &str = "\
61 0d 0a 62 0d = 61 | 62 0d
62 0d = 62 0d | nothing";

// A line, and what it says.
const LINES: &str = "\
<> = blank
<#> = blank
<language full> = language <full>
<language > = language <>
<language full 1> = other
<language> = other
<ring 64> = ring <64>
<ring > = ring <>
<ring 64 > = other
<ring> = other
<mode skip> = mode <skip>
<reader late> = reader <late>
<stamp 1 2> = stamp <1> <2>
<stamp 1> = other
<profile 2> = profile <2>
<profile 1 2> = other
<d 4 warn> = order <4> <warn>
<d 4> = other
<s a defmt_info  b c > = entry <a> defmt_info < b c >
<s a defmt_str> = entry <a> defmt_str <>
<s a defmt_timestamp x> = other
<w 007 hi  1> = statement 7 <hi> < 1>
<w 8 hi> = statement above <hi> <>
<w 0 > = statement 0 <> <>
<w 0> = other
<w +1 hi> = other
<t 0 A tick  tock > = say 0 <A> <tick  tock >
<t 07 0> = say 7 <0> <>
<t 8  x> = say above <> <x>
<t 0> = other
<t x 0 y> = other
<tt 0 0 y> = other";

// The same of bytes that are no text.
const BYTES: &str = "\
23 20 ff = other";

// A line, and what is set by it, or why it is refused.
const SETTINGS: &str = "\
<language full> = ring 1024 block live language full
<language base> = cause 1
<language Full> = cause 1
<language > = cause 1
<ring 16> = ring 16 block live
<ring 064> = cause 6
<ring 65537> = cause 6
<mode skip> = ring 1024 skip live
<mode trim> = ring 1024 trim live
<mode > = cause 7
<reader live> = ring 1024 block live
<reader late> = cause 8
<stamp 0 281474976710656> = ring 1024 block live stamp 0 281474976710656
<stamp 007 1> = cause 13
<profile 1> = ring 1024 block live
<profile 2> = ring 1024 block live profile 2
<profile 3> = cause 15
<profile 02> = cause 15
<profile > = cause 15
<d 4096 trace> = ring 1024 block live order 4096 Trace
<d 4097 trace> = cause 19";

// A tag and a text, and in front of them the language where it is the full one; the number of the fault for which the text is
// refused.
const TEXTS: &str = "\
defmt_info {=u8} = taken
defmt_info a|{=u9} = refused 2
defmt_prim a|{ = refused 1
defmt_prim {|} = refused 1
defmt_str { = taken
defmt_info {=f32} = refused 8
defmt_info {=u8:ts} = refused 3
full defmt_info {=f32:ts} = taken
full defmt_derived A|B{=__internal_FormatSequence} = taken
full defmt_info {=u8:z} = refused 3
full defmt_prim a|{=f16} = refused 2";

const NAMES: &str = "\
a_1 = true
1a = false";

fn put_parts(text: &[u8], out: &mut String) -> Result<(), Fail> {
    if text.is_empty() {
        return Err(Fail::new("no text"));
    }
    let (line, rest) = next_line(text);
    put_digits_or_nothing(out, line)?;
    put_str(out, " | ")?;
    put_digits_or_nothing(out, rest)
}

pub fn put_cut(alloc: Global, digits: &str, out: &mut String) -> Result<(), Fail> {
    let text = bytes_of(alloc, digits)?;
    put_parts(&text, out)
}

fn put_entry(line: &EntryLine<'_>, out: &mut String) -> Result<(), Fail> {
    let (name, tag, text) = (line.name, line.tag.name(), line.text);
    Ok(write!(out, "entry <{name}> {tag} <{text}>")?)
}

/// The name of a form in rows.
pub fn name_of(form: Form) -> &'static str {
    match form {
        Form::Language => "language",
        Form::Ring => "ring",
        Form::Mode => "mode",
        Form::Reader => "reader",
        Form::Stamp => "stamp",
        Form::Profile => "profile",
        Form::Order => "order",
        Form::Entry => "entry",
        Form::Statement => "statement",
        Form::Say => "say",
    }
}

fn put_words(form: Form, words: &Words<'_>, out: &mut String) -> Result<(), Fail> {
    let name = name_of(form);
    match words {
        Words::One(word) => Ok(write!(out, "{name} <{word}>")?),
        Words::Two(first, second) => Ok(write!(out, "{name} <{first}> <{second}>")?),
    }
}

fn put_action(form: Form, line: &ActionLine<'_>, out: &mut String) -> Result<(), Fail> {
    let (name, field, rest) = (name_of(form), line.field, line.rest);
    match line.writer {
        Some(writer) => Ok(write!(out, "{name} {writer} <{field}> <{rest}>")?),
        None => Ok(write!(out, "{name} above <{field}> <{rest}>")?),
    }
}

fn put_said(line: &Line<'_>, out: &mut String) -> Result<(), Fail> {
    match line {
        Line::Blank => put_str(out, "blank"),
        Line::Head(form, words) => put_words(*form, words, out),
        Line::Entry(entry) => put_entry(entry, out),
        Line::Act(form, line) => put_action(*form, line, out),
        Line::Other => put_str(out, "other"),
    }
}

pub fn put_said_by_text(row: &str, out: &mut String) -> Result<(), Fail> {
    put_said(&read_line(inside_of(row)?.as_bytes()), out)
}

pub fn put_said_by_bytes(alloc: Global, digits: &str, out: &mut String) -> Result<(), Fail> {
    let bytes = bytes_of(alloc, digits)?;
    put_said(&read_line(&bytes), out)
}

// What a line sets that stands alone.
fn set_by(line: Line<'_>) -> Option<Result<Settings, Cause>> {
    match line {
        Line::Head(form, words) => Some(Settings::new().with_words(form, words)),
        _ => None,
    }
}

// The first order, where there is one.
fn put_first_order(set: &Settings, out: &mut String) -> Result<(), Fail> {
    match set.orders.get(0) {
        Some((number, level)) => Ok(write!(out, " order {number} {level:?}")?),
        None => Ok(()),
    }
}

pub fn put_setting(row: &str, out: &mut String) -> Result<(), Fail> {
    match set_by(read_line(inside_of(row)?.as_bytes())) {
        Some(Ok(set)) => {
            put_settings(set.ring, set.mode, set.late, set.stamp, out)?;
            put_language(set.language, out)?;
            put_profile(set.profile, out)?;
            put_first_order(&set, out)
        }
        Some(Err(cause)) => Ok(write!(out, "cause {}", cause.number())?),
        None => put_str(out, "no setting"),
    }
}

fn verdict_of(alloc: Global, language: Language, row: &str) -> Result<Option<u8>, Fail> {
    let (tag, text) = row.split_once(' ').unwrap_or((row, ""));
    let tag = Tag::of_name(alloc, tag)?;
    Ok(judge(alloc, language, &tag, text)?)
}

pub fn put_verdict(alloc: Global, row: &str, out: &mut String) -> Result<(), Fail> {
    let verdict = match row.strip_prefix("full ") {
        Some(row) => verdict_of(alloc, Language::Full, row)?,
        None => verdict_of(alloc, Language::Base, row)?,
    };
    match verdict {
        Some(number) => Ok(write!(out, "refused {number}")?),
        None => put_str(out, "taken"),
    }
}

pub fn put_name(row: &str, out: &mut String) -> Result<(), Fail> {
    put_str(out, if is_name(row) { "true" } else { "false" })
}

#[test]
fn a_carriage_return_is_passed_over_before_a_newline_alone(rt: HostRuntime) -> Result<(), Fail> {
    each_line(rt.alloc(), CUTS, 2, &Kind::CutOf)
}

#[test]
fn lines_are_cut_at_every_space_where_they_are_texts(rt: HostRuntime) -> Result<(), Fail> {
    each_line(rt.alloc(), LINES, 32, &Kind::SaidByText)?;
    each_line(rt.alloc(), BYTES, 1, &Kind::SaidByBytes)
}

#[test]
fn settings_are_decimal_numbers_and_words(rt: HostRuntime) -> Result<(), Fail> {
    each_line(rt.alloc(), SETTINGS, 21, &Kind::SettingOf)
}

#[test]
fn a_text_is_read_by_its_tag_and_a_name_begins_with_a_letter(rt: HostRuntime) -> Result<(), Fail> {
    each_line(rt.alloc(), TEXTS, 11, &Kind::VerdictOf)?;
    each_line(rt.alloc(), NAMES, 2, &Kind::NameOf)
}

//! What scripts say, and the first line for which a text is none.
use crate::rows::Kind;
use crate::texts::{
    put_args, put_language, put_lines, put_profile, put_settings, put_whole, script_of,
};
use defmt_intern::Entry;
use defmt_script::{Script, ScriptFault, Step, read};
use std::alloc::Global;
use std::fmt::Write;
use std::test::Fail;
use test_rows::{each_line, expect, put_str};

const FULL: &str =
    "ring 64\nmode skip\nreader late\nstamp 1000 250\nprofile 2\nd 7 info\nd 0 error\ns a defmt_info a {=u8}\r\n\ns b defmt_warn b {=bool}\n# note\nw 0 a 1\nt 0 A tick\nw 1 b true\nw 0 a 2\nt 0 0 \nw 1 b false\nt 1 F done";

// The settings, the strings by their indexes, the statements of each writer with their indexes, and its texts, each with its
// terminal and how many of the writer's statements stand in front, and below these its steps.
const FULL_SAYS: &str = "\
ring 64 skip late stamp 1000 250 profile 2 order 7 Info order 0 Error
a = 1: script defmt_info 1 <a {=u8}>
b = 2: script defmt_warn 2 <b {=bool}>
none = 3: script defmt_timestamp 3 <{=u64:us}>
writer 0 has 2: 1 <1>, 1 <2>
writer 1 has 2: 2 <true>, 2 <false>
writer 0 says 2: 10 <tick> behind 1, 0 <> behind 2
log say log say
writer 1 says 1: 15 <done> behind 2
log log say
";

const PLAIN: &str = "s hi defmt_info hello\nw 0 hi\n";

const PLAIN_SAYS: &str = "\
ring 1024 block live
hi = 1: script defmt_info 1 <hello>
writer 0 has 1: 1 <>
";

// Texts, in which ` / ` stands for a newline, and the first line that is refused.
const REFUSALS: &str = "\
stamp 0 0 = read
mode skip / ring 64 = line 2 cause 1 inner 0
w 0 = line 1 cause 1 inner 0
w 0 hi = line 1 cause 2 inner 0
s p defmt_prim p / w 0 p = line 2 cause 2 inner 0
s a defmt_info / s a defmt_info { = line 2 cause 3 inner 0
s v defmt_info {=u8} / w 0 v x( = line 2 cause 4 inner 1
s v defmt_info {=u8} / w 0 v = line 2 cause 4 inner 2
s v defmt_info {=u8} / w 0 v true = line 2 cause 4 inner 3
s v defmt_info {=u8} / w 0 v 256 = line 2 cause 4 inner 4
s h defmt_info {=?} / w 0 h nobody() = line 2 cause 4 inner 5
s a defmt_info / w 8 b = line 2 cause 5 inner 0
ring 64\r = line 1 cause 6 inner 0
mode  = line 1 cause 7 inner 0
reader late = line 1 cause 8 inner 0
s b defmt_info {=u8:z} = line 1 cause 10 inner 3
stamp 007 1 = line 1 cause 13 inner 0
profile 3 = line 1 cause 15 inner 0
profile 1 / profile 1 = line 2 cause 1 inner 0
profile 2 / stamp 0 0 = line 2 cause 1 inner 0
profile 2 / reader late = line 2 cause 1 inner 0
t 0 A tick = read
t 0 0 = read
t 0 0 x / w 0 hi = line 2 cause 2 inner 0
t 0 0 x / s a defmt_info = line 2 cause 1 inner 0
t 0 = line 1 cause 1 inner 0
t 8 G a\tb = line 1 cause 5 inner 0
t 0 G a\tb = line 1 cause 16 inner 0
t 0 a x = line 1 cause 16 inner 0
t 0 10 x = line 1 cause 16 inner 0
t 0  x = line 1 cause 16 inner 0
t 0 F a\tb = line 1 cause 17 inner 0
t 0 9 \u{7f} = line 1 cause 17 inner 0
d 0 warn / d 4096 trace / s a defmt_info a = read
stamp 0 0 / d 1 error = read
d 0 warn / profile 2 = line 2 cause 1 inner 0
d 0 warn / stamp 0 0 = line 2 cause 1 inner 0
s a defmt_info a / d 0 warn = line 2 cause 1 inner 0
d 0 = line 1 cause 1 inner 0
d 4097 warn = line 1 cause 19 inner 0
d 007 warn = line 1 cause 19 inner 0
d 1 Warn = line 1 cause 19 inner 0";

// The same, where `<PART*COUNT>` stands for a part that is repeated.
const LIMITS: &str = r#"s say defmt_info {=str} / w 0 say "<a*1994>" = read
s say defmt_info {=str} / w 0 say "<a*1995>" = line 2 cause 9 inner 0
profile 2 / s say defmt_info {=str} / w 0 say "<a*1992>" = read
profile 2 / s say defmt_info {=str} / w 0 say "<a*1993>" = line 3 cause 9 inner 0
s d defmt_info {=[u8]:#0255b} / w 0 d #<00*255> = read
s d defmt_info {=[u8]:#0255b} / w 0 d #<00*256> = line 2 cause 12 inner 0
s e defmt_prim {<|*255> = line 1 cause 10 inner 0
s t defmt_info <t*4096> = read
s t defmt_info <t*4097> = line 1 cause 10 inner 0
<d 1 info / *64>s hi defmt_info = read
<d 1 info / *65>s hi defmt_info = line 65 cause 11 inner 0
<d 1 info / *64>d 1 x = line 65 cause 19 inner 0
s hi defmt_info / <w 0 hi / *4096> = read
s hi defmt_info / <w 0 hi / *4097> = line 4098 cause 11 inner 0
t 0 F <x*2000> = read
t 0 F <x*2001> = line 1 cause 17 inner 0
<t 7 0 x / *4096> = read
<t 7 0 x / *4097> = line 4097 cause 11 inner 0
s n defmt_prim {} / s z defmt_prim z / s g defmt_info {} / w 0 g <n(*15>z()<)*15> = read
s n defmt_prim {} / s z defmt_prim z / s g defmt_info {} / w 0 g <n(*16>z()<)*16> = line 4 cause 4 inner 6"#;

fn put_entry(entry: &Entry, out: &mut String) -> Result<(), Fail> {
    let (package, tag) = (entry.package.as_str(), entry.tag.name());
    let (number, text) = (entry.disambiguator.as_str(), entry.text.as_str());
    Ok(write!(out, "{package} {tag} {number} <{text}>\n")?)
}

// The string at an index, whose name is found again.
fn put_string(script: &Script, index: u16, out: &mut String) -> Result<(), Fail> {
    let name = script.names().name_of(index).unwrap_or("none");
    let back = script.names().get(name).unwrap_or(index);
    write!(out, "{name} = {back}: ")?;
    match script.table().get(index) {
        Some(entry) => put_entry(entry, out),
        None => put_str(out, "no entry\n"),
    }
}

// The strings at the indexes 1, 2, 3 and so on.
fn put_strings(script: &Script, out: &mut String) -> Result<(), Fail> {
    for index in 1..100u16 {
        if u32::from(index) > script.table().len() {
            break;
        }
        put_string(script, index, out)?;
    }
    Ok(())
}

// The statements of a writer up to the first that isn't there.
fn put_writer(alloc: Global, script: &Script, writer: u8, out: &mut String) -> Result<(), Fail> {
    write!(out, "writer {writer} has {}: ", script.count(writer))?;
    let mut gap = "";
    for place in 0..100 {
        let Some(stm) = script.statement(writer, place) else {
            break;
        };
        write!(out, "{gap}{} ", stm.index)?;
        put_args(alloc, script.names(), script.table(), stm, out)?;
        gap = ", ";
    }
    Ok(out.push('\n')?)
}

// Puts a text of a writer behind a gap, and answers whether it is there.
fn put_text(
    script: &Script,
    writer: u8,
    place: u32,
    gap: &str,
    out: &mut String,
) -> Result<bool, Fail> {
    let Some((terminal, text)) = script.said(writer, place) else {
        return Ok(false);
    };
    let behind = match script.speech().get(writer, place) {
        Some(saying) => saying.behind(),
        None => 9999,
    };
    write!(out, "{gap}{terminal} <{text}> behind {behind}")?;
    Ok(true)
}

// The texts of a writer up to the first that isn't there.
fn put_texts(script: &Script, writer: u8, out: &mut String) -> Result<(), Fail> {
    write!(out, "writer {writer} says {}: ", script.count_said(writer))?;
    let mut gap = "";
    for place in 0..100 {
        if !put_text(script, writer, place, gap, out)? {
            break;
        }
        gap = ", ";
    }
    Ok(out.push('\n')?)
}

// The steps of a writer.
fn put_steps(script: &Script, writer: u8, out: &mut String) -> Result<(), Fail> {
    let mut gap = "";
    for number in 0..100 {
        let word = match script.step(writer, number) {
            Some(Step::Log) => "log",
            Some(Step::Say) => "say",
            None => break,
        };
        write!(out, "{gap}{word}")?;
        gap = " ";
    }
    Ok(out.push('\n')?)
}

// The statements of the writers that have some.
fn put_writers(alloc: Global, script: &Script, out: &mut String) -> Result<(), Fail> {
    for writer in 0..9u8 {
        if script.count(writer) > 0 || script.statement(writer, 0).is_some() {
            put_writer(alloc, script, writer, out)?;
        }
    }
    Ok(())
}

// The texts of the writers that say some, and their steps.
fn put_speakers(script: &Script, out: &mut String) -> Result<(), Fail> {
    for writer in 0..9u8 {
        if script.count_said(writer) > 0 || script.said(writer, 0).is_some() {
            put_texts(script, writer, out)?;
            put_steps(script, writer, out)?;
        }
    }
    Ok(())
}

// The orders of levels.
fn put_orders(script: &Script, out: &mut String) -> Result<(), Fail> {
    for number in 0..100 {
        let Some((frames, level)) = script.order(number) else {
            break;
        };
        write!(out, " order {frames} {level:?}")?;
    }
    Ok(())
}

fn put_script(alloc: Global, script: &Script, out: &mut String) -> Result<(), Fail> {
    put_settings(
        script.ring(),
        script.mode(),
        script.late(),
        script.stamp(),
        out,
    )?;
    put_language(script.table().language(), out)?;
    put_profile(script.profile(), out)?;
    put_orders(script, out)?;
    out.push('\n')?;
    put_strings(script, out)?;
    put_writers(alloc, script, out)?;
    put_speakers(script, out)
}

/// What the script of a text says.
pub fn said(alloc: Global, text: &str) -> Result<String, Fail> {
    let script = script_of(alloc, text)?;
    let mut out = String::new(alloc);
    put_script(alloc, &script, &mut out)?;
    Ok(out)
}

fn put_fault(fault: &ScriptFault, out: &mut String) -> Result<(), Fail> {
    match fault {
        ScriptFault::Refused { line, cause, inner } => {
            Ok(write!(out, "line {line} cause {cause} inner {inner}")?)
        }
        ScriptFault::Memory => put_str(out, "memory"),
    }
}

fn put_verdict(alloc: Global, text: &str, out: &mut String) -> Result<(), Fail> {
    if text.len() > 100_000 {
        return Err(Fail::new("long"));
    }
    match read(alloc, text.as_bytes()) {
        Ok(_) => put_str(out, "read"),
        Err(fault) => put_fault(&fault, out),
    }
}

pub fn put_refusal(alloc: Global, row: &str, out: &mut String) -> Result<(), Fail> {
    let mut text = String::new(alloc);
    put_lines(row, &mut text)?;
    put_verdict(alloc, text.as_str(), out)
}

pub fn put_refusal_at_limit(alloc: Global, row: &str, out: &mut String) -> Result<(), Fail> {
    let mut text = String::new(alloc);
    put_whole(row, &mut text)?;
    put_verdict(alloc, text.as_str(), out)
}

#[test]
fn a_script_has_what_its_lines_say_and_defaults(rt: HostRuntime) -> Result<(), Fail> {
    let told = said(rt.alloc(), FULL)?;
    expect(told.as_str(), FULL_SAYS)?;
    let told = said(rt.alloc(), PLAIN)?;
    expect(told.as_str(), PLAIN_SAYS)
}

#[test]
fn the_first_refused_line_is_told_with_its_first_cause_and_texts_have_limits(
    rt: HostRuntime,
) -> Result<(), Fail> {
    each_line(rt.alloc(), REFUSALS, 42, &Kind::RefusalOf)?;
    each_line(rt.alloc(), LIMITS, 20, &Kind::RefusalAtLimit)
}

//! The texts of rows, and their scripts. Texts that begin or end with a space, or are empty, stand between `<` and `>`.
use defmt_grammar::Language;
use defmt_intern::{Profile, Table};
use defmt_lines::RingMode;
use defmt_script::{Script, read};
use defmt_spelling::{Names, print_args};
use defmt_values::Statement;
use std::alloc::Global;
use std::fmt::Write;
use std::test::Fail;
use test_rows::{put_digits, put_str};

/// What stands between the brackets.
pub fn inside_of(text: &str) -> Result<&str, Fail> {
    let Some(rest) = text.strip_prefix('<') else {
        return Err(Fail::new("no bracket"));
    };
    match rest.strip_suffix('>') {
        Some(inside) => Ok(inside),
        None => Err(Fail::new("no bracket")),
    }
}

/// Puts the digits of bytes, `nothing` where there are none.
pub fn put_digits_or_nothing(out: &mut String, bytes: &[u8]) -> Result<(), Fail> {
    if bytes.is_empty() {
        return put_str(out, "nothing");
    }
    put_digits(out, bytes)
}

/// The script of a text.
pub fn script_of(alloc: Global, text: &str) -> Result<Script, Fail> {
    if text.len() > 100_000 {
        return Err(Fail::new("long"));
    }
    Ok(read(alloc, text.as_bytes())?)
}

/// Puts the arguments of a statement as they are written, between the brackets.
pub fn put_args(
    alloc: Global,
    names: &Names,
    table: &Table,
    stm: &Statement,
    out: &mut String,
) -> Result<(), Fail> {
    let text = print_args(alloc, names, table, stm)?;
    Ok(write!(out, "<{}>", text.as_str())?)
}

fn mode_said(mode: RingMode) -> &'static str {
    match mode {
        RingMode::Block => "block",
        RingMode::Skip => "skip",
        RingMode::Trim => "trim",
    }
}

/// Puts the profile, where it is the second.
pub fn put_profile(profile: Profile, out: &mut String) -> Result<(), Fail> {
    match profile {
        Profile::One => Ok(()),
        Profile::Two => put_str(out, " profile 2"),
    }
}

/// Puts the language, where it is the full one.
pub fn put_language(language: Language, out: &mut String) -> Result<(), Fail> {
    match language {
        Language::Base => Ok(()),
        Language::Full => put_str(out, " language full"),
    }
}

/// Puts what the lines between the language and the profile set.
pub fn put_settings(
    ring: u32,
    mode: RingMode,
    late: bool,
    stamp: Option<(u64, u64)>,
    out: &mut String,
) -> Result<(), Fail> {
    let mode = mode_said(mode);
    let reader = if late { "late" } else { "live" };
    write!(out, "ring {ring} {mode} {reader}")?;
    match stamp {
        Some((base, step)) => Ok(write!(out, " stamp {base} {step}")?),
        None => Ok(()),
    }
}

/// Puts the text with a newline for each ` / `.
pub fn put_lines(row: &str, text: &mut String) -> Result<(), Fail> {
    let mut first = true;
    for line in row.split(" / ") {
        if !first {
            text.push('\n')?;
        }
        put_str(text, line)?;
        first = false;
    }
    Ok(())
}

fn put_repeated(part: &str, text: &mut String) -> Result<(), Fail> {
    let (part, count) = part.split_once('*').unwrap_or((part, "1"));
    for _ in 0..count.parse::<u32>()? {
        put_lines(part, text)?;
    }
    Ok(())
}

/// The same, with each part in brackets as often as it says.
pub fn put_whole(row: &str, text: &mut String) -> Result<(), Fail> {
    for piece in row.split('>') {
        let (plain, part) = piece.split_once('<').unwrap_or((piece, ""));
        put_lines(plain, text)?;
        put_repeated(part, text)?;
    }
    Ok(())
}

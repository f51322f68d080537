//! The quick readers of values beside the general one, on the same texts.
use crate::rows::Kind;
use crate::texts::inside_of;
use defmt_grammar::Language;
use defmt_shapes::{
    Number, Spelling, bytes_of, first_value, quick_bytes, quick_decimal, quick_flag,
    quick_negative, quick_quoted, unescape,
};
use std::alloc::Global;
use std::fmt::Write;
use std::test::Fail;
use test_rows::{each_line, put_digits, put_str};

// A text, whether a quick reader reads the value in front or all leave it to the general one, what that reads, and how many
// bytes stand behind it. Values that no quick reader is for are told as others.
const VALUES: &str = r#"<0> = quick decimal 0, behind 0
<7 8> = quick decimal 7, behind 2
<007> = quick decimal 7, behind 0
<0000000000000000000000000000000000000000000000255 x> = quick decimal 255, behind 2
<18446744073709551599> = quick decimal 18446744073709551599, behind 0
<18446744073709551600> = left decimal 18446744073709551600, behind 0
<18446744073709551615> = left decimal 18446744073709551615, behind 0
<18446744073709551616> = left decimal 18446744073709551616, behind 0
<340282366920938463463374607431768211455 > = left decimal 340282366920938463463374607431768211455, behind 1
<340282366920938463463374607431768211456> = left decimal above, behind 0
<0x1f> = left hexadecimal 31, behind 0
<1_000> = left none
<_1> = left none
<+7> = left none
<7)> = left none
<7a> = left none
< 7> = left none
<> = left none
<-0> = quick negative 0, behind 0
<-007 x> = quick negative 7, behind 2
<-128> = quick negative 128, behind 0
<-9223372036854775808> = quick negative 9223372036854775808, behind 0
<-18446744073709551599> = quick negative 18446744073709551599, behind 0
<-18446744073709551600> = left negative 18446744073709551600, behind 0
<-170141183460469231731687303715884105728> = left negative 170141183460469231731687303715884105728, behind 0
<-> = left none
<--1> = left none
<- 1> = left none
<-0x1> = left none
<true> = quick flag true, behind 0
<false true> = quick flag false, behind 5
<falsey> = left none
<True> = left none
<true(1)> = left another, behind 0
<true:300(1) x> = left another, behind 2
<""> = quick text <>, behind 0
<"port 7" x> = quick text <port 7>, behind 2
<"aä€𝄞"> = quick text <aä€𝄞>, behind 0
<"it's (" ")"> = quick text <it's (>, behind 4
<"a\"b" x> = left text <a"b>, behind 2
<"a\\"> = left text <a\>, behind 0
<"\u{e4}\u{1d11e}"> = left text <ä𝄞>, behind 0
<"\q"> = left none
<"a> = left none
<"a"b> = left none
<"a""> = left none
<#> = quick bytes <>, behind 0
<# 0a> = quick bytes <>, behind 3
<#00Ff x> = quick bytes <00 ff>, behind 2
<#000102030405060708090a0b0c0d0e0f> = quick bytes <00 01 02 03 04 05 06 07 08 09 0a 0b 0c 0d 0e 0f>, behind 0
<#0> = left none
<#0g> = left none
<#0a)> = left none
<'a'> = left another, behind 0
<@name> = left another, behind 0
<[]> = left another, behind 0
<k(1)> = left another, behind 0"#;

/// Puts what both ways say, where it is the same, behind the word for whether the quick way was taken.
pub fn put_both(quick: bool, near: &str, far: &str, out: &mut String) -> Result<(), Fail> {
    put_str(out, if quick { "quick " } else { "left " })?;
    put_str(out, near)?;
    if near != far {
        write!(out, ", the other way {far}")?;
    }
    Ok(())
}

fn put_number(number: Number, out: &mut String) -> Result<(), Fail> {
    match number {
        Number::Within(number) => Ok(write!(out, "{number}")?),
        Number::Above => put_str(out, "above"),
    }
}

fn put_bytes(bytes: &[u8], out: &mut String) -> Result<(), Fail> {
    put_str(out, "bytes <")?;
    put_digits(out, bytes)?;
    put_str(out, ">")
}

// What the general reader says of a value.
fn put_meant(alloc: Global, spelling: Spelling<'_>, out: &mut String) -> Result<(), Fail> {
    match spelling {
        Spelling::Decimal(number, _) => {
            put_str(out, "decimal ")?;
            put_number(number, out)
        }
        Spelling::Hexadecimal(number) => {
            put_str(out, "hexadecimal ")?;
            put_number(number, out)
        }
        Spelling::Negative(number, _) => {
            put_str(out, "negative ")?;
            put_number(number, out)
        }
        Spelling::Flag(flag) => Ok(write!(out, "flag {flag}")?),
        Spelling::Quoted(inside) => Ok(write!(
            out,
            "text <{}>",
            unescape(alloc, inside)?.as_str()
        )?),
        Spelling::Bytes(digits) => put_bytes(bytes_of(alloc, digits)?.as_slice(), out),
        _ => put_str(out, "another"),
    }
}

fn put_general(alloc: Global, text: &str, out: &mut String) -> Result<(), Fail> {
    match first_value(alloc, Language::Base, text)? {
        Some((spelling, rest)) => {
            put_meant(alloc, spelling, out)?;
            put_behind(rest, out)
        }
        None => put_str(out, "none"),
    }
}

fn put_behind(rest: &str, out: &mut String) -> Result<(), Fail> {
    Ok(write!(out, ", behind {}", rest.len())?)
}

// What the quick readers of numbers say, each that answers.
fn put_quick_number(text: &str, out: &mut String) -> Result<(), Fail> {
    if let Some((number, rest)) = quick_decimal(text) {
        write!(out, "decimal {number}")?;
        put_behind(rest, out)?;
    }
    if let Some((number, rest)) = quick_negative(text) {
        write!(out, "negative {number}")?;
        put_behind(rest, out)?;
    }
    Ok(())
}

// What the quick readers of other values say, each that answers.
fn put_quick_other(alloc: Global, text: &str, out: &mut String) -> Result<(), Fail> {
    if let Some((flag, rest)) = quick_flag(text) {
        write!(out, "flag {flag}")?;
        put_behind(rest, out)?;
    }
    if let Some((inside, rest)) = quick_quoted(text) {
        write!(out, "text <{inside}>")?;
        put_behind(rest, out)?;
    }
    if let Some((bytes, rest)) = quick_bytes(alloc, text)? {
        put_bytes(bytes.as_slice(), out)?;
        put_behind(rest, out)?;
    }
    Ok(())
}

/// Puts what the quick readers and the general one say of the value that a text begins with.
pub fn put_quick_value(alloc: Global, row: &str, out: &mut String) -> Result<(), Fail> {
    let text = inside_of(row)?;
    let mut near = String::new(alloc);
    put_quick_number(text, &mut near)?;
    put_quick_other(alloc, text, &mut near)?;
    let mut far = String::new(alloc);
    put_general(alloc, text, &mut far)?;
    if near.is_empty() {
        return put_both(false, far.as_str(), far.as_str(), out);
    }
    put_both(true, near.as_str(), far.as_str(), out)
}

#[test]
fn values_are_read_as_by_the_general_reader_or_left_to_it(rt: HostRuntime) -> Result<(), Fail> {
    each_line(rt.alloc(), VALUES, 57, &Kind::QuickValue)
}

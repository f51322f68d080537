//! What texts spell as values and as items, without any table.
use crate::rows::Kind;
use crate::texts::{inside_of, put_digits_or_nothing};
use defmt_grammar::Language;
use defmt_shapes::{
    Item, Number, Spelling, bytes_of, first_item, first_value, skip_spaces, unescape,
};
use std::alloc::Global;
use std::fmt::Write;
use std::test::Fail;
use test_rows::{each_line, put_str};

// What a text spells first, behind the word of its language where it is Full, and how many bytes stand behind that.
const VALUES: &str = r#"<7 8> = decimal 7, behind 2
<0x1F> = hexadecimal 31, behind 0
<-0> = negative 0, behind 0
<true x> = flag true, behind 2
<'é' '> = character é, behind 2
<"a \" b" c> = quoted a \" b, behind 2
<@name> = interned name, behind 0
<#00ff> = bytes 00ff, behind 0
<#> = bytes , behind 0
<k( 1  "(" j:2() )  > = call k no variant ( 1  "(" j:2() ), behind 2
<[]> = empty, behind 0
<k[(1)  2([] #)] ]> = sequence k [(1)  2([] #)], behind 2
<true:300(1 j(2)) x> = call true 300 (1 j(2)), behind 2
<> = none
< 7> = none
<x(> = none
<'''> = none
<'\'> = none
<'ab'> = none
<k[]> = none
<k[ (1)]> = none
<k[(1) ]> = none
<k:01(1)> = none
<k:(1)> = none
<0x> = none
<-> = none
<#0> = none
<7)> = none
<"\q"> = none
<"\u{d800}"> = none
<a23456789012345678901234567890123()> = none
full <1.5 x> = float 1.5, behind 2
full <-007.250e-3> = float -007.250e-3, behind 0
full <2e+5> = float 2e+5, behind 0
full <NaN> = float NaN, behind 0
full <-inf x> = float -inf, behind 2
full <NaN(1)> = call NaN no variant (1), behind 0
full <7> = decimal 7, behind 0
full <0x1e5> = hexadecimal 485, behind 0
full <1.> = none
full <.5> = none
full <+1> = none
full <1e> = none
full <1E5> = none
full <1.5)> = none
full <nan> = none
full <-NaN> = none
full <infinity> = none
full << z()  k:2(1.5) > x> = nodes < z()  k:2(1.5) >, behind 2
full <<>> = nodes <>, behind 0
full <<1>> = none
full <<z()z()>> = none
full <k(<z()> 2.5)> = call k no variant (<z()> 2.5), behind 0
<1.5> = none
<NaN> = none
<<>> = none
<k(<z()>)> = none"#;

const ITEMS: &str = "\
2([] 3) (4) = 2 ([] 3), behind 4";

// What stands between quotes, and the bytes that it means.
const ESCAPES: &str = r#"a\n\u{e9}\"' = 61 0a c3 a9 22 27"#;

const DIGITS: &str = "\
00fF = 00 ff";

const SPACES: &str = "\
<  a b > = <a b >";

// How many brackets are opened and closed, and how many bytes stand behind the value.
const DEEP: &str = "\
20000 0 = none
20000 20000 = behind 0";

fn put_number(number: Number, out: &mut String) -> Result<(), Fail> {
    match number {
        Number::Within(number) => Ok(write!(out, "{number}")?),
        Number::Above => put_str(out, "above"),
    }
}

fn put_variant(variant: Option<Number>, out: &mut String) -> Result<(), Fail> {
    match variant {
        Some(number) => put_number(number, out),
        None => put_str(out, "no variant"),
    }
}

fn put_numbered(word: &str, number: Number, out: &mut String) -> Result<(), Fail> {
    put_str(out, word)?;
    put_number(number, out)
}

fn put_call(
    name: &str,
    variant: Option<Number>,
    inside: &str,
    out: &mut String,
) -> Result<(), Fail> {
    write!(out, "call {name} ")?;
    put_variant(variant, out)?;
    Ok(write!(out, " ({inside})")?)
}

fn put_spelling(spelling: Spelling<'_>, out: &mut String) -> Result<(), Fail> {
    match spelling {
        Spelling::Decimal(number, _) => put_numbered("decimal ", number, out),
        Spelling::Hexadecimal(number) => put_numbered("hexadecimal ", number, out),
        Spelling::Negative(number, _) => put_numbered("negative ", number, out),
        Spelling::Flag(flag) => Ok(write!(out, "flag {flag}")?),
        Spelling::Character(character) => Ok(write!(out, "character {character}")?),
        Spelling::Quoted(inside) => Ok(write!(out, "quoted {inside}")?),
        Spelling::Interned(name) => Ok(write!(out, "interned {name}")?),
        Spelling::Bytes(digits) => Ok(write!(out, "bytes {digits}")?),
        Spelling::Call {
            name,
            variant,
            inside,
        } => put_call(name, variant, inside, out),
        Spelling::Empty => put_str(out, "empty"),
        Spelling::Sequence { name, inside } => Ok(write!(out, "sequence {name} [{inside}]")?),
        Spelling::Float(text) => Ok(write!(out, "float {text}")?),
        Spelling::Nodes(inside) => Ok(write!(out, "nodes <{inside}>")?),
    }
}

/// The language that a row names, and what follows that.
pub fn language_of(row: &str) -> (Language, &str) {
    match row.strip_prefix("full ") {
        Some(rest) => (Language::Full, rest),
        None => (Language::Base, row),
    }
}

pub fn put_value(alloc: Global, row: &str, out: &mut String) -> Result<(), Fail> {
    let (language, row) = language_of(row);
    match first_value(alloc, language, inside_of(row)?)? {
        Some((spelling, rest)) => {
            put_spelling(spelling, out)?;
            Ok(write!(out, ", behind {}", rest.len())?)
        }
        None => put_str(out, "none"),
    }
}

pub fn put_item(alloc: Global, text: &str, out: &mut String) -> Result<(), Fail> {
    match first_item(alloc, Language::Base, text)? {
        Some((Item { variant, inside }, rest)) => {
            put_variant(variant, out)?;
            Ok(write!(out, " ({inside}), behind {}", rest.len())?)
        }
        None => put_str(out, "none"),
    }
}

pub fn put_meaning(alloc: Global, inside: &str, out: &mut String) -> Result<(), Fail> {
    let text = unescape(alloc, inside)?;
    put_digits_or_nothing(out, text.as_str().as_bytes())
}

pub fn put_bytes(alloc: Global, digits: &str, out: &mut String) -> Result<(), Fail> {
    let bytes = bytes_of(alloc, digits)?;
    put_digits_or_nothing(out, bytes.as_slice())
}

pub fn put_behind_spaces(row: &str, out: &mut String) -> Result<(), Fail> {
    let rest = skip_spaces(inside_of(row)?);
    Ok(write!(out, "<{rest}>")?)
}

// Puts a word so often.
fn put_times(count: u32, word: &str, text: &mut String) -> Result<(), Fail> {
    for _ in 0..count {
        put_str(text, word)?;
    }
    Ok(())
}

// So many calls that are opened, and so many that are closed.
fn put_calls(opened: u32, closed: u32, text: &mut String) -> Result<(), Fail> {
    put_times(opened, "k(", text)?;
    put_times(closed, ")", text)
}

fn put_behind(alloc: Global, text: &str, out: &mut String) -> Result<(), Fail> {
    match first_value(alloc, Language::Base, text)? {
        Some((_, rest)) => Ok(write!(out, "behind {}", rest.len())?),
        None => put_str(out, "none"),
    }
}

pub fn put_behind_calls(alloc: Global, row: &str, out: &mut String) -> Result<(), Fail> {
    let (opened, closed) = row.split_once(' ').unwrap_or((row, "0"));
    let opened = opened.parse::<u32>()?;
    let closed = closed.parse::<u32>()?;
    let mut text = String::new(alloc);
    put_calls(opened, closed, &mut text)?;
    put_behind(alloc, text.as_str(), out)
}

#[test]
fn texts_spell_values_or_none_and_deep_brackets_are_closed_one_by_one(
    rt: HostRuntime,
) -> Result<(), Fail> {
    each_line(rt.alloc(), VALUES, 57, &Kind::ValueOf)?;
    each_line(rt.alloc(), DEEP, 2, &Kind::BehindCalls)
}

#[test]
fn an_item_has_a_variant_and_spaces_in_front_are_passed_over(rt: HostRuntime) -> Result<(), Fail> {
    each_line(rt.alloc(), ITEMS, 1, &Kind::ItemOf)?;
    each_line(rt.alloc(), SPACES, 1, &Kind::BehindSpaces)
}

#[test]
fn escapes_and_digits_have_a_meaning(rt: HostRuntime) -> Result<(), Fail> {
    each_line(rt.alloc(), ESCAPES, 1, &Kind::MeaningOf)?;
    each_line(rt.alloc(), DIGITS, 1, &Kind::BytesMeant)
}

//! What a value's text begins with.

ghost use Rattle.std.specs.Prelude.{◌≡◌, IfSome};
ghost use Rattle.std.specs.Bool.{OnTrue};
ghost use Rattle.std.specs.Str.{IsUtf8};
ghost use Rattle.defmt_shapes.specs.Leads.{view_heads, decimal_lead, hexadecimal_lead, negative_lead, interned_lead, bytes_lead, variant_lead, flag_lead, named_lead, word_lead, or_word, plain_lead, marked_lead, IsBare, IsLead, view_item, item_of};

use crate::escape::{character_of, quoted_end};
use crate::parts::{Class, behind, behind_text, has_leading_zero, is_name, is_variant, split_run};

/// A value without values inside, with its digits, its name or what stands between its quotes.
#[derive(Clone, Copy)]
pub enum Whole<'a> {
    Decimal(&'a str),
    Hexadecimal(&'a str),
    Negative(&'a str),
    Flag(bool),
    Character(char),
    Quoted(&'a str),
    Interned(&'a str),
    Bytes(&'a str),
    Empty,
    Float(&'a str),
}

/// A value without values inside, or the front of one up to its first bracket: a name, and for a call
/// the digits of its variant.
#[derive(Clone, Copy)]
pub enum Head<'a> {
    Whole(Whole<'a>),
    Call(&'a str, Option<&'a str>),
    Sequence(&'a str),
    Nodes,
}

#[tactic(auto, unfolding(crate::specs::Leads::decimal_lead))]
fn decimal_head(text: &str) -> Option<(Head<'_>, &str)>
    ensures parts { view_heads result ≡ decimal_lead text.now }
    ensures utf8 { IfSome result (λ p. IsUtf8 p.1.now) }
{
    let (digits, rest) = split_run(text, Class::Decimal);
    if digits.is_empty() {
        return None;
    }
    Some((Head::Whole(Whole::Decimal(digits)), rest))
}

// Behind `0x`.
#[tactic(auto, unfolding(crate::specs::Leads::hexadecimal_lead))]
fn hexadecimal_head(text: &str) -> Option<(Head<'_>, &str)>
    ensures parts { view_heads result ≡ hexadecimal_lead text.now }
    ensures utf8 { IfSome result (λ p. IsUtf8 p.1.now) }
{
    let (digits, rest) = split_run(text, Class::Hexadecimal);
    if digits.is_empty() {
        return None;
    }
    Some((Head::Whole(Whole::Hexadecimal(digits)), rest))
}

// Behind `-`.
#[tactic(auto, unfolding(crate::specs::Leads::negative_lead))]
fn negative_head(text: &str) -> Option<(Head<'_>, &str)>
    ensures parts { view_heads result ≡ negative_lead text.now }
    ensures utf8 { IfSome result (λ p. IsUtf8 p.1.now) }
{
    let (digits, rest) = split_run(text, Class::Decimal);
    if digits.is_empty() {
        return None;
    }
    Some((Head::Whole(Whole::Negative(digits)), rest))
}

// Behind `@`.
#[tactic(auto, unfolding(crate::specs::Leads::interned_lead))]
fn interned_head(text: &str) -> Option<(Head<'_>, &str)>
    ensures parts { view_heads result ≡ interned_lead text.now }
    ensures utf8 { IfSome result (λ p. IsUtf8 p.1.now) }
{
    let (name, rest) = split_run(text, Class::Word);
    if !is_name(name) {
        return None;
    }
    Some((Head::Whole(Whole::Interned(name)), rest))
}

// Behind `#`.
#[tactic(auto, unfolding(crate::specs::Leads::bytes_lead))]
fn bytes_head(text: &str) -> Option<(Head<'_>, &str)>
    ensures parts { view_heads result ≡ bytes_lead text.now }
    ensures utf8 { IfSome result (λ p. IsUtf8 p.1.now) }
{
    let (digits, rest) = split_run(text, Class::Hexadecimal);
    if digits.len() % 2 != 0 {
        return None;
    }
    Some((Head::Whole(Whole::Bytes(digits)), rest))
}

// Behind a name and `:`.
#[tactic(auto, unfolding(crate::specs::Leads::variant_lead))]
fn variant_head<'a>(name: &'a str, text: &'a str) -> Option<(Head<'a>, &'a str)>
    ensures parts { view_heads result ≡ variant_lead name.now text.now }
    ensures utf8 { IfSome result (λ p. IsUtf8 p.1.now) }
{
    let (digits, rest) = split_run(text, Class::Decimal);
    if !is_variant(digits) {
        return None;
    }
    let inside = behind(rest, '(')?;
    Some((Head::Call(name, Some(digits)), inside))
}

// A name that is `true` or `false`.
#[tactic(auto, unfolding(crate::specs::Leads::flag_lead))]
fn flag_head<'a>(name: &str, rest: &'a str) -> Option<(Head<'a>, &'a str)>
    ensures parts { view_heads result ≡ flag_lead name.now rest.now }
    ensures utf8 { IfSome result (λ p. IsUtf8 p.1.now) }
{
    if name == "true" {
        Some((Head::Whole(Whole::Flag(true)), rest))
    } else if name == "false" {
        Some((Head::Whole(Whole::Flag(false)), rest))
    } else {
        None
    }
}

// Behind a name.
#[tactic(auto, unfolding(crate::specs::Leads::named_lead))]
fn named_head<'a>(name: &'a str, rest: &'a str) -> Option<(Head<'a>, &'a str)>
    ensures parts { view_heads result ≡ named_lead name.now rest.now }
    ensures utf8 { IfSome result (λ p. IsUtf8 p.1.now) }
{
    if let Some(inside) = behind(rest, '(') {
        return Some((Head::Call(name, None), inside));
    }
    if let Some(more) = behind(rest, ':') {
        return variant_head(name, more);
    }
    if let Some(inside) = behind(rest, '[') {
        return Some((Head::Sequence(name), inside));
    }
    flag_head(name, rest)
}

#[tactic(auto, unfolding(crate::specs::Leads::word_lead))]
fn word_head(text: &str) -> Option<(Head<'_>, &str)>
    ensures parts { view_heads result ≡ word_lead text.now }
    ensures utf8 { IfSome result (λ p. IsUtf8 p.1.now) }
{
    let (name, rest) = split_run(text, Class::Word);
    if !is_name(name) {
        return None;
    }
    named_head(name, rest)
}

// A decimal number, or what begins with a name.
fn bare_head(text: &str) -> Option<(Head<'_>, &str)>
    ensures parts { view_heads result ≡ or_word text.now (decimal_lead text.now) }
    ensures utf8 { IfSome result (λ p. IsUtf8 p.1.now) }
{
    match decimal_head(text) {
        Some(head) => Some(head),
        None => word_head(text),
    }
}

// A number, or what begins with a name.
#[tactic(auto, unfolding(crate::specs::Leads::plain_lead))]
fn plain_head(text: &str) -> Option<(Head<'_>, &str)>
    ensures parts { view_heads result ≡ plain_lead text.now }
    ensures utf8 { IfSome result (λ p. IsUtf8 p.1.now) }
{
    if let Some(digits) = behind_text(text, "0x") {
        return hexadecimal_head(digits);
    }
    bare_head(text)
}

// All but what begins with a quote.
#[tactic(auto, unfolding(crate::specs::Leads::marked_lead))]
fn marked_head(text: &str) -> Option<(Head<'_>, &str)>
    ensures parts { view_heads result ≡ marked_lead text.now }
    ensures utf8 { IfSome result (λ p. IsUtf8 p.1.now) }
{
    if let Some(digits) = behind(text, '-') {
        return negative_head(digits);
    }
    if let Some(name) = behind(text, '@') {
        return interned_head(name);
    }
    if let Some(digits) = behind(text, '#') {
        return bytes_head(digits);
    }
    if let Some(rest) = behind_text(text, "[]") {
        return Some((Head::Whole(Whole::Empty), rest));
    }
    plain_head(text)
}

// Whether the text begins with a letter or with a digit above 0: then no mark stands in front.
fn is_bare(text: &str) -> bool
    ensures { OnTrue result (IsBare text.now) }
{
    match text.as_bytes() {
        [b'1'..=b'9' | b'A'..=b'Z' | b'a'..=b'z', ..] => true,
        _ => false,
    }
}

/// What the text begins with in the language Base, and what follows it.
pub fn base_head(text: &str) -> Option<(Head<'_>, &str)>
    ensures parts { IsLead text.now (view_heads result) }
    ensures utf8 { IfSome result (λ p. IsUtf8 p.1.now) }
{
    // Most values begin so.
    if is_bare(text) {
        return bare_head(text);
    }
    if let Some(quoted) = behind(text, '"') {
        let (inside, rest) = quoted_end(quoted)?;
        return Some((Head::Whole(Whole::Quoted(inside)), rest));
    }
    if let Some(quoted) = behind(text, '\'') {
        let (character, more) = character_of(quoted, '\'')?;
        let rest = behind(more, '\'')?;
        return Some((Head::Whole(Whole::Character(character)), rest));
    }
    marked_head(text)
}

/// The variant in front of an element's `(`, and what follows that.
#[tactic(auto, unfolding(crate::specs::Leads::item_of))]
pub fn item_of(text: &str) -> Option<(Option<&str>, &str)>
    ensures parts { view_item result ≡ item_of text.now }
    ensures utf8 { IfSome result (λ p. IsUtf8 p.1.now) }
{
    let (digits, rest) = split_run(text, Class::Decimal);
    if has_leading_zero(digits) {
        return None;
    }
    let inside = behind(rest, '(')?;
    let variant = if digits.is_empty() {
        None
    } else {
        Some(digits)
    };
    Some((variant, inside))
}

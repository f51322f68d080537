//! Kinds of parameters.

ghost use Rattle.std.specs.Prelude.{◌≡◌, ◌-◌, take, drop};
ghost use Rattle.defmt_grammar.specs.Kind.{base_kind_names, full_kind_names, at_word, named_kind, is_left_out, count_of, bits_of, array_len, kind_of};

use crate::language::Language;
use crate::parts::{behind, behind_text, cut, number_of, skip_spaces};

/// Why a text is no kind.
#[derive(Clone, Copy)]
pub enum KindFault {
    Unknown,
    Range,
    Float,
}

/// The width of an integer in bits; `Native` is that of the target, which is 32.
#[derive(Clone, Copy, Debug, PartialEq, Eq)]
pub enum IntSize {
    W8,
    W16,
    W32,
    W64,
    W128,
    Native,
}

/// The width of a floating-point number in bits.
#[derive(Clone, Copy, Debug, PartialEq, Eq)]
pub enum FloatSize {
    W32,
    W64,
}

/// The type of a parameter's argument. The defmt book, "Type hints" and "Bitfields".
#[derive(Clone, Copy, Debug, PartialEq, Eq)]
pub enum Kind {
    /// `u8` to `u128` and `usize`.
    Uint(IntSize),
    /// `i8` to `i128` and `isize`.
    Int(IntSize),
    /// `bool`.
    Bool,
    /// `char`.
    Char,
    /// `str`.
    Str,
    /// `istr`: a text of the table.
    Istr,
    /// `[u8]`.
    Bytes,
    /// `[u8; N]`.
    ByteArray(u16),
    /// `?`, or no kind at all: a value with a format string of its own.
    Format,
    /// `[?]`.
    FormatSlice,
    /// `[?; N]`.
    FormatArray(u16),
    /// `lo..hi`: the bits `lo` to `hi - 1` of a number, where `lo < hi` and `hi` is at most 128.
    Bits { lo: u8, hi: u8 },
    /// `f32` and `f64`, in the full language.
    Float(FloatSize),
    /// `__internal_Debug`, in the full language: a text that the device made by `core::fmt::Debug`.
    Debug,
    /// `__internal_Display`, in the full language: a text that the device made by
    /// `core::fmt::Display`.
    Display,
    /// `__internal_FormatSequence`, in the full language: values with format strings of their own,
    /// one behind the other.
    Sequence,
}

// The kind of an unsigned integer's name.
fn unsigned_kind(text: &str) -> Option<Kind>
    ensures { result ≡ at_word text.now (take 6 base_kind_names) }
{
    match text {
        "u8" => Some(Kind::Uint(IntSize::W8)),
        "u16" => Some(Kind::Uint(IntSize::W16)),
        "u32" => Some(Kind::Uint(IntSize::W32)),
        "u64" => Some(Kind::Uint(IntSize::W64)),
        "u128" => Some(Kind::Uint(IntSize::W128)),
        "usize" => Some(Kind::Uint(IntSize::Native)),
        _ => None,
    }
}

// The kind of a signed integer's name.
fn signed_kind(text: &str) -> Option<Kind>
    ensures { result ≡ at_word text.now (take 6 (drop 6 base_kind_names)) }
{
    match text {
        "i8" => Some(Kind::Int(IntSize::W8)),
        "i16" => Some(Kind::Int(IntSize::W16)),
        "i32" => Some(Kind::Int(IntSize::W32)),
        "i64" => Some(Kind::Int(IntSize::W64)),
        "i128" => Some(Kind::Int(IntSize::W128)),
        "isize" => Some(Kind::Int(IntSize::Native)),
        _ => None,
    }
}

// The kind of a text that is a word of its own, and names no integer.
fn other_kind(text: &str) -> Option<Kind>
    ensures { result ≡ at_word text.now (drop 12 base_kind_names) }
{
    match text {
        "bool" => Some(Kind::Bool),
        "char" => Some(Kind::Char),
        "str" => Some(Kind::Str),
        "istr" => Some(Kind::Istr),
        "[u8]" => Some(Kind::Bytes),
        "?" => Some(Kind::Format),
        "[?]" => Some(Kind::FormatSlice),
        _ => None,
    }
}

// The kind of a word of the full language alone.
fn full_kind(text: &str, language: Language) -> Option<Kind>
    ensures { result ≡ at_word text.now (full_kind_names language) }
{
    match language {
        Language::Base => None,
        Language::Full => match text {
            "f32" => Some(Kind::Float(FloatSize::W32)),
            "f64" => Some(Kind::Float(FloatSize::W64)),
            "__internal_Debug" => Some(Kind::Debug),
            "__internal_Display" => Some(Kind::Display),
            "__internal_FormatSequence" => Some(Kind::Sequence),
            _ => None,
        },
    }
}

// The kind of a text that is a word of its own.
fn named_kind(text: &str, language: Language) -> Option<Kind>
    ensures { result ≡ named_kind language text.now }
{
    if let Some(kind) = unsigned_kind(text) {
        Some(kind)
    } else if let Some(kind) = signed_kind(text) {
        Some(kind)
    } else if let Some(kind) = other_kind(text) {
        Some(kind)
    } else {
        full_kind(text, language)
    }
}

// Whether a text is the name of a kind that the base language leaves out.
fn is_left_out(text: &str, language: Language) -> bool
    ensures { result ≡ is_left_out language text.now }
{
    match language {
        Language::Base => text == "f32" || text == "f64",
        Language::Full => false,
    }
}

// The number between `front` and `]`, with spaces before it.
#[tactic(auto, unfolding(crate::specs::Kind::count_of))]
fn count_of(text: &str, front: &str) -> Option<u32>
    ensures { result ≡ count_of front.now text.now }
{
    let (count, rest) = cut(behind_text(text, front)?, ']')?;
    if rest.is_empty() {
        number_of(skip_spaces(count))
    } else {
        None
    }
}

// The numbers round `..`.
#[tactic(auto, unfolding(crate::specs::Kind::bits_of))]
fn bits_of(text: &str) -> Option<(u32, u32)>
    ensures { result ≡ bits_of text.now }
{
    let (lo, rest) = cut(text, '.')?;
    let lo = number_of(lo)?;
    let hi = number_of(behind(rest, '.')?)?;
    Some((lo, hi))
}

// The length of an array, which is at most 65,535.
fn array_of(count: u32) -> Result<u16, KindFault>
    ensures { result ≡ array_len count }
{
    u16::try_from(count).map_err(|_| KindFault::Range)
}

/// The kind that a text spells in a language.
#[tactic(auto, unfolding(crate::specs::Kind::shape_of, crate::specs::Kind::kind_of))]
pub fn kind_of(text: &str, language: Language) -> Result<Kind, KindFault>
    ensures { result ≡ kind_of language text.now }
{
    if let Some(kind) = named_kind(text, language) {
        Ok(kind)
    } else if is_left_out(text, language) {
        Err(KindFault::Float)
    } else if let Some(count) = count_of(text, "[u8;") {
        Ok(Kind::ByteArray(array_of(count)?))
    } else if let Some(count) = count_of(text, "[?;") {
        Ok(Kind::FormatArray(array_of(count)?))
    } else if let Some((lo, hi)) = bits_of(text) {
        if lo < hi && hi <= 128 {
            Ok(Kind::Bits {
                lo: lo as u8,
                hi: hi as u8,
            })
        } else {
            Err(KindFault::Range)
        }
    } else {
        Err(KindFault::Unknown)
    }
}

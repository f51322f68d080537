//! Parameters.

ghost use Rattle.std.specs.Prelude.{◌≡◌, ◌≤◌, ◌<◌, ◌+◌, ◌^◌, length};
ghost use Rattle.std.specs.Option.{option_copied};
ghost use Rattle.defmt_grammar.specs.Cut.{lead};
ghost use Rattle.defmt_grammar.specs.Param.{both_now, viewed, view_written, written_of, position_of, kind_part_of, hint_part_of, cause_of, has_leading_zero, hint_len, param_of};

use crate::fault::{Cause, Fault, Mode};
use crate::hint::{Hint, hint_of};
use crate::kind::{Kind, KindFault, kind_of};
use crate::language::Language;
use crate::parts::{behind, cut, number_of};

/// A place for an argument: what stands between braces in a format string. The crate defmt-parser,
/// `Parameter`.
#[derive(Clone, Copy)]
pub struct Param {
    /// Which argument stands there, from 0 to 15.
    pub position: u8,
    /// The argument's type.
    pub kind: Kind,
    /// How it is to be printed.
    pub hint: Hint,
}

// The parts of a parameter as they are written.
#[derive(Clone, Copy)]
struct Written<'a> {
    digits: &'a str,
    kind: Option<&'a str>,
    hint: Option<&'a str>,
}

// The digits that a text begins with, and what follows them.
fn split_digits(text: &str) -> (&str, &str)
    ensures { both_now result ≡ lead text.now }
{
    for (i, b) in text.as_bytes().iter().enumerate() {
        if !b.is_ascii_digit() {
            return text.split_at(i);
        }
    }
    text.split_at(text.len())
}

// Whether a position is written with a zero in front.
fn has_leading_zero(digits: &str) -> bool
    ensures { result ≡ has_leading_zero digits.now }
{
    digits.len() > 1 && behind(digits, '0').is_some()
}

// The parts of what stands between braces. Places count from the brace.
#[tactic(auto, unfolding(crate::specs::Param::written_of, crate::specs::Param::parts_after))]
fn written_of(inside: &str) -> Result<Written<'_>, Fault>
    requires { length inside.now < 2 ^ 32 }
    ensures { viewed view_written result ≡ written_of inside.now }
{
    let (digits, rest) = split_digits(inside);
    if has_leading_zero(digits) {
        return Err(Fault {
            cause: Cause::Brace,
            at: 1,
        });
    }
    if let Some(more) = behind(rest, '=') {
        match cut(more, ':') {
            Some((kind, hint)) => Ok(Written {
                digits,
                kind: Some(kind),
                hint: Some(hint),
            }),
            None => Ok(Written {
                digits,
                kind: Some(more),
                hint: None,
            }),
        }
    } else if let Some(hint) = behind(rest, ':') {
        Ok(Written {
            digits,
            kind: None,
            hint: Some(hint),
        })
    } else if rest.is_empty() {
        Ok(Written {
            digits,
            kind: None,
            hint: None,
        })
    } else {
        Err(Fault {
            cause: Cause::Brace,
            at: 1 + digits.len(),
        })
    }
}

// The position, of which `next` is the first that isn't written.
#[tactic(auto, unfolding(crate::specs::Param::position_of))]
fn position_of(digits: &str, next: u8) -> Result<u8, Fault>
    ensures { result ≡ position_of next digits.now }
{
    let position = if digits.is_empty() {
        u32::from(next)
    } else {
        number_of(digits).unwrap_or(0)
    };
    if position <= 15 {
        Ok(position as u8)
    } else {
        Err(Fault {
            cause: Cause::Many,
            at: 0,
        })
    }
}

// The cause of a kind's fault.
fn cause_of(fault: KindFault) -> Cause
    ensures { result ≡ cause_of fault }
{
    match fault {
        KindFault::Unknown => Cause::Kind,
        KindFault::Range => Cause::Range,
        KindFault::Float => Cause::Float,
    }
}

// The kind that is written, which begins at this place, or `Kind::Format`.
fn kind_part_of(text: Option<&str>, language: Language, at: usize) -> Result<Kind, Fault>
    ensures { result ≡ kind_part_of language (option_copied text.entry) at }
{
    match text {
        None => Ok(Kind::Format),
        Some(text) => match kind_of(text, language) {
            Ok(kind) => Ok(kind),
            Err(fault) => Err(Fault {
                cause: cause_of(fault),
                at,
            }),
        },
    }
}

// The hint that is written, which begins at this place, or `Hint::Plain`.
fn hint_part_of(text: Option<&str>, mode: Mode, at: usize) -> Result<Hint, Fault>
    ensures { result ≡ hint_part_of mode (option_copied text.entry) at }
{
    match text {
        None => Ok(Hint::Plain),
        Some(text) => match hint_of(text, mode.language()) {
            Some(hint) => Ok(hint),
            None if mode.is_lenient() => Ok(Hint::Plain),
            None => Err(Fault {
                cause: Cause::Hint,
                at,
            }),
        },
    }
}

// How many bytes the text of a hint has.
fn hint_len(text: Option<&str>) -> usize
    ensures { result ≡ hint_len (option_copied text.entry) }
{
    match text {
        None => 0,
        Some(text) => text.len(),
    }
}

/// The parameter that stands between braces, and the next position that isn't written. Places count
/// from the brace.
#[tactic(auto, unfolding(crate::specs::Param::param_of))]
pub fn param_of(inside: &str, mode: Mode, next: u8) -> Result<(Param, u8), Fault>
    requires small { length inside.now < 2 ^ 32 }
    requires next { next ≤ 16 }
    ensures { result ≡ param_of mode next inside.now }
{
    let written = written_of(inside)?;
    let position = position_of(written.digits, next)?;
    let kind = kind_part_of(written.kind, mode.language(), written.digits.len() + 2)?;
    let hint_at = inside.len() + 1 - hint_len(written.hint);
    let hint = hint_part_of(written.hint, mode, hint_at)?;
    let next = if written.digits.is_empty() {
        next + 1
    } else {
        next
    };
    Ok((
        Param {
            position,
            kind,
            hint,
        },
        next,
    ))
}

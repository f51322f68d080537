//! What a text begins with.

ghost use Rattle.std.specs.Prelude.{◌≡◌, ◌≤◌, ◌<◌, ◌^◌, length, IfOk};
ghost use Rattle.std.specs.Str.{IsUtf8};
ghost use Rattle.defmt_grammar.specs.Param.{both_now};
ghost use Rattle.defmt_grammar.specs.Step.{plain, view_steps, step_of};

use crate::fault::{Cause, Fault, Mode};
use crate::param::{Param, param_of};
use crate::parts::{behind, behind_text, cut};
use memchr::memchr2;

/// Characters that stand for themselves, or a parameter with the next position that isn't written.
#[derive(Clone, Copy)]
pub enum Step<'a> {
    Literal(&'a str),
    Param(Param, u8),
}

/// What stands before the first brace, and what follows.
pub fn split_plain(text: &str) -> (&str, &str)
    ensures parts { both_now result ≡ plain text.now }
    ensures utf8 { IsUtf8 result.1.now }
{
    match memchr2(b'{', b'}', text.as_bytes()) {
        Some(at) => text.split_at(at),
        None => text.split_at(text.len()),
    }
}

/// What a text begins with, and what follows.
#[tactic(auto, unfolding(crate::specs::Step::step_of))]
pub fn step_of(text: &str, mode: Mode, next: u8) -> Result<(Step<'_>, &str), Fault>
    requires small { length text.now < 2 ^ 32 }
    requires next { next ≤ 16 }
    ensures step { view_steps result ≡ step_of mode next text.now }
    ensures utf8 { IfOk result (λ p. IsUtf8 p.1.now) }
{
    let (run, rest) = split_plain(text);
    if !run.is_empty() {
        return Ok((Step::Literal(run), rest));
    }
    if let Some(rest) = behind_text(text, "{{") {
        return Ok((Step::Literal("{"), rest));
    }
    if let Some(rest) = behind_text(text, "}}") {
        return Ok((Step::Literal("}"), rest));
    }
    let Some(more) = behind(text, '{') else {
        return Err(Fault {
            cause: Cause::Brace,
            at: 0,
        });
    };
    let Some((inside, rest)) = cut(more, '}') else {
        return Err(Fault {
            cause: Cause::Brace,
            at: 0,
        });
    };
    let (param, next) = param_of(inside, mode, next)?;
    Ok((Step::Param(param, next), rest))
}

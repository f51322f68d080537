//! What stands between brackets, however deep others stand inside.

ghost use Rattle.std.specs.Prelude.{◌≡◌, ◌<◌, ℕ, List, IfSome, IfOk};
ghost use Rattle.std.specs.Str.{IsUtf8};
ghost use Rattle.defmt_shapes.specs.Leads.{view_head};
ghost use Rattle.defmt_grammar.specs.declared.language.Language.{Language as AnyLanguage};
ghost use Rattle.defmt_shapes.specs.Scan.{call_of_lead, Encloses, FindsClosing, IsStep, step_rest, step_of_lead, closing, after_step};
ghost use Rattle.defmt_shapes.specs.declared.scan.Bracket.TheVariants.{Round as RoundBracket};

use crate::full::head_of;
use crate::head::{Head, item_of};
use crate::parts::{Class, behind, skip_spaces, split_run};
use defmt_grammar::Language;
use dl_io::Memory;
use std::alloc::Global;

/// An open bracket.
#[derive(Clone, Copy)]
pub enum Bracket {
    /// `(`, with values inside.
    Round,
    /// `[`, with elements inside.
    Square,
    /// `<`, with Format values inside.
    Angle,
}

impl Bracket {
    // The character that closes the bracket.
    fn closing(self) -> char
        ensures value { result ≡ closing self }
        ensures ascii { result < 128 }
    {
        match self {
            Bracket::Round => ')',
            Bracket::Square => ']',
            Bracket::Angle => '>',
        }
    }
}

/// Where a reader stands between two brackets.
#[derive(Clone, Copy)]
pub enum Place {
    /// Before a value or an element.
    Before,
    /// Right behind one.
    After,
}

/// What a text goes on with.
#[derive(Clone, Copy)]
pub enum Step {
    /// Spaces: a value or an element may begin.
    Begin,
    /// A value without values inside: it has ended.
    End,
    /// The front of one up to this bracket.
    Open(Bracket),
    /// The closing bracket.
    Close,
}

// What follows a value or an element inside this bracket.
fn after_step(bracket: Bracket, text: &str) -> Option<(Step, &str)>
    ensures parts { step_rest result ≡ after_step bracket text.now }
    ensures utf8 { IfSome result (λ p. IsUtf8 p.1.now) }
{
    if let Some(rest) = behind(text, bracket.closing()) {
        return Some((Step::Close, rest));
    }
    if let Some(rest) = behind(text, ' ') {
        return Some((Step::Begin, skip_spaces(rest)));
    }
    None
}

// What a value's head makes of the place behind it.
#[tactic(auto, using(crate::proofs::ScanLaws::whole_ends))]
fn step_of(head: Head<'_>) -> Step
    ensures { result ≡ step_of_lead (view_head head.entry) }
{
    match head {
        Head::Whole(_) => Step::End,
        Head::Call(_, _) => Step::Open(Bracket::Round),
        Head::Sequence(_) => Step::Open(Bracket::Square),
        Head::Nodes => Step::Open(Bracket::Angle),
    }
}

// The same of a Format value, between `<` and `>`.
fn step_of_call<'a>(head: Head<'_>, rest: &'a str) -> Option<(Step, &'a str)>
    requires { IsUtf8 rest.now }
    ensures parts { step_rest result ≡ call_of_lead (view_head head.entry) rest.now }
    ensures utf8 { IfSome result (λ p. IsUtf8 p.1.now) }
{
    match head {
        Head::Call(_, _) => Some((Step::Open(Bracket::Round), rest)),
        _ => None,
    }
}

// What the text goes on with inside this bracket.
fn next_step(language: Language, bracket: Bracket, place: Place, text: &str) -> Option<(Step, &str)>
    ensures parts { IsStep language bracket place text.now (step_rest result) }
    ensures utf8 { IfSome result (λ p. IsUtf8 p.1.now) }
{
    match (bracket, place) {
        (Bracket::Round, Place::Before) => {
            if let Some(step) = after_step(bracket, text) {
                return Some(step);
            }
            let (head, rest) = head_of(language, text)?;
            Some((step_of(head), rest))
        }
        (Bracket::Angle, Place::Before) => {
            if let Some(step) = after_step(bracket, text) {
                return Some(step);
            }
            let (head, rest) = head_of(language, text)?;
            step_of_call(head, rest)
        }
        (Bracket::Square, Place::Before) => {
            let (_, rest) = item_of(text)?;
            Some((Step::Open(Bracket::Round), rest))
        }
        (_, Place::After) => after_step(bracket, text),
    }
}

// What stands before the next `)` and behind it, where decimal numbers and spaces alone stand before it.
fn numbers_inside(text: &str) -> Option<(&str, &str)>
    ensures parts { (language : AnyLanguage)
        → IfSome result (λ p. Encloses language RoundBracket text.now p.0.now p.1.now) }
    ensures utf8 { IfSome result (λ p. IsUtf8 p.0.now × IsUtf8 p.1.now) }
{
    let (inside, after) = split_run(text, Class::Numbers);
    let rest = behind(after, ')')?;
    Some((inside, rest))
}

// What stands behind the bracket that closes this one, where numbers and spaces alone stand before that.
fn numbers_behind(bracket: Bracket, text: &str) -> Option<&str>
    ensures parts { (language : AnyLanguage) → IfSome result
        (λ rest. (bracket ≡ RoundBracket)
        × ((inside : List ℕ) × Encloses language bracket text.now inside rest.now)) }
    ensures utf8 { IfSome result (λ rest. IsUtf8 rest.now) }
{
    match bracket {
        Bracket::Round => {
            let (_, rest) = numbers_inside(text)?;
            Some(rest)
        }
        Bracket::Square | Bracket::Angle => None,
    }
}

// The same of anything that may stand there. The brackets inside that are still open stand on a stack, so the depth is
// limited by memory alone.
fn enclosed_by_steps(
    alloc: Global,
    language: Language,
    text: &str,
    first: Bracket,
) -> Result<Option<(&str, &str)>, Memory>
    ensures parts { FindsClosing language first text.now result }
    ensures utf8 { IfOk result (λ o. IfSome o (λ p. IsUtf8 p.0.now × IsUtf8 p.1.now)) }
{
    let mut outer: Vec<Bracket> = Vec::new(alloc);
    let mut bracket = first;
    let mut place = Place::Before;
    let mut rest = text;
    'steps: loop {
        let Some((step, after)) = next_step(language, bracket, place, rest) else {
            return Ok(None);
        };
        rest = after;
        match step {
            Step::Begin => place = Place::Before,
            Step::End => place = Place::After,
            Step::Open(inner) => {
                if let Some(behind) = numbers_behind(inner, rest) {
                    rest = behind;
                    place = Place::After;
                    continue 'steps;
                }
                outer.push(bracket)?;
                bracket = inner;
                place = Place::Before;
            }
            Step::Close => {
                let Some(around) = outer.pop() else {
                    let (inside, _) = text.split_at(text.len() - rest.len() - 1);
                    return Ok(Some((inside, rest)));
                };
                bracket = around;
                place = Place::After;
            }
        }
    }
}

/// What stands before the bracket that closes the one opened before the text, and behind it.
///
/// # Errors
/// `Memory` where memory runs out.
pub fn enclosed(
    alloc: Global,
    language: Language,
    text: &str,
    first: Bracket,
) -> Result<Option<(&str, &str)>, Memory>
    ensures parts { FindsClosing language first text.now result }
    ensures utf8 { IfOk result (λ o. IfSome o (λ p. IsUtf8 p.0.now × IsUtf8 p.1.now)) }
{
    // Most values inside are numbers.
    if let Bracket::Round = first
        && let Some(parts) = numbers_inside(text)
    {
        return Ok(Some(parts));
    }
    enclosed_by_steps(alloc, language, text, first)
}

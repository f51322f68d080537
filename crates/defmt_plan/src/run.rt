//! Steps that pass a message, where no values stand inside others.

ghost use Rattle.std.specs.Prelude.{◌≡◌, ◌≤◌, ◌∷◌, [], List, length, IfSome, option_map};
ghost use Rattle.defmt_grammar.specs.declared.hint.Hint.TheVariants as hints;
ghost use Rattle.defmt_intern.specs.Table.{Map};
ghost use Rattle.defmt_grammar.specs.declared.piece.Piece.{Piece as AnyPiece};
ghost use Rattle.defmt_plan.specs.Readers.{PassesStepBy, reached};
ghost use Rattle.defmt_plan.specs.Steps.{AreSteps, number_step};
ghost use Rattle.defmt_plan.specs.Told.{PassesArguments};

use crate::bits::pass_field;
use crate::ends::put_short;
use crate::leaves::{Progress, pass_uint, pass_value, read_at_once};
use crate::steps::Step;
use defmt_grammar::{Hint, IntSize, Kind};

// One step, under no hint, where no value stands inside another. It is apart from the steps inside values for its speed.
fn stride(step: &Step, bytes: &[u8], before: Progress, out: &mut [u8]) -> Option<Progress>
    requires read { before.read ≤ length bytes.now }
    requires written { before.written ≤ length out.old }
    ensures { (t : Map) → PassesStepBy (option_map reached result) t 16 hints.Plain step.now
        bytes.now (reached before) out.old out.new }
{
    match step {
        Step::Text(text) => {
            let written = put_short(out, before.written, text.as_str().as_bytes())?;
            Some(Progress {
                read: before.read,
                written,
            })
        }
        Step::Value(kind, hint) => pass_value(*kind, *hint, bytes, before, out),
        Step::Peek(field, hint) => {
            read_at_once(pass_field(*field, *hint, false, bytes, before, out))
        }
        Step::Bits(field, hint) => {
            read_at_once(pass_field(*field, *hint, true, bytes, before, out))
        }
    }
}

// The size and the hint of an unsigned number that is the only step.
#[inline(always)]
pub(crate) fn lone_number(steps: &[Step]) -> Option<(IntSize, Hint)>
    ensures { IfSome result (λ number. steps.now ≡ number_step number.0 number.1 ∷ []) }
{
    let Some((first, rest)) = steps.split_first() else {
        return None;
    };
    if !rest.is_empty() {
        return None;
    }
    let Step::Value(kind, hint) = first else {
        return None;
    };
    match kind {
        Kind::Uint(size) => Some((*size, *hint)),
        _ => None,
    }
}

// Steps, one after another.
#[inline(never)]
pub(crate) fn run_all(
    steps: &[Step],
    bytes: &[u8],
    from: usize,
    out: &mut [u8],
    at: usize,
) -> Option<Progress>
    requires read { from ≤ length bytes.now }
    requires written { at ≤ length out.old }
    ensures { (t : Map) (all pieces : List AnyPiece) → AreSteps all pieces steps.now
        → PassesArguments result t all pieces bytes.now from out.old at out.new }
{
    let mut progress = Progress {
        read: from,
        written: at,
    };
    for step in steps {
        progress = stride(step, bytes, progress, out)?;
    }
    Some(progress)
}

// All steps. Where there is none, or a number alone, nothing is called for them.
#[inline(always)]
pub(crate) fn run(
    steps: &[Step],
    bytes: &[u8],
    from: usize,
    out: &mut [u8],
    at: usize,
) -> Option<Progress>
    requires read { from ≤ length bytes.now }
    requires written { at ≤ length out.old }
    ensures { (t : Map) (all pieces : List AnyPiece) → AreSteps all pieces steps.now
        → PassesArguments result t all pieces bytes.now from out.old at out.new }
{
    let before = Progress {
        read: from,
        written: at,
    };
    if steps.is_empty() {
        return Some(before);
    }
    match lone_number(steps) {
        Some((size, hint)) => pass_uint(size, hint, bytes, before, out),
        None => read_at_once(run_all(steps, bytes, from, out, at)),
    }
}

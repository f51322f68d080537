//! The pieces of a string as steps, made once.

ghost use Rattle.std.specs.Prelude.{◌≡◌, ◌<◌, ℕ, List, Some, IfSome, IfOk};
ghost use Rattle.std.specs.List.{slice_get};
ghost use Rattle.defmt_grammar.specs.Slots.{slots_of, uses_at};
ghost use Rattle.defmt_grammar.specs.declared.piece.Piece.{Piece as AnyPiece};
ghost use Rattle.defmt_plan.specs.Steps.{AreSteps, IsNextStep, behind, field_kind, field_slot, holds_values, piece_of};

use crate::bits::Field;
use defmt_grammar::{Hint, Kind, Memory, Param, Piece, Pieces, Slot, Text};
use std::alloc::Global;

// A step of a plan.
#[derive(Drop)]
pub(crate) enum Step {
    /// Characters that stand for themselves.
    Text(Text),
    /// The value of the next position.
    Value(Kind, Hint),
    /// Bits of the number of the next position, which is used for others behind.
    Peek(Field, Hint),
    /// Bits of the number of the next position, for the last time.
    Bits(Field, Hint),
}

// How far the making of steps has come: the next position, and how many fields of its number are before.
#[derive(Clone, Copy)]
pub(crate) struct Next {
    pub position: usize,
    pub fields: usize,
}

// The step of a field of bits, by how often its position is used.
fn field_step(field: Field, hint: Hint, fields: usize, uses: usize) -> Step
    ensures is { (next : ℕ) → piece_of next result
        ≡ Piece.Param (record { position = next; kind = field_kind field; hint = hint }) }
    ensures own { (all : List AnyPiece) (next : ℕ)
        → slice_get (slots_of all) next ≡ Some (field_slot field) → IsNextStep all next result }
{
    if fields.saturating_add(1) == uses {
        Step::Bits(field, hint)
    } else {
        Step::Peek(field, hint)
    }
}

// The step of a field of bits, where the position's slot is for such.
fn bits_step(lo: u8, hi: u8, hint: Hint, slot: Slot, fields: usize, uses: usize) -> Option<Step>
    ensures is { IfSome result (λ step. (next : ℕ) → piece_of next step
        ≡ Piece.Param (record { position = next; kind = Kind.Bits lo hi; hint = hint })) }
    ensures own { IfSome result (λ step. (all : List AnyPiece) (next : ℕ)
        → slice_get (slots_of all) next ≡ Some slot → IsNextStep all next step) }
{
    match slot {
        Slot::Bits { first, width } => {
            let field = Field {
                first,
                width,
                lo,
                hi,
            };
            Some(field_step(field, hint, fields, uses))
        }
        Slot::One(_) => None,
    }
}

// The step of a value, where the position's slot is for its kind and used once.
fn value_step(kind: Kind, hint: Hint, slot: Slot, uses: usize) -> Option<Step>
    ensures is { IfSome result (λ step. (next : ℕ) → piece_of next step
        ≡ Piece.Param (record { position = next; kind = kind; hint = hint })) }
    ensures own { IfSome result (λ step. (all : List AnyPiece) (next : ℕ)
        → slice_get (slots_of all) next ≡ Some slot → uses_at next all ≡ uses
        → IsNextStep all next step) }
{
    let Slot::One(own) = slot else {
        return None;
    };
    if uses == 1 && own == kind {
        Some(Step::Value(kind, hint))
    } else {
        None
    }
}

// The step of a parameter, where it has the next position, and where a value is used once. Interned texts and sequences have none.
fn param_step(param: Param, all: &Pieces, next: Next) -> Option<Step>
    ensures is { IfSome result (λ step. piece_of next.position step ≡ Piece.Param param) }
    ensures own { IfSome result (λ step. IsNextStep all.now next.position step) }
{
    if usize::from(param.position) != next.position {
        return None;
    }
    let uses = all.uses(param.position);
    let slot = *all.slots().get(next.position)?;
    match param.kind {
        Kind::Bits { lo, hi } => bits_step(lo, hi, param.hint, slot, next.fields, uses),
        Kind::Istr | Kind::Sequence => None,
        kind => value_step(kind, param.hint, slot, uses),
    }
}

// The step of a piece, where that is a literal or has the next position.
fn step_of(piece: &Piece, all: &Pieces, next: Next) -> Result<Option<Step>, Memory>
    ensures is { IfOk result (λ r. IfSome r (λ step. piece_of next.position step ≡ piece.now)) }
    ensures own { IfOk result (λ r. IfSome r (λ step. IsNextStep all.now next.position step)) }
{
    match piece {
        Piece::Literal(text) => Ok(Some(Step::Text(text.copy()?))),
        Piece::Param(param) => Ok(param_step(*param, all, next)),
    }
}

// What is next behind a step.
fn behind(next: Next, step: &Step) -> Next
    requires { next.position < 65536 }
    ensures { result.position ≡ behind next.position step.now }
{
    match step {
        Step::Text(_) => next,
        Step::Peek(_, _) => Next {
            position: next.position,
            fields: next.fields.saturating_add(1),
        },
        Step::Value(_, _) | Step::Bits(_, _) => Next {
            position: next.position + 1,
            fields: 0,
        },
    }
}

// The steps of the pieces of a string, where these use each position in order, and once unless for fields of a number. What they
// begin with may be left out, where that is a literal.
pub(crate) fn steps_of(
    alloc: Global,
    pieces: &[Piece],
    all: &Pieces,
) -> Result<Option<Vec<Step>>, Memory>
    ensures { IfOk result (λ r. IfSome r (λ steps. AreSteps all.now pieces.now steps.items)) }
{
    let mut steps = Vec::new(alloc);
    let mut next = Next {
        position: 0,
        fields: 0,
    };
    for piece in pieces {
        if next.position > 255 {
            return Ok(None);
        }
        let Some(step) = step_of(piece, all, next)? else {
            return Ok(None);
        };
        next = behind(next, &step);
        steps.push(step)?;
    }
    if next.position == all.slots().len() {
        Ok(Some(steps))
    } else {
        Ok(None)
    }
}

// Whether other values may stand inside a value of this kind.
fn holds_values(kind: Kind) -> bool
    ensures { result ≡ holds_values kind }
{
    matches!(
        kind,
        Kind::Format | Kind::FormatSlice | Kind::FormatArray(_)
    )
}

// Whether other values may stand inside one that the steps pass.
pub(crate) fn are_nested(steps: &[Step]) -> bool {
    for step in steps {
        if let Step::Value(kind, _) = step
            && holds_values(*kind)
        {
            return true;
        }
    }
    false
}

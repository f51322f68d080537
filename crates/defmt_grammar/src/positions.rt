//! What the positions of a text are used for.

ghost use Rattle.std.specs.Prelude.{◌≡◌, MatchOption, MatchBool, MatchResult, IfOk};
ghost use Rattle.defmt_grammar.specs.Grammar.{FirstClash};
ghost use Rattle.defmt_grammar.specs.Positions.{AllFit, Apart, IsJoined, span_of, ClashesWith, HoldsMore, CountFits, IsTableOf, IsFront, UsedFrom, UnusedFrom, HeldFit};

use crate::fault::Memory;
use crate::kind::Kind;
use crate::piece::Use;
use crate::slot::{Slot, slot_for};
use std::alloc::Global;

/// What is known of a position that is used: its kind, which for bit fields spans all of them, and
/// how often it is used.
#[derive(Clone, Copy)]
pub struct Held {
    pub kind: Kind,
    pub uses: usize,
}

// From the lower start of two bit fields to the higher end.
fn span_of(first: Kind, second: Kind) -> Option<Kind>
    ensures { result ≡ span_of first second }
{
    match (first, second) {
        (Kind::Bits { lo, hi }, Kind::Bits { lo: low, hi: high }) => {
            Some(Kind::Bits {
                lo: lo.min(low),
                hi: hi.max(high),
            })
        }
        _ => None,
    }
}

// The kind of a position that is used for both, or none where they don't go together.
fn joined(first: Kind, second: Kind) -> Option<Kind>
    ensures { MatchOption result (Apart first second) (λ kind. IsJoined first second kind) }
{
    match span_of(first, second) {
        Some(kind) => Some(kind),
        None if first == second => Some(first),
        None => None,
    }
}

// What is known of a position after one use more, or none where the kinds don't go together.
fn with_use(held: Option<Held>, kind: Kind) -> Option<Held>
    requires { CountFits held }
    ensures { MatchOption result (ClashesWith held kind) (λ more. HoldsMore held kind more) }
{
    match held {
        None => Some(Held { kind, uses: 1 }),
        Some(held) => match joined(held.kind, kind) {
            Some(kind) => Some(Held {
                kind,
                uses: held.uses + 1,
            }),
            None => None,
        },
    }
}

/// What each position is used for, or the place of the first use whose kind doesn't go together
/// with an earlier one of its position.
pub fn table_of(uses: &[Use]) -> Result<[Option<Held>; 16], u32>
    requires { AllFit uses.now }
    ensures { MatchResult result (λ table. IsTableOf table uses.now) (λ at. FirstClash uses.now at) }
{
    let mut table = [None; 16];
    'uses: for one in uses {
        let position = usize::from(one.param.position);
        match with_use(table[position], one.param.kind) {
            Some(held) => table[position] = Some(held),
            None => return Err(one.at),
        }
    }
    Ok(table)
}

/// The slots of the positions in front of the first that isn't used, and how often each is used.
pub fn slots_in(alloc: Global, table: &[Option<Held>]) -> Result<(Vec<Slot>, Vec<usize>), Memory>
    requires { HeldFit table.now }
    ensures { IfOk result (λ r. IsFront table.now r.0.items r.1.items) }
{
    let mut slots = Vec::new(alloc);
    let mut counts = Vec::new(alloc);
    'entries: for entry in table {
        match entry {
            Some(held) => {
                slots.push(slot_for(held.kind))?;
                counts.push(held.uses)?;
            }
            None => return Ok((slots, counts)),
        }
    }
    Ok((slots, counts))
}

/// Whether a position is used that isn't below this one.
pub fn is_used_from(table: &[Option<Held>], from: usize) -> bool
    ensures { MatchBool result (UsedFrom table.now from) (UnusedFrom table.now from) }
{
    for (position, entry) in table.iter().enumerate() {
        if from <= position && entry.is_some() {
            return true;
        }
    }
    false
}

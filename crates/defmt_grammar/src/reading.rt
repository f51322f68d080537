//! A text as pieces.

ghost use Rattle.std.specs.Prelude.{◌≡◌, ◌<◌, ◌^◌, [], ◌++◌, length, OnOk};
ghost use Rattle.defmt_grammar.specs.Reading.{ReadsWhole, flushed};

use crate::fault::{GrammarFault, Memory, Mode};
use crate::piece::{Piece, Use};
use crate::step::{Step, step_of};
use crate::text::Text;
use std::alloc::Global;
use std::mem;

// Makes a piece of the characters so far, where there are any.
fn flush(alloc: Global, pieces: &mut Vec<Piece>, literal: &mut Text) -> Result<(), Memory>
    ensures pieces { OnOk result (pieces.new.items ≡ pieces.old.items ++ flushed literal.old) }
    ensures literal { OnOk result (literal.new ≡ []) }
{
    if !literal.is_empty() {
        let whole = mem::replace(literal, Text::new(alloc));
        pieces.push(Piece::Literal(whole))?;
    }
    Ok(())
}

/// The pieces of a text, and its parameters with their places.
pub fn read(alloc: Global, text: &str, mode: Mode) -> Result<(Vec<Piece>, Vec<Use>), GrammarFault>
    requires { length text.now < 2 ^ 32 }
    ensures { ReadsWhole text.now mode result }
{
    let mut pieces = Vec::new(alloc);
    let mut uses = Vec::new(alloc);
    let mut literal = Text::new(alloc);
    let mut rest = text;
    let mut next = 0;
    'tokens: while !rest.is_empty() {
        let at = text.len() - rest.len();
        match step_of(rest, mode, next) {
            Err(fault) => {
                return Err(GrammarFault::Refused {
                    cause: fault.cause.number(),
                    at: (at + fault.at) as u32,
                });
            }
            Ok((Step::Literal(run), after)) => {
                literal.push_str(run)?;
                rest = after;
            }
            Ok((Step::Param(param, after_next), after)) => {
                flush(alloc, &mut pieces, &mut literal)?;
                pieces.push(Piece::Param(param))?;
                uses.push(Use {
                    at: at as u32,
                    param,
                })?;
                rest = after;
                next = after_next;
            }
        }
    }
    flush(alloc, &mut pieces, &mut literal)?;
    Ok((pieces, uses))
}

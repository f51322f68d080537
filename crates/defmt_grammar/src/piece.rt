//! Pieces.

ghost use Rattle.std.specs.Prelude.{◌≡◌, IfOk};

use crate::fault::Memory;
use crate::param::Param;
use crate::text::Text;

/// A part of a format string. The crate defmt-parser, `Fragment`.
#[derive(Drop)]
pub enum Piece {
    /// Characters that stand for themselves, with each brace written once.
    Literal(Text),
    /// A place for an argument.
    Param(Param),
}

impl Piece {
    /// The same piece again.
    pub fn copy(&self) -> Result<Piece, Memory>
        ensures { IfOk result (λ piece. piece ≡ self.now) }
    {
        match self {
            Piece::Literal(text) => Ok(Piece::Literal(text.copy()?)),
            Piece::Param(param) => Ok(Piece::Param(*param)),
        }
    }
}

/// A parameter, and the place of its brace in bytes from the text's start.
#[derive(Clone, Copy)]
pub struct Use {
    pub at: u32,
    pub param: Param,
}

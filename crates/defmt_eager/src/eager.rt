//! The text of a statement.

ghost use Rattle.defmt_eager.specs.Answers.{GivesText};
ghost use Rattle.defmt_values.specs.Fits.{Fits};

use crate::pieces::own_pieces;
use crate::rooms::push_pieces;
use defmt_grammar::{Memory, Text};
use defmt_intern::Table;
use defmt_values::Statement;
use std::alloc::Global;

/// The most bytes of the text of a statement, and of that of a stamp.
pub const PRINTED_LIMIT: usize = 65_536;

/// Why there is no text.
#[derive(Clone, Copy, Debug, Drop)]
pub enum EagerFault {
    /// The text has more than 65,536 bytes.
    Wide,
    /// Want of memory.
    Memory,
}

impl From<Memory> for EagerFault {
    ghost use Rattle.std.specs.Prelude.{◌≡◌};
    ghost use Rattle.defmt_eager.specs.declared.eager.EagerFault.TheVariants.{Memory as OutOfMemory};

    ghost from_gives = { λ _ e. e ≡ OutOfMemory };

    fn from(_: Memory) -> EagerFault {
        EagerFault::Memory
    }
}

/// The text of a statement that fits the table, without stamp and level: the pieces of its format string, with each
/// argument in its place (defmt book, "Hints").
///
/// # Errors
/// `EagerFault::Wide` exactly where the text has more than 65,536 bytes. `EagerFault::Memory` where memory runs out.
pub fn text_of(alloc: Global, table: &Table, stm: &Statement) -> Result<Text, EagerFault>
    requires { Fits table.now.entries stm.now.index stm.now.args }
    ensures { GivesText result table.now.entries stm.now.index stm.now.args }
{
    let mut out = Text::new(alloc);
    push_pieces(table, &mut out, own_pieces(table, stm.index), &stm.args)?;
    Ok(out)
}

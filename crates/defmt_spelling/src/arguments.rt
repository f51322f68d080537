//! Reading the arguments of a statement from text.
ghost use Rattle.std.specs.Prelude.{◌≡◌, ℕ, List, Result, Ok, IfOk};
ghost use Rattle.defmt_intern.specs.Table.{Map as AnyTable};
ghost use Rattle.defmt_spelling.specs.Names.{NameMap};
ghost use Rattle.defmt_spelling.specs.Reading.{Reads, GivesOnly};
ghost use Rattle.defmt_spelling.specs.Spelling.{ReadsArguments};
ghost use Rattle.defmt_values.specs.Fits.{Fits};
ghost use Rattle.defmt_values.specs.Plain.{Vals};

use crate::fault::ArgFault;
use crate::names::Names;
use crate::reading::read_values;
use defmt_intern::Table;
use defmt_values::{Args, own_form};
use std::alloc::Global;

fn read_whole(
    alloc: Global,
    names: &Names,
    table: &Table,
    index: u16,
    text: &str,
) -> Result<Args, ArgFault>
    ensures { Reads names.now table.now.entries index text.now result }
{
    let pieces = own_form(table, index)?;
    let (args, _) = read_values(alloc, names, table, pieces, 16, 1, 0, text)?;
    Ok(args)
}

/// Reads the arguments of a statement of this entry from their spelling, as the format of spelled arguments says:
/// values parted by spaces, one for each position of the entry's text.
///
/// # Errors
/// The cause is the first from left to right. Where the entry itself has no pieces of its own it is that of the
/// entry: 5 where it is missing or an interned string, 8 where its text was refused, 4 where it is an enum.
pub fn read_args(
    alloc: Global,
    names: &Names,
    table: &Table,
    index: u16,
    text: &str,
) -> Result<Args, ArgFault>
    // Only what the text spells, and a cause only where it is the first.
    ensures answer { Reads names.now table.now.entries index text.now result }
    // Unless memory runs out, what the text reads as is answered.
    ensures reads { (read : Result Vals ℕ)
        → ReadsArguments names.now table.now.entries index text.now read → GivesOnly result read }
    // The statement fits the table.
    ensures fits { IfOk result (λ args. Fits table.now.entries index args) }
{
    read_whole(alloc, names, table, index, text)
}

/// A text reads as one list of values at most, or has one first cause and spells none.
pub fn one_reading()
    ensures { (names : NameMap) (table : AnyTable) (index : ℕ) (text : List ℕ) (a b : Result Vals ℕ)
        → ReadsArguments names table index text a → ReadsArguments names table index text b
        → a ≡ b }
{}

/// Each text reads as a list of values, or has a first cause for which it spells none.
pub fn some_reading()
    ensures { (names : NameMap) (table : AnyTable) (index : ℕ) (text : List ℕ)
        → (read : Result Vals ℕ) × ReadsArguments names table index text read }
{}

//! What a value with values inside is held against: its slot, the form of its entry, and the weight that is left.
ghost use Rattle.std.specs.Prelude.{◌<◌, ◌≤◌, ℕ, Option, IfOk, OnOk};
ghost use Rattle.defmt_shapes.specs.Spelling.{HoldsVariant};
ghost use Rattle.defmt_spelling.specs.Reading.{GivesForm, GivesElement, GivesVariant, GivesSum, Tests};
ghost use Rattle.defmt_values.specs.Scan.{node_cause, list_cause, sequence_cause, count_cause, pick, add};

use crate::fault::{ArgFault, Cause};
use crate::leaves::index_of;
use crate::names::Names;
use defmt_grammar::{Kind, Pieces, Slot};
use defmt_intern::{Parsed, Table};
use defmt_shapes::Number;
use defmt_values::{element_form, form_of, pick};

// The most that the values of a text weigh.
const WEIGHT_LIMIT: usize = 8192;

/// Whether a Format value may stand in this slot.
pub fn check_node(slot: Slot) -> Result<(), ArgFault>
    ensures { Tests (node_cause slot) result }
{
    match slot {
        Slot::One(Kind::Format) => Ok(()),
        _ => Err(Cause::Kind.into()),
    }
}

/// Whether a list of some elements may stand in this slot.
pub fn check_list(slot: Slot) -> Result<(), ArgFault>
    ensures { Tests (list_cause slot) result }
{
    match slot {
        Slot::One(Kind::FormatSlice | Kind::FormatArray(_)) => Ok(()),
        _ => Err(Cause::Kind.into()),
    }
}

/// Whether a sequence may stand in this slot.
pub fn check_sequence(slot: Slot) -> Result<(), ArgFault>
    ensures { Tests (sequence_cause slot) result }
{
    match slot {
        Slot::One(Kind::Sequence) => Ok(()),
        _ => Err(Cause::Kind.into()),
    }
}

/// Whether a list of so many elements may stand in this slot.
pub fn check_count(slot: Slot, count: usize) -> Result<(), ArgFault>
    ensures { Tests (count_cause slot count) result }
{
    match slot {
        Slot::One(Kind::FormatArray(n)) if count != usize::from(n) => Err(Cause::Range.into()),
        _ => Ok(()),
    }
}

/// The sum with one more weight.
pub fn add(weight: usize, sum: usize) -> Result<usize, ArgFault>
    requires { sum ≤ 8192 }
    ensures value { GivesSum (add weight sum) result }
    ensures small { IfOk result (λ s. s ≤ 8192) }
{
    if weight <= WEIGHT_LIMIT - sum {
        Ok(sum + weight)
    } else {
        Err(Cause::Many.into())
    }
}

/// The index of a name, and the form of its entry, whose values stand one level deeper.
pub fn find_form<'a>(
    names: &Names,
    table: &'a Table,
    left: u8,
    name: &str,
) -> Result<(u16, &'a Parsed), ArgFault>
    ensures form { GivesForm names.now table.now.entries left name.now result }
    ensures deep { OnOk result (0 < left) }
{
    if left == 0 {
        return Err(Cause::Deep.into());
    }
    let index = index_of(names, name)?;
    let form = form_of(table, index)?;
    Ok((index, form))
}

/// The same of an element of a sequence.
pub fn find_element<'a>(
    names: &Names,
    table: &'a Table,
    left: u8,
    name: &str,
) -> Result<(u16, &'a Parsed), ArgFault>
    ensures form { GivesElement names.now table.now.entries left name.now result }
    ensures deep { OnOk result (0 < left) }
{
    if left == 0 {
        return Err(Cause::Deep.into());
    }
    let index = index_of(names, name)?;
    let form = element_form(table, index)?;
    Ok((index, form))
}

/// The pieces of a form, or of its variant of this number.
pub fn find_pieces(
    form: &Parsed,
    variant: Option<Number>,
) -> Result<(&Pieces, Option<u8>), ArgFault>
    ensures { (v : Option ℕ) → HoldsVariant variant v → GivesVariant (pick form.now v) v result }
{
    let variant = match variant {
        None => None,
        Some(Number::Within(n)) if n < 256 => Some(n as u8),
        Some(_) => return Err(Cause::Range.into()),
    };
    let pieces = pick(form, variant)?;
    Ok((pieces, variant))
}

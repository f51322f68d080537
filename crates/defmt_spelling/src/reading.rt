//! Reading the values of a text, one after another.
ghost use Rattle.std.specs.Prelude.{◌≤◌, Ok, IfOk};
ghost use Rattle.std.specs.Bool.{OnTrue};
ghost use Rattle.std.specs.Str.{IsUtf8};
ghost use Rattle.defmt_grammar.specs.Slots.{IsSound};
ghost use Rattle.defmt_spelling.specs.Reading.{ReadsValues, ReadsFront, SmallValue, SmallFront, SpellsSome};
ghost use Rattle.defmt_values.specs.Entries.{places_of};

use crate::fault::{ArgFault, Cause};
use crate::names::Names;
use crate::nested::{read_node, read_value};
use crate::quick::push_quick;
use defmt_grammar::{Kind, Language, Pieces, Slot};
use defmt_intern::Table;
use defmt_shapes::{first_value, last_call, skip_spaces};
use defmt_values::{Args, Value, cut};
use dl_io::Memory;
use std::alloc::Global;

/// The values of a text, in a text that has this weight.
#[cycle(read)]
pub fn read_values(
    alloc: Global,
    names: &Names,
    table: &Table,
    pieces: &Pieces,
    left: u8,
    weight: usize,
    sum: usize,
    text: &str,
) -> Result<(Args, usize), ArgFault>
    requires sum { sum ≤ 8192 }
    ensures value { ReadsValues names.now table.now.entries left weight
        (places_of pieces.now) sum text.now result }
    ensures small { SmallValue result }
{
    let mut slots = pieces.slots();
    let mut args = Args::with_room(alloc, slots.len())?;
    let mut position = 0u8;
    let mut total = sum;
    let mut rest = text;
    'each: while let Some((slot, others)) = cut(slots) {
        if let Some(after) = push_quick(alloc, *slot, skip_spaces(rest), &mut args)? {
            slots = others;
            position += 1;
            rest = after;
            continue 'each;
        }
        let weight_there = pieces.uses(position).saturating_mul(weight);
        let last = others.is_empty();
        let (value, next, after) = read_next(
            alloc,
            names,
            table,
            *slot,
            left,
            weight_there,
            total,
            last,
            rest,
        )?;
        args.push(value)?;
        slots = others;
        position += 1;
        total = next;
        rest = after;
    }
    if skip_spaces(rest).is_empty() {
        Ok((args, total))
    } else {
        Err(Cause::Count.into())
    }
}

// The first value of a text, and what follows it.
#[cycle(read)]
fn read_front<'a>(
    alloc: Global,
    names: &Names,
    table: &Table,
    slot: Slot,
    left: u8,
    weight: usize,
    sum: usize,
    text: &'a str,
) -> Result<(Value, usize, &'a str), ArgFault>
    requires sum { sum ≤ 8192 }
    requires sound { IsSound slot }
    ensures value { ReadsFront names.now table.now.entries left slot weight sum text.now result }
    ensures small { SmallFront result }
    ensures utf8 { IfOk result (λ r. IsUtf8 r.2.now) }
{
    let text = skip_spaces(text);
    if text.is_empty() {
        return Err(Cause::Count.into());
    }
    let Some((spelling, rest)) = first_value(alloc, table.language(), text)? else {
        return Err(Cause::Syntax.into());
    };
    let (value, sum) = read_value(alloc, names, table, slot, left, weight, sum, spelling)?;
    Ok((value, sum, rest))
}

// Whether a text spells values, of any kinds.
fn are_values(alloc: Global, language: Language, text: &str) -> Result<bool, Memory>
    ensures { IfOk result (λ are. OnTrue are (SpellsSome language text.now)) }
{
    let mut rest = text;
    'each: while let Some((_, more)) = first_value(alloc, language, skip_spaces(rest))? {
        rest = more;
    }
    Ok(skip_spaces(rest).is_empty())
}

// The first value of a text, which may be its last, and what follows it. A last Format value that goes up to the text's end is read
// without a search for its closing bracket. Where it can't be read so, and its inside spells no values, it ends elsewhere or nowhere.
#[cycle(read)]
fn read_next<'a>(
    alloc: Global,
    names: &Names,
    table: &Table,
    slot: Slot,
    left: u8,
    weight: usize,
    sum: usize,
    last: bool,
    text: &'a str,
) -> Result<(Value, usize, &'a str), ArgFault>
    requires sum { sum ≤ 8192 }
    requires sound { IsSound slot }
    ensures value { ReadsFront names.now table.now.entries left slot weight sum text.now result }
    ensures small { SmallFront result }
    ensures utf8 { IfOk result (λ r. IsUtf8 r.2.now) }
{
    if last
        && let Slot::One(Kind::Format) = slot
        && let Some((name, inside)) = last_call(skip_spaces(text))
    {
        match read_node(
            alloc, names, table, slot, left, weight, sum, name, None, inside,
        ) {
            Ok((value, sum)) => {
                let (_, rest) = text.split_at(text.len());
                return Ok((value, sum, rest));
            }
            Err(fault) => {
                let spelled = are_values(alloc, table.language(), inside)?;
                if spelled {
                    return Err(fault);
                }
            }
        }
    }
    read_front(alloc, names, table, slot, left, weight, sum, text)
}

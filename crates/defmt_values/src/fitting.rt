//! The test that statements fit a table.
ghost use Rattle.std.specs.Prelude.{◌≡◌, ℕ, ◌∷◌, [], ◌<◌, ◌≤◌, Err, IfOk, IfErr, IfSome, IsOk, OnOk, MatchOption};
ghost use Rattle.defmt_values.specs.Scan.{add, list_form, no_index, scan_val, scan_vals, scan_elems, scan_nodes, own_cause, opened, started};
ghost use Rattle.defmt_values.specs.Entries.{places_of};
ghost use Rattle.defmt_values.specs.Faults.{StatementFault};
ghost use Rattle.defmt_values.specs.Fits.{Fits};
ghost use Rattle.defmt_values.specs.Now.{now_of, pair_now, option_now};
ghost use Rattle.defmt_values.specs.Plain.{elems_empty};
ghost use Rattle.defmt_values.specs.View.{plain};

use crate::cause::{COUNT, DEEP, MANY, NO_ENTRY};
use crate::entries::{element_form, form_of, own_form, pick};
use crate::leaves::{check_count, check_leaf, check_list, check_node, check_sequence, test};
use crate::value::{Args, Items, Nodes, Seq, Statement, Value};
use defmt_grammar::{Pieces, Slot};
use defmt_intern::{Parsed, Table};

/// The first of a list, and the others. Takes no memory.
pub fn cut<T>(xs: &[T]) -> Option<(&T, &[T])>
    ensures { MatchOption result (xs.now ≡ []) (λ p. xs.now ≡ p.0.now ∷ p.1.now) }
{
    xs.split_first()
}

// The most that the weights of the Format values of a statement come to.
const WEIGHT_LIMIT: usize = 8192;

// The sum with one more weight; 7 where it passes 8,192.
fn add(weight: usize, sum: usize) -> Result<usize, u8>
    requires { sum ≤ 8192 }
    ensures value { result ≡ add weight sum }
    ensures small { IfOk result (λ s. (s ≤ 8192) × (weight ≤ 8192)) }
{
    if weight <= WEIGHT_LIMIT - sum {
        Ok(sum + weight)
    } else {
        Err(MANY)
    }
}

// The form of the entry of a list's elements.
fn list_form(table: &Table, index: Option<u16>) -> Result<&Parsed, u8>
    ensures { now_of result ≡ list_form table.now.entries index }
{
    match index {
        None => Err(NO_ENTRY),
        Some(index) => form_of(table, index),
    }
}

// A list without elements has no index.
fn no_index(index: Option<u16>) -> Result<(), u8>
    ensures { result ≡ no_index index }
{
    match index {
        None => Ok(()),
        Some(_) => Err(NO_ENTRY),
    }
}

// The pieces of a Format value, or of an element of a sequence, and the sum with its own weight. The form is what its
// index stands for.
fn open(
    form: Result<&Parsed, u8>,
    variant: Option<u8>,
    left: u8,
    weight: usize,
    sum: usize,
) -> Result<(&Pieces, usize), u8>
    requires { sum ≤ 8192 }
    ensures value { pair_now result ≡ opened left (now_of form.entry) weight sum variant }
    ensures small { IfOk result (λ r. (r.1 ≤ 8192) × (0 < left)) }
{
    test(left > 0, DEEP)?;
    let form = form?;
    let sum = add(weight, sum)?;
    let pieces = pick(form, variant)?;
    Ok((pieces, sum))
}

// The form of a list's elements, where it has some.
fn start<'t>(table: &'t Table, slot: Slot, seq: &Seq, left: u8) -> Result<Option<&'t Parsed>, u8>
    ensures value { option_now result
        ≡ started table.now.entries left slot seq.now.index (elems_empty seq.now.items) }
    ensures deep { IfOk result (λ o. IfSome o (λ _. 0 < left)) }
{
    check_list(slot)?;
    if seq.items.is_empty() {
        no_index(seq.index)?;
        check_count(slot, 0)?;
        return Ok(None);
    }
    test(left > 0, DEEP)?;
    let form = list_form(table, seq.index)?;
    Ok(Some(form))
}

// Tests one value of a slot. At most `left` levels of Format values may still be opened.
#[cycle(check)]
#[tactic(auto, unfolding(crate::specs::Scan::scan_val))]
fn check_value(
    table: &Table,
    slot: Slot,
    value: &Value,
    left: u8,
    weight: usize,
    sum: usize,
) -> Result<usize, u8>
    requires sum { sum ≤ 8192 }
    ensures value { result ≡ scan_val table.now.entries left slot weight sum (plain value.now) }
    ensures small { IfOk result (λ s. s ≤ 8192) }
{
    match value {
        Value::Format(node) => {
            check_node(slot)?;
            let form = form_of(table, node.index);
            let (pieces, sum) = open(form, node.variant, left, weight, sum)?;
            check_args(table, pieces, &node.args, left - 1, weight, sum)
        }
        Value::Seq(seq) => {
            let Some(form) = start(table, slot, seq, left)? else {
                return Ok(sum);
            };
            let sum = check_items(table, form, &seq.items, left - 1, weight, sum)?;
            check_count(slot, seq.items.len())?;
            Ok(sum)
        }
        Value::Sequence(nodes) => {
            check_sequence(slot)?;
            check_nodes(table, nodes, left, weight, sum)
        }
        leaf => {
            check_leaf(table, slot, leaf)?;
            Ok(sum)
        }
    }
}

// Tests the values of a text's arguments, in a text that has this weight.
#[cycle(check)]
fn check_args(
    table: &Table,
    pieces: &Pieces,
    args: &Args,
    left: u8,
    weight: usize,
    sum: usize,
) -> Result<usize, u8>
    requires sum { sum ≤ 8192 }
    ensures value { result
        ≡ scan_vals table.now.entries left (places_of pieces.now) weight sum args.now }
    ensures small { IfOk result (λ s. s ≤ 8192) }
{
    let mut values = args.as_slice();
    let mut slots = pieces.slots();
    let mut position = 0u8;
    let mut total = sum;
    'each: while let Some((value, more)) = cut(values) {
        let Some((slot, others)) = cut(slots) else {
            return Err(COUNT);
        };
        let weight_there = pieces.uses(position).saturating_mul(weight);
        total = check_value(table, *slot, value, left, weight_there, total)?;
        values = more;
        slots = others;
        position += 1;
    }
    match cut(slots) {
        None => Ok(total),
        Some(_) => Err(COUNT),
    }
}

// Tests the elements of a list.
#[cycle(check)]
fn check_items(
    table: &Table,
    form: &Parsed,
    items: &Items,
    left: u8,
    weight: usize,
    sum: usize,
) -> Result<usize, u8>
    requires sum { sum ≤ 8192 }
    ensures value { result ≡ scan_elems table.now.entries left form.now weight sum items.now }
    ensures small { IfOk result (λ s. s ≤ 8192) }
{
    let mut rest = items.as_slice();
    let mut total = sum;
    'each: while let Some((item, more)) = cut(rest) {
        total = add(weight, total)?;
        let pieces = pick(form, item.variant)?;
        total = check_args(table, pieces, &item.args, left, weight, total)?;
        rest = more;
    }
    Ok(total)
}

// Tests the elements of a sequence, of which each stands where the sequence does.
#[cycle(check)]
fn check_nodes(
    table: &Table,
    nodes: &Nodes,
    left: u8,
    weight: usize,
    sum: usize,
) -> Result<usize, u8>
    requires sum { sum ≤ 8192 }
    ensures value { result ≡ scan_nodes table.now.entries left weight sum nodes.now }
    ensures small { IfOk result (λ s. s ≤ 8192) }
{
    let mut rest = nodes.as_slice();
    let mut total = sum;
    'each: while let Some((node, more)) = cut(rest) {
        let form = element_form(table, node.index);
        let (pieces, opened) = open(form, node.variant, left, weight, total)?;
        total = check_args(table, pieces, &node.args, left - 1, weight, opened)?;
        rest = more;
    }
    Ok(total)
}

fn first_cause(table: &Table, stm: &Statement) -> Result<(), u8>
    ensures { result ≡ own_cause table.now.entries stm.now.index stm.now.args }
{
    let pieces = own_form(table, stm.index)?;
    check_args(table, pieces, &stm.args, 16, 1, 0)?;
    Ok(())
}

/// Tests that a statement fits the table, whatever the tag of its entry. Takes no memory.
///
/// # Errors
/// The first cause from left to right: 2 fewer or more values than positions; 3 a value of another kind; 4 a number
/// outside its kind, bits outside their window, an array of another length, a variant that isn't there, is missing or
/// is given to no enum; 5 an index that isn't in the table or whose tag doesn't suit, or 0 in a sequence; 6 a Format value at depth 17;
/// 7 the weights pass 8,192; 8 an entry whose text was refused.
pub fn check(table: &Table, stm: &Statement) -> Result<(), u8>
    // The cause is the first from left to right, and the first is answered.
    ensures refused { IfErr result
        (λ cause. StatementFault table.now.entries stm.now.index stm.now.args cause) }
    ensures first { (cause : ℕ)
        → StatementFault table.now.entries stm.now.index stm.now.args cause → result ≡ Err cause }
    // None stands exactly where the statement fits.
    ensures passed { OnOk result (Fits table.now.entries stm.now.index stm.now.args) }
    ensures fits { Fits table.now.entries stm.now.index stm.now.args → IsOk result }
{
    first_cause(table, stm)
}

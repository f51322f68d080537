//! Steps that pass a message with values inside others, to the depth of the values.

ghost use Rattle.std.specs.Prelude.{◌≡◌, ◌≤◌, List, length, true};
ghost use Rattle.defmt_eager.specs.Show.{show_val};
ghost use Rattle.defmt_encode.specs.Read.{below, elem_at, elems_at, list_at, node_at, slot_at, some_at, value_at};
ghost use Rattle.defmt_grammar.specs.declared.kind.Kind.{Kind as AnyKind};
ghost use Rattle.defmt_grammar.specs.declared.kind.Kind.TheVariants as kinds;
ghost use Rattle.defmt_grammar.specs.declared.piece.Piece.{Piece as AnyPiece};
ghost use Rattle.defmt_grammar.specs.declared.slot.Slot.TheVariants as slots;
ghost use Rattle.defmt_intern.specs.Table.{Map};
ghost use Rattle.defmt_intern.specs.declared.parsed.Parsed.{Parsed};
ghost use Rattle.defmt_plan.specs.Forms.{AreFormsIn, ArePlanned, IsPlannedWith, StandsFor};
ghost use Rattle.defmt_plan.specs.Inside.{elem_text, elems_text, inner_text};
ghost use Rattle.defmt_plan.specs.Readers.{PassesBy, PassesPieces, PassesStepBy};
ghost use Rattle.defmt_plan.specs.Steps.{AreSteps};

use crate::forms::{Body, Form, Forms, find_form};
use crate::reach::{Reach, behind, pass_bits, pass_leaf};
use crate::steps::Step;
use crate::take::take_uint;
use defmt_eager::{acting, comma};
use defmt_grammar::{Hint, Kind};
use defmt_hints::{put, put_text};

// The most Format values of a message.
const MOST_OPENED: usize = 8192;

// A list of so many elements, between its brackets.
#[cycle(inside)]
fn pass_list(
    forms: &Forms,
    count: u64,
    left: u8,
    hint: Hint,
    bytes: &[u8],
    before: Reach,
    out: &mut [u8],
) -> Option<Reach>
    requires read { before.read ≤ length bytes.now }
    requires written { before.written ≤ length out.old }
    requires few { before.opened ≤ 8192 }
    requires planned { ArePlanned forms.now }
    ensures { (t : Map) (kind : AnyKind) → AreFormsIn t forms.now.items.items
        → PassesBy result (some_at t (below t left) count 1) (λ v. show_val t v kind hint)
        bytes.now before out.old out.new }
{
    let open = put(out, before.written, b"[")?;
    let inside = Reach {
        read: before.read,
        written: open,
        opened: before.opened,
    };
    let all = pass_some(forms, count, left, hint, bytes, inside, out)?;
    let close = put(out, all.written, b"]")?;
    Some(Reach {
        read: all.read,
        written: close,
        opened: all.opened,
    })
}

// The index of the elements of a list, and the elements, where there are some.
#[cycle(inside)]
fn pass_some(
    forms: &Forms,
    count: u64,
    left: u8,
    hint: Hint,
    bytes: &[u8],
    before: Reach,
    out: &mut [u8],
) -> Option<Reach>
    requires read { before.read ≤ length bytes.now }
    requires written { before.written ≤ length out.old }
    requires few { before.opened ≤ 8192 }
    requires planned { ArePlanned forms.now }
    ensures { (t : Map) → AreFormsIn t forms.now.items.items
        → PassesBy result (some_at t (below t left) count 1) (inner_text t hint) bytes.now
        before out.old out.new }
{
    if count == 0 {
        return Some(before);
    }
    if left == 0 {
        return None;
    }
    let number = take_uint(bytes, before.read, 2)?;
    let form = find_form(forms, number as u16)?;
    pass_elements(
        forms,
        form,
        count,
        left - 1,
        hint,
        bytes,
        behind(before, 2),
        out,
    )
}

// Elements of a list, parted by commas.
#[cycle(inside)]
fn pass_elements(
    forms: &Forms,
    form: &Form,
    count: u64,
    left: u8,
    hint: Hint,
    bytes: &[u8],
    before: Reach,
    out: &mut [u8],
) -> Option<Reach>
    requires read { before.read ≤ length bytes.now }
    requires written { before.written ≤ length out.old }
    requires few { before.opened ≤ 8192 }
    requires planned { IsPlannedWith forms.now form.now }
    ensures { (t : Map) (what : Parsed) → AreFormsIn t forms.now.items.items
        → StandsFor t form.now what
        → PassesBy result (elems_at (value_at t left) what count 1)
        (elems_text t hint form.now.index) bytes.now before out.old out.new }
{
    let mut reach = before;
    for number in 0..count {
        let parted = put(out, reach.written, comma(number == 0).as_bytes())?;
        let inside = Reach {
            read: reach.read,
            written: parted,
            opened: reach.opened,
        };
        reach = pass_form(forms, form, left, hint, bytes, inside, out)?;
    }
    Some(reach)
}

// A Format value behind its index.
#[cycle(inside)]
fn pass_form(
    forms: &Forms,
    form: &Form,
    left: u8,
    hint: Hint,
    bytes: &[u8],
    before: Reach,
    out: &mut [u8],
) -> Option<Reach>
    requires read { before.read ≤ length bytes.now }
    requires written { before.written ≤ length out.old }
    requires few { before.opened ≤ 8192 }
    requires planned { IsPlannedWith forms.now form.now }
    ensures { (t : Map) (what : Parsed) → AreFormsIn t forms.now.items.items
        → StandsFor t form.now what
        → PassesBy result (elem_at (value_at t left) what 1) (elem_text t hint form.now.index)
        bytes.now before out.old out.new }
{
    if before.opened >= MOST_OPENED {
        return None;
    }
    let inside = Reach {
        read: before.read,
        written: before.written,
        opened: before.opened + 1,
    };
    match &form.body {
        Body::One(steps) => pass_steps(forms, steps, left, hint, bytes, inside, out),
        Body::Variants(all) => {
            let variant = take_uint(bytes, before.read, 1)?;
            let steps = all.get(variant as usize)?;
            pass_steps(forms, steps, left, hint, bytes, behind(inside, 1), out)
        }
    }
}

// A Format value.
#[cycle(inside)]
fn pass_format(
    forms: &Forms,
    left: u8,
    hint: Hint,
    bytes: &[u8],
    before: Reach,
    out: &mut [u8],
) -> Option<Reach>
    requires read { before.read ≤ length bytes.now }
    requires written { before.written ≤ length out.old }
    requires few { before.opened ≤ 8192 }
    requires planned { ArePlanned forms.now }
    ensures { (t : Map) → AreFormsIn t forms.now.items.items
        → PassesBy result (slot_at t (below t left) (slots.One kinds.Format) 1)
        (λ v. show_val t v kinds.Format hint) bytes.now before out.old out.new }
{
    if left == 0 {
        return None;
    }
    let number = take_uint(bytes, before.read, 2)?;
    let form = find_form(forms, number as u16)?;
    pass_form(forms, form, left - 1, hint, bytes, behind(before, 2), out)
}

// A value of a kind, under the hint that acts on it.
#[cycle(inside)]
fn pass_any(
    forms: &Forms,
    kind: Kind,
    left: u8,
    hint: Hint,
    bytes: &[u8],
    before: Reach,
    out: &mut [u8],
) -> Option<Reach>
    requires read { before.read ≤ length bytes.now }
    requires written { before.written ≤ length out.old }
    requires few { before.opened ≤ 8192 }
    requires planned { ArePlanned forms.now }
    ensures { (t : Map) → AreFormsIn t forms.now.items.items
        → PassesBy result (slot_at t (below t left) (slots.One kind) 1)
        (λ v. show_val t v kind hint) bytes.now before out.old out.new }
{
    match kind {
        Kind::Format => pass_format(forms, left, hint, bytes, before, out),
        Kind::FormatSlice => {
            let count = take_uint(bytes, before.read, 4)?;
            pass_list(forms, count, left, hint, bytes, behind(before, 4), out)
        }
        Kind::FormatArray(count) => {
            pass_list(forms, u64::from(count), left, hint, bytes, before, out)
        }
        leaf => pass_leaf(leaf, hint, bytes, before, out),
    }
}

// One step, under the hint that acts round it.
#[cycle(inside)]
fn pass_step(
    forms: &Forms,
    step: &Step,
    left: u8,
    outer: Hint,
    bytes: &[u8],
    before: Reach,
    out: &mut [u8],
) -> Option<Reach>
    requires read { before.read ≤ length bytes.now }
    requires written { before.written ≤ length out.old }
    requires few { before.opened ≤ 8192 }
    requires planned { ArePlanned forms.now }
    ensures { (t : Map) → AreFormsIn t forms.now.items.items
        → PassesStepBy result t left outer step.now bytes.now before out.old out.new }
{
    match step {
        Step::Text(text) => {
            let written = put_text(out, before.written, text.as_str().as_bytes())?;
            Some(Reach {
                read: before.read,
                written,
                opened: before.opened,
            })
        }
        Step::Value(kind, hint) => {
            pass_any(forms, *kind, left, acting(outer, *hint), bytes, before, out)
        }
        Step::Peek(field, hint) => {
            pass_bits(*field, acting(outer, *hint), false, bytes, before, out)
        }
        Step::Bits(field, hint) => {
            pass_bits(*field, acting(outer, *hint), true, bytes, before, out)
        }
    }
}

// Steps, one after another, under the hint that acts round them. At most `left` levels of Format values may still be opened.
#[cycle(inside)]
pub(crate) fn pass_steps(
    forms: &Forms,
    steps: &[Step],
    left: u8,
    outer: Hint,
    bytes: &[u8],
    before: Reach,
    out: &mut [u8],
) -> Option<Reach>
    requires read { before.read ≤ length bytes.now }
    requires written { before.written ≤ length out.old }
    requires few { before.opened ≤ 8192 }
    requires planned { ArePlanned forms.now }
    ensures { (t : Map) (all pieces : List AnyPiece) → AreFormsIn t forms.now.items.items
        → AreSteps all pieces steps.now
        → PassesPieces result t left outer all pieces bytes.now before out.old out.new }
{
    let mut reach = before;
    for step in steps {
        reach = pass_step(forms, step, left, outer, bytes, reach, out)?;
    }
    Some(reach)
}

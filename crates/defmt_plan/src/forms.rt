//! Plans of the strings that values have which stand in others.

ghost use Rattle.std.specs.Prelude.{◌≡◌, IfOk, IfSome};
ghost use Rattle.defmt_intern.specs.Table.{Map};
ghost use Rattle.defmt_intern.specs.declared.parsed.Parsed.TheVariants as parsed;
ghost use Rattle.defmt_plan.specs.Forms.{AreFormsIn, AreVariants, IsBody, IsFormIn};

use crate::numbers::{Indexed, number_at, numbers_of};
use crate::steps::{Step, steps_of};
use defmt_grammar::{Memory, Pieces};
use defmt_intern::{Parsed, Table};
use defmt_values::{is_format, look_up};
use std::alloc::Global;

// The steps of a Format value's string, or of each of its variants.
#[derive(Drop)]
pub(crate) enum Body {
    One(Vec<Step>),
    Variants(Vec<Vec<Step>>),
}

// The plan of the string of Format values.
#[derive(Drop)]
pub(crate) struct Form {
    pub index: u16,
    pub body: Body,
}

impl Indexed for Form {
    fn index(&self) -> u16 {
        self.index
    }
}

// The plans of the strings of Format values, in the order of their indexes.
#[derive(Drop)]
pub(crate) struct Forms {
    pub items: Vec<Form>,
    /// At an index the number of its plan, where it has one.
    pub numbers: Vec<u16>,
}

// The steps of each variant, where all are usual.
fn variants_of(alloc: Global, forms: &[Pieces]) -> Result<Option<Vec<Vec<Step>>>, Memory>
    ensures { IfOk result (λ r. IfSome r (λ all. AreVariants forms.now all.items)) }
{
    let mut all = Vec::new(alloc);
    for pieces in forms {
        let Some(steps) = steps_of(alloc, pieces.as_slice(), pieces)? else {
            return Ok(None);
        };
        all.push(steps)?;
    }
    Ok(Some(all))
}

// The steps of a string that has no bars, where all are usual.
fn body_of_one(alloc: Global, pieces: &Pieces) -> Result<Option<Body>, Memory>
    ensures { IfOk result (λ r. IfSome r (λ body. IsBody (parsed.One pieces.now) body)) }
{
    let Some(steps) = steps_of(alloc, pieces.as_slice(), pieces)? else {
        return Ok(None);
    };
    Ok(Some(Body::One(steps)))
}

// The steps of each variant of a string that is cut at its bars, where all are usual.
fn body_of_variants(alloc: Global, forms: &[Pieces]) -> Result<Option<Body>, Memory>
    ensures { IfOk result (λ r. IfSome r (λ body. IsBody (parsed.Variants forms.now) body)) }
{
    let Some(all) = variants_of(alloc, forms)? else {
        return Ok(None);
    };
    Ok(Some(Body::Variants(all)))
}

// The steps of what a string stands for, where all are usual.
fn body_of(alloc: Global, body: &Parsed) -> Result<Option<Body>, Memory>
    ensures { IfOk result (λ r. IfSome r (λ steps. IsBody body.now steps)) }
{
    match body {
        Parsed::One(pieces) => body_of_one(alloc, pieces),
        Parsed::Variants(forms) => body_of_variants(alloc, forms.as_slice()),
        _ => Ok(None),
    }
}

// The plan of the string at an index, where Format values may have it, and it is usual.
fn form_at(alloc: Global, table: &Table, index: u16) -> Result<Option<Form>, Memory>
    ensures { IfOk result (λ r. IfSome r (λ form. IsFormIn table.now.entries form)) }
{
    let Some((entry, parsed)) = look_up(table, index) else {
        return Ok(None);
    };
    if !is_format(&entry.tag) {
        return Ok(None);
    }
    let Some(body) = body_of(alloc, parsed)? else {
        return Ok(None);
    };
    Ok(Some(Form { index, body }))
}

// The plans of a table's strings that Format values may have, and that are usual.
fn forms_in(alloc: Global, table: &Table) -> Result<Vec<Form>, Memory>
    ensures { IfOk result (λ forms. AreFormsIn table.now.entries forms.items) }
{
    let mut forms = Vec::new(alloc);
    for (index, _) in table.entries() {
        if let Some(form) = form_at(alloc, table, index)? {
            forms.push(form)?;
        }
    }
    Ok(forms)
}

// The plans of a table's strings that Format values may have.
pub(crate) fn forms_of(alloc: Global, table: &Table) -> Result<Forms, Memory>
    ensures { IfOk result (λ forms. AreFormsIn table.now.entries forms.items.items) }
{
    let items = forms_in(alloc, table)?;
    let numbers = numbers_of(alloc, &items)?;
    Ok(Forms { items, numbers })
}

// The plan of the string at an index, where it has one.
#[inline(always)]
pub(crate) fn find_form(forms: &Forms, index: u16) -> Option<&Form>
    ensures at { IfSome result (λ form. form.now.index ≡ index) }
    ensures is { (t : Map) → AreFormsIn t forms.now.items.items
        → IfSome result (λ form. IsFormIn t form.now) }
{
    let number = number_at(&forms.numbers, index)?;
    let form = forms.items.get(usize::from(number))?;
    if form.index == index {
        Some(form)
    } else {
        None
    }
}

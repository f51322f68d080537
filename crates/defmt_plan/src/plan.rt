//! Plans: what a table's strings need to be read and printed.

ghost use Rattle.std.specs.Prelude.{◌≡◌, ◌++◌, codes, IfSome, IfOk};
ghost use Rattle.defmt_eager.specs.Line.{level_text};
ghost use Rattle.defmt_intern.specs.Stamp.{stamp_of};
ghost use Rattle.defmt_intern.specs.Table.{Map};
ghost use Rattle.defmt_plan.specs.Plans.{AreStampSteps, AreStepsOf, ArePlansIn, HasFront, IsPlanIn, Leads, SaysStamp, level_size, space_if};

use crate::numbers::Indexed;
use crate::run::lone_number;
use crate::steps::{Step, are_nested, steps_of};
use defmt_eager::level_text;
use defmt_grammar::{Hint, IntSize, Memory, Piece, Text};
use defmt_intern::{Parsed, Table, Tag};
use defmt_values::{is_logged, look_up};
use std::alloc::Global;

// The plan of a statement of a level or of println.
#[derive(Drop)]
pub(crate) struct Plan {
    pub index: u16,
    /// What stands between the stamp's text and the steps: the level, and the literal that its own text begins with. Of println
    /// neither stands in front of the steps, which have that literal.
    pub front: Option<Text>,
    /// How many bytes stand between the stamp's text and the statement's own: those of the level and the spaces. Of println none.
    pub named: u8,
    pub steps: Vec<Step>,
    /// Whether values may stand inside others. Nothing is said of it: both ways hold.
    pub nested: bool,
}

impl Indexed for Plan {
    fn index(&self) -> u16 {
        self.index
    }
}

// The plan of a table's stamp.
#[derive(Drop)]
pub(crate) enum StampPlan {
    /// The table has none.
    Missing,
    /// An unsigned number alone, as most are.
    Number(IntSize, Hint),
    Steps(Vec<Step>),
    /// It isn't usual.
    Unusual,
}

// The steps of the string at an index, where it has some that are usual.
fn steps_at(alloc: Global, table: &Table, index: u16) -> Result<Option<Vec<Step>>, Memory>
    ensures { IfOk result (λ r. IfSome r (λ steps.
        AreStepsOf table.now.entries index steps.items)) }
{
    let Some((_, body)) = look_up(table, index) else {
        return Ok(None);
    };
    match body {
        Parsed::One(pieces) => steps_of(alloc, pieces.as_slice(), pieces),
        _ => Ok(None),
    }
}

// The plan of a stamp with these steps.
fn stamp_of_steps(steps: Vec<Step>) -> StampPlan
    ensures { (t : Map) → AreStampSteps t steps.items → SaysStamp t result }
{
    match lone_number(&steps) {
        Some((size, hint)) => StampPlan::Number(size, hint),
        None => StampPlan::Steps(steps),
    }
}

// The plan of a table's stamp.
pub(crate) fn stamp_plan(alloc: Global, table: &Table) -> Result<StampPlan, Memory>
    ensures { IfOk result (λ plan. SaysStamp table.now.entries plan) }
{
    let Some(index) = table.stamp() else {
        return Ok(StampPlan::Missing);
    };
    match steps_at(alloc, table, index)? {
        Some(steps) => Ok(stamp_of_steps(steps)),
        None => Ok(StampPlan::Unusual),
    }
}

// What stands between a stamp, where there is one, and the text of a statement of this level.
fn level_front(alloc: Global, stamped: bool, level: &str) -> Result<Text, Memory>
    ensures { IfOk result (λ front. front ≡ space_if stamped ++ (level.now ++ codes " ")) }
{
    let mut front = Text::new(alloc);
    if stamped {
        front.push_str(" ")?;
    }
    front.push_str(level)?;
    front.push_str(" ")?;
    Ok(front)
}

// Appends the literal that pieces begin with, where they do, and answers the others.
fn take_lead<'a>(front: &mut Text, pieces: &'a [Piece]) -> Result<&'a [Piece], Memory>
    ensures { IfOk result (λ rest. Leads pieces.now rest.now front.old front.new) }
{
    let Some((first, rest)) = pieces.split_first() else {
        return Ok(pieces);
    };
    match first {
        Piece::Literal(text) => {
            front.push_str(text.as_str())?;
            Ok(rest)
        }
        Piece::Param(_) => Ok(pieces),
    }
}

// What stands in front of the rest of a statement of this tag, and the pieces of that.
fn front_of<'a>(
    alloc: Global,
    table: &Table,
    tag: &Tag,
    pieces: &'a [Piece],
) -> Result<(Option<Text>, &'a [Piece]), Memory>
    ensures { IfOk result (λ r. HasFront table.now.entries (level_text tag.now)
        pieces.now r.0 r.1.now) }
{
    let Some(level) = level_text(tag) else {
        return Ok((None, pieces));
    };
    let mut front = level_front(alloc, table.stamp().is_some(), level)?;
    let rest = take_lead(&mut front, pieces)?;
    Ok((Some(front), rest))
}

// How many bytes a level has in a line with the space behind it, and with the one in front of it where there is a stamp.
fn level_size(table: &Table, tag: &Tag) -> u8
    ensures { result ≡ level_size (stamp_of table.now.entries) (level_text tag.now) }
{
    let Some(_level) = level_text(tag) else {
        return 0;
    };
    if table.stamp().is_some() { 7 } else { 6 }
}

// The plan of the string at an index, where it is of a level or of println, and usual.
fn plan_of(alloc: Global, table: &Table, index: u16) -> Result<Option<Plan>, Memory>
    ensures { IfOk result (λ r. IfSome r (λ plan. IsPlanIn table.now.entries plan)) }
{
    let Some((entry, body)) = look_up(table, index) else {
        return Ok(None);
    };
    if !is_logged(&entry.tag) {
        return Ok(None);
    }
    let Parsed::One(pieces) = body else {
        return Ok(None);
    };
    let (front, rest) = front_of(alloc, table, &entry.tag, pieces.as_slice())?;
    let named = level_size(table, &entry.tag);
    let Some(steps) = steps_of(alloc, rest, pieces)? else {
        return Ok(None);
    };
    let nested = are_nested(&steps);
    Ok(Some(Plan {
        index,
        front,
        named,
        steps,
        nested,
    }))
}

// The plans of a table's strings that are of a level or of println, and usual, in the order of their indexes.
pub(crate) fn plans_of(alloc: Global, table: &Table) -> Result<Vec<Plan>, Memory>
    ensures { IfOk result (λ plans. ArePlansIn table.now.entries plans.items) }
{
    let mut plans = Vec::new(alloc);
    for (index, _) in table.entries() {
        if let Some(plan) = plan_of(alloc, table, index)? {
            plans.push(plan)?;
        }
    }
    Ok(plans)
}

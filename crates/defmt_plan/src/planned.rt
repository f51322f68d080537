//! A table with the plans of its strings.

ghost use Rattle.std.specs.Prelude.{◌≡◌, ◌≤◌, List, length, IfOk, IfSome};
ghost use Rattle.defmt_grammar.specs.declared.piece.Piece.{Piece as AnyPiece};
ghost use Rattle.defmt_eager.specs.Line.{stamp_text};
ghost use Rattle.defmt_intern.specs.Stamp.{stamp_of};
ghost use Rattle.defmt_intern.specs.Table.{Map};
ghost use Rattle.defmt_values.specs.Plain.{Vals};
ghost use Rattle.defmt_plan.specs.Forms.{AreFormsIn, ArePlanned};
ghost use Rattle.defmt_plan.specs.Plans.{IsPlanIn};
ghost use Rattle.defmt_plan.specs.Steps.{AreSteps};
ghost use Rattle.defmt_plan.specs.Told.{Fronts, PassesArguments, StampPasses, Tells, parts_of};

use crate::ends::put_short;
use crate::forms::{Forms, forms_of};
use crate::inside::pass_steps;
use crate::leaves::{Progress, pass_uint, read_at_once};
use crate::message::{Origin, Parts, read_head};
use crate::numbers::numbers_of;
use crate::plan::{Plan, StampPlan, plans_of, stamp_plan};
use crate::reach::Reach;
use crate::run::{run, run_all};
use defmt_eager::PRINTED_LIMIT;
use defmt_encode::is_padding;
use defmt_grammar::{Hint, Memory as OutOfMemory, Text};
use defmt_intern::Table;
use dl_io::Memory;
use std::alloc::Global;
use std::marker::Model;

// The most levels of Format values.
const LEVELS: u8 = 16;

/// A table, and a plan of each of its strings that is of a level, of println or of Format values, and usual. Contracts see it as its
/// table.
///
/// A string is usual where it uses the positions in order, and each once, unless for bit fields of one number, and has neither an
/// interned text nor a sequence.
#[derive(Drop)]
pub struct PlannedTable {
    table: Table,
    stamp: StampPlan,
    plans: Vec<Plan>,
    // At an index the number of its plan, where it has one.
    numbers: Vec<u16>,
    forms: Forms,
}

impl Model for PlannedTable {
    ghost use Rattle.defmt_intern.specs.declared.table.Table.{Table as AnyTable};
    ghost use Rattle.defmt_intern.specs.contracts.table.Table.{the_row};
    ghost use Rattle.defmt_plan.specs.Forms.{AreFormsIn};
    ghost use Rattle.defmt_plan.specs.Plans.{ArePlansIn, SaysStamp};

    ghost Value = { AnyTable };

    ghost coded = { the_row.coded };

    ghost view = { λ p. p.table };

    ghost invariant = { λ p. SaysStamp p.table.entries p.stamp
        × ArePlansIn p.table.entries p.plans.items
        × AreFormsIn p.table.entries p.forms.items.items };
}

// Writes what stands between the stamp's text and the statement's, and answers where the latter begins.
#[inline(always)]
fn put_front(front: &Option<Text>, out: &mut [u8], stamped: usize, at: usize) -> Option<usize>
    requires { stamped ≤ length out.old }
    ensures { Fronts front.now result out.old stamped at out.new }
{
    match front {
        Some(front) => put_short(out, stamped, front.as_str().as_bytes()),
        None => Some(at),
    }
}

// The parts of a line of a plan, whose piece has so many bytes and whose stamp's text so many.
#[inline(always)]
fn parts_of(plan: &Plan, size: u32, stamped: usize) -> Parts
    requires { stamped ≤ 65536 }
    ensures { (t : Map) (stamp : Vals) → IsPlanIn t plan.now
        → stamped ≡ length (stamp_text t (stamp_of t) stamp)
        → result ≡ parts_of t size stamp plan.now.index }
{
    if plan.named == 0 {
        return Parts {
            bytes: size,
            stamp: 0,
            front: 0,
        };
    }
    let stamp = stamped as u32;
    Parts {
        bytes: size,
        stamp,
        front: stamp + u32::from(plan.named),
    }
}

// The steps of a plan that may have values inside others.
#[inline(never)]
fn pass_nested(
    forms: &Forms,
    plan: &Plan,
    bytes: &[u8],
    from: usize,
    out: &mut [u8],
    at: usize,
) -> Option<Progress>
    requires read { from ≤ length bytes.now }
    requires written { at ≤ length out.old }
    requires planned { ArePlanned forms.now }
    ensures { (t : Map) (all pieces : List AnyPiece) → AreFormsIn t forms.now.items.items
        → AreSteps all pieces plan.now.steps.items
        → PassesArguments result t all pieces bytes.now from out.old at out.new }
{
    let before = Reach {
        read: from,
        written: at,
        opened: 0,
    };
    let after = pass_steps(forms, &plan.steps, LEVELS, Hint::Plain, bytes, before, out)?;
    Some(Progress {
        read: after.read,
        written: after.written,
    })
}

// A table with its plans.
fn with_plans(alloc: Global, table: Table) -> Result<PlannedTable, OutOfMemory>
    ensures { IfOk result (λ planned. planned ≡ table) }
{
    let stamp = stamp_plan(alloc, &table)?;
    let plans = plans_of(alloc, &table)?;
    let numbers = numbers_of(alloc, &plans)?;
    let forms = forms_of(alloc, &table)?;
    Ok(PlannedTable {
        table,
        stamp,
        plans,
        numbers,
        forms,
    })
}

impl PlannedTable {
    /// The table with its plans, which are made here.
    pub fn new(alloc: Global, table: Table) -> Result<PlannedTable, Memory>
        ensures { IfOk result (λ planned. planned ≡ table) }
    {
        match with_plans(alloc, table) {
            Ok(planned) => Ok(planned),
            Err(_) => Err(Memory),
        }
    }

    /// The table. Takes no memory.
    pub fn table(&self) -> &Table
        ensures { result.now ≡ self.now }
    {
        &self.table
    }

    /// Lets the table and its plans go, without a walk to free them: for a program that is about to end.
    pub fn forget(self) {
        std::mem::forget(self);
    }

    // The plan of the string at an index, where it has one.
    #[inline(always)]
    fn plan(&self, index: u16) -> Option<&Plan>
        ensures at { IfSome result (λ plan. plan.now.index ≡ index) }
        ensures is { IfSome result (λ plan. IsPlanIn self.now.entries plan.now) }
    {
        let number = self.numbers.get(usize::from(index))?;
        let plan = self.plans.get(usize::from(*number))?;
        if plan.index == index {
            Some(plan)
        } else {
            None
        }
    }

    // The stamp, where the table has one.
    #[inline(always)]
    fn stamp(&self, bytes: &[u8], from: usize, out: &mut [u8], at: usize) -> Option<Progress>
        requires read { from ≤ length bytes.now }
        requires written { at ≤ length out.old }
        ensures { StampPasses result self.now.entries bytes.now from out.old at out.new }
    {
        let before = Progress {
            read: from,
            written: at,
        };
        match &self.stamp {
            StampPlan::Missing => Some(before),
            StampPlan::Number(size, hint) => pass_uint(*size, *hint, bytes, before, out),
            StampPlan::Steps(steps) => read_at_once(run_all(steps, bytes, from, out, at)),
            StampPlan::Unusual => None,
        }
    }

    // The arguments of a plan's string, with what its text has behind its front.
    #[inline(always)]
    fn arguments(
        &self,
        plan: &Plan,
        bytes: &[u8],
        from: usize,
        out: &mut [u8],
        at: usize,
    ) -> Option<Progress>
        requires read { from ≤ length bytes.now }
        requires written { at ≤ length out.old }
        ensures { (is : IsPlanIn self.now.entries plan.now)
            → PassesArguments result self.now.entries is.pieces is.rest bytes.now from
            out.old at out.new }
    {
        if plan.nested {
            read_at_once(pass_nested(&self.forms, plan, bytes, from, out, at))
        } else {
            run(&plan.steps, bytes, from, out, at)
        }
    }

    /// The line of a message whose plan there is, written behind a place of the buffer. Where it is answered, the message is
    /// heard, neither its stamp's text nor its own is too wide, and the line is UTF-8 and ends at the place that comes with its
    /// origin, which has the size of the message's piece as it is given. What stands in front of the place is as before in any
    /// case. Takes no memory.
    ///
    /// `None` where no plan prints the message: it is refused, something in it isn't usual, or its line doesn't fit. No clause says
    /// when that is, so the caller reads such a message another way.
    #[inline(always)]
    pub fn message(
        &self,
        bytes: &[u8],
        size: u32,
        out: &mut [u8],
        at: usize,
    ) -> Option<(Origin, usize)>
        requires { at ≤ length out.old }
        ensures { Tells result self.now bytes.now size out.old at out.new }
    {
        if out.len() > PRINTED_LIMIT {
            return None;
        }
        let head = read_head(self.table.profile(), bytes)?;
        let plan = self.plan(head.index)?;
        let stamped = self.stamp(bytes, head.read, out, at)?;
        let start = put_front(&plan.front, out, stamped.written, at)?;
        let said = self.arguments(plan, bytes, stamped.read, out, start)?;
        if !is_padding(&bytes[said.read..]) {
            return None;
        }
        let origin = Origin {
            index: head.index,
            place: head.place,
            parts: parts_of(plan, size, stamped.written - at),
        };
        Some((origin, said.written))
    }
}

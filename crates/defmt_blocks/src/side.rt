//! One block of a part, heard by a host of its own.
ghost use Rattle.std.specs.Prelude.{◌≡◌, ◌≤◌, ◌∷◌, [], None, false, true, length, IfOk, IfSome, OnOk};
ghost use Rattle.defmt_blocks.specs.Blocks.{IsKin, IsOnItsWay, IsTold, TellsOf};
ghost use Rattle.defmt_framing.specs.Framing.{Stands};
ghost use Rattle.defmt_decode.specs.Event.{tells};
ghost use Rattle.defmt_decode.specs.declared.event.Event.{Event};
ghost use Rattle.defmt_framing.specs.Told.{Tells};
ghost use Rattle.defmt_listen.specs.Gathered.{gathered, IsGathered};
ghost use Rattle.defmt_recording.specs.Styled.{Look, reel};

use crate::cuts::{Cuts, end_of};
use crate::lines::Lines;
use defmt_decode::{Host, PlannedTable};
use defmt_listen::{ListenFault, Nowhere, Report, hear_part};
use defmt_recording::{HostListener, Styled};
use std::alloc::Global;

/// Where a block stands in its part, and the place of the line before it.
#[derive(Clone, Copy)]
pub(crate) struct Block {
    pub(crate) from: usize,
    pub(crate) to: usize,
    pub(crate) last: Option<u16>,
}

/// A host, and a reporter behind what it told, with the lines of the block that it heard last, where it heard one to its end.
#[derive(Drop)]
pub struct Side<'a> {
    pub(crate) listener: HostListener<'a>,
    pub(crate) reporter: Styled<'a>,
    pub(crate) report: Report,
    pub(crate) lines: Lines,
    // Whether memory was wanting, so that nothing is known of it.
    pub(crate) lost: bool,
    pub(crate) block: Option<Block>,
}

impl<'a> Side<'a> {
    /// A host of this table, and a reporter that prints as this one. Takes no memory.
    pub(crate) fn new(alloc: Global, table: &'a PlannedTable, reporter: &Styled<'a>) -> Side<'a>
        ensures kin { IsKin reporter.now.look (tells table.now) result }
        ensures none { result.block ≡ None }
    {
        let host = Host::new(alloc, table);
        Side {
            listener: HostListener { host },
            reporter: reporter.beside(alloc),
            report: Report::new(alloc),
            lines: Lines::new(alloc),
            lost: false,
            block: None,
        }
    }

    /// Knows of no block.
    pub(crate) fn forget(&mut self)
        ensures none { self.new.block ≡ None }
        ensures look { self.new.reporter ≡ self.old.reporter }
        ensures table { self.new.listener ≡ self.old.listener }
        ensures lost { self.new.lost ≡ self.old.lost }
    {
        self.block = None;
    }

    /// Hears a block.
    pub(crate) fn hear_block(&mut self, part: &[u8], cuts: &Cuts)
        ensures kin { (look : Look) (t : Tells Event) → IsKin look t self.old
            → IsKin look t self.new }
        ensures told { (look : Look) (t : Tells Event) → IsKin look t self.old
            → IsTold look t part.now self.new }
        ensures known { IfSome self.new.block (λ _. self.old.lost ≡ false) }
        ensures still { self.new.lost ≡ false → self.old.lost ≡ false }
    {
        self.hear(part, cuts.start(part), end_of(part), cuts.before);
    }

    // Hears the bytes of a part from a place to another, behind what so many bytes before them tell.
    fn hear(&mut self, part: &[u8], from: usize, to: usize, before: usize)
        requires { (from ≤ length part.now) × (to ≤ length part.now) }
        ensures kin { (look : Look) (t : Tells Event) → IsKin look t self.old
            → IsKin look t self.new }
        ensures told { (look : Look) (t : Tells Event) → IsKin look t self.old
            → IsTold look t part.now self.new }
        ensures known { IfSome self.new.block (λ _. self.old.lost ≡ false) }
        ensures still { self.new.lost ≡ false → self.old.lost ≡ false }
    {
        self.block = None;
        if self.lost || from >= to {
            return;
        }
        let start = from.saturating_sub(before);
        match self.tell(&part[start..from], &part[from..to]) {
            Ok(last) if self.listener.host.is_between() => {
                self.block = Some(Block { from, to, last });
            }
            Ok(_) => {}
            Err(_) => self.lost = true,
        }
    }

    // Prints and counts what bytes tell behind a zero, behind the last line that the bytes before them tell, whose place is answered.
    fn tell(&mut self, before: &[u8], bytes: &[u8]) -> Result<Option<u16>, ListenFault>
        ensures told { IfOk result (λ last. TellsOf self.old.reporter.look
            (tells self.old.listener.host.table) bytes.now last self.new) }
        ensures lost { self.new.lost ≡ self.old.lost }
        ensures block { self.new.block ≡ self.old.block }
    {
        follow(
            &mut self.listener,
            &mut self.reporter,
            &mut self.report,
            before,
        )?;
        let last = self.reporter.last();
        self.lines.clear();
        hear_part(
            &mut self.listener,
            &mut self.reporter,
            &mut self.lines,
            &mut self.report,
            bytes,
        )?;
        Ok(last)
    }
}

// Makes a listener begin anew behind a zero, and a reporter behind the last line that these bytes tell.
fn follow(
    listener: &mut HostListener<'_>,
    reporter: &mut Styled<'_>,
    report: &mut Report,
    before: &[u8],
) -> Result<(), ListenFault>
    ensures { OnOk result (IsOnItsWay reporter.old.look (tells listener.old.host.table)
        listener.new reporter.new report.new) }
{
    listener.host.begin();
    report.clear();
    hear_part(listener, reporter, &mut Nowhere, report, before)?;
    listener.host.begin();
    report.clear();
    reporter.count_anew();
    Ok(())
}

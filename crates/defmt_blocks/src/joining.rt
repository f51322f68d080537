//! What blocks told is put together.
ghost use Rattle.std.specs.Prelude.{◌≡◌, ◌≤◌, ◌<◌, ◌+◌, ◌-◌, ◌^◌, ℕ, List, [], Some, true, length, take, drop, IfOk, IfErr, OnOk, OnErr};
ghost use Rattle.dl_io.specs.Outside.{Rose};
ghost use Rattle.defmt_blocks.specs.Blocks.{IsHearing, IsSaid, SaidBlock, Suits, bytes_of, told_says};
ghost use Rattle.defmt_decode.specs.Event.{tells};
ghost use Rattle.defmt_framing.specs.Framing.{Stands, is_between};
ghost use Rattle.defmt_listen.specs.Gathered.{gathered, IsGathered};
ghost use Rattle.defmt_listen.specs.Heard.{BreaksPart, HeardPart, HeardSome};
ghost use Rattle.defmt_listen.specs.Streams.{output_of};
ghost use Rattle.defmt_recording.specs.Styled.{by_style};

use crate::sent::{Kin, Sent};
use crate::side::{Block, Side};
use defmt_listen::{ListenFault, Report, hear_part};
use defmt_recording::{HostListener, Styled};
use dl_io::{Failed, Sink, write_all};

// Whether a block goes on where this listener and this reporter stand.
fn goes_on(listener: &HostListener<'_>, reporter: &Styled<'_>, block: &Block) -> bool
    ensures between { result ≡ true → is_between listener.now.host.framing ≡ true }
    ensures last { result ≡ true → reporter.now.last ≡ block.now.last }
{
    listener.host.is_between() && reporter.last() == block.last
}

// Passes over the bytes of a block that goes on here, and writes its lines.
fn take_over<K: Sink>(
    listener: &mut HostListener<'_>,
    reporter: &mut Styled<'_>,
    out: &mut K,
    report: &mut Report,
    part: &[u8],
    side: &Side<'_>,
    block: &Block,
) -> Result<(), ListenFault>
    requires between { is_between listener.old.host.framing ≡ true }
    requires last { reporter.old.last ≡ block.now.last }
    requires said { SaidBlock (told_says reporter.old.look (tells listener.old.host.table)) part.now side.now block.now }
    requires few { report.old.faults + (block.now.to - block.now.from) < 2 ^ 64 }
    ensures heard { OnOk result
        ((stream : List ℕ) → Stands listener.old.host.framing stream → HeardPart
        (tells listener.old.host.table) by_style listener.new.host.framing reporter.old reporter.new
        (output_of K.held K.faults out.old out.new)
        stream (bytes_of part.now block.now) report.old.faults report.new.faults) }
    ensures few { OnOk result (report.new.faults ≤ report.old.faults + (block.now.to - block.now.from)) }
    ensures gathered { OnOk result (gathered report.new ≡ gathered report.old) }
    ensures within { OnOk result (IsGathered report.old → IsGathered report.new) }
    ensures look { OnOk result (reporter.new.look ≡ reporter.old.look) }
    ensures same { OnOk result (tells listener.new.host.table ≡ tells listener.old.host.table) }
    ensures some { OnErr result
        ((stream : List ℕ) → Stands listener.old.host.framing stream → HeardSome
        (tells listener.old.host.table) by_style reporter.old
        (output_of K.held K.faults out.old out.new) stream (bytes_of part.now block.now)) }
    ensures fault { IfErr result
        (λ fault. BreaksPart (Rose (K.faults out.old) (K.faults out.new)) fault) }
    ensures later { K.faults out.old ≤ K.faults out.new }
{
    let _ = part;
    listener.host.pass_pieces(block.to - block.from);
    reporter.go_on_as(&side.reporter);
    report.faults += side.report.faults;
    match write_all(out, side.lines.text.as_slice()) {
        Ok(()) => Ok(()),
        Err(Failed) => Err(ListenFault::Sink),
    }
}

// Hears what stands in front of a side's block, and takes the block over where it goes on there. Answers up to which place of the part
// all is heard.
fn join_side<K: Sink>(
    listener: &mut HostListener<'_>,
    reporter: &mut Styled<'_>,
    out: &mut K,
    report: &mut Report,
    part: &[u8],
    side: &Side<'_>,
) -> Result<usize, ListenFault>
    requires said { IsSaid (told_says reporter.old.look (tells listener.old.host.table)) part.now side.now }
    requires hearing { IsHearing listener.old }
    requires within { IsGathered report.old }
    requires empty { gathered report.old ≡ [] }
    requires few { report.old.faults + length part.now < 2 ^ 64 }
    ensures place { IfOk result (λ place. place ≤ length part.now) }
    ensures heard { IfOk result (λ place.
        (stream : List ℕ) → Stands listener.old.host.framing stream → HeardPart
        (tells listener.old.host.table) by_style listener.new.host.framing reporter.old reporter.new
        (output_of K.held K.faults out.old out.new)
        stream (take place part.now) report.old.faults report.new.faults) }
    ensures few { IfOk result (λ place. report.new.faults ≤ report.old.faults + place) }
    ensures within { OnOk result (IsGathered report.new) }
    ensures empty { OnOk result (gathered report.new ≡ []) }
    ensures look { OnOk result (reporter.new.look ≡ reporter.old.look) }
    ensures same { OnOk result (tells listener.new.host.table ≡ tells listener.old.host.table) }
    ensures some { OnErr result
        ((stream : List ℕ) → Stands listener.old.host.framing stream → HeardSome
        (tells listener.old.host.table) by_style reporter.old
        (output_of K.held K.faults out.old out.new) stream part.now) }
    ensures fault { IfErr result
        (λ fault. BreaksPart (Rose (K.faults out.old) (K.faults out.new)) fault) }
    ensures later { K.faults out.old ≤ K.faults out.new }
{
    let Some(block) = side.block else {
        return Ok(0);
    };
    hear_part(listener, reporter, out, report, &part[..block.from])?;
    if !goes_on(listener, reporter, &block) {
        return Ok(block.from);
    }
    take_over(listener, reporter, out, report, part, side, &block)?;
    Ok(block.to)
}

// Hears a block by what a side told of it, and what that leaves by itself.
fn join_block<K: Sink>(
    listener: &mut HostListener<'_>,
    reporter: &mut Styled<'_>,
    out: &mut K,
    report: &mut Report,
    part: &[u8],
    side: &Side<'_>,
) -> Result<(), ListenFault>
    requires said { IsSaid (told_says reporter.old.look (tells listener.old.host.table)) part.now side.now }
    requires hearing { IsHearing listener.old }
    requires within { IsGathered report.old }
    requires empty { gathered report.old ≡ [] }
    requires few { report.old.faults + length part.now < 2 ^ 64 }
    ensures heard { OnOk result
        ((stream : List ℕ) → Stands listener.old.host.framing stream → HeardPart
        (tells listener.old.host.table) by_style listener.new.host.framing reporter.old reporter.new
        (output_of K.held K.faults out.old out.new)
        stream part.now report.old.faults report.new.faults) }
    ensures few { OnOk result (report.new.faults ≤ report.old.faults + length part.now) }
    ensures within { OnOk result (IsGathered report.new) }
    ensures empty { OnOk result (gathered report.new ≡ []) }
    ensures look { OnOk result (reporter.new.look ≡ reporter.old.look) }
    ensures same { OnOk result (tells listener.new.host.table ≡ tells listener.old.host.table) }
    ensures some { OnErr result
        ((stream : List ℕ) → Stands listener.old.host.framing stream → HeardSome
        (tells listener.old.host.table) by_style reporter.old
        (output_of K.held K.faults out.old out.new) stream part.now) }
    ensures fault { IfErr result
        (λ fault. BreaksPart (Rose (K.faults out.old) (K.faults out.new)) fault) }
    ensures later { K.faults out.old ≤ K.faults out.new }
{
    let at = join_side(listener, reporter, out, report, part, side)?;
    hear_part(listener, reporter, out, report, &part[at..])
}

/// Hears a block, by what a side told of these very bytes if there is one.
pub(crate) fn hear_told<G: Kin, K: Sink>(
    listener: &mut HostListener<'_>,
    reporter: &mut Styled<'_>,
    out: &mut K,
    report: &mut Report,
    part: &[u8],
    sent: &Option<Sent<'_, G>>,
) -> Result<(), ListenFault>
    requires suits { Suits G.says listener.old reporter.old }
    requires within { IsGathered report.old }
    requires empty { gathered report.old ≡ [] }
    requires few { report.old.faults + length part.now < 2 ^ 64 }
    ensures heard { OnOk result
        ((stream : List ℕ) → Stands listener.old.host.framing stream → HeardPart
        (tells listener.old.host.table) by_style listener.new.host.framing reporter.old reporter.new
        (output_of K.held K.faults out.old out.new)
        stream part.now report.old.faults report.new.faults) }
    ensures few { OnOk result (report.new.faults ≤ report.old.faults + length part.now) }
    ensures within { OnOk result (IsGathered report.new) }
    ensures empty { OnOk result (gathered report.new ≡ []) }
    ensures look { OnOk result (reporter.new.look ≡ reporter.old.look) }
    ensures same { OnOk result (tells listener.new.host.table ≡ tells listener.old.host.table) }
    ensures some { OnErr result
        ((stream : List ℕ) → Stands listener.old.host.framing stream → HeardSome
        (tells listener.old.host.table) by_style reporter.old
        (output_of K.held K.faults out.old out.new) stream part.now) }
    ensures fault { IfErr result
        (λ fault. BreaksPart (Rose (K.faults out.old) (K.faults out.new)) fault) }
    ensures later { K.faults out.old ≤ K.faults out.new }
{
    match sent {
        Some(sent) if sent.part.as_slice() == part => {
            join_block(listener, reporter, out, report, part, &sent.side)
        }
        _ => hear_part(listener, reporter, out, report, part),
    }
}

//! One part of a recording is heard.
ghost use Rattle.std.specs.Prelude.{◌≡◌, ◌≤◌, ◌<◌, ◌+◌, ◌^◌, ◌++◌, [], false, ℕ, List, length, take, drop, IfErr, IfOk, OnOk, OnErr, option_to_list};
ghost use Rattle.std.specs.Io.KnownBytes.{Appends};
ghost use Rattle.dl_io.specs.Outside.{Rose};
ghost use Rattle.defmt_framing.specs.Framing.{Stands};
ghost use Rattle.defmt_framing.specs.Notices.{HasText, told_by};
ghost use Rattle.defmt_listen.specs.Gathered.{gathered, IsGathered, IsKnownText};
ghost use Rattle.defmt_listen.specs.Heard.{HeardPart, HeardSome, HearsNext, BreaksPart, faults_among, lines_from, state_behind};
ghost use Rattle.defmt_listen.specs.Streams.{output_of};

use crate::fault::ListenFault;
use crate::listener::Listener;
use crate::report::{Report, end_line, put_aside, write_gathered, write_lines};
use crate::reporter::{Passing, Reporter};
use defmt_framing::Notice;
use dl_io::{Memory, Sink};

/// Hears all the bytes, and writes what is printed of what they tell.
pub fn hear_part<K: Sink, L: Listener, R: Reporter<L>>(
    listener: &mut L,
    reporter: &mut R,
    out: &mut K,
    report: &mut Report,
    bytes: &[u8],
) -> Result<(), ListenFault>
    requires within { IsGathered report.old }
    requires empty { gathered report.old ≡ [] }
    requires few { report.old.faults + length bytes.now < 2 ^ 64 }
    ensures heard { OnOk result
        ((stream : List ℕ) → Stands (L.framing listener.old) stream → HeardPart
        (L.tells listener.old) R.reporting (L.framing listener.new) reporter.old reporter.new
        (output_of K.held K.faults out.old out.new)
        stream bytes.now report.old.faults report.new.faults) }
    ensures within { OnOk result (IsGathered report.new) }
    ensures empty { OnOk result (gathered report.new ≡ []) }
    ensures few { OnOk result (report.new.faults ≤ report.old.faults + length bytes.now) }
    ensures some { OnErr result
        ((stream : List ℕ) → Stands (L.framing listener.old) stream → HeardSome
        (L.tells listener.old) R.reporting reporter.old
        (output_of K.held K.faults out.old out.new) stream bytes.now) }
    ensures fault { IfErr result
        (λ fault. BreaksPart (Rose (K.faults out.old) (K.faults out.new)) fault) }
    ensures same { OnOk result (L.tells listener.new ≡ L.tells listener.old) }
    ensures later { K.faults out.old ≤ K.faults out.new }
{
    let mut rest = bytes;
    'parts: while !rest.is_empty() {
        let taken = hear_next(listener, reporter, report, rest)?;
        let (_, behind) = rest.split_at(taken);
        rest = behind;
        write_gathered(out, report)?;
    }
    write_lines(out, report)?;
    Ok(())
}

// Hears what the bytes begin, adds what is printed of it, and answers how many bytes that were.
#[inline(always)]
fn hear_next<L: Listener, R: Reporter<L>>(
    listener: &mut L,
    reporter: &mut R,
    report: &mut Report,
    bytes: &[u8],
) -> Result<usize, ListenFault>
    requires within { IsGathered report.old }
    requires some { 0 < length bytes.now }
    requires room { report.old.faults + 1 < 2 ^ 64 }
    ensures next { IfOk result (λ taken. HearsNext (L.tells listener.old) R.reporting
        (L.framing listener.old) (L.framing listener.new) reporter.old reporter.new
        (gathered report.old) (gathered report.new) report.old.faults report.new.faults
        bytes.now taken) }
    ensures within { OnOk result (IsGathered report.new) }
    ensures same { OnOk result (L.tells listener.new ≡ L.tells listener.old) }
    ensures memory { IfErr result (λ fault. fault ≡ ListenFault.Memory) }
{
    match listener.hear_line(bytes, &mut report.text, report.end) {
        Some((taken, origin, size)) => {
            add_line_told::<L, R>(reporter, report, origin, size)?;
            Ok(taken)
        }
        None => hear_other(listener, reporter, report, bytes),
    }
}

// The same of what is no line that is written at once. It stands apart, since most of what is heard are such lines.
#[inline(never)]
fn hear_other<L: Listener, R: Reporter<L>>(
    listener: &mut L,
    reporter: &mut R,
    report: &mut Report,
    bytes: &[u8],
) -> Result<usize, ListenFault>
    requires within { IsGathered report.old }
    requires some { 0 < length bytes.now }
    requires room { report.old.faults + 1 < 2 ^ 64 }
    ensures next { IfOk result (λ taken. HearsNext (L.tells listener.old) R.reporting
        (L.framing listener.old) (L.framing listener.new) reporter.old reporter.new
        (gathered report.old) (gathered report.new) report.old.faults report.new.faults
        bytes.now taken) }
    ensures within { OnOk result (IsGathered report.new) }
    ensures same { OnOk result (L.tells listener.new ≡ L.tells listener.old) }
    ensures memory { IfErr result (λ fault. fault ≡ ListenFault.Memory) }
{
    let (taken, notice) = listener.hear(bytes, &mut report.text, report.end)?;
    add_noticed::<L, R>(reporter, report, notice)?;
    Ok(taken)
}

/// Adds what is printed of what was told, if something was. It stands apart, since most of what is noticed are lines.
#[inline(never)]
pub fn add_told<L: Listener, R: Reporter<L>>(
    reporter: &mut R,
    report: &mut Report,
    told: Option<L::Event>,
) -> Result<(), ListenFault>
    requires few { report.old.faults + 1 < 2 ^ 64 }
    requires within { IsGathered report.old }
    ensures lines { OnOk result (gathered report.new ≡ gathered report.old
        ++ lines_from R.reporting reporter.old (option_to_list told)) }
    ensures within { OnOk result (IsGathered report.new) }
    ensures moved { OnOk result (reporter.new
        ≡ state_behind R.reporting reporter.old (option_to_list told)) }
    ensures faults { OnOk result (report.new.faults ≡ report.old.faults
        + faults_among R.reporting (option_to_list told)) }
    ensures memory { IfErr result (λ fault. fault ≡ ListenFault.Memory) }
{
    put_aside(report)?;
    if let Some(event) = told {
        let bad = reporter.is_fault(&event);
        reporter.add_line(report.alloc, event, &mut report.lines)?;
        if bad {
            report.faults += 1;
        }
    }
    Ok(())
}

// Adds a line whose text stands behind what is gathered in the buffer.
#[inline(always)]
fn add_line_told<L: Listener, R: Reporter<L>>(
    reporter: &mut R,
    report: &mut Report,
    origin: L::Origin,
    size: usize,
) -> Result<(), Memory>
    requires within { report.old.end + size ≤ length report.old.text.items }
    requires known { L.known (take size (drop report.old.end report.old.text.items)) }
    ensures lines { OnOk result (gathered report.new ≡ gathered report.old ++ R.reporting.line
        reporter.old (L.line origin (take size (drop report.old.end report.old.text.items)))) }
    ensures within { OnOk result (IsGathered report.new) }
    ensures moved { OnOk result (reporter.new ≡ R.reporting.after reporter.old
        (L.line origin (take size (drop report.old.end report.old.text.items)))) }
    ensures fine { OnOk result (R.reporting.is_fault
        (L.line origin (take size (drop report.old.end report.old.text.items))) ≡ false) }
    ensures faults { report.new.faults ≡ report.old.faults }
{
    match reporter.passes(&origin) {
        Passing::Kept => end_line(report, size),
        Passing::LeftOut => Ok(()),
        Passing::Asked => add_asked::<L, R>(reporter, report, origin, size),
    }
}

// The same of a line of which the reporter is asked what is printed: it does that where the text stands, or appends it.
#[inline(always)]
fn add_asked<L: Listener, R: Reporter<L>>(
    reporter: &mut R,
    report: &mut Report,
    origin: L::Origin,
    size: usize,
) -> Result<(), Memory>
    requires within { report.old.end + size ≤ length report.old.text.items }
    requires known { L.known (take size (drop report.old.end report.old.text.items)) }
    ensures lines { OnOk result (gathered report.new ≡ gathered report.old ++ R.reporting.line
        reporter.old (L.line origin (take size (drop report.old.end report.old.text.items)))) }
    ensures within { OnOk result (IsGathered report.new) }
    ensures moved { OnOk result (reporter.new ≡ R.reporting.after reporter.old
        (L.line origin (take size (drop report.old.end report.old.text.items)))) }
    ensures fine { OnOk result (R.reporting.is_fault
        (L.line origin (take size (drop report.old.end report.old.text.items))) ≡ false) }
    ensures faults { report.new.faults ≡ report.old.faults }
{
    match reporter.print_in_place(&origin, &mut report.text, report.end, size) {
        Some(end) => {
            report.end = end;
            Ok(())
        }
        None => add_appended::<L, R>(reporter, report, origin, size),
    }
}

// The same of a line that the reporter appends.
#[inline(never)]
fn add_appended<L: Listener, R: Reporter<L>>(
    reporter: &mut R,
    report: &mut Report,
    origin: L::Origin,
    size: usize,
) -> Result<(), Memory>
    requires within { report.old.end + size ≤ length report.old.text.items }
    requires known { L.known (take size (drop report.old.end report.old.text.items)) }
    ensures lines { OnOk result (gathered report.new ≡ gathered report.old ++ R.reporting.line
        reporter.old (L.line origin (take size (drop report.old.end report.old.text.items)))) }
    ensures within { OnOk result (IsGathered report.new) }
    ensures moved { OnOk result (reporter.new ≡ R.reporting.after reporter.old
        (L.line origin (take size (drop report.old.end report.old.text.items)))) }
    ensures fine { OnOk result (R.reporting.is_fault
        (L.line origin (take size (drop report.old.end report.old.text.items))) ≡ false) }
    ensures faults { report.new.faults ≡ report.old.faults }
{
    let start = report.end;
    put_aside(report)?;
    reporter.add_text(
        report.alloc,
        origin,
        &report.text[start..start + size],
        &mut report.lines,
    )
}

// Adds what is printed of what was noticed, if something was.
fn add_noticed<L: Listener, R: Reporter<L>>(
    reporter: &mut R,
    report: &mut Report,
    notice: Notice<L::Event, L::Origin>,
) -> Result<(), ListenFault>
    requires room { report.old.faults + 1 < 2 ^ 64 }
    requires within { IsGathered report.old }
    requires text { HasText (drop report.old.end report.old.text.items) notice }
    requires known { IsKnownText L.known (drop report.old.end report.old.text.items) notice }
    ensures lines { OnOk result (gathered report.new ≡ gathered report.old
        ++ lines_from R.reporting reporter.old (option_to_list
        (told_by L.line (drop report.old.end report.old.text.items) notice))) }
    ensures within { OnOk result (IsGathered report.new) }
    ensures moved { OnOk result (reporter.new ≡ state_behind R.reporting reporter.old
        (option_to_list (told_by L.line (drop report.old.end report.old.text.items) notice))) }
    ensures faults { OnOk result (report.new.faults ≡ report.old.faults + faults_among R.reporting
        (option_to_list (told_by L.line (drop report.old.end report.old.text.items) notice))) }
    ensures memory { IfErr result (λ fault. fault ≡ ListenFault.Memory) }
{
    match notice {
        Notice::Nothing => Ok(()),
        Notice::Event(event) => add_told::<L, R>(reporter, report, Some(event)),
        Notice::Line(origin, size) => Ok(add_line_told::<L, R>(reporter, report, origin, size)?),
    }
}

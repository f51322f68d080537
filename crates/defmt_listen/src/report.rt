//! What is told and not yet written.
ghost use Rattle.std.specs.Prelude.{◌≡◌, ◌≤◌, ◌<◌, ◌+◌, ◌++◌, ◌∷◌, [], ℕ, List, length, take, drop, IfErr, OnOk, OnErr};
ghost use Rattle.std.specs.Io.KnownBytes.{Appends};
ghost use Rattle.dl_io.specs.Outside.{Rose};
ghost use Rattle.defmt_listen.specs.Gathered.{gathered, IsGathered};

use crate::fault::ListenFault;
use dl_io::{Bytes, Failed, Memory, Sink, write_all};
use std::alloc::Global;

// So many bytes of lines are gathered before they are written, unless the part ends before.
const GATHERED: usize = 65_536;

/// What is told and not yet written, the lines and behind them the front of a buffer up to a place, and how many faults were told.
/// The text of a line is written behind that place before it is reported.
#[derive(Drop)]
pub struct Report {
    pub alloc: Global,
    pub lines: Bytes,
    pub text: Vec<u8>,
    pub end: usize,
    pub faults: u64,
}

impl Report {
    /// A report of nothing.
    pub fn new(alloc: Global) -> Self
        ensures within { IsGathered result }
        ensures empty { gathered result ≡ [] }
        ensures none { result.faults ≡ 0 }
    {
        Report {
            alloc,
            lines: Bytes::new(alloc),
            text: Vec::new(alloc),
            end: 0,
            faults: 0,
        }
    }

    /// A report of nothing again, with the room that it has.
    pub fn clear(&mut self)
        ensures within { IsGathered self.new }
        ensures empty { gathered self.new ≡ [] }
        ensures none { self.new.faults ≡ 0 }
    {
        self.lines.clear();
        self.end = 0;
        self.faults = 0;
    }
}

/// Puts a newline behind a text that stands behind what is gathered.
pub fn end_line(report: &mut Report, size: usize) -> Result<(), Memory>
    requires { report.old.end + size ≤ length report.old.text.items }
    ensures lines { OnOk result (gathered report.new ≡ gathered report.old
        ++ (take size (drop report.old.end report.old.text.items) ++ 10 ∷ [])) }
    ensures within { OnOk result (IsGathered report.new) }
    ensures faults { report.new.faults ≡ report.old.faults }
{
    let end = report.end + size;
    put_newline(&mut report.text, end)?;
    report.end = end + 1;
    Ok(())
}

// Puts a newline at a place of a buffer, or behind it.
fn put_newline(text: &mut Vec<u8>, at: usize) -> Result<(), Memory>
    requires { at ≤ length text.old.items }
    ensures put { OnOk result (take (at + 1) text.new.items ≡ take at text.old.items ++ 10 ∷ []) }
    ensures within { OnOk result (at < length text.new.items) }
{
    if at == text.len() {
        text.push(b'\n')?;
        return Ok(());
    }
    text[at] = b'\n';
    Ok(())
}

/// Moves what is gathered in the buffer to the lines. The buffer stays as it is.
#[inline(always)]
pub fn put_aside(report: &mut Report) -> Result<(), Memory>
    requires { IsGathered report.old }
    ensures same { OnOk result (report.new.lines.items ≡ gathered report.old) }
    ensures none { OnOk result (report.new.end ≡ 0) }
    ensures text { report.new.text.items ≡ report.old.text.items }
    ensures faults { report.new.faults ≡ report.old.faults }
{
    if report.end == 0 {
        return Ok(());
    }
    move_aside(report)
}

// The same where something is gathered there.
#[inline(never)]
fn move_aside(report: &mut Report) -> Result<(), Memory>
    requires { IsGathered report.old }
    ensures same { OnOk result (report.new.lines.items ≡ gathered report.old) }
    ensures none { OnOk result (report.new.end ≡ 0) }
    ensures text { report.new.text.items ≡ report.old.text.items }
    ensures faults { report.new.faults ≡ report.old.faults }
{
    report.lines.extend_from_slice(&report.text[..report.end])?;
    report.end = 0;
    Ok(())
}

/// Writes what is gathered once it is much.
pub fn write_gathered<K: Sink>(out: &mut K, report: &mut Report) -> Result<(), ListenFault>
    requires { IsGathered report.old }
    ensures ok { OnOk result ((written : List ℕ) × Appends (K.held out.old) (K.held out.new) written
        × (written ++ gathered report.new ≡ gathered report.old)) }
    ensures within { OnOk result (IsGathered report.new) }
    ensures front { OnErr result ((count : ℕ) × (count ≤ length (gathered report.old))
        × Appends (K.held out.old) (K.held out.new) (take count (gathered report.old))) }
    ensures sink { IfErr result
        (λ fault. (fault ≡ ListenFault.Sink) × Rose (K.faults out.old) (K.faults out.new)) }
    ensures later { K.faults out.old ≤ K.faults out.new }
    ensures faults { report.new.faults ≡ report.old.faults }
{
    if report.end < GATHERED && report.lines.len() < GATHERED {
        return Ok(());
    }
    write_lines(out, report)
}

/// Writes what is gathered, and then has none.
#[inline(never)]
pub fn write_lines<K: Sink>(out: &mut K, report: &mut Report) -> Result<(), ListenFault>
    requires { IsGathered report.old }
    ensures ok { OnOk result (Appends (K.held out.old) (K.held out.new) (gathered report.old)) }
    ensures empty { OnOk result (gathered report.new ≡ []) }
    ensures within { OnOk result (IsGathered report.new) }
    ensures front { OnErr result ((count : ℕ) × (count ≤ length (gathered report.old))
        × Appends (K.held out.old) (K.held out.new) (take count (gathered report.old))) }
    ensures sink { IfErr result
        (λ fault. (fault ≡ ListenFault.Sink) × Rose (K.faults out.old) (K.faults out.new)) }
    ensures later { K.faults out.old ≤ K.faults out.new }
    ensures faults { report.new.faults ≡ report.old.faults }
{
    write_both(out, report.lines.as_slice(), &report.text[..report.end])?;
    report.lines.clear();
    report.end = 0;
    Ok(())
}

// Writes two texts, one behind the other.
fn write_both<K: Sink>(out: &mut K, first: &[u8], second: &[u8]) -> Result<(), ListenFault>
    ensures ok { OnOk result (Appends (K.held out.old) (K.held out.new) (first.now ++ second.now)) }
    ensures front { OnErr result ((count : ℕ) × (count ≤ length (first.now ++ second.now))
        × Appends (K.held out.old) (K.held out.new) (take count (first.now ++ second.now))) }
    ensures sink { IfErr result
        (λ fault. (fault ≡ ListenFault.Sink) × Rose (K.faults out.old) (K.faults out.new)) }
    ensures later { K.faults out.old ≤ K.faults out.new }
{
    match write_all(out, first) {
        Ok(()) => {}
        Err(Failed) => return Err(ListenFault::Sink),
    }
    match write_all(out, second) {
        Ok(()) => Ok(()),
        Err(Failed) => Err(ListenFault::Sink),
    }
}

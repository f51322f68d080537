//! Where the segments of an image stand in the file.

ghost use Rattle.std.specs.Prelude.{◌≡◌, ◌≤◌, ◌<◌, ◌+◌, ◌^◌, ℕ, length, map, None, Some, IfOk, IfErr, OnOk, All, option_map, slice_get};
ghost use Rattle.std.specs.List.{flat_map};
ghost use Rattle.rtt_dump.specs.Elf.{IsTable, loaded};
ghost use Rattle.rtt_dump.specs.Faults.{IsFault, flawed};
ghost use Rattle.rtt_dump.specs.Flaws.{file_refusal, first_flaw, segment_tests};
ghost use Rattle.rtt_dump.specs.Segments.{IsInside, region, span_of, spans};

use crate::elf::{ProgramHeader, Table, is_elf};
use crate::fault::{Cause, DumpFault, Flaw};
use crate::header::table_of;
use std::alloc::Global;

// How many addresses of 32 bits there are.
const ADDRESSES: u64 = 1 << 32;

/// A segment: the address of its first byte, and where its bytes stand in the file.
#[derive(Clone, Copy)]
pub struct Span {
    pub base: u32,
    pub start: usize,
    pub len: usize,
}

impl Span {
    /// The segment's bytes.
    pub fn bytes<'a>(&self, file: &'a [u8]) -> &'a [u8]
        requires { IsInside (length file.now) self.now }
        ensures { result.now ≡ (region file.now self.now).bytes }
    {
        let behind = &file[self.start..];
        &behind[..self.len]
    }
}

// The two checks of a segment with bytes, and where it stands.
fn span_in(file: &[u8], p: &ProgramHeader) -> Result<Span, Flaw>
    requires { 0 < p.now.size }
    ensures span { IfOk result (λ span. span ≡ span_of p.now) }
    ensures inside { IfOk result (IsInside (length file.now)) }
    ensures passes { OnOk result (first_flaw file.now (segment_tests p.now) ≡ None) }
    ensures flaw { IfErr result (λ flaw. first_flaw file.now (segment_tests p.now) ≡ Some flaw) }
{
    let len = file.len() as u64;
    if len < p.size || len - p.size < p.offset {
        return Err(Flaw::Bytes);
    }
    if ADDRESSES < p.size || ADDRESSES - p.size < p.address {
        return Err(Flaw::Addresses);
    }
    Ok(Span {
        base: p.address as u32,
        start: p.offset as usize,
        len: p.size as usize,
    })
}

// The segments that are loaded, in the order of their program headers.
fn loaded_spans(alloc: Global, file: &[u8], table: &Table) -> Result<Vec<Span>, DumpFault>
    requires table { IsTable file.now table.now }
    requires few { table.now.count < 2 ^ 16 }
    ensures spans { IfOk result (λ v. v.items ≡ map span_of (loaded file.now)) }
    ensures inside { IfOk result (λ v. All (IsInside (length file.now)) v.items) }
    ensures few { IfOk result (λ v. length v.items < 2 ^ 16) }
    ensures passes { OnOk result
        (first_flaw file.now (flat_map segment_tests (loaded file.now)) ≡ None) }
    ensures refused { IfErr result (IsFault (option_map flawed
        (first_flaw file.now (flat_map segment_tests (loaded file.now))))) }
{
    let mut spans = Vec::new(alloc);
    for k in 0..table.count {
        let p = table.entry(file, k);
        if p.is_loaded() {
            spans.push(span_in(file, &p)?)?;
        }
    }
    Ok(spans)
}

/// The segments of an image: those of a core file that are loaded, or the whole file at the base.
pub fn spans_of(alloc: Global, file: &[u8], base: u32) -> Result<Vec<Span>, DumpFault>
    requires { length file.now < 2 ^ 32 }
    ensures spans { IfOk result (λ v. v.items ≡ spans file.now base) }
    ensures inside { IfOk result (λ v. All (IsInside (length file.now)) v.items) }
    ensures few { IfOk result (λ v. length v.items < 2 ^ 16) }
    ensures passes { OnOk result (file_refusal file.now base ≡ None) }
    ensures refused { IfErr result (IsFault (file_refusal file.now base)) }
{
    if is_elf(file) {
        let table = table_of(file)?;
        return loaded_spans(alloc, file, &table);
    }
    if ADDRESSES < u64::from(base) + file.len() as u64 {
        return Err(Cause::Base.at(0));
    }
    let mut spans = Vec::new(alloc);
    spans.push(Span {
        base,
        start: 0,
        len: file.len(),
    })?;
    Ok(spans)
}

/// Segment number `number`.
pub fn span_at(spans: &[Span], number: u32) -> Span
    requires { number < length spans.now }
    ensures there { slice_get spans.now number ≡ Some result }
    ensures inside { (size : ℕ) → All (IsInside size) spans.now → IsInside size result }
{
    spans[number as usize]
}

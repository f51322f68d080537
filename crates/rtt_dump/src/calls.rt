//! The segments of an image, and the bytes of a buffer in it.
ghost use Rattle.std.specs.Prelude.{◌≡◌, ◌≤◌, ◌<◌, ◌^◌, length, map, None, IfOk, IfErr, OnOk, All};
ghost use Rattle.rtt_dump.specs.Answers.{refusal};
ghost use Rattle.rtt_dump.specs.Checks.{FilePasses, IsDumpFault, IsFileFault, Passes};
ghost use Rattle.rtt_dump.specs.Dump.{dump};
ghost use Rattle.rtt_dump.specs.Faults.{IsFault};
ghost use Rattle.rtt_dump.specs.Flaws.{file_refusal};
ghost use Rattle.rtt_dump.specs.Segments.{IsInside, plain, region, regions};

use crate::channel::bytes_of;
use crate::fault::DumpFault;
use crate::ids::only_id;
use crate::segment::Segment;
use crate::spans::{Span, span_at, spans_of};
use dl_io::{Bytes, Memory};
use std::alloc::Global;

/// The segments of a memory image of fewer than 4,294,967,296 bytes, in the file's order.
///
/// A file that begins with `7f 45 4c 46` is an ELF core file (ELF gABI), of either class and
/// little-endian. Its segments are those of the type PT_LOAD with a file size above 0, each at its
/// `p_vaddr`; there may be none. Any other file is one segment at `base`.
///
/// It refuses by the first check that doesn't hold: with `Core` by the first [`Flaw`](crate::Flaw) of a
/// core file, first those of the header in their order, then of each segment in order its bytes and
/// its addresses; and with `Base` where another file passes the address 4,294,967,296.
pub fn segments(alloc: Global, file: &[u8], base: u32) -> Result<Vec<Segment>, DumpFault>
    requires { length file.now < 2 ^ 32 }
    ensures segments { IfOk result (λ v. map plain v.items ≡ regions file.now base) }
    ensures passes { OnOk result (FilePasses file.now base) }
    ensures refused { IfErr result (IsFileFault file.now base) }

    // The same as a function of the file, for a caller that knows what this function gives.
    ensures none { OnOk result (file_refusal file.now base ≡ None) }
    ensures fault { IfErr result (IsFault (file_refusal file.now base)) }
{
    copied_segments(alloc, file, base)
}

fn copied_segments(alloc: Global, file: &[u8], base: u32) -> Result<Vec<Segment>, DumpFault>
    requires { length file.now < 2 ^ 32 }
    ensures segments { IfOk result (λ v. map plain v.items ≡ regions file.now base) }
    ensures none { OnOk result (file_refusal file.now base ≡ None) }
    ensures fault { IfErr result (IsFault (file_refusal file.now base)) }
{
    let spans = spans_of(alloc, file, base)?;
    Ok(copied(alloc, file, spans.as_slice())?)
}

// The segments with copies of their bytes.
fn copied(alloc: Global, file: &[u8], spans: &[Span]) -> Result<Vec<Segment>, Memory>
    requires { All (IsInside (length file.now)) spans.now }
    ensures { IfOk result (λ v. map plain v.items ≡ map (region file.now) spans.now) }
{
    let mut segments = Vec::new(alloc);
    for span in spans {
        segments.push(Segment {
            base: span.base,
            bytes: Bytes::from_slice(alloc, span.bytes(file))?,
        })?;
    }
    Ok(segments)
}

/// The bytes of the up-buffer `up` of the control block in a memory image of fewer than 4,294,967,296
/// bytes: `SEGGER_RTT_CB` of SEGGER RTT, in whichever of the image's [`segments`] its ID stands.
///
/// Without `old` these are the bytes that wait, from RdOff up to WrOff. With `old` they are all bytes of
/// the buffer, the oldest first: from WrOff on, as many as the buffer's size. Both go round the
/// buffer's end, and a buffer of the size 0 has none. What was read before may stand before RdOff, and
/// may be damaged. There are never more than the file has. The file is searched for the ID once,
/// however many segments share its bytes.
///
/// It refuses by the first check that doesn't hold: as [`segments`] does; then with `NoId` at 0 where
/// no segment holds the ID, and with `TwoIds` at the segment's number where a second stands in one;
/// then with `Bounds`, `Offset` or `Flags` as reading that block from its segment alone does; then
/// with `NoChannel` at `up` where the block has no up-buffer of this number.
pub fn dumped(alloc: Global, file: &[u8], base: u32, up: u32, old: bool) -> Result<Bytes, DumpFault>
    requires { length file.now < 2 ^ 32 }
    ensures bytes { IfOk result (λ bytes. bytes.items ≡ dump file.now base up old) }
    ensures passes { OnOk result (Passes file.now base up) }
    ensures short { IfOk result (λ bytes. length bytes.items ≤ length file.now) }
    ensures refused { IfErr result (IsDumpFault file.now base up) }

    // The same as a function of the file, for a caller that knows what this function gives.
    ensures none { OnOk result (refusal file.now base up ≡ None) }
    ensures fault { IfErr result (IsFault (refusal file.now base up)) }
{
    dump_of(alloc, file, base, up, old)
}

fn dump_of(alloc: Global, file: &[u8], base: u32, up: u32, old: bool) -> Result<Bytes, DumpFault>
    requires { length file.now < 2 ^ 32 }
    ensures bytes { IfOk result (λ bytes. bytes.items ≡ dump file.now base up old) }
    ensures short { IfOk result (λ bytes. length bytes.items ≤ length file.now) }
    ensures none { OnOk result (refusal file.now base up ≡ None) }
    ensures fault { IfErr result (IsFault (refusal file.now base up)) }
{
    let spans = spans_of(alloc, file, base)?;
    let list = spans.as_slice();
    let id = only_id(alloc, file, list)?;
    let span = span_at(list, id.segment);
    bytes_of(alloc, span.bytes(file), span.base, id.at, up, old)
}

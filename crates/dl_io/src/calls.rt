//! Whole inputs and whole outputs, call by call.
ghost use Rattle.std.specs.Prelude.{◌≡◌, ◌⊎◌, ◌+◌, ◌-◌, ◌<◌, ◌≤◌, ◌^◌, ◌++◌, ℕ, length, take, drop, IfOk, OnOk, OnErr, IsErrOf};
ghost use Rattle.std.specs.Io.KnownBytes.{Appends, Consumes, IsAtEnd, Keeps};
ghost use Rattle.dl_io.specs.Outside.{Rose, Took, HasFile, Lacks};
ghost use Rattle.dl_io.specs.declared.calls.ReadFault.TheVariants.{Memory as OutOfMemory};

use crate::{Bytes, Failed, Memory, Shelf, Sink, Source};
use std::alloc::Global;

/// Why an input wasn't read to its end.
#[derive(Clone, Copy, Debug)]
pub enum ReadFault {
    /// A read failed, or the shelf hasn't the file.
    Failed,
    /// The input has more bytes than the limit allows; `taken` is one more than the limit.
    Long { taken: usize },
    /// Want of memory.
    Memory,
}

/// Writes all the bytes, in as many writes as the sink needs.
///
/// `Failed` comes only where the sink's count of faults rose. A prefix of the bytes was then taken.
/// Takes no memory of its own.
pub fn write_all<K: Sink>(out: &mut K, bytes: &[u8]) -> Result<(), Failed>
    ensures ok { OnOk result (Appends (K.held out.old) (K.held out.new) bytes.now) }
    ensures prefix { OnErr result ((n : ℕ) × (n ≤ length bytes.now) × Appends (K.held out.old) (K.held out.new) (take n bytes.now)) }
    ensures later { K.faults out.old ≤ K.faults out.new }
    ensures failed { OnErr result (Rose (K.faults out.old) (K.faults out.new)) }
{
    let mut done = 0usize;
    while done < bytes.len() {
        match out.write(&bytes[done..]) {
            Ok(0) => return Err(Failed),
            Ok(count) => done += count,
            Err(fault) => return Err(fault),
        }
    }
    Ok(())
}

/// Reads to the end of the input.
///
/// `Long` comes exactly where `limit + 1` bytes were taken, and `Failed` only where the source's count
/// of faults rose. What was taken before a refusal stays taken, and is at most `limit` bytes where the
/// answer is `Failed` or `Memory`.
pub fn read_all<S: Source>(alloc: Global, src: &mut S, limit: usize) -> Result<Bytes, ReadFault>
    requires { limit < 2 ^ 64 - 1 }
    ensures all { IfOk result (λ bytes. (length bytes.items ≤ limit) × Consumes (S.left src.old) (S.left src.new) bytes.items × IsAtEnd (S.left src.new)) }
    ensures long { (taken : ℕ) → result ≡ Err (ReadFault.Long taken) →
        (taken ≡ limit + 1) × Took (S.left src.old) (S.left src.new) (λ bytes. length bytes ≡ limit + 1) }
    ensures failed { IsErrOf result ReadFault.Failed →
        Rose (S.faults src.old) (S.faults src.new) × Took (S.left src.old) (S.left src.new) (λ bytes. length bytes ≤ limit) }
    ensures memory { IsErrOf result ReadFault.Memory → Took (S.left src.old) (S.left src.new) (λ bytes. length bytes ≤ limit) }
    ensures later { S.faults src.old ≤ S.faults src.new }
{
    let mut buf = Vec::new(alloc);
    let mut filled = 0usize;
    while filled <= limit {
        if filled == buf.len() {
            grow(&mut buf, limit)?;
        }
        match read_more(src, &mut buf, filled) {
            Ok(0) => return Ok(front(buf, filled)),
            Ok(count) => filled += count,
            Err(Failed) => return Err(ReadFault::Failed),
        }
    }
    Err(ReadFault::Long { taken: filled })
}

/// Reads a whole file of the shelf.
///
/// Where the shelf's files are told, `Long` comes only of a file that is longer than the limit, and such a
/// file is never given; `Long` tells `limit + 1`. `Failed` comes only where the shelf's count of faults
/// rose, or where its files are told and none has the name; for such a name no answer but `Failed` and
/// `Memory` comes.
pub fn fetch_all<F: Shelf>(
    alloc: Global,
    shelf: &mut F,
    name: &str,
    limit: usize,
) -> Result<Bytes, ReadFault>
    requires { limit < 2 ^ 64 - 1 }
    ensures all { IfOk result (λ bytes. (length bytes.items ≤ limit) × HasFile (F.files shelf.old) name.now (λ file. bytes.items ≡ file)) }
    ensures long { (taken : ℕ) → result ≡ Err (ReadFault.Long taken) →
        (taken ≡ limit + 1) × HasFile (F.files shelf.old) name.now (λ file. limit < length file) }
    ensures failed { IsErrOf result ReadFault.Failed → Rose (F.faults shelf.old) (F.faults shelf.new) ⊎ Lacks (F.files shelf.old) name.now }
    ensures same { F.files shelf.new ≡ F.files shelf.old }
    ensures later { F.faults shelf.old ≤ F.faults shelf.new }
{
    let mut buf = Vec::new(alloc);
    let mut fetched = 0usize;
    while fetched <= limit {
        if fetched == buf.len() {
            grow(&mut buf, limit)?;
        }
        match fetch_more(shelf, name, &mut buf, fetched) {
            Ok(0) => return Ok(front(buf, fetched)),
            Ok(count) => fetched += count,
            Err(Failed) => return Err(ReadFault::Failed),
        }
    }
    Err(ReadFault::Long { taken: fetched })
}

// The least number of bytes that are asked for at a time, unless the limit allows fewer.
const PIECE: usize = 8192;

// The room that is taken at first, unless the limit allows fewer: most inputs fit, and aren't moved as the buffer grows.
const ROOM: usize = 131_072;

// Makes a full buffer longer: by an eighth, so that few bytes are cleared in vain, but by a piece at least, and at most one byte
// longer than the limit.
fn grow(buf: &mut Vec<u8>, limit: usize) -> Result<(), Memory>
    requires limited { limit < 2 ^ 64 - 1 }
    requires short { length buf.old.items ≤ limit }
    ensures longer { OnOk result ((length buf.old.items < length buf.new.items) × (length buf.new.items ≤ limit + 1)) }
    ensures front { OnOk result (take (length buf.old.items) buf.new.items ≡ buf.old.items) }
{
    let len = buf.len();
    let more = (len / 8).max(PIECE).min(limit + 1 - len);
    if len == 0 {
        buf.reserve(ROOM.min(limit + 1))?;
    }
    buf.resize(len + more, 0)?;
    Ok(())
}

// The first bytes of the buffer.
fn front(buf: Vec<u8>, filled: usize) -> Bytes
    ensures { result.items ≡ take filled buf.items }
{
    let mut bytes = Bytes::from_vec(buf);
    bytes.truncate(filled);
    bytes
}

// One read, behind what is filled.
fn read_more<S: Source>(src: &mut S, buf: &mut [u8], filled: usize) -> Result<usize, Failed>
    requires { filled < length buf.old }
    ensures within { IfOk result (λ count. filled + count ≤ length buf.new) }
    ensures bytes { IfOk result (λ count. Took (S.left src.old) (S.left src.new) (λ taken. take (filled + count) buf.new ≡ take filled buf.old ++ taken)) }
    ensures end { IfOk result (λ count. count ≡ 0 → IsAtEnd (S.left src.new)) }
    ensures failed { OnErr result (Rose (S.faults src.old) (S.faults src.new) × Keeps (S.left src.old) (S.left src.new)) }
    ensures later { S.faults src.old ≤ S.faults src.new }
{
    src.read(&mut buf[filled..])
}

// One fetch, behind what is filled.
fn fetch_more<F: Shelf>(
    shelf: &mut F,
    name: &str,
    buf: &mut [u8],
    filled: usize,
) -> Result<usize, Failed>
    requires { filled < length buf.old }
    ensures within { IfOk result (λ count. filled + count ≤ length buf.new) }
    ensures bytes { IfOk result (λ count. HasFile (F.files shelf.old) name.now (λ file.
        (take (filled + count) buf.new ≡ take filled buf.old ++ take count (drop filled file)) × (filled ≤ length file → filled + count ≤ length file)
        × (count ≡ 0 → length file ≤ filled))) }
    ensures failed { OnErr result (Rose (F.faults shelf.old) (F.faults shelf.new) ⊎ Lacks (F.files shelf.old) name.now) }
    ensures same { F.files shelf.new ≡ F.files shelf.old }
    ensures later { F.faults shelf.old ≤ F.faults shelf.new }
{
    shelf.fetch(name, filled as u64, &mut buf[filled..])
}

impl From<Memory> for ReadFault {
    ghost from_gives = { λ _ e. e ≡ OutOfMemory };

    fn from(_: Memory) -> Self {
        ReadFault::Memory
    }
}

//! Bytes at hand are heard.
ghost use Rattle.std.specs.Prelude.{◌≡◌, ◌≤◌, ℕ, [], Some, None, List, length, IfOk, IfErr};
ghost use Rattle.defmt_framing.specs.Framing.{Stands};
ghost use Rattle.defmt_listen.specs.Heard.{Reported, ToldAll, ToldFront, recording_limit};
ghost use Rattle.defmt_listen.specs.Streams.{output_of};

use crate::fault::ListenFault;
use crate::listener::Listener;
use crate::listening::listen;
use crate::part::hear_part;
use crate::report::Report;
use crate::reporter::Reporter;
use dl_io::{Failed, Memory, Sink, Source};
use std::alloc::Global;

/// Hears the bytes as a whole recording, and writes what the reporter prints of each event to the sink, as [`listen`] does.
/// Answers how many events are faults. No fault comes but of the sink and for want of memory.
pub fn listen_bytes<K: Sink, L: Listener + Drop, R: Reporter<L> + Drop>(
    alloc: Global,
    bytes: &[u8],
    out: &mut K,
    listener: L,
    reporter: R,
) -> Result<u64, ListenFault>
    requires stands { Stands (L.framing listener) [] }
    requires within { length bytes.now ≤ recording_limit }
    ensures told { IfOk result (λ count. ToldAll
        (record {
          tells = L.tells listener;
          reporting = R.reporting;
          start = reporter;
          limit = recording_limit;
        })
        bytes.now (output_of K.held K.faults out.old out.new) count) }
    ensures front { IfErr result (λ fault. ToldFront
        (record {
          tells = L.tells listener;
          reporting = R.reporting;
          start = reporter;
          limit = recording_limit;
        })
        bytes.now (output_of K.held K.faults out.old out.new) fault) }
    ensures later { K.faults out.old ≤ K.faults out.new }
{
    let mut src = AtHand { left: bytes };
    listen(alloc, &mut src, out, listener, reporter)
}

/// A source of bytes at hand, which never fails.
#[derive(Drop)]
pub struct AtHand<'a> {
    /// The bytes that are left.
    pub left: &'a [u8],
}

impl<'a> Source for AtHand<'a> {
    ghost left = { λ s. Some s.left.now };

    ghost faults = { λ _. 0 };

    fn read(&mut self, buf: &mut [u8]) -> Result<usize, Failed> {
        let left = self.left;
        let count = left.len().min(buf.len());
        buf[..count].copy_from_slice(&left[..count]);
        self.left = &left[count..];
        Ok(count)
    }

    fn faults(&self) -> u64 {
        0
    }
}

/// Hears all the bytes, gives the reporter each event, and answers both as they are behind them. What is printed is written
/// nowhere.
pub fn hear_bytes<L: Listener + Drop, R: Reporter<L> + Drop>(
    alloc: Global,
    listener: L,
    reporter: R,
    bytes: &[u8],
) -> Result<(L, R), Memory>
    ensures reported { IfOk result (λ heard.
        (stream : List ℕ) → Stands (L.framing listener) stream
        → Reported (L.tells listener) R.reporting (L.framing heard.0)
        reporter heard.1 stream bytes.now) }
    ensures same { IfOk result (λ heard. L.tells heard.0 ≡ L.tells listener) }
{
    let mut listener = listener;
    let mut reporter = reporter;
    let mut told = Report::new(alloc);
    match hear_part(&mut listener, &mut reporter, &mut Nowhere, &mut told, bytes) {
        Ok(()) => Ok((listener, reporter)),
        Err(ListenFault::Memory) => Err(Memory),
        Err(ListenFault::Sink) => unreachable!(),
        Err(ListenFault::Source) => unreachable!(),
        Err(ListenFault::Long) => unreachable!(),
    }
}

/// A sink that keeps nothing, and never fails.
#[derive(Drop)]
pub struct Nowhere;

impl Sink for Nowhere {
    ghost held = { λ _. None };

    ghost faults = { λ _. 0 };

    fn write(&mut self, buf: &[u8]) -> Result<usize, Failed> {
        Ok(buf.len())
    }

    fn faults(&self) -> u64 {
        0
    }
}

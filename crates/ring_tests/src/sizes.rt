//! The sizes that rings have.
use crate::rows::Kind;
use rtt_ring::{Channel, PlainRing, QueueRing, RingFault, UpEnd, WordRing};
use std::alloc::Global;
use std::fmt::Write;
use std::test::Fail;
use test_rows::{each_line, put_str};

fn put_no_ring(fault: RingFault, out: &mut String) -> Result<(), Fail> {
    match fault {
        RingFault::Size => put_str(out, "size"),
        RingFault::Memory => put_str(out, "memory"),
    }
}

fn put_plain_size(alloc: Global, size: u32, out: &mut String) -> Result<(), Fail> {
    match PlainRing::split(alloc, size) {
        Ok(ring) => Ok(write!(out, "{}", UpEnd::size(&ring))?),
        Err(fault) => put_no_ring(fault, out),
    }
}

fn put_size<C: Channel>(alloc: Global, size: u32, out: &mut String) -> Result<(), Fail> {
    match C::split(alloc, size) {
        Ok((up, _)) => Ok(write!(out, "{}", up.size())?),
        Err(fault) => put_no_ring(fault, out),
    }
}

/// Puts the answer of another ring, where it is not the one of the plain ring.
pub fn put_unlike(other: &str, out: &mut String) -> Result<(), Fail> {
    if out.as_str() != other {
        put_str(out, ", another ring: ")?;
        put_str(out, other)?;
    }
    Ok(())
}

// Sizes of new rings.
const SIZES: &str = "\
15 = size
16 = 16
65536 = 65536
65537 = size";

fn put_unlike_size<C: Channel>(alloc: Global, size: u32, out: &mut String) -> Result<(), Fail> {
    let mut other = String::new(alloc);
    put_size::<C>(alloc, size, &mut other)?;
    put_unlike(other.as_str(), out)
}

pub fn put_sizes(alloc: Global, size: &str, out: &mut String) -> Result<(), Fail> {
    let size = size.parse::<u32>()?;
    put_plain_size(alloc, size, out)?;
    put_unlike_size::<QueueRing>(alloc, size, out)?;
    put_unlike_size::<WordRing>(alloc, size, out)
}

#[test]
fn sizes_from_16_to_65536_are_taken(rt: HostRuntime) -> Result<(), Fail> {
    each_line(rt.alloc(), SIZES, 4, &Kind::Sizes)
}

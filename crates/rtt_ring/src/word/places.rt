//! Places in a ring's buffer.
ghost use Rattle.std.specs.Prelude.{◌+◌, ◌<◌, ◌≤◌};
ghost use Rattle.rtt_ring.specs.WordKept.{IsNext, IsAhead};

// The place `count` after `at`, which is at most the buffer's end.
pub(crate) fn place_after(at: u32, count: u32, size: u32) -> u32
    requires { at + count ≤ size }
    ensures { IsNext at count size result }
{
    if at + count < size { at + count } else { 0 }
}

// How far the place `to` is ahead of the place `from`.
pub(crate) fn ahead(from: u32, to: u32, size: u32) -> u32
    requires { (from < size) × (to < size) }
    ensures { IsAhead from to size result }
{
    if from <= to {
        to - from
    } else {
        size - from + to
    }
}

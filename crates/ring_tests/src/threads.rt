//! Rings between two threads.
ghost use Rattle.std.specs.Prelude.{◌≡◌, []};

use crate::rings::{Ends, ends_of};
use rtt_ring::{Channel, DownEnd, QueueRing, UpEnd, WordRing};
use std::alloc::Global;
use std::sync::Wait;
use std::test::Fail;
use std::thread;
use std::thread::Threads;

// An upper end that has nothing staged.
#[derive(Drop)]
struct Writer<U: UpEnd> {
    up: U,
    ghost published: { (U.view up).staged ≡ [] },
}

impl<U: UpEnd> Writer<U> {
    // Looks, sends as many of the first bytes as fit, and answers the room that the look found.
    fn send(&mut self, bytes: &[u8]) -> u32 {
        let room = self.up.look();
        let count = bytes.len().min(room as usize);
        self.up.put(&bytes[..count]);
        self.up.publish();
        room
    }
}

fn send_all<U: UpEnd + Drop, W: Wait>(rt: &W, writer: Writer<U>, bytes: &[u8]) {
    let mut writer = writer;
    let mut left = bytes;
    for _ in rt.forever() {
        if left.is_empty() {
            return;
        }
        let count = left.len().min(writer.send(left) as usize);
        left = &left[count..];
        thread::yield_now();
    }
    unreachable!()
}

// Takes as many bytes as are expected, and answers whether they are those.
fn takes_all<D: DownEnd + Drop, W: Wait>(rt: &W, down: D, expected: &[u8]) -> bool {
    let mut down = down;
    let mut left = expected;
    let mut buf = [0; 7];
    let mut same = true;
    for _ in rt.forever() {
        if left.is_empty() {
            return same;
        }
        let count = down.take(&mut buf).min(left.len());
        same = same && buf[..count] == left[..count];
        left = &left[count..];
        thread::yield_now();
    }
    unreachable!()
}

// Sends bytes on one thread and takes them on another, and answers whether they came in order.
fn go_through<C: Channel, R: Threads + Wait + Sync>(rt: &R, alloc: Global) -> Result<bool, Fail> {
    let Ends { up, down } = ends_of::<C>(alloc, 16)?;
    let writer = Writer { up };
    let mut bytes = [0; 200];
    for (i, byte) in (0..).zip(&mut bytes) {
        *byte = i;
    }
    let (_, same) = thread::join(
        rt,
        || send_all(rt, writer, &bytes),
        || takes_all(rt, down, &bytes),
    );
    Ok(same)
}

#[test]
fn bytes_go_through_rings_between_threads_in_order(rt: HostRuntime) -> Result<(), Fail> {
    assert!(rt; go_through::<QueueRing, _>(&rt, rt.alloc())?);
    assert!(rt; go_through::<WordRing, _>(&rt, rt.alloc())?);
    Ok(())
}

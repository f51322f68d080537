//! The three modes.
ghost use Rattle.std.specs.Prelude.{◌≡◌, ◌+◌, ◌^◌, ◌<◌, ◌≤◌, [], ◌++◌, length, take};
ghost use Rattle.rtt_ring.specs.Views.{UpKept};
ghost use Rattle.rtt_modes.specs.Fates.{ByLook, SkippedBy, TrimmedBy};

use crate::fate::{Fate, Relief};
use rtt_ring::UpEnd;
use std::sync::Wait;

/// Looks once. Sends the frame where it fits, and else nothing of it.
pub fn skip<U: UpEnd>(up: &mut U, frame: &[u8]) -> Fate
    requires staged { (U.view up.old).staged ≡ [] }
    requires frame { (0 < length frame.now) × (length frame.now < 2 ^ 32) }
    ensures { ByLook SkippedBy (U.view up.old) (U.view up.new) frame.now result }
{
    let room = up.look();
    let need = frame.len() as u32;
    if need > room {
        return Fate::Dropped { need, room };
    }
    up.put(frame);
    up.publish();
    Fate::Whole
}

/// Looks once. Sends the frame where it fits, and else as many of its first bytes as do.
pub fn trim<U: UpEnd>(up: &mut U, frame: &[u8]) -> Fate
    requires staged { (U.view up.old).staged ≡ [] }
    requires frame { (0 < length frame.now) × (length frame.now < 2 ^ 32) }
    ensures { ByLook TrimmedBy (U.view up.old) (U.view up.new) frame.now result }
{
    let room = up.look() as usize;
    if frame.len() > room {
        up.put(&frame[..room]);
        up.publish();
        return Fate::Cut {
            need: frame.len() as u32,
            room: room as u32,
        };
    }
    up.put(frame);
    up.publish();
    Fate::Whole
}

/// Looks again and again, sends what fits and eases where nothing does, until the whole frame is sent. It may wait
/// for the reader.
pub fn block<W: Wait, U: UpEnd, R: Relief>(rt: &W, up: &mut U, frame: &[u8], relief: &mut R)
    requires staged { (U.view up.old).staged ≡ [] }
    requires frame { (0 < length frame.now) × (length frame.now < 2 ^ 32) }
    requires relief { R.kept relief.old }
    ensures sent { (U.view up.new).sent ≡ (U.view up.old).sent ++ frame.now }
    ensures kept { UpKept (U.view up.old) (U.view up.new) }
    ensures looks { (U.view up.old).looks + 1 ≤ (U.view up.new).looks }
    ensures relief { R.kept relief.new }
{
    let mut done = 0;
    for _ in rt.forever() {
        let more = send_front(up, &frame[done..]);
        if more == 0 {
            relief.ease();
        }
        done += more;
        if done == frame.len() {
            return;
        }
    }
    unreachable!()
}

// Looks once, sends as many of the first bytes as fit, and answers how many.
fn send_front<U: UpEnd>(up: &mut U, bytes: &[u8]) -> usize
    requires { (U.view up.old).staged ≡ [] }
    ensures sent { (result ≤ length bytes.now) × ((U.view up.new).sent ≡ (U.view up.old).sent ++ take result bytes.now) }
    ensures kept { UpKept (U.view up.old) (U.view up.new) }
    ensures looks { (U.view up.new).looks ≡ (U.view up.old).looks + 1 }
{
    let count = bytes.len().min(up.look() as usize);
    up.put(&bytes[..count]);
    up.publish();
    count
}

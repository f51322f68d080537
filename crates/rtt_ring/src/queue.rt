//! The ring over a queue.
ghost use Rattle.std.specs.Prelude.{◌≡◌, ◌+◌, ◌<◌, ◌≤◌, [], ◌∷◌, ◌++◌, length, IfOk};
ghost use Rattle.rtrb.specs.Ring.{known_items, sent, received};
ghost use Rattle.rtt_ring.specs.QueueName.{name_of_producer, name_of_consumer};

mod down;
mod up;

use crate::{Channel, RingFault, RingKind, Settled};
use boxcar::tag::{Names, Tag};
use dl_io::{Bytes, Memory};
pub use down::QueueDown;
use rtrb::{Consumer, RingBuffer};
use std::alloc::{AllocError, Global};
pub use up::QueueUp;

/// The ring over a queue of `rtrb`, for a writer and a reader on two threads. The upper end keeps the bytes that are put in
/// a buffer of its own and pushes them onto the queue when they are published; the lower end pops them. The queue has room
/// for one byte fewer than the ring's size.
///
/// Either end knows of the other what the queue told its last look. Nothing says that this is the newest, and the upper
/// end isn't told how many bytes the reader has released. Only [`settle`](Channel::settle) is known to see all that was
/// sent.
pub struct QueueRing;

// The name of the split.
struct Split;

impl Names<QueueUp> for Split {
    ghost use Rattle.rtt_ring.specs.QueueEnds.{up_of};

    ghost numbers = { λ up. (up_of up).split };
}

// All that was sent.
struct Sent;

impl Names<QueueUp> for Sent {
    ghost use Rattle.rtt_ring.specs.QueueEnds.{up_of};

    ghost numbers = { λ up. (up_of up).sent };
}

// All that was taken.
struct Got;

impl Names<QueueDown> for Got {
    ghost use Rattle.rtt_ring.specs.QueueEnds.{down_of};

    ghost numbers = { λ down. (down_of down).got };
}

// No look was made.
struct NoLook;

impl Names<()> for NoLook {
    ghost use Rattle.std.specs.Prelude.{◌∷◌, []};

    ghost numbers = { λ _. 0 ∷ 0 ∷ [] };
}

// The ends of a new ring.
fn make_ends(alloc: Global, size: u32) -> Result<(QueueUp, QueueDown), AllocError>
    requires { (16 ≤ size) × (size ≤ 65536) }
    ensures pair { IfOk result (λ e. name_of_producer e.0.producer ≡ name_of_consumer e.1.consumer) }
    ensures up { IfOk result (λ e. (e.0.size ≡ size) × (sent e.0.producer ≡ []) × (e.0.staged.items ≡ []) × (e.0.room ≡ 0) × (e.0.looked.numbers ≡ 0 ∷ 0 ∷ [])) }
    ensures down { IfOk result (λ e. (e.1.size ≡ size) × (received e.1.consumer ≡ []) × (e.1.looked.numbers ≡ 0 ∷ 0 ∷ [])) }
{
    let (producer, consumer) = RingBuffer::new(alloc, size as usize - 1)?;
    let staged = Vec::with_capacity(alloc, size as usize - 1)?;
    let up = QueueUp {
        producer,
        staged,
        size,
        room: 0,
        looks: 0,
        sent_len: 0,
        looked: Tag::of::<(), NoLook>(&()),
    };
    let down = QueueDown {
        consumer,
        size,
        got_len: 0,
        looked: Tag::of::<(), NoLook>(&()),
    };
    Ok((up, down))
}

// Moves the bytes that the queue is known to hold behind `rest`.
fn move_rest(consumer: Consumer<u8>, count: usize, rest: &mut Bytes)
    requires { (count ≡ length (known_items consumer)) × (count ≤ rest.old.room) }
    ensures { rest.new.items ≡ rest.old.items ++ known_items consumer }
{
    let mut consumer = consumer;
    for i in 0..count {
        rest.push_reserved(consumer.pop_known());
    }
}

impl Channel for QueueRing {
    ghost use Rattle.std.specs.Prelude.{false};
    ghost use Rattle.rtt_ring.specs.declared.settled.RingKind.TheVariants.{Queue};

    type Up = QueueUp;

    type Down = QueueDown;

    const KIND: RingKind = RingKind::Queue;

    ghost KIND = { Queue };

    ghost tells = { false };

    fn split(alloc: Global, size: u32) -> Result<(QueueUp, QueueDown), RingFault> {
        if size < 16 || size > 65536 {
            return Err(RingFault::Size);
        }
        let ends = make_ends(alloc, size)?;
        Ok(ends)
    }

    fn settle(up: QueueUp, down: QueueDown, rest: &mut Bytes) -> Result<Settled, Memory> {
        let split = Tag::of::<QueueUp, Split>(&up);
        let sent = Tag::of::<QueueUp, Sent>(&up);
        let got = Tag::of::<QueueDown, Got>(&down);
        let QueueUp {
            mut producer,
            staged: _,
            size: _,
            room: _,
            looks: _,
            sent_len,
            looked: _,
        } = up;
        let QueueDown {
            mut consumer,
            size: _,
            got_len,
            looked: _,
        } = down;
        let count = consumer.slots_beside(&mut producer);
        rest.reserve(count)?;
        move_rest(consumer, count, rest);
        Ok(Settled::new(split, sent, got, sent_len, got_len, RingKind::Queue))
    }
}

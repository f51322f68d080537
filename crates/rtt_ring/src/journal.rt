//! What went through a ring, as contracts alone read it.
//!
//! The bytes and counts aren't stored. They are the view of a seat of a table with one word, and each note is one step
//! on that word. So a note takes no memory, and the table gives the ring a name that no other ring has.
ghost use Rattle.std.specs.Prelude.{◌≡◌, [], IfOk};

use atomic_table::{Play, Seat, Table, TableRule};
use rtt_words::Access;
use std::alloc::{AllocError, Global};
use std::collections::LinkedList;
use std::marker::{Brand, PhantomData};

/// What went through a ring. No value of this type is made. Numbers of bytes are since the ring was made.
pub struct Traffic {
    /// All bytes published.
    pub sent: LinkedList<u8>,
    /// The bytes put and not published.
    pub staged: LinkedList<u8>,
    /// How many bytes the upper end's last look found released.
    pub freed: u64,
    pub up_looks: u64,
    /// All bytes taken.
    pub got: LinkedList<u8>,
    /// How many bytes the lower end's last look found published.
    pub found: u64,
    pub down_looks: u64,
    /// Each release of the lower end and each look of the upper end, in the order in which they were made.
    pub history: LinkedList<Access>,
    /// The history up to the last look of the upper end.
    pub seen: LinkedList<Access>,
}

/// The word may hold any number, since nothing is read off it.
pub struct AnyWord;

impl<S> TableRule<S, Traffic, ()> for AnyWord {
    ghost use Rattle.std.specs.Prelude.{⊤};
    ghost use Rattle.rtt_ring.specs.Traffic.{fresh};

    ghost holds = { λ _ _. ⊤ };

    ghost first = { λ _. fresh };
}

/// A note: what becomes of the traffic, by the bytes that it names.
pub trait Note {
    ghost use Rattle.std.specs.Prelude.{ℕ, List};
    ghost use Rattle.rtt_ring.specs.declared.journal.Traffic.{Traffic};

    ghost after: { List ℕ → Traffic → Traffic };
}

/// Names the bytes of a note.
pub trait Named {
    ghost use Rattle.std.specs.Prelude.{ℕ, List};

    ghost bytes: { List ℕ };
}

impl Named for Brand {
    ghost use Rattle.std.specs.Prelude.{[]};

    ghost bytes = { [] };
}

// The step of a note.
struct Notes<N: Note, B: Named> {
    of: PhantomData<(N, B)>,
}

impl<S, N: Note, B: Named> Play<S, Traffic> for Notes<N, B> {
    ghost use Rattle.rtt_ring.specs.Steps.{becomes};

    ghost then = { becomes (N.after B.bytes) };
}

struct UpLook;

impl Note for UpLook {
    ghost use Rattle.rtt_ring.specs.Traffic.{look_up};

    ghost after = { λ _ t. look_up t };
}

struct Put;

impl Note for Put {
    ghost use Rattle.rtt_ring.specs.Traffic.{put_more};

    ghost after = { λ bytes t. put_more t bytes };
}

struct Publish;

impl Note for Publish {
    ghost use Rattle.rtt_ring.specs.Traffic.{publish_all};

    ghost after = { λ _ t. publish_all t };
}

struct DownLook;

impl Note for DownLook {
    ghost use Rattle.rtt_ring.specs.Traffic.{look_down};

    ghost after = { λ _ t. look_down t };
}

struct Take;

impl Note for Take {
    ghost use Rattle.rtt_ring.specs.Traffic.{take_more};

    ghost after = { λ bytes t. take_more t bytes };
}

type Board = Table<(), Traffic, (), AnyWord, Global>;

/// The traffic of one ring.
#[derive(Drop)]
pub struct Journal {
    board: Board,
    seat: Seat<(), Traffic>,
    ghost seated: { (seat.table_id ≡ board.shared.table_id) × (board.shared.table_id.words ≡ 1) },
}

impl Journal {
    ghost use Rattle.rtt_ring.specs.Traffic.{fresh, look_up, look_down, put_more, publish_all, take_more};
    ghost use Rattle.rtt_ring.specs.JournalView.{IsNext, traffic_of};

    /// A journal of a ring through which nothing went.
    pub fn new(alloc: Global) -> Result<Journal, AllocError>
        ensures { IfOk result (λ j. traffic_of j ≡ fresh) }
    {
        let (board, seat): (Board, Seat<(), Traffic>) = Board::of_words(alloc, &[0], &())?;
        Ok(Journal { board, seat })
    }

    /// The upper end looks.
    pub fn look_up(&mut self)
        ensures { IsNext self.old self.new (look_up (traffic_of self.old)) }
    {
        self.note::<UpLook, Brand>(&[]);
    }

    /// Bytes are put.
    pub fn put(&mut self, bytes: &[u8])
        ensures { IsNext self.old self.new (put_more (traffic_of self.old) bytes.now) }
    {
        self.note::<Put, Brand>(bytes);
    }

    /// All that is staged is published.
    pub fn publish(&mut self)
        ensures { IsNext self.old self.new (publish_all (traffic_of self.old)) }
    {
        self.note::<Publish, Brand>(&[]);
    }

    /// The lower end looks.
    pub fn look_down(&mut self)
        ensures { IsNext self.old self.new (look_down (traffic_of self.old)) }
    {
        self.note::<DownLook, Brand>(&[]);
    }

    /// Bytes are taken.
    pub fn take(&mut self, bytes: &[u8])
        ensures { IsNext self.old self.new (take_more (traffic_of self.old) bytes.now) }
    {
        self.note::<Take, Brand>(bytes);
    }

    fn note<N: Note, B: Named>(&mut self, bytes: &[u8])
        requires { bytes.now ≡ B.bytes }
        ensures { IsNext self.old self.new (N.after bytes.now (traffic_of self.old)) }
    {
        let _ = bytes;
        let board = &self.board;
        board.shared.store::<Notes<N, B>>(&mut self.seat, 0, 0);
    }
}

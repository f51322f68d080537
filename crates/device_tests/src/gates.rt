//! A gate that holds writers until others have come and bytes were taken.
use defmt_writers::Gate;
use std::sync::atomic::{AtomicU64, Ordering};
use std::thread;

// How many turns a gate holds a writer at most.
const TURNS: u64 = 10_000_000;

// Waits until the number is at least this, and tells whether it was within so many turns.
fn reaches(number: &AtomicU64, least: u64) -> bool {
    for _ in 0..TURNS {
        if number.load(Ordering::SeqCst) >= least {
            return true;
        }
        thread::yield_now();
    }
    false
}

// Holds the writers below a number at a place, until so many of them were asked there and so many bytes were taken. Those that
// then pass are counted.
#[derive(Drop)]
pub(crate) struct Hold {
    below: u8,
    place: u32,
    asked_least: u64,
    taken_least: u64,
    asked: AtomicU64,
    taken: AtomicU64,
    pub(crate) passed: AtomicU64,
}

impl Hold {
    pub(crate) fn new(below: u8, place: u32, asked_least: u64, taken_least: u64) -> Hold {
        Hold {
            below,
            place,
            asked_least,
            taken_least,
            asked: AtomicU64::new(0),
            taken: AtomicU64::new(0),
            passed: AtomicU64::new(0),
        }
    }
}

impl Gate for Hold {
    ghost passed = { λ _ _ _. Unit {0} };

    ghost told = { λ _ _. Unit {0} };

    fn pass(&self, writer: u8, place: u32) {
        if writer < self.below && place == self.place {
            self.asked.fetch_add(1, Ordering::SeqCst);
            if reaches(&self.asked, self.asked_least) && reaches(&self.taken, self.taken_least) {
                self.passed.fetch_add(1, Ordering::SeqCst);
            }
        }
    }

    fn took(&self, total: u64) {
        self.taken.store(total, Ordering::SeqCst);
    }
}

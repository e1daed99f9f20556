//! Gates for tests.

use std::sync::atomic::{AtomicU64, Ordering};
use work_desk::{Gate, NoFile};

/// How often a gate looks for what comes before it holds a segment.
pub(crate) const TURNS: u64 = 500_000_000;

/// A gate at which the first segments wait for each other, with its record.
#[derive(Drop)]
pub(crate) struct Meeting {
    asked: [AtomicU64; 4],
    passed: AtomicU64,
    least: u64,
}

impl Meeting {
    /// So many segments, four at most, wait for each other.
    pub(crate) fn new(least: u64) -> Meeting {
        Meeting {
            asked: [
                AtomicU64::new(0),
                AtomicU64::new(0),
                AtomicU64::new(0),
                AtomicU64::new(0),
            ],
            passed: AtomicU64::new(0),
            least,
        }
    }

    /// How often the gate was asked for each of the first four, and how many that waited passed.
    pub(crate) fn record(&self) -> ([u64; 4], u64) {
        let mut asked = [0; 4];
        for (there, count) in asked.iter_mut().zip(&self.asked) {
            *there = count.load(Ordering::SeqCst);
        }
        (asked, self.passed.load(Ordering::SeqCst))
    }

    /// Whether all those have come that wait for each other.
    fn have_met(&self) -> bool {
        let mut came: u64 = 0;
        for count in &self.asked {
            if count.load(Ordering::SeqCst) > 0 {
                came = came.saturating_add(1);
            }
        }
        came >= self.least
    }
}

impl Gate for Meeting {
    type File = NoFile;

    ghost lets = { λ _ _ _. Unit {0} };

    ghost stops = { λ _ _ _. Unit {0} };

    fn pass(&self, _rendition: usize, number: u64) -> bool {
        if number >= self.least {
            return true;
        }
        let Some(own) = self.asked.get(number as usize) else {
            return true;
        };
        own.fetch_add(1, Ordering::SeqCst);
        for _ in 0..TURNS {
            if self.have_met() {
                self.passed.fetch_add(1, Ordering::SeqCst);
                return true;
            }
        }
        false
    }
}

/// A gate that holds segment 0 until another has passed, or it looked so often.
#[derive(Drop)]
pub(crate) struct Behind {
    other: u64,
    turns: u64,
    passed: AtomicU64,
}

impl Behind {
    /// Segment 0 waits for this one, for so many turns.
    pub(crate) fn new(other: u64, turns: u64) -> Behind {
        Behind {
            other,
            turns,
            passed: AtomicU64::new(0),
        }
    }
}

impl Gate for Behind {
    type File = NoFile;

    ghost lets = { λ _ _ _. Unit {0} };

    ghost stops = { λ _ _ _. Unit {0} };

    fn pass(&self, _rendition: usize, number: u64) -> bool {
        if number == self.other {
            self.passed.store(1, Ordering::SeqCst);
        }
        if number != 0 {
            return true;
        }
        for _ in 0..self.turns {
            if self.passed.load(Ordering::SeqCst) > 0 {
                return true;
            }
        }
        false
    }
}

/// A gate that holds one segment back.
#[derive(Drop)]
pub(crate) struct AllBut(pub(crate) u64);

impl Gate for AllBut {
    type File = NoFile;

    ghost lets = { λ _ _ _. Unit {0} };

    ghost stops = { λ _ _ _. Unit {0} };

    fn pass(&self, _rendition: usize, number: u64) -> bool {
        number != self.0
    }
}

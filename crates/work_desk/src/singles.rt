//! Whether a plan that waits alone is taken, at a desk with pairs. It only guides when a worker claims.

ghost use Rattle.std.specs.Prelude.{◌≡◌, ◌≤◌, false};

use std::sync::atomic::{AtomicBool, Ordering};
use std::sync::{Condvar, Mutex, Wait};

/// Until they are taken, a worker at a desk with pairs waits for two plans, so that the first isn't claimed while the second is being fed.
#[derive(Drop)]
pub(crate) struct Singles {
    are_taken: AtomicBool,
}

/// The receipt for plans that are taken alone, too.
#[derive(Drop)]
pub struct SinglesTaken {
    before: bool,
}

impl Singles {
    /// They aren't taken yet.
    pub(crate) fn new() -> Singles {
        Singles {
            are_taken: AtomicBool::new(false),
        }
    }

    /// How many plans a worker waits for.
    pub(crate) fn fewest(&self, pairs: bool) -> usize
        ensures some { 1 ≤ result }
        ensures pair { result ≤ 2 }
        ensures alone { pairs ≡ false → result ≡ 1 }
    {
        if pairs && !self.are_taken.load(Ordering::SeqCst) {
            return 2;
        }
        1
    }

    /// They are taken from now on. The workers are woken that wait for plans under this lock.
    pub(crate) fn take<Q, R: Wait>(&self, rt: &R, queue: &Mutex<Q>, fed: &Condvar) -> SinglesTaken {
        let before = self.are_taken.swap(true, Ordering::SeqCst);
        if !before {
            // whoever looked before waits once the lock is free
            drop(queue.lock(rt));
            fed.notify_all();
        }
        SinglesTaken { before }
    }
}

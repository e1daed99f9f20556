//! How a ladder's inputs are read ahead, and its segments sealed side by side, as words tell it.
ghost use Rattle.std.specs.Prelude.{◌≡◌, Decides};
ghost use Rattle.commands.specs.Pools.{pool_of, IsPool, IsReadWithin};

use limits::{LEAST, MOST_QUEUE, MOST_WORKERS};

/// The threads that seal, where no number is given.
pub const DEFAULT_WORKERS: u64 = 4;

/// The segments that may be on their way, where no number is given.
pub const DEFAULT_QUEUE: u64 = 16;

/// The most seconds that an input may be silent, where that is bounded.
pub const MOST_STALL: u64 = 86_400;

/// The most MiB that are read ahead of all inputs together, where that is bounded.
pub const MOST_AHEAD: u64 = 65_536;

/// The numbers that were given.
#[derive(Clone, Copy, Debug, PartialEq, Eq, Drop)]
pub struct PoolWords {
    pub workers: Option<u64>,
    pub queue: Option<u64>,
    pub batch: Option<u64>,
    pub stall: Option<u64>,
    pub ahead: Option<u64>,
}

/// How many threads seal, how many segments may wait for them, and how inputs are read ahead.
#[derive(Clone, Copy, Debug, PartialEq, Eq, Drop)]
pub struct Pool {
    /// The threads that seal, 1 to 64.
    pub workers: u64,
    /// The most segments that may be on their way, 1 to 256.
    pub queue: u64,
    /// How many segments are closed where a round of sealing begins at the latest, 1 to 256; one for each worker are enough
    /// once all of the round before is given, and one where no input is ready. Where it isn't told, as many as the queue holds.
    pub batch: Option<u64>,
    /// An input that gives nothing for so many seconds, 1 to 86,400, fails. Where it isn't told, none does.
    pub stall: Option<u64>,
    /// The most MiB that are read ahead of all inputs together, 1 to 65,536. Where it isn't told, 32 of each, or 8 of a plain file.
    pub ahead: Option<u64>,
}

impl PoolWords {
    /// The numbers that were given, and for the others what stands for them.
    pub fn pool(self) -> Pool
        ensures { result ≡ pool_of self }
    {
        Pool {
            workers: self.workers.unwrap_or(DEFAULT_WORKERS),
            queue: self.queue.unwrap_or(DEFAULT_QUEUE),
            batch: self.batch,
            stall: self.stall,
            ahead: self.ahead,
        }
    }
}

impl Pool {
    /// Whether each number is within its range.
    pub fn is_allowed(&self) -> bool
        ensures { Decides result (IsPool self.now) }
    {
        let batch = self.batch.unwrap_or(LEAST);
        LEAST <= self.workers
            && self.workers <= MOST_WORKERS
            && LEAST <= self.queue
            && self.queue <= MOST_QUEUE
            && LEAST <= batch
            && batch <= MOST_QUEUE
            && self.is_read_within()
    }

    /// Whether the numbers of reading ahead are within their ranges.
    fn is_read_within(&self) -> bool
        ensures { Decides result (IsReadWithin self.now) }
    {
        let stall = self.stall.unwrap_or(LEAST);
        let ahead = self.ahead.unwrap_or(LEAST);
        LEAST <= stall && stall <= MOST_STALL && LEAST <= ahead && ahead <= MOST_AHEAD
    }
}

//! The books of a run: how many segments the workers claimed, and what became of them.

ghost use Rattle.std.specs.Prelude.{OnErr, sum, ◌≡◌, ◌≤◌, ◌<◌, ◌+◌, ◌*◌, ◌^◌, ℕ, length, slice_index_or, IfOk};

use std::alloc::{AllocError, Global};

/// The books of a run's rounds: how many segments each worker claimed, and what became of them.
#[derive(Drop)]
pub struct Books {
    /// How many segments each worker claimed, by the worker's number.
    pub workers: Vec<u128>,
    /// How many of the claimed segments were right.
    pub right: u128,
    /// How many were thrown away.
    pub thrown: u128,
    /// How many rounds there were.
    pub rounds: u64,
    pub ghost balanced: { sum workers.items ≡ right + thrown },
    pub ghost small: { sum workers.items ≤ rounds * 2 ^ 66 },
}

impl Books {
    /// The books before the first round.
    pub fn new(alloc: Global, workers: usize) -> Result<Books, AllocError>
        ensures none { IfOk result (λ books. (books.right ≡ 0) × (books.thrown ≡ 0) × (books.rounds ≡ 0)) }
        ensures each { IfOk result (λ books. length books.workers.items ≡ workers) }
        ensures scarce { OnErr result (0 < workers) }
    {
        Ok(Books {
            workers: no_counts(alloc, workers)?,
            right: 0,
            thrown: 0,
            rounds: 0,
        })
    }

    /// Adds a round: how many segments each worker claimed, and how many of them were right and how many thrown away.
    pub fn add(&mut self, claims: &[u128], right: u64, thrown: u128)
        requires each { length claims.now ≡ length self.old.workers.items }
        requires balanced { sum claims.now ≡ right + thrown }
        requires few { thrown ≤ 2 ^ 65 }
        requires rounds { self.old.rounds < 2 ^ 46 }
        ensures rounds { self.new.rounds ≡ self.old.rounds + 1 }
        ensures right { self.new.right ≡ self.old.right + right }
        ensures thrown { self.new.thrown ≡ self.old.thrown + thrown }
        ensures each { length self.new.workers.items ≡ length self.old.workers.items }
        ensures by_worker { (k : ℕ) → k < length claims.now
            → slice_index_or self.new.workers.items k 0 ≡ slice_index_or self.old.workers.items k 0 + slice_index_or claims.now k 0 }
    {
        let Books {
            workers,
            right: all_right,
            thrown: all_thrown,
            rounds,
        } = self;
        for i in 0..claims.len() {
            workers[i] += claims[i];
        }
        *all_right += u128::from(right);
        *all_thrown += thrown;
        *rounds += 1;
    }
}

/// A count of 0 for each worker.
pub fn no_counts(alloc: Global, count: usize) -> Result<Vec<u128>, AllocError>
    ensures none { IfOk result (λ counts. sum counts.items ≡ 0) }
    ensures each { IfOk result (λ counts. length counts.items ≡ count) }
    ensures scarce { OnErr result (0 < count) }
{
    let mut counts = Vec::new(alloc);
    for _ in 0..count {
        counts.push(0)?;
    }
    Ok(counts)
}

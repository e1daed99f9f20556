//! The right to claim, or to take.

ghost use Rattle.std.specs.Prelude.{◌≡◌, true};

use crate::steps::Seen;
use std::sync::ledger::{Ledger, Share};

/// The right to claim, or to take, with how often it was used: that is its share of the desk's book.
#[derive(Drop)]
pub struct Pass<L: Ledger> {
    /// The number of the worker. Workers are numbered from 0, and the taker's number is theirs together.
    pub number: usize,
    /// How often it was used.
    pub count: u64,
    pub share: Share<L>,
    pub ghost one_part: { share.parts ≡ 1 },
    pub ghost counted: { share.amount ≡ count },
}

/// What is left of a worker's pass: how many claims it made, and its share of the desk's book.
#[derive(Drop)]
pub struct Tally<L: Ledger> {
    /// The number of the worker.
    pub worker: usize,
    /// How many claims it made.
    pub claims: u64,
    pub share: Share<L>,
    pub ghost one_part: { share.parts ≡ 1 },
    pub ghost counted: { share.amount ≡ claims },
}

impl<L: Ledger> Pass<L> {
    /// A pass that wasn't used.
    pub(crate) fn new(number: usize, share: Share<L>) -> Pass<L>
        requires { (share.parts ≡ 1) × (share.amount ≡ 0) }
        ensures { (result.number ≡ number) × (result.count ≡ 0) }
    {
        Pass {
            number,
            count: 0,
            share,
        }
    }

    /// What the pass was used for, by a worker that saw that no more plans are fed and none waits.
    pub(crate) fn tally(self, _seen: Seen) -> Tally<L>
        requires { (_seen.closed ≡ true) × (_seen.waiting ≡ 0) }
        ensures { (result.worker ≡ self.number) × (result.claims ≡ self.count) }
    {
        let Pass {
            number,
            count,
            share,
        } = self;
        Tally {
            worker: number,
            claims: count,
            share,
        }
    }
}
